//! What stands around the content of a page (title, banner, foot), and the start of a card.

ghost use Rattle.std.specs.Prelude.{◌≡◌, ◌++◌, OnOk};
ghost use Rattle.page_pages.specs.Frames.{card, document, foot, reload, reload_soon, remark, top};
ghost use Rattle.page_markup.specs.Parts.{html};

use crate::markup::{BODY, DOCUMENT, RELOAD, SIGNS};
use crate::texts::{PRODUCT, SKIP, STALE, TIMES, UNITS};
use page_markup::{Piece, put_all};
use std::alloc::AllocError;

/// Appends the element that has a browser load an account's page anew after 30 seconds. Where
/// scripts run, the script does that, and shows the text where it could not.
pub(crate) fn put_reload(out: &mut Vec<u8>, account: &[u8]) -> Result<(), AllocError>
    ensures { OnOk result (out.new.items ≡ out.old.items ++ html (reload account.now)) }
{
    put_all(
        out,
        &[
            Piece::Mark(RELOAD),
            Piece::Mark(STALE),
            Piece::Mark("\"><meta http-equiv=\"refresh\" content=\"30; url=/"),
            Piece::Text(account),
            Piece::Mark("\"></noscript>\n"),
        ],
    )
}

/// Appends the element that has a browser load the print room's page anew after 2 seconds.
pub(crate) fn put_reload_soon(out: &mut Vec<u8>) -> Result<(), AllocError>
    ensures { OnOk result (out.new.items ≡ out.old.items ++ html reload_soon) }
{
    put_all(
        out,
        &[
            Piece::Mark(RELOAD),
            Piece::Mark(STALE),
            Piece::Mark("\"><meta http-equiv=\"refresh\" content=\"2\"></noscript>\n"),
        ],
    )
}

/// Appends the start of a page, with its title.
pub(crate) fn put_document(out: &mut Vec<u8>, title: &[u8]) -> Result<(), AllocError>
    ensures { OnOk result (out.new.items ≡ out.old.items ++ html (document title.now)) }
{
    put_all(
        out,
        &[
            Piece::Mark(DOCUMENT),
            Piece::Mark("<title>"),
            Piece::Text(title),
            Piece::Mark(" - "),
            Piece::Mark(PRODUCT),
            Piece::Mark("</title>\n"),
        ],
    )
}

/// Appends the start of the body: the signs, a link to the content, and a banner that names the
/// place (`PRINT_ROOM` or `OPERATORS`).
pub(crate) fn put_top(out: &mut Vec<u8>, place: &str) -> Result<(), AllocError>
    ensures { OnOk result (out.new.items ≡ out.old.items ++ html (top place.now)) }
{
    put_all(
        out,
        &[
            Piece::Mark(BODY),
            Piece::Mark(SIGNS),
            Piece::Mark("<a class=\"skip\" href=\"#main\">"),
            Piece::Mark(SKIP),
            Piece::Mark("</a>\n<header class=\"banner\"><div><span class=\"brand\">"),
            Piece::Mark("<svg class=\"sign\" aria-hidden=\"true\"><use href=\"#sprig\"/></svg>"),
            Piece::Mark(PRODUCT),
            Piece::Mark("</span><span class=\"quiet\">"),
            Piece::Mark(place),
            Piece::Mark("</span></div></header>\n<main id=\"main\">\n"),
        ],
    )
}

/// Appends the start of a card with its heading. The name is the id of the heading.
pub(crate) fn put_card<'a>(
    out: &mut Vec<u8>,
    name: &'a str,
    heading: &'a str,
) -> Result<(), AllocError>
    ensures { OnOk result (out.new.items ≡ out.old.items ++ html (card name.now heading.now)) }
{
    put_all(
        out,
        &[
            Piece::Mark("<section class=\"card\" aria-labelledby=\""),
            Piece::Mark(name),
            Piece::Mark("\">\n<header><h2 id=\""),
            Piece::Mark(name),
            Piece::Mark("\">"),
            Piece::Mark(heading),
            Piece::Mark("</h2></header>\n"),
        ],
    )
}

/// Appends a sentence as a paragraph in small print.
pub(crate) fn put_remark(out: &mut Vec<u8>, said: &str) -> Result<(), AllocError>
    ensures { OnOk result (out.new.items ≡ out.old.items ++ html (remark said.now)) }
{
    put_all(
        out,
        &[
            Piece::Mark("<p class=\"quiet\">"),
            Piece::Mark(said),
            Piece::Mark("</p>\n"),
        ],
    )
}

/// Appends the end of the content and the start of the foot, which explains units and times.
pub(crate) fn put_foot(out: &mut Vec<u8>) -> Result<(), AllocError>
    ensures { OnOk result (out.new.items ≡ out.old.items ++ html foot) }
{
    put_all(
        out,
        &[
            Piece::Mark("</main>\n<footer class=\"foot\"><p class=\"quiet\">"),
            Piece::Mark(UNITS),
            Piece::Mark(" "),
            Piece::Mark(TIMES),
            Piece::Mark("\n"),
        ],
    )
}
