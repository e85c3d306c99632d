//! The page that answers a form of the desk: the line that it asked, and what that came to.

ghost use Rattle.std.specs.Prelude.{◌≡◌, ◌++◌, OnOk};
ghost use Rattle.page_pages.specs.DeskTolds.{came_text, deed_text, end_of, heading_of, look_of, told_end, told_line, told_page, told_start};
ghost use Rattle.page_pages.specs.Frames.{document, top};
ghost use Rattle.page_markup.specs.Parts.{html};
ghost use Rattle.page_pages.specs.Reasons.{reason};

use crate::frame::{put_document, put_top};
use crate::reason::put_reason;
use crate::texts::{
    ASKED_BY, ASKED_LINE, BACK_TO, DESK, DEVICES, IS_CANCELED, IS_DONE, IS_GRANTED, IS_HELD_NOW,
    IS_NO_LINE, IS_OPEN, IS_RATED, IS_TURNED_OFF, IS_TURNED_ON, NOTHING, TO_ACCOUNTS, TRY_AGAIN,
    WAS_NOT_DONE,
};
use account_rules::{Name, Word};
use page_markup::{Piece, put_all};
use std::alloc::AllocError;

/// What a line of the desk did.
#[derive(Clone, Copy)]
pub enum Deed {
    Open,
    Grant,
    Cancel,
    Hold,
    TurnOn,
    TurnOff,
    Rate,
}

/// What a line of the desk came to.
#[derive(Clone, Copy)]
pub enum Came {
    Done(Deed),
    Refused(Word),
    /// The store failed, and nothing was done.
    Failed,
    /// It is none of an operator's lines that ask for an event.
    NoLine,
}

/// Where the page leads on.
#[derive(Clone, Copy)]
pub enum Onward {
    Accounts,
    Devices,
    Account(Name),
}

/// What the page that answers a form tells.
#[derive(Drop)]
pub struct LineTold<'a> {
    pub line: &'a [u8],
    pub operator: Name,
    pub came: Came,
    pub onward: Onward,
}

/// Appends the page.
#[tactic(auto, using(std::proofs::Common::append_assoc), unfolding(crate::specs::DeskTolds::told_page))]
pub fn put_told_page(out: &mut Vec<u8>, told: &LineTold<'_>) -> Result<(), AllocError>
    ensures { OnOk result (out.new.items ≡ out.old.items ++ told_page told.now) }
{
    put_document(out, heading_of(told.came).as_bytes())?;
    put_top(out, DESK)?;
    put_told_start(out, look_of(told.came), heading_of(told.came))?;
    put_came(out, told.came)?;
    put_told_line(out, told.line, told.operator.bytes())?;
    put_end_of(out, told.onward)
}

/// Gives the class by which the script sees that a line was done.
fn look_of(came: Came) -> &'static str
    ensures { result.now ≡ look_of came }
{
    match came {
        Came::Done(_) => " good",
        _ => NOTHING,
    }
}

/// Gives the heading of the page.
fn heading_of(came: Came) -> &'static str
    ensures { result.now ≡ heading_of came }
{
    match came {
        Came::Done(_) => IS_DONE,
        _ => WAS_NOT_DONE,
    }
}

/// Appends what the line did, or why it was refused.
fn put_came(out: &mut Vec<u8>, came: Came) -> Result<(), AllocError>
    ensures { OnOk result (out.new.items ≡ out.old.items ++ came_text came) }
{
    match came {
        Came::Done(deed) => out.extend_from_slice(deed_text(deed).as_bytes()),
        Came::Refused(word) => put_reason(out, word),
        Came::Failed => out.extend_from_slice(TRY_AGAIN.as_bytes()),
        Came::NoLine => out.extend_from_slice(IS_NO_LINE.as_bytes()),
    }
}

/// Gives the sentence of what was done.
fn deed_text(deed: Deed) -> &'static str
    ensures { result.now ≡ deed_text deed }
{
    match deed {
        Deed::Open => IS_OPEN,
        Deed::Grant => IS_GRANTED,
        Deed::Cancel => IS_CANCELED,
        Deed::Hold => IS_HELD_NOW,
        Deed::TurnOn => IS_TURNED_ON,
        Deed::TurnOff => IS_TURNED_OFF,
        Deed::Rate => IS_RATED,
    }
}

/// Appends where to go on, and the end of the page.
fn put_end_of(out: &mut Vec<u8>, onward: Onward) -> Result<(), AllocError>
    ensures { OnOk result (out.new.items ≡ out.old.items ++ end_of onward) }
{
    match onward {
        Onward::Accounts => put_told_end(out, b"", TO_ACCOUNTS, b""),
        Onward::Devices => put_told_end(out, b"devices.html", DEVICES, b""),
        Onward::Account(account) => put_told_end(out, account.bytes(), BACK_TO, account.bytes()),
    }
}

/// Appends the start of the card that tells what a line came to.
fn put_told_start<'a>(out: &mut Vec<u8>, look: &'a str, heading: &'a str) -> Result<(), AllocError>
    ensures { OnOk result
        (out.new.items ≡ out.old.items ++ html (told_start look.now heading.now)) }
{
    put_all(
        out,
        &[
            Piece::Mark("<section class=\"card sheet"),
            Piece::Mark(look),
            Piece::Mark("\">\n<h1>"),
            Piece::Mark(heading),
            Piece::Mark("</h1>\n<p>"),
        ],
    )
}

/// Appends the line, and by whom it was asked.
fn put_told_line<'a>(
    out: &mut Vec<u8>,
    line: &'a [u8],
    operator: &'a [u8],
) -> Result<(), AllocError>
    ensures { OnOk result
        (out.new.items ≡ out.old.items ++ html (told_line line.now operator.now)) }
{
    put_all(
        out,
        &[
            Piece::Mark("</p>\n<p class=\"quiet\">"),
            Piece::Mark(ASKED_LINE),
            Piece::Mark(" <code>"),
            Piece::Text(line),
            Piece::Mark("</code></p>\n<p class=\"quiet\">"),
            Piece::Mark(ASKED_BY),
            Piece::Mark(" "),
            Piece::Text(operator),
            Piece::Mark("</p>\n<p><a href=\"/"),
        ],
    )
}

/// Appends where to go on, and the end of the page.
fn put_told_end<'a>(
    out: &mut Vec<u8>,
    place: &'a [u8],
    label: &'a str,
    of: &'a [u8],
) -> Result<(), AllocError>
    ensures { OnOk result
        (out.new.items ≡ out.old.items ++ html (told_end place.now label.now of.now)) }
{
    put_all(
        out,
        &[
            Piece::Text(place),
            Piece::Mark("\">"),
            Piece::Mark(label),
            Piece::Text(of),
            Piece::Mark("</a></p>\n</section>\n</main>\n</body>\n</html>\n"),
        ],
    )
}
