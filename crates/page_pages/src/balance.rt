//! The card that shows what is left of an account's quota, on its owner's page.

ghost use Rattle.std.specs.Prelude.{◌≡◌, ◌++◌, ◌-◌, ◌≤◌, OnOk};
ghost use Rattle.account_rules.specs.Limits.{most_units};
ghost use Rattle.page_pages.specs.Balances.{bar, quota_facts, units_left, balance, permille, quota, reserved_width};
ghost use Rattle.page_markup.specs.Parts.{html};

use crate::texts::{CHARGED, GRANTED, LEFT, RESERVED, UNITS_LEFT};
use account_rules::left;
use page_markup::{Piece, put_all, signed_text};
use std::alloc::AllocError;

/// Appends the card of what is left of a quota: a bar, and the numbers. All are units.
pub(crate) fn put_balance(
    out: &mut Vec<u8>,
    granted: u64,
    reserved: u64,
    charged: u64,
) -> Result<(), AllocError>
    requires granted { granted ≤ most_units }
    requires reserved { reserved ≤ most_units }
    requires charged { charged ≤ most_units }
    ensures bytes { OnOk result
        (out.new.items ≡ out.old.items ++ balance granted reserved charged) }
{
    let left = left(granted as i64, reserved as i64, charged as i64);
    let left = signed_text(*out.allocator(), left)?;
    put_quota(out, granted, reserved, charged, left.as_str())
}

/// Appends the card. What is left comes as a text, since it may be negative.
#[tactic(auto, using(std::proofs::Common::append_assoc), unfolding(crate::specs::Balances::quota))]
fn put_quota(
    out: &mut Vec<u8>,
    granted: u64,
    reserved: u64,
    charged: u64,
    left: &str,
) -> Result<(), AllocError>
    ensures { OnOk result
        (out.new.items ≡ out.old.items ++ quota granted reserved charged left.now) }
{
    put_units_left(out, left)?;
    put_bar(
        out,
        permille(charged, granted),
        reserved_width(granted, reserved, charged),
    )?;
    put_quota_facts(out, granted, reserved, charged, left)
}

/// Gives a part of a whole in thousandths, 0 to 1000. Of a whole of 0 it is 0.
pub(crate) fn permille(part: u64, whole: u64) -> u64
    ensures { result ≡ permille part whole }
{
    if whole == 0 {
        return 0;
    }
    (part.min(whole) as u128 * 1000 / whole as u128) as u64
}

/// Gives the width of the bar's reserved part, in thousandths of the bar: what is reserved of what
/// was granted, but no more than the charged part leaves.
fn reserved_width(granted: u64, reserved: u64, charged: u64) -> u64
    ensures { result ≡ reserved_width granted reserved charged }
{
    permille(reserved, granted).min(1000u64.saturating_sub(permille(charged, granted)))
}

/// Appends the start of the card, which tells how many units are left.
fn put_units_left(out: &mut Vec<u8>, left: &str) -> Result<(), AllocError>
    ensures { OnOk result (out.new.items ≡ out.old.items ++ html (units_left left.now)) }
{
    put_all(
        out,
        &[
            Piece::Mark("<section class=\"card balance\" aria-labelledby=\"left\">\n<div><h2 "),
            Piece::Mark("id=\"left\">"),
            Piece::Mark(UNITS_LEFT),
            Piece::Mark("</h2>\n<p class=\"big\">"),
            Piece::Mark(left),
            Piece::Mark("</p></div>\n<div>"),
        ],
    )
}

/// Appends the bar, whose charged part comes first and whose reserved part behind it. Both widths
/// are in thousandths of the bar.
pub(crate) fn put_bar(out: &mut Vec<u8>, charged: u64, reserved: u64) -> Result<(), AllocError>
    ensures { OnOk result (out.new.items ≡ out.old.items ++ html (bar charged reserved)) }
{
    put_all(
        out,
        &[
            Piece::Mark("<svg class=\"bar\" viewBox=\"0 0 1000 1\" preserveAspectRatio=\"none\" "),
            Piece::Mark("aria-hidden=\"true\"><rect class=\"charged\" width=\""),
            Piece::Number(charged),
            Piece::Mark("\" height=\"1\"/><rect class=\"reserved\" x=\""),
            Piece::Number(charged),
            Piece::Mark("\" width=\""),
            Piece::Number(reserved),
            Piece::Mark("\" height=\"1\"/></svg>\n"),
        ],
    )
}

/// Appends the units that are charged, reserved, left and granted, and the end of the card.
fn put_quota_facts(
    out: &mut Vec<u8>,
    granted: u64,
    reserved: u64,
    charged: u64,
    left: &str,
) -> Result<(), AllocError>
    ensures { OnOk result
        (out.new.items ≡ out.old.items ++ html (quota_facts granted reserved charged left.now)) }
{
    put_all(
        out,
        &[
            Piece::Mark("<dl class=\"facts\">\n<div><dt class=\"key key-charged\">"),
            Piece::Mark(CHARGED),
            Piece::Mark("</dt><dd>"),
            Piece::Number(charged),
            Piece::Mark("</dd></div>\n<div><dt class=\"key key-reserved\">"),
            Piece::Mark(RESERVED),
            Piece::Mark("</dt><dd>"),
            Piece::Number(reserved),
            Piece::Mark("</dd></div>\n<div><dt class=\"key\">"),
            Piece::Mark(LEFT),
            Piece::Mark("</dt><dd>"),
            Piece::Mark(left),
            Piece::Mark("</dd></div>\n<div><dt>"),
            Piece::Mark(GRANTED),
            Piece::Mark("</dt><dd>"),
            Piece::Number(granted),
            Piece::Mark("</dd></div>\n</dl></div>\n</section>\n"),
        ],
    )
}
