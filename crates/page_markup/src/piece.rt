//! A piece of a page, and the bytes that go out for it.

ghost use Rattle.std.specs.Prelude.{◌≡◌, ◌++◌, IfOk, OnOk, map, decimal, string_bytes};
ghost use Rattle.std.specs.Fmt.{signed_decimal};
ghost use Rattle.page_markup.specs.Parts.{ending_text, html, count_text, part_of, shown};

use crate::escape::put_escaped;
use crate::moment::{put_moment, put_month, put_month_number};
use crate::texts::UNKNOWN;
use std::alloc::{AllocError, Global};

/// One piece of a page.
#[derive(Clone, Copy)]
pub enum Piece<'a> {
    /// Markup, or a text of the program's own, as it is.
    Mark(&'a str),
    /// A text from outside, escaped.
    Text(&'a [u8]),
    Number(u64),
    /// A number, where 0 stands for one that is not known and goes out as `unknown`.
    Known(u32),
    /// A moment, in seconds since 1970-01-01T00:00:00Z.
    Moment(u64),
    /// A moment, or `unknown` where there is none.
    Ending(Option<u64>),
    /// A month as `November 2026`. Its number is twelve times the year, and 0 for January to 11 for
    /// December.
    Month(u32),
    /// A month of that number as `2026-11`.
    MonthNumber(u32),
}

/// Appends pieces, one behind the other.
pub fn put_all(out: &mut Vec<u8>, pieces: &[Piece<'_>]) -> Result<(), AllocError>
    ensures { OnOk result (out.new.items ≡ out.old.items ++ html (map part_of pieces.now)) }
{
    for piece in pieces {
        put(out, *piece)?;
    }
    Ok(())
}

/// Appends the bytes of one piece.
fn put(out: &mut Vec<u8>, piece: Piece<'_>) -> Result<(), AllocError>
    ensures { OnOk result (out.new.items ≡ out.old.items ++ shown (part_of piece.entry)) }
{
    match piece {
        Piece::Mark(text) => out.extend_from_slice(text.as_bytes()),
        Piece::Text(text) => put_escaped(out, text),
        Piece::Number(number) => put_number(out, number),
        Piece::Known(number) => put_known(out, number),
        Piece::Moment(at) => put_moment(out, at),
        Piece::Ending(at) => put_ending(out, at),
        Piece::Month(month) => put_month(out, month),
        Piece::MonthNumber(month) => put_month_number(out, month),
    }
}

fn put_number(out: &mut Vec<u8>, number: u64) -> Result<(), AllocError>
    ensures { OnOk result (out.new.items ≡ out.old.items ++ decimal number) }
{
    let mut digits = String::new(*out.allocator());
    write!(digits, "{number}")?;
    out.extend_from_slice(digits.as_bytes())
}

/// Appends a number, or `unknown` where it is 0.
fn put_known(out: &mut Vec<u8>, number: u32) -> Result<(), AllocError>
    ensures { OnOk result (out.new.items ≡ out.old.items ++ count_text number) }
{
    if number == 0 {
        return out.extend_from_slice(UNKNOWN.as_bytes());
    }
    put_number(out, number as u64)
}

/// Appends a moment, or `unknown` where there is none.
fn put_ending(out: &mut Vec<u8>, at: Option<u64>) -> Result<(), AllocError>
    ensures { OnOk result (out.new.items ≡ out.old.items ++ ending_text at) }
{
    match at {
        Some(at) => put_moment(out, at),
        None => out.extend_from_slice(UNKNOWN.as_bytes()),
    }
}

/// Gives the decimal digits of a number, behind a `-` where it is negative.
pub fn signed_text(alloc: Global, number: i64) -> Result<String, AllocError>
    ensures { IfOk result (λ text. string_bytes text ≡ signed_decimal number) }
{
    format!(in alloc; "{number}")
}
