//! The card of the jobs that devices began and have not settled, on the print room's page.

ghost use Rattle.std.specs.Prelude.{◌≡◌, ◌++◌, OnOk, flat_map};
ghost use Rattle.page_pages.specs.Begun.{begun_columns, begun_row, begun_card, begun_item, table_of_begun};
ghost use Rattle.page_pages.specs.Frames.{card, remark};
ghost use Rattle.page_markup.specs.Parts.{html};

use crate::frame::{put_card, put_remark};
use crate::markup::{END_OF_CARD, END_OF_TABLE};
use crate::texts::{ACCOUNT, BEGUN, BEGUN_AT, DEVICE, JOB, NOTHING_BEGUN};
use account_rules::Name;
use page_markup::{Piece, put_all};
use std::alloc::AllocError;

/// A job that a device began and has not settled.
#[derive(Clone, Copy)]
pub struct BegunLine {
    pub account: Name,
    pub job: u32,
    pub device: Name,
    /// In seconds since 1970-01-01T00:00:00Z.
    pub started: u64,
}

/// Appends the card of the jobs that devices began and have not settled.
#[tactic(auto, using(std::proofs::Common::append_assoc), unfolding(crate::specs::Begun::begun_card))]
pub(crate) fn put_begun_card(out: &mut Vec<u8>, lines: &[BegunLine]) -> Result<(), AllocError>
    ensures { OnOk result (out.new.items ≡ out.old.items ++ begun_card lines.now) }
{
    put_card(out, "begun", BEGUN)?;
    put_table_of_begun(out, lines)?;
    out.extend_from_slice(END_OF_CARD.as_bytes())
}

/// Appends the table of the jobs, or that there are none.
fn put_table_of_begun(out: &mut Vec<u8>, lines: &[BegunLine]) -> Result<(), AllocError>
    ensures { OnOk result (out.new.items ≡ out.old.items ++ table_of_begun lines.now) }
{
    if lines.is_empty() {
        return put_remark(out, NOTHING_BEGUN);
    }
    put_table(out, lines)
}

/// Appends the table, with a row for each job.
#[tactic(auto, using(std::proofs::Common::append_assoc))]
fn put_table(out: &mut Vec<u8>, lines: &[BegunLine]) -> Result<(), AllocError>
    ensures { OnOk result (out.new.items ≡ out.old.items ++ (html begun_columns
        ++ (flat_map begun_item lines.now ++ END_OF_TABLE.now))) }
{
    put_begun_columns(out)?;
    put_lines(out, lines)?;
    out.extend_from_slice(END_OF_TABLE.as_bytes())
}

/// Appends a row for each job.
fn put_lines(out: &mut Vec<u8>, lines: &[BegunLine]) -> Result<(), AllocError>
    ensures { OnOk result (out.new.items ≡ out.old.items ++ flat_map begun_item lines.now) }
{
    for line in lines {
        put_begun_item(out, line)?;
    }
    Ok(())
}

/// Appends the row of a job.
fn put_begun_item(out: &mut Vec<u8>, line: &BegunLine) -> Result<(), AllocError>
    ensures { OnOk result (out.new.items ≡ out.old.items ++ begun_item line.now) }
{
    put_begun_row(
        out,
        line.account.bytes(),
        line.job,
        line.device.bytes(),
        line.started,
    )
}

/// Appends the start of the table, with the heads of its columns.
fn put_begun_columns(out: &mut Vec<u8>) -> Result<(), AllocError>
    ensures { OnOk result (out.new.items ≡ out.old.items ++ html begun_columns) }
{
    put_all(
        out,
        &[
            Piece::Mark("<table class=\"jobs dense\">\n<thead><tr><th scope=\"col\">"),
            Piece::Mark(ACCOUNT),
            Piece::Mark("</th><th scope=\"col\" class=\"count\">"),
            Piece::Mark(JOB),
            Piece::Mark("</th><th scope=\"col\">"),
            Piece::Mark(DEVICE),
            Piece::Mark("</th><th scope=\"col\">"),
            Piece::Mark(BEGUN_AT),
            Piece::Mark("</th></tr></thead>\n<tbody>\n"),
        ],
    )
}

/// Appends the row of a job. It was begun at a moment in seconds since 1970-01-01T00:00:00Z.
fn put_begun_row<'a>(
    out: &mut Vec<u8>,
    account: &'a [u8],
    job: u32,
    device: &'a [u8],
    started: u64,
) -> Result<(), AllocError>
    ensures { OnOk result
        (out.new.items ≡ out.old.items ++ html (begun_row account.now job device.now started)) }
{
    put_all(
        out,
        &[
            Piece::Mark("<tr><th scope=\"row\"><a href=\"/"),
            Piece::Text(account),
            Piece::Mark("\">"),
            Piece::Text(account),
            Piece::Mark("</a></th>\n<td class=\"count\" data-label=\""),
            Piece::Mark(JOB),
            Piece::Mark("\">"),
            Piece::Number(job as u64),
            Piece::Mark("</td><td data-label=\""),
            Piece::Mark(DEVICE),
            Piece::Mark("\">"),
            Piece::Text(device),
            Piece::Mark("</td><td class=\"when\" data-label=\""),
            Piece::Mark(BEGUN_AT),
            Piece::Mark("\">"),
            Piece::Moment(started),
            Piece::Mark("</td></tr>\n"),
        ],
    )
}
