//! The card of the jobs that have waited longest, on the print room's page.

ghost use Rattle.std.specs.Prelude.{◌≡◌, ◌++◌, OnOk, flat_map};
ghost use Rattle.page_pages.specs.Longest.{longest_columns, longest_row, longest_card, longest_item, table_of_longest};
ghost use Rattle.page_pages.specs.Frames.{card, remark};
ghost use Rattle.page_markup.specs.Parts.{html};
ghost use Rattle.page_pages.specs.Phases.{sign, word};

use crate::frame::{put_card, put_remark};
use crate::markup::{END_OF_CARD, END_OF_TABLE};
use crate::phase::{Phase, sign, word};
use crate::texts::{ACCOUNT, JOB, LONGEST, NOTHING_WAITS, SINCE, STATE};
use account_rules::Name;
use page_markup::{Piece, put_all};
use std::alloc::AllocError;

/// A job that waits, and how it stands (`phase_of`).
#[derive(Clone, Copy)]
pub struct LongestLine {
    pub account: Name,
    pub job: u32,
    pub phase: Phase,
    /// In seconds since 1970-01-01T00:00:00Z.
    pub created: u64,
}

/// Appends the card of the jobs that have waited longest.
#[tactic(auto, using(std::proofs::Common::append_assoc), unfolding(crate::specs::Longest::longest_card))]
pub(crate) fn put_longest_card(out: &mut Vec<u8>, lines: &[LongestLine]) -> Result<(), AllocError>
    ensures { OnOk result (out.new.items ≡ out.old.items ++ longest_card lines.now) }
{
    put_card(out, "longest", LONGEST)?;
    put_table_of_longest(out, lines)?;
    out.extend_from_slice(END_OF_CARD.as_bytes())
}

/// Appends the table of the jobs, or that nothing waits.
fn put_table_of_longest(out: &mut Vec<u8>, lines: &[LongestLine]) -> Result<(), AllocError>
    ensures { OnOk result (out.new.items ≡ out.old.items ++ table_of_longest lines.now) }
{
    if lines.is_empty() {
        return put_remark(out, NOTHING_WAITS);
    }
    put_table(out, lines)
}

/// Appends the table, with a row for each job.
#[tactic(auto, using(std::proofs::Common::append_assoc))]
fn put_table(out: &mut Vec<u8>, lines: &[LongestLine]) -> Result<(), AllocError>
    ensures { OnOk result (out.new.items ≡ out.old.items ++ (html longest_columns
        ++ (flat_map longest_item lines.now ++ END_OF_TABLE.now))) }
{
    put_longest_columns(out)?;
    put_lines(out, lines)?;
    out.extend_from_slice(END_OF_TABLE.as_bytes())
}

/// Appends a row for each job.
fn put_lines(out: &mut Vec<u8>, lines: &[LongestLine]) -> Result<(), AllocError>
    ensures { OnOk result (out.new.items ≡ out.old.items ++ flat_map longest_item lines.now) }
{
    for line in lines {
        put_longest_item(out, line)?;
    }
    Ok(())
}

/// Appends the row of a job.
fn put_longest_item(out: &mut Vec<u8>, line: &LongestLine) -> Result<(), AllocError>
    ensures { OnOk result (out.new.items ≡ out.old.items ++ longest_item line.now) }
{
    put_longest_row(
        out,
        line.account.bytes(),
        line.job,
        sign(line.phase),
        word(line.phase),
        line.created,
    )
}

/// Appends the start of the table, with the heads of its columns.
fn put_longest_columns(out: &mut Vec<u8>) -> Result<(), AllocError>
    ensures { OnOk result (out.new.items ≡ out.old.items ++ html longest_columns) }
{
    put_all(
        out,
        &[
            Piece::Mark("<table class=\"jobs dense\">\n<thead><tr><th scope=\"col\">"),
            Piece::Mark(ACCOUNT),
            Piece::Mark("</th><th scope=\"col\" class=\"count\">"),
            Piece::Mark(JOB),
            Piece::Mark("</th><th scope=\"col\">"),
            Piece::Mark(STATE),
            Piece::Mark("</th><th scope=\"col\">"),
            Piece::Mark(SINCE),
            Piece::Mark("</th></tr></thead>\n<tbody>\n"),
        ],
    )
}

/// Appends the row of a job. It was made at a moment in seconds since 1970-01-01T00:00:00Z.
fn put_longest_row<'a>(
    out: &mut Vec<u8>,
    account: &'a [u8],
    job: u32,
    symbol: &'a str,
    state: &'a str,
    created: u64,
) -> Result<(), AllocError>
    ensures { OnOk result
        (out.new.items ≡ out.old.items
        ++ html (longest_row account.now job symbol.now state.now created)) }
{
    put_all(
        out,
        &[
            Piece::Mark("<tr><th scope=\"row\"><a href=\"/"),
            Piece::Text(account),
            Piece::Mark("\">"),
            Piece::Text(account),
            Piece::Mark("</a></th>\n<td class=\"count\" data-label=\""),
            Piece::Mark(JOB),
            Piece::Mark("\">"),
            Piece::Number(job as u64),
            Piece::Mark("</td><td><span class=\"state\">"),
            Piece::Mark("<svg class=\"sign\" aria-hidden=\"true\"><use href=\"#"),
            Piece::Mark(symbol),
            Piece::Mark("\"/></svg>"),
            Piece::Mark(state),
            Piece::Mark("</span></td><td class=\"when\" data-label=\""),
            Piece::Mark(SINCE),
            Piece::Mark("\">"),
            Piece::Moment(created),
            Piece::Mark("</td></tr>\n"),
        ],
    )
}
