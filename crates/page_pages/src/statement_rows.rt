//! A statement as a table for a spreadsheet (RFC 4180): the opening balance, each grant, each job
//! that ended, the closing balance. No name begins a formula.

ghost use Rattle.std.specs.Prelude.{◌≡◌, ◌++◌, ◌∷◌, ◌≤◌, OnOk, flat_map};
ghost use Rattle.std.specs.Fmt.{decimal};
ghost use Rattle.account_rules.specs.Limits.{most_units};
ghost use Rattle.page_markup.specs.Moments.{two_digits};
ghost use Rattle.page_pages.specs.StatementRows.{balance_row, cell_byte, charge_cell, closing_row, day_text, end_cell, grant_line, grant_line_if_then, is_formula_sign, job_ending, job_line, job_line_if_then, mark_of, may_be_formula, name_cell, opening_row, statement_rows};

use crate::ended::device_or_none;
use crate::movement::{is_then, is_within};
use crate::phase::{phase_of, word};
use crate::statement::Statement;
use crate::statement_sums::{closing, opening};
use account_rules::{Grant, Job, Moment, month_of};
use page_markup::{day_in_month, is_control, known, put_month_number, signed_text};
use std::alloc::AllocError;

const COLUMNS: &str = "what,date,job,name,state,device,units\r\n";

const OPENING_CELL: &str = "opening,";

const GRANT_CELL: &str = "grant,";

const JOB_CELL: &str = "job,";

const CLOSING_CELL: &str = "closing,";

/// Ends a cell, and four empty ones behind it.
const FIVE_EMPTY: &str = ",,,,,";

const END_OF_ROW: &str = "\r\n";

/// Appends the table of a statement.
#[tactic(auto, using(std::proofs::Common::append_assoc), unfolding(crate::specs::StatementRows::statement_rows))]
pub(crate) fn put_statement_rows(out: &mut Vec<u8>, statement: &Statement) -> Result<(), AllocError>
    requires granted { statement.now.granted ≤ most_units }
    requires charged { statement.now.charged ≤ most_units }
    ensures bytes { OnOk result (out.new.items ≡ out.old.items ++ statement_rows statement.now) }
{
    out.extend_from_slice(COLUMNS.as_bytes())?;
    put_opening_row(out, statement)?;
    put_grant_lines(
        out,
        statement.first,
        statement.last,
        statement.grants.as_slice(),
    )?;
    put_job_lines(
        out,
        statement.first,
        statement.last,
        statement.ended.as_slice(),
    )?;
    put_closing_row(out, statement)
}

/// Appends the row of the opening balance.
fn put_opening_row(out: &mut Vec<u8>, statement: &Statement) -> Result<(), AllocError>
    requires granted { statement.now.granted ≤ most_units }
    requires charged { statement.now.charged ≤ most_units }
    ensures { OnOk result (out.new.items ≡ out.old.items ++ opening_row statement.now) }
{
    let left = signed_text(*out.allocator(), opening(statement))?;
    put_balance_row(out, OPENING_CELL, statement.first, left.as_str())
}

/// Appends the row of the closing balance.
fn put_closing_row(out: &mut Vec<u8>, statement: &Statement) -> Result<(), AllocError>
    requires granted { statement.now.granted ≤ most_units }
    requires charged { statement.now.charged ≤ most_units }
    ensures { OnOk result (out.new.items ≡ out.old.items ++ closing_row statement.now) }
{
    let left = signed_text(*out.allocator(), closing(statement))?;
    put_balance_row(out, CLOSING_CELL, statement.last, left.as_str())
}

/// Appends the row of a balance.
#[tactic(auto, using(std::proofs::Common::append_assoc), unfolding(crate::specs::StatementRows::balance_row))]
fn put_balance_row<'a>(
    out: &mut Vec<u8>,
    what: &'a str,
    month: u32,
    units: &'a str,
) -> Result<(), AllocError>
    ensures { OnOk result (out.new.items ≡ out.old.items ++ balance_row what.now month units.now) }
{
    out.extend_from_slice(what.as_bytes())?;
    put_month_number(out, month)?;
    out.extend_from_slice(FIVE_EMPTY.as_bytes())?;
    out.extend_from_slice(units.as_bytes())?;
    out.extend_from_slice(END_OF_ROW.as_bytes())
}

/// Appends the rows of those of the grants that are for the months.
fn put_grant_lines(
    out: &mut Vec<u8>,
    first: u32,
    last: u32,
    grants: &[Grant],
) -> Result<(), AllocError>
    ensures { OnOk result
        (out.new.items ≡ out.old.items ++ flat_map (grant_line_if_then first last) grants.now) }
{
    for grant in grants {
        put_grant_line_if_then(out, first, last, grant)?;
    }
    Ok(())
}

/// Appends the row of a grant, if it is for one of the months.
fn put_grant_line_if_then(
    out: &mut Vec<u8>,
    first: u32,
    last: u32,
    grant: &Grant,
) -> Result<(), AllocError>
    ensures { OnOk result
        (out.new.items ≡ out.old.items ++ grant_line_if_then first last grant.now) }
{
    if !is_within(first, last, grant.month) {
        return Ok(());
    }
    put_grant_line(out, grant)
}

/// Appends the row of a grant.
#[tactic(auto, using(std::proofs::Common::append_assoc), unfolding(crate::specs::StatementRows::grant_line))]
fn put_grant_line(out: &mut Vec<u8>, grant: &Grant) -> Result<(), AllocError>
    ensures { OnOk result (out.new.items ≡ out.old.items ++ grant_line grant.now) }
{
    out.extend_from_slice(GRANT_CELL.as_bytes())?;
    put_month_number(out, grant.month)?;
    out.extend_from_slice(FIVE_EMPTY.as_bytes())?;
    put_decimal(out, grant.pages as u64)?;
    out.extend_from_slice(END_OF_ROW.as_bytes())
}

/// Appends the decimal digits of a number.
fn put_decimal(out: &mut Vec<u8>, number: u64) -> Result<(), AllocError>
    ensures { OnOk result (out.new.items ≡ out.old.items ++ decimal number) }
{
    let digits = format!(in *out.allocator(); "{number}")?;
    out.extend_from_slice(digits.as_bytes())
}

/// Appends the rows of those of the jobs that ended in the months.
fn put_job_lines(out: &mut Vec<u8>, first: u32, last: u32, jobs: &[Job]) -> Result<(), AllocError>
    ensures { OnOk result
        (out.new.items ≡ out.old.items ++ flat_map (job_line_if_then first last) jobs.now) }
{
    for job in jobs {
        put_job_line_if_then(out, first, last, job)?;
    }
    Ok(())
}

/// Appends the row of a job, if it ended in one of the months.
fn put_job_line_if_then(
    out: &mut Vec<u8>,
    first: u32,
    last: u32,
    job: &Job,
) -> Result<(), AllocError>
    ensures { OnOk result (out.new.items ≡ out.old.items ++ job_line_if_then first last job.now) }
{
    if !is_then(first, last, job.standing.ended) {
        return Ok(());
    }
    put_job_line(out, job)
}

/// Appends the row of a job.
#[tactic(auto, using(std::proofs::Common::append_assoc), unfolding(crate::specs::StatementRows::job_line))]
fn put_job_line(out: &mut Vec<u8>, job: &Job) -> Result<(), AllocError>
    ensures { OnOk result (out.new.items ≡ out.old.items ++ job_line job.now) }
{
    out.extend_from_slice(JOB_CELL.as_bytes())?;
    put_end_cell(out, job.standing.ended)?;
    out.extend_from_slice(b",")?;
    put_decimal(out, job.job as u64)?;
    out.extend_from_slice(b",")?;
    put_name_cell(out, job.name.as_slice())?;
    put_job_ending(out, job)
}

/// Appends the last cells of a job: how it ended, where, and what it was charged.
#[tactic(auto, using(std::proofs::Common::append_assoc), unfolding(crate::specs::StatementRows::job_ending))]
fn put_job_ending(out: &mut Vec<u8>, job: &Job) -> Result<(), AllocError>
    ensures { OnOk result (out.new.items ≡ out.old.items ++ job_ending job.now) }
{
    out.extend_from_slice(b",")?;
    out.extend_from_slice(word(phase_of(job)).as_bytes())?;
    out.extend_from_slice(b",")?;
    out.extend_from_slice(device_or_none(&job.standing.device))?;
    out.extend_from_slice(b",")?;
    put_charge_cell(out, job.standing.charged)?;
    out.extend_from_slice(END_OF_ROW.as_bytes())
}

/// Appends what a job was charged, behind a `-`.
fn put_charge_cell(out: &mut Vec<u8>, charged: u64) -> Result<(), AllocError>
    ensures { OnOk result (out.new.items ≡ out.old.items ++ charge_cell charged) }
{
    if charged == 0 {
        return out.extend_from_slice(b"0");
    }
    put_taken(out, charged)
}

/// Appends a number behind a `-`.
#[tactic(auto, using(std::proofs::Common::append_assoc))]
fn put_taken(out: &mut Vec<u8>, number: u64) -> Result<(), AllocError>
    ensures { OnOk result (out.new.items ≡ out.old.items ++ (45 ∷ decimal number)) }
{
    out.extend_from_slice(b"-")?;
    put_decimal(out, number)
}

/// Appends the day on which a job ended, or nothing.
fn put_end_cell(out: &mut Vec<u8>, ended: Option<u64>) -> Result<(), AllocError>
    ensures { OnOk result (out.new.items ≡ out.old.items ++ end_cell ended) }
{
    match ended {
        Some(at) => put_day(out, known(at)),
        None => Ok(()),
    }
}

/// Appends a day, as `2026-11-27`.
#[tactic(auto, using(std::proofs::Common::append_assoc), unfolding(crate::specs::StatementRows::day_text))]
fn put_day(out: &mut Vec<u8>, at: Moment) -> Result<(), AllocError>
    ensures { OnOk result (out.new.items ≡ out.old.items ++ day_text at) }
{
    let day = day_in_month(at);
    let tens = day / 10;
    let ones = day % 10;
    put_month_number(out, month_of(at))?;
    let text = format!(in *out.allocator(); "-{tens}{ones}")?;
    out.extend_from_slice(text.as_bytes())
}

/// Appends a name in quotes, so that it begins no formula and no cell. What is no UTF-8 goes out as
/// U+FFFD.
#[tactic(auto, using(std::proofs::Common::append_assoc), unfolding(crate::specs::StatementRows::name_cell))]
fn put_name_cell(out: &mut Vec<u8>, name: &[u8]) -> Result<(), AllocError>
    ensures { OnOk result (out.new.items ≡ out.old.items ++ name_cell name.now) }
{
    let text = String::from_utf8_lossy(*out.allocator(), name)?;
    out.extend_from_slice(b"\"")?;
    put_mark(out, text.as_bytes())?;
    put_cell_bytes(out, text.as_bytes())?;
    out.extend_from_slice(b"\"")
}

/// Appends an apostrophe, if the text may be taken for a formula.
fn put_mark(out: &mut Vec<u8>, text: &[u8]) -> Result<(), AllocError>
    ensures { OnOk result (out.new.items ≡ out.old.items ++ mark_of text.now) }
{
    if may_be_formula(text) {
        return out.extend_from_slice(b"'");
    }
    Ok(())
}

/// Whether a spreadsheet may take the text for a formula.
fn may_be_formula(text: &[u8]) -> bool
    ensures { result ≡ may_be_formula text.now }
{
    match text.first() {
        Some(byte) => is_formula_sign(*byte),
        None => false,
    }
}

/// Whether a byte may begin a formula.
fn is_formula_sign(byte: u8) -> bool
    ensures { result ≡ is_formula_sign byte }
{
    byte < 33
        || byte == b'+'
        || byte == b'-'
        || byte == b'='
        || byte == b'@'
        || byte == 127
        || byte == 239
}

/// Appends the bytes of a text as they stand in a quoted cell.
fn put_cell_bytes(out: &mut Vec<u8>, text: &[u8]) -> Result<(), AllocError>
    ensures { OnOk result (out.new.items ≡ out.old.items ++ flat_map cell_byte text.now) }
{
    for byte in text {
        put_cell_byte(out, *byte)?;
    }
    Ok(())
}

/// Appends one byte: a quote twice, `,` for a `;`, a space for a control, and any other as it is.
fn put_cell_byte(out: &mut Vec<u8>, byte: u8) -> Result<(), AllocError>
    ensures { OnOk result (out.new.items ≡ out.old.items ++ cell_byte byte) }
{
    if byte == b'"' {
        return out.extend_from_slice(b"\"\"");
    }
    if byte == b';' {
        return out.extend_from_slice(b",");
    }
    if is_control(byte) {
        return out.extend_from_slice(b" ");
    }
    out.extend_from_slice(&[byte])
}
