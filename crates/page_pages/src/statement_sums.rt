//! The sums of a statement for paper: how its balances come about, and the rows of its grants and
//! its jobs.

ghost use Rattle.std.specs.Prelude.{◌≡◌, ◌++◌, ◌≤◌, OnOk, flat_map};
ghost use Rattle.account_rules.specs.Limits.{most_units};
ghost use Rattle.page_markup.specs.Parts.{html};
ghost use Rattle.page_pages.specs.Movements.{charged_before, charged_then, closing, granted_before, granted_then, opening};
ghost use Rattle.page_pages.specs.StatementSums.{closing_sums, grant_if_then, grant_row, grants_end, grants_start, job_if_then, jobs_end, opening_sums, reserved_now, statement_grants, statement_jobs, sums, sums_before, sums_now, sums_then};

use crate::ended::{put_ended_columns, put_ended_job};
use crate::movement::{
    FIRST_OF_GRANTS, balance, charged_before, granted_before, is_then, is_within,
};
use crate::statement::{Statement, drawn_in};
use crate::texts::{
    CHARGED_BEFORE, CLOSING, GIVEN_BACK, GRANTED, GRANTED_BEFORE, JOBS_ENDED, LEFT_NOW,
    LESS_CHARGED, MONTH, OPENING, PLUS_GRANTED, RESERVED_NOW, UNITS_CHARGED,
};
use account_rules::{Grant, Job, left};
use page_markup::{Piece, put_all, signed_text};
use std::alloc::AllocError;

/// Appends the sums: the opening balance, what moved, the closing balance, and what is reserved now.
#[tactic(auto, using(std::proofs::Common::append_assoc), unfolding(crate::specs::StatementSums::sums))]
pub(crate) fn put_sums(out: &mut Vec<u8>, statement: &Statement) -> Result<(), AllocError>
    requires granted { statement.now.granted ≤ most_units }
    requires reserved { statement.now.reserved ≤ most_units }
    requires charged { statement.now.charged ≤ most_units }
    ensures bytes { OnOk result (out.new.items ≡ out.old.items ++ sums statement.now) }
{
    put_opening_sums(out, statement)?;
    put_closing_sums(out, statement)?;
    put_reserved_now(out, statement)
}

/// Gives what was granted for months before this one.
pub(crate) fn granted_until(month: u32, statement: &Statement) -> u64
    ensures value { result ≡ granted_before month statement.now }
    ensures bound { result ≤ statement.now.granted }
{
    granted_before(
        month,
        statement.last,
        statement.granted,
        statement.grants.as_slice(),
    )
}

/// Gives what jobs were charged that ended before this month.
pub(crate) fn charged_until(month: u64, statement: &Statement) -> u64
    ensures value { result ≡ charged_before month statement.now }
    ensures bound { result ≤ statement.now.charged }
{
    charged_before(month, statement.charged, statement.ended.as_slice())
}

/// Gives what was granted for the months of the statement.
fn granted_then(statement: &Statement) -> u64
    ensures { result ≡ granted_then statement.now }
{
    statement
        .granted
        .saturating_sub(granted_until(statement.first, statement))
}

/// Gives what jobs were charged that ended in the months of the statement.
fn charged_then(statement: &Statement) -> u64
    ensures { result ≡ charged_then statement.now }
{
    charged_until(statement.last as u64 + 1, statement).saturating_sub(charged_until(
        statement.first as u64,
        statement,
    ))
}

/// Gives the balance as the first month begins.
pub(crate) fn opening(statement: &Statement) -> i64
    requires granted { statement.now.granted ≤ most_units }
    requires charged { statement.now.charged ≤ most_units }
    ensures { result ≡ opening statement.now }
{
    balance(
        granted_until(statement.first, statement),
        charged_until(statement.first as u64, statement),
    )
}

/// Gives the balance as the last month ends.
pub(crate) fn closing(statement: &Statement) -> i64
    requires granted { statement.now.granted ≤ most_units }
    requires charged { statement.now.charged ≤ most_units }
    ensures { result ≡ closing statement.now }
{
    balance(
        statement.granted,
        charged_until(statement.last as u64 + 1, statement),
    )
}

/// Appends how the opening balance comes about.
fn put_opening_sums(out: &mut Vec<u8>, statement: &Statement) -> Result<(), AllocError>
    requires granted { statement.now.granted ≤ most_units }
    requires charged { statement.now.charged ≤ most_units }
    ensures { OnOk result (out.new.items ≡ out.old.items ++ opening_sums statement.now) }
{
    let left = signed_text(*out.allocator(), opening(statement))?;
    put_sums_before(
        out,
        granted_until(statement.first, statement),
        granted_until(statement.first.min(FIRST_OF_GRANTS), statement),
        charged_until(statement.first as u64, statement),
        left.as_str(),
    )
}

/// Appends what moved, and the closing balance.
fn put_closing_sums(out: &mut Vec<u8>, statement: &Statement) -> Result<(), AllocError>
    requires granted { statement.now.granted ≤ most_units }
    requires charged { statement.now.charged ≤ most_units }
    ensures { OnOk result (out.new.items ≡ out.old.items ++ closing_sums statement.now) }
{
    let left = signed_text(*out.allocator(), closing(statement))?;
    put_sums_then(
        out,
        granted_then(statement),
        charged_then(statement),
        left.as_str(),
    )
}

/// Appends what is reserved and left now, where the last month is the present one.
fn put_reserved_now(out: &mut Vec<u8>, statement: &Statement) -> Result<(), AllocError>
    requires granted { statement.now.granted ≤ most_units }
    requires reserved { statement.now.reserved ≤ most_units }
    requires charged { statement.now.charged ≤ most_units }
    ensures { OnOk result (out.new.items ≡ out.old.items ++ reserved_now statement.now) }
{
    if statement.last != drawn_in(statement) {
        return Ok(());
    }
    let left = left(
        statement.granted as i64,
        statement.reserved as i64,
        statement.charged as i64,
    );
    let left = signed_text(*out.allocator(), left)?;
    put_sums_now(out, statement.reserved, left.as_str())
}

/// Appends the grants for the months, as a table.
#[tactic(auto, using(std::proofs::Common::append_assoc), unfolding(crate::specs::StatementSums::statement_grants))]
pub(crate) fn put_statement_grants(
    out: &mut Vec<u8>,
    statement: &Statement,
) -> Result<(), AllocError>
    ensures { OnOk result (out.new.items ≡ out.old.items ++ statement_grants statement.now) }
{
    let granted = granted_then(statement);
    put_grants_start(out)?;
    put_grants_then(
        out,
        statement.first,
        statement.last,
        statement.grants.as_slice(),
    )?;
    put_grants_end(out, granted)
}

/// Appends the rows of those of the grants that are for the months.
fn put_grants_then(
    out: &mut Vec<u8>,
    first: u32,
    last: u32,
    grants: &[Grant],
) -> Result<(), AllocError>
    ensures { OnOk result
        (out.new.items ≡ out.old.items ++ flat_map (grant_if_then first last) grants.now) }
{
    for grant in grants {
        put_grant_if_then(out, first, last, grant)?;
    }
    Ok(())
}

/// Appends the row of a grant, if it is for one of the months.
fn put_grant_if_then(
    out: &mut Vec<u8>,
    first: u32,
    last: u32,
    grant: &Grant,
) -> Result<(), AllocError>
    ensures { OnOk result (out.new.items ≡ out.old.items ++ grant_if_then first last grant.now) }
{
    if !is_within(first, last, grant.month) {
        return Ok(());
    }
    put_grant_row(out, grant.month, grant.pages as u64)
}

/// Appends the jobs that ended in the months, as a table.
#[tactic(auto, using(std::proofs::Common::append_assoc), unfolding(crate::specs::StatementSums::statement_jobs))]
pub(crate) fn put_statement_jobs(out: &mut Vec<u8>, statement: &Statement) -> Result<(), AllocError>
    ensures { OnOk result (out.new.items ≡ out.old.items ++ statement_jobs statement.now) }
{
    let charged = charged_then(statement);
    put_ended_columns(out)?;
    put_jobs_then(
        out,
        statement.first,
        statement.last,
        statement.ended.as_slice(),
    )?;
    put_jobs_end(out, charged)
}

/// Appends the rows of those of the jobs that ended in the months.
fn put_jobs_then(out: &mut Vec<u8>, first: u32, last: u32, jobs: &[Job]) -> Result<(), AllocError>
    ensures { OnOk result
        (out.new.items ≡ out.old.items ++ flat_map (job_if_then first last) jobs.now) }
{
    for job in jobs {
        put_job_if_then(out, first, last, job)?;
    }
    Ok(())
}

/// Appends the row of a job, if it ended in one of the months.
fn put_job_if_then(out: &mut Vec<u8>, first: u32, last: u32, job: &Job) -> Result<(), AllocError>
    ensures { OnOk result (out.new.items ≡ out.old.items ++ job_if_then first last job.now) }
{
    if !is_then(first, last, job.standing.ended) {
        return Ok(());
    }
    put_ended_job(out, job)
}

/// Appends the start of the sums: how the opening balance comes about, which is the text `left`.
fn put_sums_before(
    out: &mut Vec<u8>,
    granted: u64,
    given_back: u64,
    charged: u64,
    left: &str,
) -> Result<(), AllocError>
    ensures { OnOk result
        (out.new.items ≡ out.old.items ++ html (sums_before granted given_back charged left.now)) }
{
    put_all(
        out,
        &[
            Piece::Mark("<table class=\"dense sum\"><tbody>\n"),
            Piece::Mark("<tr><th scope=\"row\">"),
            Piece::Mark(GRANTED_BEFORE),
            Piece::Mark("</th><td class=\"count\">"),
            Piece::Number(granted),
            Piece::Mark("</td></tr>\n"),
            Piece::Mark("<tr><th scope=\"row\">"),
            Piece::Mark(GIVEN_BACK),
            Piece::Mark("</th><td class=\"count\">"),
            Piece::Number(given_back),
            Piece::Mark("</td></tr>\n"),
            Piece::Mark("<tr><th scope=\"row\">"),
            Piece::Mark(CHARGED_BEFORE),
            Piece::Mark("</th><td class=\"count\">"),
            Piece::Number(charged),
            Piece::Mark("</td></tr>\n"),
            Piece::Mark("</tbody><tbody>\n<tr><th scope=\"row\"><strong>"),
            Piece::Mark(OPENING),
            Piece::Mark("</strong></th><td class=\"count\"><strong>"),
            Piece::Mark(left),
            Piece::Mark("</strong></td></tr>\n"),
        ],
    )
}

/// Appends what moved, and the closing balance, which is the text `left`.
fn put_sums_then(
    out: &mut Vec<u8>,
    granted: u64,
    charged: u64,
    left: &str,
) -> Result<(), AllocError>
    ensures { OnOk result
        (out.new.items ≡ out.old.items ++ html (sums_then granted charged left.now)) }
{
    put_all(
        out,
        &[
            Piece::Mark("<tr><th scope=\"row\">"),
            Piece::Mark(PLUS_GRANTED),
            Piece::Mark("</th><td class=\"count\">"),
            Piece::Number(granted),
            Piece::Mark("</td></tr>\n"),
            Piece::Mark("<tr><th scope=\"row\">"),
            Piece::Mark(LESS_CHARGED),
            Piece::Mark("</th><td class=\"count\">"),
            Piece::Number(charged),
            Piece::Mark("</td></tr>\n"),
            Piece::Mark("</tbody><tfoot>\n"),
            Piece::Mark("<tr><th scope=\"row\">"),
            Piece::Mark(CLOSING),
            Piece::Mark("</th><td class=\"count\">"),
            Piece::Mark(left),
            Piece::Mark("</td></tr>\n"),
        ],
    )
}

/// Appends what is reserved now, and what that leaves, which is the text `left`.
fn put_sums_now(out: &mut Vec<u8>, reserved: u64, left: &str) -> Result<(), AllocError>
    ensures { OnOk result (out.new.items ≡ out.old.items ++ html (sums_now reserved left.now)) }
{
    put_all(
        out,
        &[
            Piece::Mark("<tr><th scope=\"row\">"),
            Piece::Mark(RESERVED_NOW),
            Piece::Mark("</th><td class=\"count\">"),
            Piece::Number(reserved),
            Piece::Mark("</td></tr>\n"),
            Piece::Mark("<tr><th scope=\"row\">"),
            Piece::Mark(LEFT_NOW),
            Piece::Mark("</th><td class=\"count\">"),
            Piece::Mark(left),
            Piece::Mark("</td></tr>\n"),
        ],
    )
}

/// Appends the end of the sums, and the start of the table of grants.
fn put_grants_start(out: &mut Vec<u8>) -> Result<(), AllocError>
    ensures { OnOk result (out.new.items ≡ out.old.items ++ html grants_start) }
{
    put_all(
        out,
        &[
            Piece::Mark(
                "</tfoot></table>\n<section aria-labelledby=\"granted\"><h2 id=\"granted\">",
            ),
            Piece::Mark(GRANTED),
            Piece::Mark("</h2>\n<table class=\"dense\">\n<thead><tr><th scope=\"col\">"),
            Piece::Mark(MONTH),
            Piece::Mark("</th><th scope=\"col\" class=\"count\">"),
            Piece::Mark(UNITS_CHARGED),
            Piece::Mark("</th></tr></thead>\n<tbody>\n"),
        ],
    )
}

/// Appends the row of a grant.
fn put_grant_row(out: &mut Vec<u8>, month: u32, pages: u64) -> Result<(), AllocError>
    ensures { OnOk result (out.new.items ≡ out.old.items ++ html (grant_row month pages)) }
{
    put_all(
        out,
        &[
            Piece::Mark("<tr><th scope=\"row\">"),
            Piece::Month(month),
            Piece::Mark("</th><td class=\"count\">"),
            Piece::Number(pages),
            Piece::Mark("</td></tr>\n"),
        ],
    )
}

/// Appends the end of the table of grants, with their sum, and the heading of the jobs.
fn put_grants_end(out: &mut Vec<u8>, granted: u64) -> Result<(), AllocError>
    ensures { OnOk result (out.new.items ≡ out.old.items ++ html (grants_end granted)) }
{
    put_all(
        out,
        &[
            Piece::Mark("</tbody><tfoot>\n"),
            Piece::Mark("<tr><th scope=\"row\">"),
            Piece::Mark(PLUS_GRANTED),
            Piece::Mark("</th><td class=\"count\">"),
            Piece::Number(granted),
            Piece::Mark("</td></tr>\n"),
            Piece::Mark(
                "</tfoot></table>\n</section>\n<section aria-labelledby=\"ended\"><h2 id=\"ended\">",
            ),
            Piece::Mark(JOBS_ENDED),
            Piece::Mark("</h2>\n"),
        ],
    )
}

/// Appends the end of the table of jobs, with the sum of their charges.
fn put_jobs_end(out: &mut Vec<u8>, charged: u64) -> Result<(), AllocError>
    ensures { OnOk result (out.new.items ≡ out.old.items ++ html (jobs_end charged)) }
{
    put_all(
        out,
        &[
            Piece::Mark("</tbody><tfoot>\n<tr><th scope=\"row\" colspan=\"5\">"),
            Piece::Mark(LESS_CHARGED),
            Piece::Mark("</th><td class=\"count\">"),
            Piece::Number(charged),
            Piece::Mark("</td></tr>\n</tfoot></table>\n"),
        ],
    )
}
