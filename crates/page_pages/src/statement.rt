//! A statement for paper: the balance of an account as a month or a year begins, each grant for it
//! and each job that ended in it, and the balance as it ends.

ghost use Rattle.std.specs.Prelude.{◌≡◌, ◌++◌, ◌≤◌, OnOk};
ghost use Rattle.account_rules.specs.Limits.{most_units};
ghost use Rattle.page_markup.specs.Parts.{html};
ghost use Rattle.page_pages.specs.Movements.{drawn_in};
ghost use Rattle.page_pages.specs.Statements.{back_link, earlier, heading, heading_end, heading_start, is_year, later, link, links, month_link, month_table_link, months, of_month, of_year, sheet_foot, statement_page, statement_paper, statement_start, table_link, title, title_end, title_start, year_link, year_table_link};

use crate::frame::put_top;
use crate::markup::{DOCUMENT, END_OF_PAGE};
use crate::statement_rows::put_statement_rows;
use crate::statement_sums::{put_statement_grants, put_statement_jobs, put_sums};
use crate::texts::{AS_CSV, BACK_TO, DRAWN_UP, PRINT_ROOM, PRODUCT, STATEMENT, TIMES, UNITS};
use account_rules::{FIRST_MONTH, Grant, Job, Name, month_of};
use ipp_coding::List;
use page_markup::{Piece, known, put_all};
use std::alloc::AllocError;

/// How a statement is written.
#[derive(Clone, Copy)]
pub enum Form {
    /// As a page that fits paper.
    Paper,
    /// As a table for a spreadsheet (RFC 4180).
    Csv,
}

/// What a statement shows. Its months are one, or the twelve of a year.
#[derive(Drop)]
pub struct Statement {
    pub account: Name,
    pub first: u32,
    pub last: u32,
    pub form: Form,
    /// The moment that it is drawn up at, in seconds since 1970-01-01T00:00:00Z.
    pub drawn_up: u64,
    /// Units that the account was granted for months up to the last.
    pub granted: u64,
    /// Units that its jobs reserve.
    pub reserved: u64,
    /// Units that its jobs were charged.
    pub charged: u64,
    /// All its grants. The statement shows those for its months.
    pub grants: List<Grant>,
    /// All jobs that have ended, the last first. The statement shows those of its months.
    pub ended: List<Job>,
}

/// Appends a statement in its form.
pub fn put_statement(out: &mut Vec<u8>, statement: &Statement) -> Result<(), AllocError>
    requires granted { statement.now.granted ≤ most_units }
    requires reserved { statement.now.reserved ≤ most_units }
    requires charged { statement.now.charged ≤ most_units }
    ensures bytes { OnOk result (out.new.items ≡ out.old.items ++ statement_page statement.now) }
{
    match statement.form {
        Form::Paper => put_statement_paper(out, statement),
        Form::Csv => put_statement_rows(out, statement),
    }
}

/// Appends the page of a statement.
#[tactic(auto, using(std::proofs::Common::append_assoc), unfolding(crate::specs::Statements::statement_paper))]
fn put_statement_paper(out: &mut Vec<u8>, statement: &Statement) -> Result<(), AllocError>
    requires granted { statement.now.granted ≤ most_units }
    requires reserved { statement.now.reserved ≤ most_units }
    requires charged { statement.now.charged ≤ most_units }
    ensures bytes { OnOk result (out.new.items ≡ out.old.items ++ statement_paper statement.now) }
{
    put_statement_start(out, statement)?;
    put_sums(out, statement)?;
    put_statement_grants(out, statement)?;
    put_statement_jobs(out, statement)?;
    put_sheet_foot(out)?;
    out.extend_from_slice(END_OF_PAGE.as_bytes())
}

/// Appends the start of the page, up to the statement's heading.
#[tactic(auto, using(std::proofs::Common::append_assoc), unfolding(crate::specs::Statements::statement_start))]
fn put_statement_start(out: &mut Vec<u8>, statement: &Statement) -> Result<(), AllocError>
    ensures { OnOk result (out.new.items ≡ out.old.items ++ statement_start statement.now) }
{
    put_title(out, statement)?;
    put_top(out, PRINT_ROOM)?;
    put_links(out, statement)?;
    put_heading(out, statement)
}

/// Whether the statement is of a year, and not of one month.
fn is_year(statement: &Statement) -> bool
    ensures { result ≡ is_year statement.now }
{
    statement.first != statement.last
}

/// Appends the month, or the year that it is of.
fn put_months(out: &mut Vec<u8>, year: bool, month: u32) -> Result<(), AllocError>
    ensures { OnOk result (out.new.items ≡ out.old.items ++ months year month) }
{
    if year {
        return put_of_year(out, month as u64 / 12);
    }
    put_of_month(out, month)
}

/// Appends the start of the page, with its title: the account, and the month or the year.
#[tactic(auto, using(std::proofs::Common::append_assoc), unfolding(crate::specs::Statements::title))]
fn put_title(out: &mut Vec<u8>, statement: &Statement) -> Result<(), AllocError>
    ensures { OnOk result (out.new.items ≡ out.old.items ++ title statement.now) }
{
    put_title_start(out, statement.account.bytes())?;
    put_months(out, is_year(statement), statement.first)?;
    put_title_end(out)
}

/// Appends the heading: whose statement it is, of which month or year, and when it was drawn up.
#[tactic(auto, using(std::proofs::Common::append_assoc), unfolding(crate::specs::Statements::heading))]
fn put_heading(out: &mut Vec<u8>, statement: &Statement) -> Result<(), AllocError>
    ensures { OnOk result (out.new.items ≡ out.old.items ++ heading statement.now) }
{
    put_heading_start(out, statement.account.bytes())?;
    put_months(out, is_year(statement), statement.first)?;
    put_heading_end(out, statement.drawn_up)
}

/// Appends the links: to the owner's page, to what comes before and behind, of a month to its year
/// and of a year to its first month, and to the table.
#[tactic(auto, using(std::proofs::Common::append_assoc), unfolding(crate::specs::Statements::links))]
fn put_links(out: &mut Vec<u8>, statement: &Statement) -> Result<(), AllocError>
    ensures { OnOk result (out.new.items ≡ out.old.items ++ links statement.now) }
{
    put_back_link(out, statement.account.bytes())?;
    put_earlier(out, statement)?;
    put_later(out, statement)?;
    put_link(out, !is_year(statement), statement.first)?;
    put_table_link(out, statement)
}

/// Appends the link to the statement of a month, or of the year that it is of.
fn put_link(out: &mut Vec<u8>, year: bool, month: u32) -> Result<(), AllocError>
    ensures { OnOk result (out.new.items ≡ out.old.items ++ link year month) }
{
    if year {
        return put_year_link(out, month as u64 / 12);
    }
    put_month_link(out, month)
}

/// Appends the link to the month or the year before, if there is one.
fn put_earlier(out: &mut Vec<u8>, statement: &Statement) -> Result<(), AllocError>
    ensures { OnOk result (out.new.items ≡ out.old.items ++ earlier statement.now) }
{
    if statement.first <= FIRST_MONTH {
        return Ok(());
    }
    put_link(out, is_year(statement), statement.first - 1)
}

/// Gives the month in which the statement is drawn up.
pub(crate) fn drawn_in(statement: &Statement) -> u32
    ensures { result ≡ drawn_in statement.now }
{
    month_of(known(statement.drawn_up))
}

/// Appends the link to the month or the year behind, if that has begun.
fn put_later(out: &mut Vec<u8>, statement: &Statement) -> Result<(), AllocError>
    ensures { OnOk result (out.new.items ≡ out.old.items ++ later statement.now) }
{
    if drawn_in(statement) <= statement.last {
        return Ok(());
    }
    put_link(out, is_year(statement), statement.last + 1)
}

/// Appends the link to the same rows as a table, and ends the links.
fn put_table_link(out: &mut Vec<u8>, statement: &Statement) -> Result<(), AllocError>
    ensures { OnOk result (out.new.items ≡ out.old.items ++ table_link statement.now) }
{
    if is_year(statement) {
        return put_year_table_link(out, statement.account.bytes(), statement.first as u64 / 12);
    }
    put_month_table_link(out, statement.account.bytes(), statement.first)
}

/// Appends the start of the page, up to where its title names the months.
fn put_title_start(out: &mut Vec<u8>, account: &[u8]) -> Result<(), AllocError>
    ensures { OnOk result (out.new.items ≡ out.old.items ++ html (title_start account.now)) }
{
    put_all(
        out,
        &[
            Piece::Mark(DOCUMENT),
            Piece::Mark("<title>"),
            Piece::Text(account),
            Piece::Mark(", "),
        ],
    )
}

/// Appends the end of the title.
fn put_title_end(out: &mut Vec<u8>) -> Result<(), AllocError>
    ensures { OnOk result (out.new.items ≡ out.old.items ++ html title_end) }
{
    put_all(
        out,
        &[
            Piece::Mark(" - "),
            Piece::Mark(STATEMENT),
            Piece::Mark(" - "),
            Piece::Mark(PRODUCT),
            Piece::Mark("</title>\n"),
        ],
    )
}

/// Appends a month in words.
fn put_of_month(out: &mut Vec<u8>, month: u32) -> Result<(), AllocError>
    ensures { OnOk result (out.new.items ≡ out.old.items ++ html (of_month month)) }
{
    put_all(out, &[Piece::Month(month)])
}

/// Appends a year.
fn put_of_year(out: &mut Vec<u8>, year: u64) -> Result<(), AllocError>
    ensures { OnOk result (out.new.items ≡ out.old.items ++ html (of_year year)) }
{
    put_all(out, &[Piece::Number(year)])
}

/// Appends the start of the links, with the one to the owner's page.
fn put_back_link(out: &mut Vec<u8>, account: &[u8]) -> Result<(), AllocError>
    ensures { OnOk result (out.new.items ≡ out.old.items ++ html (back_link account.now)) }
{
    put_all(
        out,
        &[
            Piece::Mark("<nav class=\"pager screen sheet\"><a href=\"/"),
            Piece::Text(account),
            Piece::Mark("\">"),
            Piece::Mark(BACK_TO),
            Piece::Text(account),
            Piece::Mark("</a>"),
        ],
    )
}

/// Appends a link to the statement of a month.
fn put_month_link(out: &mut Vec<u8>, month: u32) -> Result<(), AllocError>
    ensures { OnOk result (out.new.items ≡ out.old.items ++ html (month_link month)) }
{
    put_all(
        out,
        &[
            Piece::Mark("\n<a href=\"?month="),
            Piece::MonthNumber(month),
            Piece::Mark("\">"),
            Piece::Month(month),
            Piece::Mark("</a>"),
        ],
    )
}

/// Appends a link to the statement of a year.
fn put_year_link(out: &mut Vec<u8>, year: u64) -> Result<(), AllocError>
    ensures { OnOk result (out.new.items ≡ out.old.items ++ html (year_link year)) }
{
    put_all(
        out,
        &[
            Piece::Mark("\n<a href=\"?year="),
            Piece::Number(year),
            Piece::Mark("\">"),
            Piece::Number(year),
            Piece::Mark("</a>"),
        ],
    )
}

/// Appends the link to the table of a month, and ends the links.
fn put_month_table_link(out: &mut Vec<u8>, account: &[u8], month: u32) -> Result<(), AllocError>
    ensures { OnOk result
        (out.new.items ≡ out.old.items ++ html (month_table_link account.now month)) }
{
    put_all(
        out,
        &[
            Piece::Mark("\n<a href=\"/"),
            Piece::Text(account),
            Piece::Mark("/statement.csv?month="),
            Piece::MonthNumber(month),
            Piece::Mark("\">"),
            Piece::Mark(AS_CSV),
            Piece::Mark("</a></nav>\n"),
        ],
    )
}

/// Appends the link to the table of a year, and ends the links.
fn put_year_table_link(out: &mut Vec<u8>, account: &[u8], year: u64) -> Result<(), AllocError>
    ensures { OnOk result
        (out.new.items ≡ out.old.items ++ html (year_table_link account.now year)) }
{
    put_all(
        out,
        &[
            Piece::Mark("\n<a href=\"/"),
            Piece::Text(account),
            Piece::Mark("/statement.csv?year="),
            Piece::Number(year),
            Piece::Mark("\">"),
            Piece::Mark(AS_CSV),
            Piece::Mark("</a></nav>\n"),
        ],
    )
}

/// Appends the heading, up to where it names the months.
fn put_heading_start(out: &mut Vec<u8>, account: &[u8]) -> Result<(), AllocError>
    ensures { OnOk result (out.new.items ≡ out.old.items ++ html (heading_start account.now)) }
{
    put_all(
        out,
        &[
            Piece::Mark("<article class=\"card sheet\">\n<header><div><p class=\"quiet\">"),
            Piece::Mark(STATEMENT),
            Piece::Mark("</p>\n<h1>"),
            Piece::Text(account),
            Piece::Mark("</h1>\n<p>"),
        ],
    )
}

/// Appends the rest of the heading: when the statement was drawn up.
fn put_heading_end(out: &mut Vec<u8>, now: u64) -> Result<(), AllocError>
    ensures { OnOk result (out.new.items ≡ out.old.items ++ html (heading_end now)) }
{
    put_all(
        out,
        &[
            Piece::Mark("</p></div>\n<p class=\"quiet\">"),
            Piece::Mark(DRAWN_UP),
            Piece::Moment(now),
            Piece::Mark(" UTC</p></header>\n"),
        ],
    )
}

/// Appends the end of the statement, and the foot of the page.
fn put_sheet_foot(out: &mut Vec<u8>) -> Result<(), AllocError>
    ensures { OnOk result (out.new.items ≡ out.old.items ++ html sheet_foot) }
{
    put_all(
        out,
        &[
            Piece::Mark("</section>\n</article>\n</main>\n<footer class=\"foot sheet\"><p "),
            Piece::Mark("class=\"quiet\">"),
            Piece::Mark(UNITS),
            Piece::Mark(" "),
            Piece::Mark(TIMES),
        ],
    )
}
