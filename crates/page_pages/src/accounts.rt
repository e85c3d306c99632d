//! The card of accounts, on the print room's page: what each has left, and how much waits.

ghost use Rattle.std.specs.Prelude.{◌≡◌, ◌++◌, OnOk, flat_map};
ghost use Rattle.page_pages.specs.Accounts.{account_row, accounts_columns, next_link, accounts_card, accounts_item, link_if_more, table_of_accounts};
ghost use Rattle.page_pages.specs.Frames.{card, remark};
ghost use Rattle.page_markup.specs.Parts.{html};

use crate::frame::{put_card, put_remark};
use crate::markup::{END_OF_CARD, END_OF_TABLE};
use crate::texts::{ACCOUNT, ACCOUNTS, JOBS_WAITING, LEFT, NEXT_ACCOUNTS, NO_ACCOUNTS};
use account_rules::Name;
use page_markup::{Piece, put_all, signed_text};
use std::alloc::AllocError;

/// What the list shows of one account.
#[derive(Clone, Copy)]
pub struct AccountLine {
    pub account: Name,
    /// Units that are left, fewer than none where more was charged than granted.
    pub left: i64,
    /// How many of its jobs have not ended.
    pub waiting: u64,
}

/// Appends the card. `front` is what the listed names begin with, and `behind` the last account of
/// this list, if more come behind it.
#[tactic(auto, using(std::proofs::Common::append_assoc), unfolding(crate::specs::Accounts::accounts_card))]
pub(crate) fn put_accounts_card(
    out: &mut Vec<u8>,
    front: &[u8],
    lines: &[AccountLine],
    behind: Option<Name>,
) -> Result<(), AllocError>
    ensures { OnOk result
        (out.new.items ≡ out.old.items ++ accounts_card front.now lines.now behind) }
{
    put_card(out, "accounts", ACCOUNTS)?;
    put_table_of_accounts(out, lines)?;
    put_link_if_more(out, front, behind)?;
    out.extend_from_slice(END_OF_CARD.as_bytes())
}

/// Appends the link to the next list, if more accounts come.
fn put_link_if_more(out: &mut Vec<u8>, front: &[u8], behind: Option<Name>) -> Result<(), AllocError>
    ensures { OnOk result (out.new.items ≡ out.old.items ++ link_if_more front.now behind) }
{
    match behind {
        Some(name) => put_next_link(out, front, name.bytes()),
        None => Ok(()),
    }
}

/// Appends the table of the accounts, or that none has such a name.
fn put_table_of_accounts(out: &mut Vec<u8>, lines: &[AccountLine]) -> Result<(), AllocError>
    ensures { OnOk result (out.new.items ≡ out.old.items ++ table_of_accounts lines.now) }
{
    if lines.is_empty() {
        return put_remark(out, NO_ACCOUNTS);
    }
    put_table(out, lines)
}

/// Appends the table, with a row for each account.
#[tactic(auto, using(std::proofs::Common::append_assoc))]
fn put_table(out: &mut Vec<u8>, lines: &[AccountLine]) -> Result<(), AllocError>
    ensures { OnOk result (out.new.items ≡ out.old.items ++ (html accounts_columns
        ++ (flat_map accounts_item lines.now ++ END_OF_TABLE.now))) }
{
    put_accounts_columns(out)?;
    put_lines(out, lines)?;
    out.extend_from_slice(END_OF_TABLE.as_bytes())
}

/// Appends a row for each account.
fn put_lines(out: &mut Vec<u8>, lines: &[AccountLine]) -> Result<(), AllocError>
    ensures { OnOk result (out.new.items ≡ out.old.items ++ flat_map accounts_item lines.now) }
{
    for line in lines {
        put_accounts_item(out, line)?;
    }
    Ok(())
}

/// Appends the row of an account.
fn put_accounts_item(out: &mut Vec<u8>, line: &AccountLine) -> Result<(), AllocError>
    ensures { OnOk result (out.new.items ≡ out.old.items ++ accounts_item line.now) }
{
    let left = signed_text(*out.allocator(), line.left)?;
    put_account_row(out, line.account.bytes(), left.as_str(), line.waiting)
}

/// Appends the start of the table, with the heads of its columns.
fn put_accounts_columns(out: &mut Vec<u8>) -> Result<(), AllocError>
    ensures { OnOk result (out.new.items ≡ out.old.items ++ html accounts_columns) }
{
    put_all(
        out,
        &[
            Piece::Mark("<table class=\"dense\">\n<thead><tr><th scope=\"col\">"),
            Piece::Mark(ACCOUNT),
            Piece::Mark("</th><th scope=\"col\" class=\"count\">"),
            Piece::Mark(LEFT),
            Piece::Mark("</th><th scope=\"col\" class=\"count\">"),
            Piece::Mark(JOBS_WAITING),
            Piece::Mark("</th></tr></thead>\n<tbody>\n"),
        ],
    )
}

/// Appends the row of an account. What is left comes as a text, since it may be negative.
fn put_account_row<'a>(
    out: &mut Vec<u8>,
    account: &'a [u8],
    left: &'a str,
    waiting: u64,
) -> Result<(), AllocError>
    ensures { OnOk result
        (out.new.items ≡ out.old.items ++ html (account_row account.now left.now waiting)) }
{
    put_all(
        out,
        &[
            Piece::Mark("<tr><th scope=\"row\"><a href=\"/"),
            Piece::Text(account),
            Piece::Mark("\">"),
            Piece::Text(account),
            Piece::Mark("</a></th><td class=\"count\">"),
            Piece::Mark(left),
            Piece::Mark("</td><td class=\"count\">"),
            Piece::Number(waiting),
            Piece::Mark("</td></tr>\n"),
        ],
    )
}

/// Appends the link to the accounts that come next: those behind a name.
fn put_next_link<'a>(out: &mut Vec<u8>, front: &'a [u8], behind: &'a [u8]) -> Result<(), AllocError>
    ensures { OnOk result (out.new.items ≡ out.old.items ++ html (next_link front.now behind.now)) }
{
    put_all(
        out,
        &[
            Piece::Mark("<nav class=\"pager\"><a href=\"/?front="),
            Piece::Text(front),
            Piece::Mark("&amp;behind="),
            Piece::Text(behind),
            Piece::Mark("#accounts\">"),
            Piece::Mark(NEXT_ACCOUNTS),
            Piece::Mark("</a></nav>\n"),
        ],
    )
}
