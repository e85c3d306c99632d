//! The page of an account's owner: what is left, what waits and ended, and the form to print.

ghost use Rattle.std.specs.Prelude.{◌≡◌, ◌++◌, ◌≤◌, OnOk};
ghost use Rattle.account_rules.specs.Limits.{most_units};
ghost use Rattle.page_pages.specs.Balances.{balance};
ghost use Rattle.page_pages.specs.Frames.{document, foot, reload, top};
ghost use Rattle.page_pages.specs.Owners.{account_title, reloads, stays, content, does_reload, lists, owner_document, owner_end, owner_page, owner_start, reload_if, reload_words, terms_of};
ghost use Rattle.page_markup.specs.Parts.{html};

use crate::balance::put_balance;
use crate::devices::put_all_devices;
use crate::ended::put_ended_card;
use crate::form::put_print_form;
use crate::frame::{put_document, put_foot, put_reload, put_top};
use crate::markup::{END_OF_PAGE, SCRIPT};
use crate::offer::{Terms, cheapest, dearest};
use crate::outcome::{Outcome, put_outcome_if_any};
use crate::texts::{
    ACCOUNT, PRINT_ROOM, RELOADS, START_RELOADING, STATEMENT_FOR, STAYS, STOP_RELOADING,
};
use crate::waiting::put_waiting_card;
use account_rules::{Device, Job, Name, left};
use ipp_coding::List;
use page_markup::{Piece, put_all};
use std::alloc::AllocError;

/// What the page of an account's owner shows.
#[derive(Drop)]
pub struct Owner {
    pub account: Name,
    /// The month that it is, whose statement the page leads to.
    pub month: u32,
    /// Units that the account was granted up to now.
    pub granted: u64,
    /// Units that its jobs reserve.
    pub reserved: u64,
    /// Units that its jobs were charged.
    pub charged: u64,
    /// The jobs that have not ended, by number.
    pub waiting: List<Job>,
    /// The jobs that ended last, the last first.
    pub ended: List<Job>,
    /// All devices, by name.
    pub devices: List<Device>,
    /// What came of the last act.
    pub outcome: Option<Outcome>,
    /// Whether the page is to stay as it is, while jobs wait too.
    pub stays: bool,
    /// Whether a file is taken with a password alone.
    pub needs_password: bool,
}

/// Appends the page of an account's owner.
#[tactic(auto, using(std::proofs::Common::append_assoc), unfolding(crate::specs::Owners::owner_page))]
pub fn put_owner_page(out: &mut Vec<u8>, owner: &Owner) -> Result<(), AllocError>
    requires granted { owner.now.granted ≤ most_units }
    requires reserved { owner.now.reserved ≤ most_units }
    requires charged { owner.now.charged ≤ most_units }
    ensures bytes { OnOk result (out.new.items ≡ out.old.items ++ owner_page owner.now) }
{
    put_owner_start(out, owner)?;
    put_content(out, owner)?;
    put_lists(out, owner)?;
    put_owner_end(out, owner)
}

/// Appends the start of the page, up to its banner.
#[tactic(auto, using(std::proofs::Common::append_assoc), unfolding(crate::specs::Owners::owner_start))]
fn put_owner_start(out: &mut Vec<u8>, owner: &Owner) -> Result<(), AllocError>
    ensures { OnOk result (out.new.items ≡ out.old.items ++ owner_start owner.now) }
{
    put_owner_document(out, owner)?;
    out.extend_from_slice(SCRIPT.as_bytes())?;
    put_top(out, PRINT_ROOM)
}

/// Appends the title, and has a browser load the page anew where it is to.
#[tactic(auto, using(std::proofs::Common::append_assoc), unfolding(crate::specs::Owners::owner_document))]
fn put_owner_document(out: &mut Vec<u8>, owner: &Owner) -> Result<(), AllocError>
    ensures { OnOk result (out.new.items ≡ out.old.items ++ owner_document owner.now) }
{
    put_document(out, owner.account.bytes())?;
    put_reload_if(out, does_reload(owner), owner.account.bytes())
}

/// Whether the page loads itself anew: something waits, and nobody stopped it.
fn does_reload(owner: &Owner) -> bool
    ensures { result ≡ does_reload owner.now }
{
    !owner.stays && !owner.waiting.as_slice().is_empty()
}

/// Appends the element that has a browser load the page anew, if it is to.
fn put_reload_if(out: &mut Vec<u8>, reloads: bool, account: &[u8]) -> Result<(), AllocError>
    ensures { OnOk result (out.new.items ≡ out.old.items ++ reload_if reloads account.now) }
{
    if !reloads {
        return Ok(());
    }
    put_reload(out, account)
}

/// Appends what came of the last act, the account's name, and what is left of its quota.
#[tactic(auto, using(std::proofs::Common::append_assoc), unfolding(crate::specs::Owners::content))]
fn put_content(out: &mut Vec<u8>, owner: &Owner) -> Result<(), AllocError>
    requires granted { owner.now.granted ≤ most_units }
    requires reserved { owner.now.reserved ≤ most_units }
    requires charged { owner.now.charged ≤ most_units }
    ensures bytes { OnOk result (out.new.items ≡ out.old.items ++ content owner.now) }
{
    put_outcome_if_any(out, owner.outcome)?;
    put_account_title(out, owner.account.bytes(), owner.month)?;
    put_balance(out, owner.granted, owner.reserved, owner.charged)
}

/// Appends the jobs that wait, the form to print, the devices, and the jobs that ended last.
#[tactic(auto, using(std::proofs::Common::append_assoc), unfolding(crate::specs::Owners::lists))]
fn put_lists(out: &mut Vec<u8>, owner: &Owner) -> Result<(), AllocError>
    requires granted { owner.now.granted ≤ most_units }
    requires reserved { owner.now.reserved ≤ most_units }
    requires charged { owner.now.charged ≤ most_units }
    ensures { OnOk result (out.new.items ≡ out.old.items ++ lists owner.now) }
{
    let terms = terms_of(owner);
    put_waiting_card(out, owner.account.bytes(), &terms, owner.waiting.as_slice())?;
    put_print_form(out, owner.account.bytes(), owner.needs_password)?;
    put_all_devices(out, owner.devices.as_slice())?;
    put_ended_card(out, owner.ended.as_slice())
}

/// Gives what prices and offers hang on.
fn terms_of(owner: &Owner) -> Terms
    requires granted { owner.now.granted ≤ most_units }
    requires reserved { owner.now.reserved ≤ most_units }
    requires charged { owner.now.charged ≤ most_units }
    ensures { result ≡ terms_of owner.now }
{
    Terms {
        left: left(
            owner.granted as i64,
            owner.reserved as i64,
            owner.charged as i64,
        ),
        cheapest: cheapest(owner.devices.as_slice()),
        dearest: dearest(owner.devices.as_slice()),
    }
}

/// Appends the foot, which also tells whether the page loads itself anew.
#[tactic(auto, using(std::proofs::Common::append_assoc), unfolding(crate::specs::Owners::owner_end))]
fn put_owner_end(out: &mut Vec<u8>, owner: &Owner) -> Result<(), AllocError>
    ensures { OnOk result (out.new.items ≡ out.old.items ++ owner_end owner.now) }
{
    put_foot(out)?;
    put_reload_words(out, owner)?;
    out.extend_from_slice(END_OF_PAGE.as_bytes())
}

/// Appends whether the page loads itself anew, and how to change that.
fn put_reload_words(out: &mut Vec<u8>, owner: &Owner) -> Result<(), AllocError>
    ensures { OnOk result (out.new.items ≡ out.old.items ++ reload_words owner.now) }
{
    if owner.stays {
        return put_stays(out, owner.account.bytes());
    }
    put_reloads(out, owner.account.bytes())
}

/// Appends the name of the account, and the link to its statement of the month.
pub(crate) fn put_account_title(
    out: &mut Vec<u8>,
    account: &[u8],
    month: u32,
) -> Result<(), AllocError>
    ensures { OnOk result
        (out.new.items ≡ out.old.items ++ html (account_title account.now month)) }
{
    put_all(
        out,
        &[
            Piece::Mark("<div class=\"title\"><div><p class=\"quiet\">"),
            Piece::Mark(ACCOUNT),
            Piece::Mark("</p>\n<h1>"),
            Piece::Text(account),
            Piece::Mark("</h1></div>\n<a href=\"/"),
            Piece::Text(account),
            Piece::Mark("/statement?month="),
            Piece::MonthNumber(month),
            Piece::Mark("\">"),
            Piece::Mark(STATEMENT_FOR),
            Piece::Month(month),
            Piece::Mark("</a></div>\n"),
        ],
    )
}

/// Appends that the page loads itself anew, and the link that stops it.
fn put_reloads(out: &mut Vec<u8>, account: &[u8]) -> Result<(), AllocError>
    ensures { OnOk result (out.new.items ≡ out.old.items ++ html (reloads account.now)) }
{
    put_all(
        out,
        &[
            Piece::Mark(RELOADS),
            Piece::Mark(" <a href=\"/"),
            Piece::Text(account),
            Piece::Mark("?still\">"),
            Piece::Mark(STOP_RELOADING),
            Piece::Mark("</a>"),
        ],
    )
}

/// Appends that the page stays as it is, and the link that has it load itself anew.
fn put_stays(out: &mut Vec<u8>, account: &[u8]) -> Result<(), AllocError>
    ensures { OnOk result (out.new.items ≡ out.old.items ++ html (stays account.now)) }
{
    put_all(
        out,
        &[
            Piece::Mark(STAYS),
            Piece::Mark(" <a href=\"/"),
            Piece::Text(account),
            Piece::Mark("\">"),
            Piece::Mark(START_RELOADING),
            Piece::Mark("</a>"),
        ],
    )
}
