//! The desk's page of an account: what is left, what waits and ended, its grants, and the forms by
//! which an operator grants, gives back, holds and cancels.

ghost use Rattle.std.specs.Prelude.{◌≡◌, ◌++◌, ◌≤◌, OnOk, flat_map};
ghost use Rattle.account_rules.specs.Limits.{most_units};
ghost use Rattle.page_pages.specs.Balances.{balance};
ghost use Rattle.page_pages.specs.DeskAccounts.{account_end, account_forms, account_lists, account_start, desk_account_page, desk_acts, desk_buttons, desk_cells, desk_content, desk_job, give_back, job_end, jobs_card, jobs_columns, plain_state, table_of_jobs};
ghost use Rattle.page_pages.specs.DeskForms.{desk_links, give_back_form, grant_form};
ghost use Rattle.page_pages.specs.DeskGrants.{grants_card};
ghost use Rattle.page_pages.specs.Ended.{ended_card};
ghost use Rattle.page_pages.specs.Frames.{card, document, foot, remark, top};
ghost use Rattle.page_pages.specs.Owners.{account_title};
ghost use Rattle.page_pages.specs.Phases.{phase_of, sign, word};
ghost use Rattle.page_pages.specs.Waiting.{counts_of, job_name, job_state, name_words};
ghost use Rattle.page_markup.specs.Parts.{html};

use crate::balance::put_balance;
use crate::desk_form::{put_desk_links, put_give_back_form, put_grant_form};
use crate::desk_grants::{free_month, put_grants_card};
use crate::ended::put_ended_card;
use crate::frame::{put_card, put_document, put_foot, put_remark, put_top};
use crate::markup::{
    ACTS_OF_LINE, DESK_SCRIPTS, END_OF_ACTS, END_OF_CARD, END_OF_PAGE, END_OF_PAIR, END_OF_STATE,
    END_OF_TABLE, PAIR,
};
use crate::owner::put_account_title;
use crate::phase::{Phase, phase_of, sign, word};
use crate::texts::{
    ACTS, COPIES, DESK, DEVICE, FILES, JOB, MADE, NO_MONTH_LEFT, NOTHING, NOTHING_WAITS, NUMBER,
    PAGES, STATE, WAITING,
};
use crate::waiting::{
    name_words, put_cancel_button, put_counts, put_hold_buttons, put_job_name, put_job_state,
};
use account_rules::{Grant, Job, Name};
use ipp_coding::List;
use page_markup::{Piece, put_all};
use std::alloc::AllocError;

/// What the desk's page of an account shows.
#[derive(Drop)]
pub struct DeskAccount {
    pub account: Name,
    /// The month that it is.
    pub month: u32,
    /// Units that the account was granted up to now.
    pub granted: u64,
    /// Units that its jobs reserve.
    pub reserved: u64,
    /// Units that its jobs were charged.
    pub charged: u64,
    /// The jobs that have not ended, by number.
    pub waiting: List<Job>,
    /// The jobs that ended last, the last first.
    pub ended: List<Job>,
    /// All its grants, by month.
    pub grants: List<Grant>,
}

/// Appends the desk's page of an account.
#[tactic(auto, using(std::proofs::Common::append_assoc), unfolding(crate::specs::DeskAccounts::desk_account_page))]
pub fn put_desk_account(out: &mut Vec<u8>, it: &DeskAccount) -> Result<(), AllocError>
    requires granted { it.now.granted ≤ most_units }
    requires reserved { it.now.reserved ≤ most_units }
    requires charged { it.now.charged ≤ most_units }
    ensures bytes { OnOk result (out.new.items ≡ out.old.items ++ desk_account_page it.now) }
{
    put_account_start(out, it.account.bytes())?;
    put_desk_content(out, it)?;
    put_account_lists(out, it)?;
    put_account_end(out)
}

/// Appends the start of the page, up to its banner.
#[tactic(auto, using(std::proofs::Common::append_assoc), unfolding(crate::specs::DeskAccounts::account_start))]
fn put_account_start(out: &mut Vec<u8>, account: &[u8]) -> Result<(), AllocError>
    ensures { OnOk result (out.new.items ≡ out.old.items ++ account_start account.now) }
{
    put_document(out, account)?;
    out.extend_from_slice(DESK_SCRIPTS.as_bytes())?;
    put_top(out, DESK)?;
    put_desk_links(out)
}

/// Appends the account's name, and what is left of its quota.
#[tactic(auto, using(std::proofs::Common::append_assoc), unfolding(crate::specs::DeskAccounts::desk_content))]
fn put_desk_content(out: &mut Vec<u8>, it: &DeskAccount) -> Result<(), AllocError>
    requires granted { it.now.granted ≤ most_units }
    requires reserved { it.now.reserved ≤ most_units }
    requires charged { it.now.charged ≤ most_units }
    ensures bytes { OnOk result (out.new.items ≡ out.old.items ++ desk_content it.now) }
{
    put_account_title(out, it.account.bytes(), it.month)?;
    put_balance(out, it.granted, it.reserved, it.charged)
}

/// Appends the jobs that wait, the forms to grant and to give back, the grants, and the jobs that
/// ended last.
#[tactic(auto, using(std::proofs::Common::append_assoc), unfolding(crate::specs::DeskAccounts::account_lists))]
fn put_account_lists(out: &mut Vec<u8>, it: &DeskAccount) -> Result<(), AllocError>
    ensures { OnOk result (out.new.items ≡ out.old.items ++ account_lists it.now) }
{
    put_jobs_card(out, it.account.bytes(), it.waiting.as_slice())?;
    put_account_forms(out, it.account.bytes(), it.month, it.grants.as_slice())?;
    put_grants_card(out, it.grants.as_slice())?;
    put_ended_card(out, it.ended.as_slice())
}

/// Appends the forms to grant and to give back, side by side.
#[tactic(auto, using(std::proofs::Common::append_assoc), unfolding(crate::specs::DeskAccounts::account_forms))]
fn put_account_forms(
    out: &mut Vec<u8>,
    account: &[u8],
    month: u32,
    grants: &[Grant],
) -> Result<(), AllocError>
    ensures { OnOk result
        (out.new.items ≡ out.old.items ++ account_forms account.now month grants.now) }
{
    out.extend_from_slice(PAIR.as_bytes())?;
    put_grant_form(out, account, month)?;
    put_give_back(out, account, free_month(grants))?;
    out.extend_from_slice(END_OF_PAIR.as_bytes())
}

/// Appends the form to give units back, or that no month is left for that.
fn put_give_back(out: &mut Vec<u8>, account: &[u8], month: Option<u32>) -> Result<(), AllocError>
    ensures { OnOk result (out.new.items ≡ out.old.items ++ give_back account.now month) }
{
    match month {
        Some(month) => put_give_back_form(out, account, month),
        None => put_remark(out, NO_MONTH_LEFT),
    }
}

/// Appends the end of the page.
#[tactic(auto, using(std::proofs::Common::append_assoc), unfolding(crate::specs::DeskAccounts::account_end))]
fn put_account_end(out: &mut Vec<u8>) -> Result<(), AllocError>
    ensures { OnOk result (out.new.items ≡ out.old.items ++ account_end) }
{
    put_foot(out)?;
    out.extend_from_slice(END_OF_PAGE.as_bytes())
}

/// Appends the card of the jobs that wait.
#[tactic(auto, using(std::proofs::Common::append_assoc), unfolding(crate::specs::DeskAccounts::jobs_card))]
fn put_jobs_card(out: &mut Vec<u8>, account: &[u8], jobs: &[Job]) -> Result<(), AllocError>
    ensures { OnOk result (out.new.items ≡ out.old.items ++ jobs_card account.now jobs.now) }
{
    put_card(out, "waiting", WAITING)?;
    put_table_of_jobs(out, account, jobs)?;
    out.extend_from_slice(END_OF_CARD.as_bytes())
}

/// Appends the table of the jobs, or that nothing waits.
fn put_table_of_jobs(out: &mut Vec<u8>, account: &[u8], jobs: &[Job]) -> Result<(), AllocError>
    ensures { OnOk result (out.new.items ≡ out.old.items ++ table_of_jobs account.now jobs.now) }
{
    if jobs.is_empty() {
        return put_remark(out, NOTHING_WAITS);
    }
    put_table(out, account, jobs)
}

/// Appends the table, with a row for each job.
#[tactic(auto, using(std::proofs::Common::append_assoc))]
fn put_table(out: &mut Vec<u8>, account: &[u8], jobs: &[Job]) -> Result<(), AllocError>
    ensures { OnOk result (out.new.items ≡ out.old.items ++ (html jobs_columns
        ++ (flat_map (desk_job account.now) jobs.now ++ END_OF_TABLE.now))) }
{
    put_jobs_columns(out)?;
    put_desk_jobs(out, account, jobs)?;
    out.extend_from_slice(END_OF_TABLE.as_bytes())
}

/// Appends a row for each job.
fn put_desk_jobs(out: &mut Vec<u8>, account: &[u8], jobs: &[Job]) -> Result<(), AllocError>
    ensures { OnOk result
        (out.new.items ≡ out.old.items ++ flat_map (desk_job account.now) jobs.now) }
{
    for job in jobs {
        put_desk_job(out, account, job)?;
    }
    Ok(())
}

/// Appends the row of a job: how it stands, and its form.
#[tactic(auto, using(std::proofs::Common::append_assoc), unfolding(crate::specs::DeskAccounts::desk_job))]
fn put_desk_job(out: &mut Vec<u8>, account: &[u8], job: &Job) -> Result<(), AllocError>
    ensures { OnOk result (out.new.items ≡ out.old.items ++ desk_job account.now job.now) }
{
    put_desk_cells(out, phase_of(job), job)?;
    put_desk_acts(out, account, phase_of(job), job.job)
}

/// Appends the name of a job, how it stands, and its counts.
#[tactic(auto, using(std::proofs::Common::append_assoc), unfolding(crate::specs::DeskAccounts::desk_cells))]
fn put_desk_cells(out: &mut Vec<u8>, phase: Phase, job: &Job) -> Result<(), AllocError>
    ensures { OnOk result (out.new.items ≡ out.old.items ++ desk_cells phase job.now) }
{
    put_job_name(out, job.job, name_words(job.name.as_slice()))?;
    put_plain_state(out, phase)?;
    put_counts(out, phase, &job.standing)
}

/// Appends how a job stands.
#[tactic(auto, using(std::proofs::Common::append_assoc), unfolding(crate::specs::DeskAccounts::plain_state))]
fn put_plain_state(out: &mut Vec<u8>, phase: Phase) -> Result<(), AllocError>
    ensures { OnOk result (out.new.items ≡ out.old.items ++ plain_state phase) }
{
    put_job_state(out, sign(phase), word(phase), NOTHING)?;
    out.extend_from_slice(END_OF_STATE.as_bytes())
}

/// Appends the form of a job, with a button for each act of an operator that may go through.
#[tactic(auto, using(std::proofs::Common::append_assoc), unfolding(crate::specs::DeskAccounts::desk_acts))]
fn put_desk_acts(
    out: &mut Vec<u8>,
    account: &[u8],
    phase: Phase,
    number: u32,
) -> Result<(), AllocError>
    ensures { OnOk result
        (out.new.items ≡ out.old.items ++ desk_acts account.now phase number) }
{
    out.extend_from_slice(ACTS_OF_LINE.as_bytes())?;
    put_desk_buttons(out, phase, number)?;
    put_job_end(out, account, number)
}

/// Appends a button for each act of an operator that may go through: hold or cancel.
fn put_desk_buttons(out: &mut Vec<u8>, phase: Phase, number: u32) -> Result<(), AllocError>
    ensures { OnOk result (out.new.items ≡ out.old.items ++ desk_buttons phase number) }
{
    match phase {
        Phase::Released => put_hold_buttons(out, number),
        Phase::Incomplete | Phase::Locked | Phase::Uncounted | Phase::Ready | Phase::Printing =>
            put_cancel_button(out, number),
        Phase::Stopping | Phase::Printed | Phase::Canceled | Phase::Failed => Ok(()),
    }
}

/// Appends the start of the table of jobs that wait, with the heads of its columns.
fn put_jobs_columns(out: &mut Vec<u8>) -> Result<(), AllocError>
    ensures { OnOk result (out.new.items ≡ out.old.items ++ html jobs_columns) }
{
    put_all(
        out,
        &[
            Piece::Mark("<table class=\"jobs\">\n<thead><tr><th scope=\"col\" class=\"number\">"),
            Piece::Mark(NUMBER),
            Piece::Mark("</th><th scope=\"col\">"),
            Piece::Mark(JOB),
            Piece::Mark("</th><th scope=\"col\">"),
            Piece::Mark(STATE),
            Piece::Mark("</th><th scope=\"col\">"),
            Piece::Mark(DEVICE),
            Piece::Mark("</th><th scope=\"col\" class=\"count\">"),
            Piece::Mark(PAGES),
            Piece::Mark("</th><th scope=\"col\" class=\"count\">"),
            Piece::Mark(COPIES),
            Piece::Mark("</th><th scope=\"col\" class=\"count\">"),
            Piece::Mark(FILES),
            Piece::Mark("</th><th scope=\"col\">"),
            Piece::Mark(MADE),
            Piece::Mark("</th><th scope=\"col\"><span class=\"unseen\">"),
            Piece::Mark(ACTS),
            Piece::Mark("</span></th></tr></thead>\n<tbody>\n"),
        ],
    )
}

/// Appends which job of which account the buttons before are for, and the end of its form and its
/// row.
fn put_job_end(out: &mut Vec<u8>, account: &[u8], number: u32) -> Result<(), AllocError>
    ensures { OnOk result (out.new.items ≡ out.old.items ++ html (job_end account.now number)) }
{
    put_all(
        out,
        &[
            Piece::Mark("<input type=\"hidden\" name=\"account\" value=\""),
            Piece::Text(account),
            Piece::Mark("\"><input type=\"hidden\" name=\"job\" value=\""),
            Piece::Number(number as u64),
            Piece::Mark("\">"),
            Piece::Mark(END_OF_ACTS),
        ],
    )
}
