//! The card of the jobs that wait, on the owner's page, with what their owner may do with them.

ghost use Rattle.std.specs.Prelude.{◌≡◌, ◌++◌, OnOk, flat_map};
ghost use Rattle.page_pages.specs.Frames.{card, remark};
ghost use Rattle.page_markup.specs.Parts.{html};
ghost use Rattle.page_pages.specs.Phases.{phase_of, sign, word};
ghost use Rattle.page_pages.specs.Waiting.{acts_start, button, counts_of, job_cells, job_counts, job_form, job_name, job_state, name_words, state_cell, waiting_columns, buttons, cancel_button, device_words, hold_buttons, job_acts, job_row, ready_buttons, release_button, release_buttons, no_device_words, table_of_waiting, waiting_card};

use crate::frame::{put_card, put_remark};
use crate::markup::{END_OF_ACTS, END_OF_CARD, END_OF_STATE, END_OF_TABLE, FIRST_ACT};
use crate::offer::{Terms, offer, put_advice, put_price_cell, why};
use crate::phase::{Phase, phase_of, sign, word};
use crate::texts::{
    ACTS, ANY_DEVICE, CANCEL, COPIES, DEVICE, FILES, HOLD, JOB, MADE, NO_DEVICE_YET, NO_NAME,
    NOTHING_WAITS, NUMBER, PAGES, RELEASE_FOR, STATE, UNITS_NEEDED_BY_JOB, WAITING,
};
use account_rules::{Job, Name, Standing};
use page_markup::{Piece, put_all};
use std::alloc::AllocError;

/// Appends the card of an account's jobs that wait.
#[tactic(auto, using(std::proofs::Common::append_assoc), unfolding(crate::specs::Waiting::waiting_card))]
pub(crate) fn put_waiting_card(
    out: &mut Vec<u8>,
    account: &[u8],
    terms: &Terms,
    jobs: &[Job],
) -> Result<(), AllocError>
    ensures { OnOk result
        (out.new.items ≡ out.old.items ++ waiting_card account.now terms.now jobs.now) }
{
    put_card(out, "waiting", WAITING)?;
    put_table_of_waiting(out, account, terms, jobs)?;
    out.extend_from_slice(END_OF_CARD.as_bytes())
}

/// Appends the table of the jobs, or that nothing waits.
fn put_table_of_waiting(
    out: &mut Vec<u8>,
    account: &[u8],
    terms: &Terms,
    jobs: &[Job],
) -> Result<(), AllocError>
    ensures { OnOk result
        (out.new.items ≡ out.old.items ++ table_of_waiting account.now terms.now jobs.now) }
{
    if jobs.is_empty() {
        return put_remark(out, NOTHING_WAITS);
    }
    put_table(out, account, terms, jobs)
}

/// Appends the table, with a row for each job.
#[tactic(auto, using(std::proofs::Common::append_assoc))]
fn put_table(
    out: &mut Vec<u8>,
    account: &[u8],
    terms: &Terms,
    jobs: &[Job],
) -> Result<(), AllocError>
    ensures { OnOk result (out.new.items ≡ out.old.items ++ (html waiting_columns
        ++ (flat_map (job_row account.now terms.now) jobs.now ++ END_OF_TABLE.now))) }
{
    put_waiting_columns(out)?;
    put_jobs(out, account, terms, jobs)?;
    out.extend_from_slice(END_OF_TABLE.as_bytes())
}

/// Appends a row for each job.
fn put_jobs(
    out: &mut Vec<u8>,
    account: &[u8],
    terms: &Terms,
    jobs: &[Job],
) -> Result<(), AllocError>
    ensures { OnOk result
        (out.new.items ≡ out.old.items ++ flat_map (job_row account.now terms.now) jobs.now) }
{
    for job in jobs {
        put_job_row(out, account, terms, job)?;
    }
    Ok(())
}

/// Appends the row of a job: its cells, and its form.
#[tactic(auto, using(std::proofs::Common::append_assoc), unfolding(crate::specs::Waiting::job_row))]
fn put_job_row(
    out: &mut Vec<u8>,
    account: &[u8],
    terms: &Terms,
    job: &Job,
) -> Result<(), AllocError>
    ensures { OnOk result
        (out.new.items ≡ out.old.items ++ job_row account.now terms.now job.now) }
{
    put_job_cells(out, phase_of(job), terms, job)?;
    put_job_acts(out, account, terms, job)
}

/// Appends the name of a job, how it stands, its counts, and what it costs.
#[tactic(auto, using(std::proofs::Common::append_assoc), unfolding(crate::specs::Waiting::job_cells))]
fn put_job_cells(
    out: &mut Vec<u8>,
    phase: Phase,
    terms: &Terms,
    job: &Job,
) -> Result<(), AllocError>
    ensures { OnOk result (out.new.items ≡ out.old.items ++ job_cells phase terms.now job.now) }
{
    put_job_name(out, job.job, name_words(job.name.as_slice()))?;
    put_state_cell(out, phase, terms, &job.standing)?;
    put_counts(out, phase, &job.standing)?;
    put_price_cell(out, phase, terms, &job.standing)
}

/// Gives the name of a job, or that it was given none.
pub(crate) fn name_words(name: &[u8]) -> &[u8]
    ensures { result.now ≡ name_words name.now }
{
    if name.is_empty() {
        return NO_NAME.as_bytes();
    }
    name
}

/// Appends how a job stands, and what helps.
#[tactic(auto, using(std::proofs::Common::append_assoc), unfolding(crate::specs::Waiting::state_cell))]
fn put_state_cell(
    out: &mut Vec<u8>,
    phase: Phase,
    terms: &Terms,
    s: &Standing,
) -> Result<(), AllocError>
    ensures { OnOk result (out.new.items ≡ out.old.items ++ state_cell phase terms.now s.now) }
{
    put_job_state(out, sign(phase), word(phase), why(phase, terms, s))?;
    put_advice(out, phase, terms, s)?;
    out.extend_from_slice(END_OF_STATE.as_bytes())
}

/// Appends the cells of a job's device, pages, copies, files, and when it was made.
pub(crate) fn put_counts(out: &mut Vec<u8>, phase: Phase, s: &Standing) -> Result<(), AllocError>
    ensures { OnOk result (out.new.items ≡ out.old.items ++ html (counts_of phase s.now)) }
{
    put_job_counts(
        out,
        device_words(phase, &s.device),
        s.impressions,
        s.copies,
        s.documents,
        s.created,
    )
}

/// Gives the name of the device where the job may be printed, or is, or words in its place.
fn device_words(phase: Phase, device: &Option<Name>) -> &[u8]
    ensures { result.now ≡ device_words phase device.now }
{
    match device {
        Some(name) => name.bytes(),
        None => no_device_words(phase).as_bytes(),
    }
}

/// Gives the words for a job of no device: any may print it once it is released, else none yet.
fn no_device_words(phase: Phase) -> &'static str
    ensures { result.now ≡ no_device_words phase }
{
    match phase {
        Phase::Released => ANY_DEVICE,
        _ => NO_DEVICE_YET,
    }
}

/// Appends the form of a job, with a button for each act that may go through.
fn put_job_acts(
    out: &mut Vec<u8>,
    account: &[u8],
    terms: &Terms,
    job: &Job,
) -> Result<(), AllocError>
    ensures { OnOk result
        (out.new.items ≡ out.old.items ++ job_acts account.now terms.now job.now) }
{
    let offered = offer(terms.left, &job.standing);
    put_job_form(out, account, phase_of(job), offered, job.job)
}

/// Appends a job's form with its buttons. Of a job that its owner could release, `offered` are the
/// units of that, if so many are left.
#[tactic(auto, using(std::proofs::Common::append_assoc), unfolding(crate::specs::Waiting::job_form))]
fn put_job_form(
    out: &mut Vec<u8>,
    account: &[u8],
    phase: Phase,
    offered: Option<u64>,
    number: u32,
) -> Result<(), AllocError>
    ensures { OnOk result (out.new.items ≡ out.old.items
        ++ job_form account.now number (buttons phase offered number)) }
{
    put_acts_start(out, account, number)?;
    put_buttons(out, phase, offered, number)?;
    out.extend_from_slice(END_OF_ACTS.as_bytes())
}

/// Appends a button for each act that may go through: release, hold or cancel.
fn put_buttons(
    out: &mut Vec<u8>,
    phase: Phase,
    offered: Option<u64>,
    number: u32,
) -> Result<(), AllocError>
    ensures { OnOk result (out.new.items ≡ out.old.items ++ buttons phase offered number) }
{
    match phase {
        Phase::Ready => put_ready_buttons(out, offered, number),
        Phase::Released => put_hold_buttons(out, number),
        Phase::Incomplete | Phase::Locked | Phase::Uncounted | Phase::Printing => {
            put_cancel_button(out, number)
        }
        Phase::Stopping | Phase::Printed | Phase::Canceled | Phase::Failed => Ok(()),
    }
}

/// Appends the buttons of a job that its owner could release: with Release if enough is left.
fn put_ready_buttons(out: &mut Vec<u8>, offered: Option<u64>, number: u32) -> Result<(), AllocError>
    ensures { OnOk result (out.new.items ≡ out.old.items ++ ready_buttons offered number) }
{
    match offered {
        None => put_cancel_button(out, number),
        Some(units) => put_release_buttons(out, units, number),
    }
}

/// Appends the buttons of a job that its owner may release, for so many units.
#[tactic(auto, using(std::proofs::Common::append_assoc), unfolding(crate::specs::Waiting::release_buttons))]
fn put_release_buttons(out: &mut Vec<u8>, units: u64, number: u32) -> Result<(), AllocError>
    ensures { OnOk result (out.new.items ≡ out.old.items ++ release_buttons units number) }
{
    put_release_button(out, units, number)?;
    put_cancel_button(out, number)
}

/// Appends the buttons of a job that is released.
#[tactic(auto, using(std::proofs::Common::append_assoc), unfolding(crate::specs::Waiting::hold_buttons))]
pub(crate) fn put_hold_buttons(out: &mut Vec<u8>, number: u32) -> Result<(), AllocError>
    ensures { OnOk result (out.new.items ≡ out.old.items ++ hold_buttons number) }
{
    put_button(out, "", "hold", HOLD, number)?;
    put_cancel_button(out, number)
}

#[tactic(auto, unfolding(crate::specs::Waiting::cancel_button))]
pub(crate) fn put_cancel_button(out: &mut Vec<u8>, number: u32) -> Result<(), AllocError>
    ensures { OnOk result (out.new.items ≡ out.old.items ++ cancel_button number) }
{
    put_button(out, "", "cancel", CANCEL, number)
}

/// Appends the start of the table, with the heads of its columns.
fn put_waiting_columns(out: &mut Vec<u8>) -> Result<(), AllocError>
    ensures { OnOk result (out.new.items ≡ out.old.items ++ html waiting_columns) }
{
    put_all(
        out,
        &[
            Piece::Mark("<table class=\"jobs\">\n<thead><tr><th scope=\"col\" class=\"number\">"),
            Piece::Mark(NUMBER),
            Piece::Mark("</th><th scope=\"col\">"),
            Piece::Mark(JOB),
            Piece::Mark("</th><th scope=\"col\">"),
            Piece::Mark(STATE),
            Piece::Mark("</th><th scope=\"col\">"),
            Piece::Mark(DEVICE),
            Piece::Mark("</th><th scope=\"col\" class=\"count\">"),
            Piece::Mark(PAGES),
            Piece::Mark("</th><th scope=\"col\" class=\"count\">"),
            Piece::Mark(COPIES),
            Piece::Mark("</th><th scope=\"col\" class=\"count\">"),
            Piece::Mark(FILES),
            Piece::Mark("</th><th scope=\"col\">"),
            Piece::Mark(MADE),
            Piece::Mark("</th><th scope=\"col\" class=\"count\">"),
            Piece::Mark(UNITS_NEEDED_BY_JOB),
            Piece::Mark("</th><th scope=\"col\"><span class=\"unseen\">"),
            Piece::Mark(ACTS),
            Piece::Mark("</span></th></tr></thead>\n<tbody>\n"),
        ],
    )
}

/// Appends the number and the name of a job.
pub(crate) fn put_job_name(out: &mut Vec<u8>, number: u32, name: &[u8]) -> Result<(), AllocError>
    ensures { OnOk result (out.new.items ≡ out.old.items ++ html (job_name number name.now)) }
{
    put_all(
        out,
        &[
            Piece::Mark("<tr><td class=\"number\" data-label=\""),
            Piece::Mark(JOB),
            Piece::Mark("\">"),
            Piece::Number(number as u64),
            Piece::Mark("</td><th scope=\"row\" id=\"job-"),
            Piece::Number(number as u64),
            Piece::Mark("\"><bdi>"),
            Piece::Text(name),
            Piece::Mark("</bdi></th>\n"),
        ],
    )
}

/// Appends how a job stands. What helps may go behind it.
pub(crate) fn put_job_state<'a>(
    out: &mut Vec<u8>,
    symbol: &'a str,
    state: &'a str,
    why: &'a str,
) -> Result<(), AllocError>
    ensures { OnOk result
        (out.new.items ≡ out.old.items ++ html (job_state symbol.now state.now why.now)) }
{
    put_all(
        out,
        &[
            Piece::Mark("<td><span class=\"state\"><svg class=\"sign\" aria-hidden=\"true\"><use "),
            Piece::Mark("href=\"#"),
            Piece::Mark(symbol),
            Piece::Mark("\"/></svg>"),
            Piece::Mark(state),
            Piece::Mark("</span><small>"),
            Piece::Mark(why),
        ],
    )
}

/// Appends where a job may be printed, its pages, copies and files, and when it was made (in
/// seconds since 1970-01-01T00:00:00Z).
fn put_job_counts(
    out: &mut Vec<u8>,
    device: &[u8],
    impressions: u32,
    copies: u32,
    documents: u32,
    created: u64,
) -> Result<(), AllocError>
    ensures { OnOk result
        (out.new.items ≡ out.old.items
        ++ html (job_counts device.now impressions copies documents created)) }
{
    put_all(
        out,
        &[
            Piece::Mark("<td data-label=\""),
            Piece::Mark(DEVICE),
            Piece::Mark("\">"),
            Piece::Text(device),
            Piece::Mark("</td><td class=\"count\" data-label=\""),
            Piece::Mark(PAGES),
            Piece::Mark("\">"),
            Piece::Known(impressions),
            Piece::Mark("</td><td class=\"count\" data-label=\""),
            Piece::Mark(COPIES),
            Piece::Mark("\">"),
            Piece::Number(copies as u64),
            Piece::Mark("</td><td class=\"count\" data-label=\""),
            Piece::Mark(FILES),
            Piece::Mark("\">"),
            Piece::Number(documents as u64),
            Piece::Mark("</td>\n<td class=\"when\" data-label=\""),
            Piece::Mark(MADE),
            Piece::Mark("\">"),
            Piece::Moment(created),
            Piece::Mark("</td>\n"),
        ],
    )
}

/// Appends the start of a job's form, which goes to `/ACCOUNT/JOB`.
fn put_acts_start(out: &mut Vec<u8>, account: &[u8], number: u32) -> Result<(), AllocError>
    ensures { OnOk result (out.new.items ≡ out.old.items ++ html (acts_start account.now number)) }
{
    put_all(
        out,
        &[
            Piece::Mark("<td class=\"acts\"><form method=\"post\" action=\"/"),
            Piece::Text(account),
            Piece::Mark("/"),
            Piece::Number(number as u64),
            Piece::Mark("\">"),
        ],
    )
}

/// Appends a button of a job's form. `look` is its class or nothing, `act` what the form sends,
/// `label` what it says.
fn put_button<'a>(
    out: &mut Vec<u8>,
    look: &'a str,
    act: &'a str,
    label: &'a str,
    number: u32,
) -> Result<(), AllocError>
    ensures { OnOk result
        (out.new.items ≡ out.old.items ++ html (button look.now act.now label.now number)) }
{
    put_all(
        out,
        &[
            Piece::Mark("<button"),
            Piece::Mark(look),
            Piece::Mark(" name=\"act\" value=\""),
            Piece::Mark(act),
            Piece::Mark("\" aria-describedby=\"job-"),
            Piece::Number(number as u64),
            Piece::Mark("\">"),
            Piece::Mark(label),
            Piece::Mark("</button>"),
        ],
    )
}

/// Appends the button that releases a job, for so many units.
fn put_release_button(out: &mut Vec<u8>, units: u64, number: u32) -> Result<(), AllocError>
    ensures { OnOk result (out.new.items ≡ out.old.items ++ html (release_button units number)) }
{
    put_all(
        out,
        &[
            Piece::Mark("<button"),
            Piece::Mark(FIRST_ACT),
            Piece::Mark(" name=\"act\" value=\"release\" aria-describedby=\"job-"),
            Piece::Number(number as u64),
            Piece::Mark("\">"),
            Piece::Mark(RELEASE_FOR),
            Piece::Number(units),
            Piece::Mark("</button>"),
        ],
    )
}
