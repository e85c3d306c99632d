//! The jobs that ended, as a table: on the owner's page and on a statement.

ghost use Rattle.std.specs.Prelude.{◌≡◌, ◌++◌, OnOk, flat_map};
ghost use Rattle.page_pages.specs.Ended.{ended_columns, ended_counts, ended_name, device_or_none, ended_card, ended_job, table_of_ended};
ghost use Rattle.page_pages.specs.Frames.{card, remark};
ghost use Rattle.page_markup.specs.Parts.{html};
ghost use Rattle.page_pages.specs.Phases.{phase_of, sign, word};

use crate::frame::{put_card, put_remark};
use crate::markup::{END_OF_CARD, END_OF_TABLE};
use crate::phase::{phase_of, sign, word};
use crate::texts::{
    DEVICE, JOB, LAST_ENDED, NO_DEVICE, NOTHING_ENDED, NUMBER, STATE, UNITS_CHARGED, WHEN_ENDED,
};
use account_rules::{Job, Name};
use page_markup::{Piece, put_all};
use std::alloc::AllocError;

/// Appends the card of the jobs that ended last.
#[tactic(auto, using(std::proofs::Common::append_assoc), unfolding(crate::specs::Ended::ended_card))]
pub(crate) fn put_ended_card(out: &mut Vec<u8>, jobs: &[Job]) -> Result<(), AllocError>
    ensures { OnOk result (out.new.items ≡ out.old.items ++ ended_card jobs.now) }
{
    put_card(out, "ended", LAST_ENDED)?;
    put_table_of_ended(out, jobs)?;
    out.extend_from_slice(END_OF_CARD.as_bytes())
}

/// Appends the table of the jobs, or that none has ended.
pub(crate) fn put_table_of_ended(out: &mut Vec<u8>, jobs: &[Job]) -> Result<(), AllocError>
    ensures { OnOk result (out.new.items ≡ out.old.items ++ table_of_ended jobs.now) }
{
    if jobs.is_empty() {
        return put_remark(out, NOTHING_ENDED);
    }
    put_table(out, jobs)
}

/// Appends the table, with a row for each job.
#[tactic(auto, using(std::proofs::Common::append_assoc))]
fn put_table(out: &mut Vec<u8>, jobs: &[Job]) -> Result<(), AllocError>
    ensures { OnOk result (out.new.items ≡ out.old.items ++ (html ended_columns
        ++ (flat_map ended_job jobs.now ++ END_OF_TABLE.now))) }
{
    put_ended_columns(out)?;
    put_jobs(out, jobs)?;
    out.extend_from_slice(END_OF_TABLE.as_bytes())
}

/// Appends a row for each job.
fn put_jobs(out: &mut Vec<u8>, jobs: &[Job]) -> Result<(), AllocError>
    ensures { OnOk result (out.new.items ≡ out.old.items ++ flat_map ended_job jobs.now) }
{
    for job in jobs {
        put_ended_job(out, job)?;
    }
    Ok(())
}

/// Appends the row of a job that ended.
#[tactic(auto, using(std::proofs::Common::append_assoc), unfolding(crate::specs::Ended::ended_job))]
pub(crate) fn put_ended_job(out: &mut Vec<u8>, job: &Job) -> Result<(), AllocError>
    ensures { OnOk result (out.new.items ≡ out.old.items ++ ended_job job.now) }
{
    let phase = phase_of(job);
    put_ended_name(out, job.job, job.name.as_slice(), sign(phase), word(phase))?;
    put_ended_counts(
        out,
        device_or_none(&job.standing.device),
        job.standing.ended,
        job.standing.charged,
    )
}

/// Gives the name of the device that had the job, or `none`.
pub(crate) fn device_or_none(device: &Option<Name>) -> &[u8]
    ensures { result.now ≡ device_or_none device.now }
{
    match device {
        Some(name) => name.bytes(),
        None => NO_DEVICE.as_bytes(),
    }
}

/// Appends the start of the table, with the heads of its columns.
pub(crate) fn put_ended_columns(out: &mut Vec<u8>) -> Result<(), AllocError>
    ensures { OnOk result (out.new.items ≡ out.old.items ++ html ended_columns) }
{
    put_all(
        out,
        &[
            Piece::Mark(
                "<table class=\"jobs dense\">\n<thead><tr><th scope=\"col\" class=\"number\">",
            ),
            Piece::Mark(NUMBER),
            Piece::Mark("</th><th scope=\"col\">"),
            Piece::Mark(JOB),
            Piece::Mark("</th><th scope=\"col\">"),
            Piece::Mark(STATE),
            Piece::Mark("</th><th scope=\"col\">"),
            Piece::Mark(DEVICE),
            Piece::Mark("</th><th scope=\"col\">"),
            Piece::Mark(WHEN_ENDED),
            Piece::Mark("</th><th scope=\"col\" class=\"count\">"),
            Piece::Mark(UNITS_CHARGED),
            Piece::Mark("</th></tr></thead>\n<tbody>\n"),
        ],
    )
}

/// Appends the number and the name of a job, and how it ended.
fn put_ended_name<'a>(
    out: &mut Vec<u8>,
    number: u32,
    name: &'a [u8],
    symbol: &'a str,
    state: &'a str,
) -> Result<(), AllocError>
    ensures { OnOk result
        (out.new.items ≡ out.old.items ++ html (ended_name number name.now symbol.now state.now)) }
{
    put_all(
        out,
        &[
            Piece::Mark("<tr><td class=\"number\" data-label=\""),
            Piece::Mark(JOB),
            Piece::Mark("\">"),
            Piece::Number(number as u64),
            Piece::Mark("</td><th scope=\"row\"><bdi>"),
            Piece::Text(name),
            Piece::Mark("</bdi></th>\n<td><span class=\"state\">"),
            Piece::Mark("<svg class=\"sign\" aria-hidden=\"true\"><use href=\"#"),
            Piece::Mark(symbol),
            Piece::Mark("\"/></svg>"),
            Piece::Mark(state),
            Piece::Mark("</span></td>\n"),
        ],
    )
}

/// Appends where and when a job ended, and how many units it was charged.
fn put_ended_counts(
    out: &mut Vec<u8>,
    device: &[u8],
    ended: Option<u64>,
    charged: u64,
) -> Result<(), AllocError>
    ensures { OnOk result
        (out.new.items ≡ out.old.items ++ html (ended_counts device.now ended charged)) }
{
    put_all(
        out,
        &[
            Piece::Mark("<td data-label=\""),
            Piece::Mark(DEVICE),
            Piece::Mark("\">"),
            Piece::Text(device),
            Piece::Mark("</td><td class=\"when\" data-label=\""),
            Piece::Mark(WHEN_ENDED),
            Piece::Mark("\">"),
            Piece::Ending(ended),
            Piece::Mark("</td><td class=\"count\" data-label=\""),
            Piece::Mark(UNITS_CHARGED),
            Piece::Mark("\">"),
            Piece::Number(charged),
            Piece::Mark("</td></tr>\n"),
        ],
    )
}
