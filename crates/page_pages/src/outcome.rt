//! What came of the last act, told at the head of the owner's page.

ghost use Rattle.std.specs.Prelude.{◌≡◌, ◌++◌, OnOk};
ghost use Rattle.page_pages.specs.Outcomes.{done_note, failed_note, refused_file, refused_job, done, next_of, not_done, outcome_if_any, refused, refused_start, told};
ghost use Rattle.page_markup.specs.Parts.{html};
ghost use Rattle.page_pages.specs.Reasons.{reason};

use crate::markup::END_OF_NOTE;
use crate::reason::put_reason;
use crate::texts::{
    DONE_CANCEL, DONE_HOLD, DONE_PRINT, DONE_RELEASE, JOB, NOT_CANCEL, NOT_DONE, NOT_HOLD,
    NOT_PRINT, NOT_RELEASE, THEN_CANCEL, THEN_HOLD, THEN_PRINT, THEN_RELEASE, TRY_AGAIN,
};
use account_rules::Word;
use page_markup::{Piece, put_all};
use std::alloc::AllocError;

/// What an owner may do by a page.
#[derive(Clone, Copy)]
pub enum Act {
    Release,
    Hold,
    Cancel,
    Print,
}

/// What came of an act.
#[derive(Clone, Copy)]
pub enum Outcome {
    /// It was done, with the job or by making it.
    Done { act: Act, job: u32 },
    /// It was refused. Of printing the number says nothing.
    Refused { act: Act, job: u32, word: Word },
    /// The store failed, and nothing was done.
    Failed,
}

/// Appends what came of the last act, if the page tells it.
pub(crate) fn put_outcome_if_any(
    out: &mut Vec<u8>,
    outcome: Option<Outcome>,
) -> Result<(), AllocError>
    ensures { OnOk result (out.new.items ≡ out.old.items ++ outcome_if_any outcome) }
{
    match outcome {
        Some(outcome) => put_outcome(out, outcome),
        None => Ok(()),
    }
}

/// Appends what came of an act.
fn put_outcome(out: &mut Vec<u8>, outcome: Outcome) -> Result<(), AllocError>
    ensures { OnOk result (out.new.items ≡ out.old.items ++ told outcome) }
{
    match outcome {
        Outcome::Done { act, job } => put_done_note(out, job, done(act), next_of(act)),
        Outcome::Refused { act, job, word } => put_refused(out, act, job, word),
        Outcome::Failed => put_failed_note(out),
    }
}

/// Appends that an act was refused, and why.
#[tactic(auto, using(std::proofs::Common::append_assoc), unfolding(crate::specs::Outcomes::refused))]
fn put_refused(out: &mut Vec<u8>, act: Act, job: u32, word: Word) -> Result<(), AllocError>
    ensures { OnOk result (out.new.items ≡ out.old.items ++ refused act job word) }
{
    put_refused_start(out, act, job)?;
    put_reason(out, word)?;
    out.extend_from_slice(END_OF_NOTE.as_bytes())
}

/// Appends what was refused: a file, or an act on a job.
fn put_refused_start(out: &mut Vec<u8>, act: Act, job: u32) -> Result<(), AllocError>
    ensures { OnOk result (out.new.items ≡ out.old.items ++ refused_start act job) }
{
    match act {
        Act::Print => put_refused_file(out),
        _ => put_refused_job(out, job, not_done(act)),
    }
}

/// Gives the words that tell, behind `Job NUMBER`, that the act was done.
fn done(act: Act) -> &'static str
    ensures { result.now ≡ done act }
{
    match act {
        Act::Release => DONE_RELEASE,
        Act::Hold => DONE_HOLD,
        Act::Cancel => DONE_CANCEL,
        Act::Print => DONE_PRINT,
    }
}

/// Gives the sentence that tells what follows, once the act was done.
fn next_of(act: Act) -> &'static str
    ensures { result.now ≡ next_of act }
{
    match act {
        Act::Release => THEN_RELEASE,
        Act::Hold => THEN_HOLD,
        Act::Cancel => THEN_CANCEL,
        Act::Print => THEN_PRINT,
    }
}

/// Gives the words that tell that the act was not done. Those of `Print` stand by themselves.
fn not_done(act: Act) -> &'static str
    ensures { result.now ≡ not_done act }
{
    match act {
        Act::Release => NOT_RELEASE,
        Act::Hold => NOT_HOLD,
        Act::Cancel => NOT_CANCEL,
        Act::Print => NOT_PRINT,
    }
}

/// Appends that an act was done with a job, and what follows.
fn put_done_note<'a>(
    out: &mut Vec<u8>,
    number: u32,
    said: &'a str,
    next: &'a str,
) -> Result<(), AllocError>
    ensures { OnOk result
        (out.new.items ≡ out.old.items ++ html (done_note number said.now next.now)) }
{
    put_all(
        out,
        &[
            Piece::Mark("<div class=\"note good\" role=\"status\">"),
            Piece::Mark("<svg class=\"sign\" aria-hidden=\"true\"><use href=\"#done\"/></svg>"),
            Piece::Mark("<p><strong>"),
            Piece::Mark(JOB),
            Piece::Mark(" "),
            Piece::Number(number as u64),
            Piece::Mark(said),
            Piece::Mark("</strong> "),
            Piece::Mark(next),
            Piece::Mark("</p></div>\n"),
        ],
    )
}

/// Appends that an act was not done with a job. The reason goes behind it.
fn put_refused_job(out: &mut Vec<u8>, number: u32, said: &str) -> Result<(), AllocError>
    ensures { OnOk result (out.new.items ≡ out.old.items ++ html (refused_job number said.now)) }
{
    put_all(
        out,
        &[
            Piece::Mark("<div class=\"note\" role=\"alert\">"),
            Piece::Mark("<svg class=\"sign\" aria-hidden=\"true\"><use href=\"#failed\"/></svg>"),
            Piece::Mark("<p><strong>"),
            Piece::Mark(JOB),
            Piece::Mark(" "),
            Piece::Number(number as u64),
            Piece::Mark(said),
            Piece::Mark("</strong> "),
        ],
    )
}

/// Appends that a file was not taken. The reason goes behind it.
fn put_refused_file(out: &mut Vec<u8>) -> Result<(), AllocError>
    ensures { OnOk result (out.new.items ≡ out.old.items ++ html refused_file) }
{
    put_all(
        out,
        &[
            Piece::Mark("<div class=\"note\" role=\"alert\">"),
            Piece::Mark("<svg class=\"sign\" aria-hidden=\"true\"><use href=\"#failed\"/></svg>"),
            Piece::Mark("<p><strong>"),
            Piece::Mark(NOT_PRINT),
            Piece::Mark("</strong> "),
        ],
    )
}

/// Appends that the store failed, and that nothing was done.
fn put_failed_note(out: &mut Vec<u8>) -> Result<(), AllocError>
    ensures { OnOk result (out.new.items ≡ out.old.items ++ html failed_note) }
{
    put_all(
        out,
        &[
            Piece::Mark("<div class=\"note\" role=\"alert\">"),
            Piece::Mark("<svg class=\"sign\" aria-hidden=\"true\"><use href=\"#failed\"/></svg>"),
            Piece::Mark("<p><strong>"),
            Piece::Mark(NOT_DONE),
            Piece::Mark("</strong> "),
            Piece::Mark(TRY_AGAIN),
            Piece::Mark("</p></div>\n"),
        ],
    )
}
