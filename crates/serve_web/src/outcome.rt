//! What came of an act, read from the answer to the IPP message that did it.
ghost use Rattle.std.specs.Prelude.{◌≡◌};
ghost use Rattle.serve_web.specs.Outcomes.{outcome_of, outcome_told, page_act};

use account_machine::{Answered, Verdict};
use client_owner::JobAct;
use page_pages::{Act, Outcome};
use store_rounds::StoreFault;

/// Gives the act as pages name it.
pub(crate) fn page_act(act: JobAct) -> Act
    ensures { result ≡ page_act act }
{
    match act {
        JobAct::Release => Act::Release,
        JobAct::Hold => Act::Hold,
        JobAct::Cancel => Act::Cancel,
    }
}

/// Tells what came of an act, with a job or making one, by what its message was answered.
pub(crate) fn outcome_told(act: Act, job: u32, told: &Result<Answered, StoreFault>) -> Outcome
    ensures { result ≡ outcome_told act job told.now }
{
    match told {
        Ok(answered) => outcome_of(act, job, answered.verdict),
        Err(_) => Outcome::Failed,
    }
}

/// Tells what came of an act by the verdict. The job is the one that was made, or else the one that
/// was asked for.
fn outcome_of(act: Act, job: u32, verdict: Verdict) -> Outcome
    ensures { result ≡ outcome_of act job verdict }
{
    match verdict {
        Verdict::Done { job: number, .. } => Outcome::Done {
            act,
            job: number.unwrap_or(job),
        },
        Verdict::Refused { refusal, .. } => Outcome::Refused {
            act,
            job,
            word: refusal.word,
        },
    }
}
