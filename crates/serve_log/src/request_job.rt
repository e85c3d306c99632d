//! Finds the job that the line of a request names.
ghost use Rattle.std.specs.Prelude.{◌≡◌, IfOk};
ghost use Rattle.account_machine.specs.Verdicts.{job_numbered};
ghost use Rattle.serve_log.specs.RequestJobs.{job_answered, job_asked, job_in, job_of};

use account_asks::{AskFault, read_ask};
use account_machine::{Answered, Reply, Verdict};
use account_rules::Name;
use ipp_coding::HEADER_LENGTH;
use std::alloc::{AllocError, Global};

/// Finds the job that a request made, or else the one that it asks for. An error where memory was
/// refused.
pub(crate) fn job_of<F>(
    alloc: Global,
    account: Name,
    body: &[u8],
    told: &Result<Answered, F>,
) -> Result<Option<u32>, AllocError>
    ensures { IfOk result (λ job. job ≡ job_of account body.now told.now) }
{
    match told {
        Ok(answered) => job_answered(alloc, account, body, answered),
        Err(_) => job_asked(alloc, account, body),
    }
}

/// Finds the job by the answer, or by the request where the account is not open.
fn job_answered(
    alloc: Global,
    account: Name,
    body: &[u8],
    answered: &Answered,
) -> Result<Option<u32>, AllocError>
    ensures { IfOk result (λ job. job
        ≡ job_answered account body.now answered.now.reply answered.now.verdict) }
{
    match &answered.reply {
        Reply::NoAccount => job_asked(alloc, account, body),
        _ => Ok(job_in(answered.verdict)),
    }
}

/// Gives the job of a verdict, if it has one.
fn job_in(verdict: Verdict) -> Option<u32>
    ensures { result ≡ job_in verdict }
{
    match verdict {
        Verdict::Done { job, .. } => job,
        Verdict::Refused { job, .. } => job,
    }
}

/// Reads the job that a request asks for, if it asks for one and can be read.
fn job_asked(alloc: Global, account: Name, body: &[u8]) -> Result<Option<u32>, AllocError>
    ensures { IfOk result (λ job. job ≡ job_asked account body.now) }
{
    if body.len() < HEADER_LENGTH {
        return Ok(None);
    }
    match read_ask(alloc, body, account) {
        Ok(ask) => Ok(job_numbered(ask.job)),
        Err(AskFault::Refused { .. }) => Ok(None),
        Err(AskFault::Memory) => Err(AllocError),
    }
}

/// Gives the job of a number. 0 is none.
fn job_numbered(number: u32) -> Option<u32>
    ensures { result ≡ job_numbered number }
{
    if number == 0 { None } else { Some(number) }
}
