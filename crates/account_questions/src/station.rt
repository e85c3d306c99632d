//! Answers what a station asks about an account: which jobs wait, and the documents of a job again.

ghost use Rattle.std.specs.Prelude.{◌≡◌, filter, IfOk};
ghost use Rattle.account_questions.specs.Stations.{is_for, printed_by};

use account_rules::{Job, Name, Word, is_bound_elsewhere};
use ipp_coding::List;
use std::alloc::{AllocError, Global};

/// Keeps those of an account's unfinished jobs that the station may release, start or settle: all
/// but the ones that are bound to another device.
pub fn waiting_at(alloc: Global, device: Name, jobs: List<Job>) -> Result<List<Job>, AllocError>
    ensures { IfOk result (λ waiting. waiting ≡ filter (is_for device) jobs) }
{
    let mut items = Vec::new(alloc);
    for job in jobs.items {
        if is_for(device, &job) {
            items.push(job)?;
        }
    }
    Ok(List { items })
}

/// Whether the job is bound to the device, or to none.
fn is_for(device: Name, job: &Job) -> bool
    ensures { result ≡ is_for device job.now }
{
    !is_bound_elsewhere(job.standing.device, device)
}

/// Gives back the job whose documents a device asks for again: the device started it and has not
/// settled it, and nobody canceled it. Else the word that tells why not.
pub fn printed_by(device: Name, found: Option<Job>) -> Result<Job, Word>
    ensures { result ≡ printed_by device found }
{
    let Some(job) = found else {
        return Err(Word::NoJob);
    };
    if !job.standing.state.is_processing() {
        return Err(Word::NotProcessing);
    }
    if !is_for(device, &job) {
        return Err(Word::OtherDevice);
    }
    if job.standing.stopping {
        return Err(Word::Stopping);
    }
    Ok(job)
}
