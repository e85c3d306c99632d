//! Makes the job that a request brings, and tells whether a request brings data.

ghost use Rattle.std.specs.Prelude.{◌≡◌, ◌<◌, ◌≤◌, IfOk};
ghost use Rattle.account_asks.specs.Asks.{IsAsk, plain_ask};
ghost use Rattle.account_asks.specs.Operations.{is_print_job};
ghost use Rattle.account_machine.specs.JobRequests.{has_data};
ghost use Rattle.account_machine.specs.NewJobs.{new_job};
ghost use Rattle.account_replies.specs.Limits.{IsShowable};
ghost use Rattle.account_rules.specs.Limits.{last_next_job};

use account_asks::{Ask, new_job};
use account_rules::{Job, Moment};
use ipp_coding::List;
use std::alloc::{AllocError, Global};

/// Makes the job of a Print-Job or a Create-Job under the number, 1 to 999999, with copies of its
/// texts.
pub fn job_made(alloc: Global, number: u32, now: Moment, ask: &Ask<'_>) -> Result<Job, AllocError>
    requires ask { IsAsk (plain_ask ask.now) }
    requires number { (1 ≤ number) × (number < last_next_job) }
    ensures limits { IfOk result IsShowable }
    ensures job { IfOk result (λ job. job ≡ new_job number (plain_ask ask.entry.now) now) }
{
    let name = copied(alloc, ask.name)?;
    let password = copied(alloc, ask.password)?;
    Ok(Job {
        job: number,
        name,
        password,
        standing: new_job(ask, now),
    })
}

/// Copies the bytes into a list of their own.
fn copied(alloc: Global, bytes: &[u8]) -> Result<List<u8>, AllocError>
    ensures copied { IfOk result (λ list. list ≡ bytes.now) }
{
    let items = Vec::from_slice(alloc, bytes)?;
    Ok(List { items })
}

/// Whether the request has data behind its attributes, which Send-Document takes as a document.
pub fn has_data(ask: &Ask<'_>) -> bool
    ensures { result ≡ has_data (plain_ask ask.entry.now) }
{
    !ask.payload.is_empty()
}
