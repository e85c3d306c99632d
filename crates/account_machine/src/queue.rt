//! Writes the response to a Get-Jobs, once its jobs were looked up.

ghost use Rattle.std.specs.Prelude.{◌≡◌, map, None, Some, ℕ, List, IfOk};
ghost use Rattle.std.specs.Borrow.{Bor};
ghost use Rattle.std.specs.List.{AllByRecursion};
ghost use Rattle.account_asks.specs.Asks.{IsAsk, plain_ask};
ghost use Rattle.account_machine.specs.Queues.{listed_names};
ghost use Rattle.account_machine.specs.Requests.{answer_to};
ghost use Rattle.account_replies.specs.Limits.{IsPlace, IsShowable};
ghost use Rattle.account_replies.specs.Places.{plain_place};
ghost use Rattle.account_replies.specs.Responses.{job_groups};

use crate::respond::wanted_names;
use account_asks::Ask;
use account_replies::{AsJob, Place, with_jobs};
use ipp_coding::List;
use std::alloc::{AllocError, Global};

/// Writes the response to a Get-Jobs that these jobs answer: of each the attributes that the
/// request names, or where it names none job-uri and job-id alone.
pub fn jobs_told<J: AsJob>(
    alloc: Global,
    ask: &Ask<'_>,
    at: &Place<'_>,
    jobs: &[J],
) -> Result<List<u8>, AllocError>
    requires ask { IsAsk (plain_ask ask.now) }
    requires place { IsPlace (plain_place at.now) }
    requires jobs { AllByRecursion (λ job. IsShowable (J.job job)) jobs.now }
    ensures text { IfOk result
        (λ text. text ≡ answer_to (plain_ask ask.entry.now) (job_groups (plain_place at.entry.now)
        (map J.job jobs.now) (listed_names (plain_ask ask.entry.now).wanted))) }
{
    let unsupported = ask.unsupported.as_slice();
    match wanted_names(ask) {
        Some(names) => with_jobs(alloc, ask.header, unsupported, at, jobs, Some(names)),
        None => with_jobs(
            alloc,
            ask.header,
            unsupported,
            at,
            jobs,
            Some(&listed_names()),
        ),
    }
}

/// The attributes that Get-Jobs tells of a job where the request names none.
fn listed_names() -> [&'static [u8]; 2]
    ensures { Some (map (λ (name : Bor (List ℕ)). name.now) result) ≡ listed_names None }
{
    [b"job-uri", b"job-id"]
}
