//! Get-Jobs: lists the jobs of an account.

ghost use Rattle.std.specs.Prelude.{◌≡◌, Err, IfOk};
ghost use Rattle.store_events.specs.Answers.{of_response};
ghost use Rattle.store_events.specs.Prelude.{DoesAsRoom, HasAccountRow, HoldsRoom, IfOurTables, IsNumbered, RoomValue, StaysOpen, plain_ask};
ghost use Rattle.std.specs.FinMap.{values};
ghost use Rattle.std.specs.List.{AllByRecursion};
ghost use Rattle.account_machine.specs.Queues.{asked_jobs, listed};
ghost use Rattle.store_events.specs.Reading.{JobsAreReadable};
ghost use Rattle.rows_tables.specs.Calls.{ReadsStore};

use crate::request::Request;
use crate::responses::jobs_shown;
use account_machine::{Answered, Ask, Job, Name, Which};
use ipp_coding::List;
use rows_statements::{ended_jobs, unfinished_jobs};
use rows_tables::TableFault;
use sqlite::Alter;
use std::alloc::Global;
use store_rounds::Rounds;

/// Get-Jobs: answers with the jobs that the request asks for.
pub fn list<S: Alter>(
    alloc: Global,
    connection: &mut Rounds<S>,
    request: &Request<'_>,
) -> Result<Answered, TableFault>
    ensures connection { StaysOpen S.Store connection.old connection.new result }
    ensures served { let it = request.entry.now in
        IfOurTables S.Store connection.old connection.new (HasAccountRow it.account it.row) →
        DoesAsRoom S.Store connection.old connection.new it.account
        (JobsAreReadable it.account it.ask.which it.ask.limit)
        (λ room devices. of_response (listed room it.account it.now (plain_ask it.ask)))
        (λ room devices. room) result }
{
    let ask = &request.ask;
    let jobs = asked_jobs(alloc, connection, request.account, ask)?;
    jobs_shown(alloc, ask, &request.place(), jobs.as_slice())
}

/// Reads the jobs that a Get-Jobs asks for, unfinished or ended ones, in the order of the answer.
fn asked_jobs<S: Alter>(
    alloc: Global,
    connection: &mut Rounds<S>,
    account: Name,
    ask: &Ask<'_>,
) -> Result<List<Job>, TableFault>
    ensures listed { IfOurTables S.Store connection.old connection.new
        (λ db. (room : RoomValue) → HoldsRoom db account room →
        IfOk result (λ jobs. jobs ≡ asked_jobs (plain_ask ask.entry.now) (values room.jobs))) }
    ensures numbered { IfOk result (AllByRecursion IsNumbered) }
    ensures damaged { IfOurTables S.Store connection.old connection.new
        (λ db. result ≡ Err TableFault.Damaged
        → JobsAreReadable account ask.entry.now.which ask.entry.now.limit db → ⊥) }
    ensures reads { ReadsStore S.Store connection.old connection.new result }
{
    match ask.which {
        Which::NotCompleted => unfinished_jobs(alloc, connection, account, ask.limit),
        Which::Completed => ended_jobs(alloc, connection, account, ask.limit),
    }
}
