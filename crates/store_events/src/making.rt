//! Print-Job and Create-Job: make a new job.

ghost use Rattle.std.specs.Prelude.{◌≡◌, ℕ};
ghost use Rattle.store_events.specs.Prelude.{DoesResponse, HasAccountRow, IfOurTables, StaysOpen, plain_ask};
ghost use Rattle.rows_statements.specs.NewDocuments.{first_of};
ghost use Rattle.account_machine.specs.NewJobs.{made, new_document};
ghost use Rattle.store_events.specs.Reading.{NextPlaceIsFree, QueueIsShort};

use crate::request::Request;
use crate::responses::{job_shown, request_refused};
use account_machine::{Answered, Ask, Operation, check_accepting, job_made, made_names};
use rows_statements::NewDocument;
use rows_tables::TableFault;
use sqlite::Alter;
use std::alloc::Global;
use store_rounds::{Rounds, count_unfinished, make_job};

/// Makes the job that the request asks for, and answers with it. It is refused where the queue
/// takes no job.
pub fn make<S: Alter>(
    alloc: Global,
    connection: &mut Rounds<S>,
    request: &Request<'_>,
) -> Result<Answered, TableFault>
    ensures connection { StaysOpen S.Store connection.old connection.new result }
    ensures served { let it = request.entry.now in
        IfOurTables S.Store connection.old connection.new (HasAccountRow it.account it.row) →
        DoesResponse S.Store connection.old connection.new it.account
        (λ db. QueueIsShort it.account db × NextPlaceIsFree it.account (plain_ask it.ask) db)
        (λ room devices. made room it.account it.now (plain_ask it.ask)) result }
{
    let ask = &request.ask;
    let next_job = request.row.next_job;
    let unfinished = count_unfinished(connection, request.account)?;
    if let Err(refusal) = check_accepting(unfinished, next_job) {
        return request_refused(alloc, ask, refusal);
    }
    let job = job_made(alloc, next_job, request.now, ask)?;
    let answered = job_shown(alloc, ask, &request.place(), &job, Some(&made_names()))?;
    make_job(connection, request.account, &job, first_document(ask))?;
    Ok(answered)
}

/// The document that a Print-Job brings. A Create-Job brings none.
fn first_document<'a>(ask: &Ask<'a>) -> Option<NewDocument<'a>>
    ensures { (number : ℕ) →
        first_of number result ≡ new_document number (plain_ask ask.entry.now) }
{
    if ask.operation != Operation::PrintJob {
        return None;
    }
    Some(NewDocument {
        number: 1,
        format: ask.format,
        bytes: ask.payload,
    })
}
