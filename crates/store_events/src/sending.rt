//! Send-Document: adds a document to an open job, or only closes it.

ghost use Rattle.std.specs.Prelude.{◌≡◌, ◌≤◌, IfOk, OnOk};
ghost use Rattle.store_events.specs.Prelude.{DoesResponse, HasAccountRow, HasJobRow, IfOurTables, IsNumbered, IsStanding, StaysOpen, plain_ask};
ghost use Rattle.rows_statements.specs.NewDocuments.{first_of};
ghost use Rattle.rows_statements.specs.Rows.{IsFree};
ghost use Rattle.store_events.specs.Reading.{SendingIsReadable};
ghost use Rattle.account_machine.specs.JobRequests.{document_taken, has_data, sent, sent_document};
ghost use Rattle.account_machine.specs.Requests.{refusing_ask_or};
ghost use Rattle.account_rules.specs.Acts.{SendDocument};
ghost use Rattle.account_rules.specs.Limits.{most_documents};
ghost use Rattle.account_rules.specs.Moves.{move};
ghost use Rattle.account_rules.specs.declared.job.Job.{Job as JobValue};
ghost use Rattle.store_events.specs.ProofKnown.{TakesDocument};

use crate::request::Request;
use crate::responses::{job_shown, request_refused};
use account_machine::{
    Answered, Ask, Job, Operation, Refusal, Standing, add_document, has_data, made_names, no_job,
};
use rows_statements::NewDocument;
use rows_tables::TableFault;
use sqlite::Alter;
use std::alloc::Global;
use store_rounds::{Rounds, look_up, restand_job};

/// Send-Document: adds the request's data, if there is any, to the job as its next document.
pub fn send<S: Alter>(
    alloc: Global,
    connection: &mut Rounds<S>,
    request: &Request<'_>,
) -> Result<Answered, TableFault>
    requires operation { request.now.ask.operation ≡ Operation.SendDocument }
    ensures connection { StaysOpen S.Store connection.old connection.new result }
    ensures served { let it = request.entry.now in
        IfOurTables S.Store connection.old connection.new (HasAccountRow it.account it.row) →
        DoesResponse S.Store connection.old connection.new it.account
        (SendingIsReadable it.account (plain_ask it.ask))
        (λ room devices. sent room it.account it.now (plain_ask it.ask)) result }
{
    let ask = &request.ask;
    let Some(job) = look_up(connection, request.account, ask.job)? else {
        return request_refused(alloc, ask, no_job());
    };
    let decided = added(job.standing, ask);
    take(alloc, connection, request, job, decided)
}

/// Decides Send-Document, by `add_document`: the job's next standing, or the refusal. An unfinished
/// job stays unfinished, with one document more where there is data.
fn added(standing: Standing, ask: &Ask<'_>) -> Result<Standing, Refusal>
    requires { IsStanding standing }
    ensures moved { let it = plain_ask ask.entry.now in
        result ≡ move (SendDocument it.last (has_data it)) standing }
    ensures in_range { IfOk result IsStanding }
    ensures takes { IfOk result (TakesDocument (has_data (plain_ask ask.entry.now)) standing) }
{
    add_document(standing, ask.last, has_data(ask))
}

/// Gives the job the standing that was decided, adds the request's data as its next document if
/// there is any, and answers with the job. A refusal is answered, and changes nothing. `Damaged`
/// where a document of the next number is in the table already.
fn take<S: Alter>(
    alloc: Global,
    connection: &mut Rounds<S>,
    request: &Request<'_>,
    job: Job,
    decided: Result<Standing, Refusal>,
) -> Result<Answered, TableFault>
    requires operation { request.now.ask.operation ≡ Operation.SendDocument }
    requires number { job.job ≡ request.now.ask.job }
    requires numbered { IsNumbered job }
    requires in_range { IfOk decided IsStanding }
    requires takes { IfOk decided
        (TakesDocument (has_data (plain_ask request.now.ask)) job.standing) }
    ensures connection { StaysOpen S.Store connection.old connection.new result }
    ensures served { let it = request.entry.now in
        IfOurTables S.Store connection.old connection.new
        (λ db. HasJobRow it.account job db × HasAccountRow it.account it.row db) →
        DoesResponse S.Store connection.old connection.new it.account
        (λ db. OnOk decided (IsFree it.account (sent_document (plain_ask it.ask) job) db))
        (λ room devices. refusing_ask_or room (plain_ask it.ask) decided
        (document_taken room it.account it.now (plain_ask it.ask) job)) result }
{
    let ask = &request.ask;
    let standing = match decided {
        Ok(standing) => standing,
        Err(refusal) => return request_refused(alloc, ask, refusal),
    };
    let document = next_document(ask, job.standing.documents);
    let shown = Job { standing, ..job };
    let answered = job_shown(alloc, ask, &request.place(), &shown, Some(&made_names()))?;
    restand_job(connection, request.account, ask.job, &standing, document)?;
    Ok(answered)
}

/// The request's data as the document behind the `documents` that the job has. `None` where it has
/// no data.
fn next_document<'a>(ask: &Ask<'a>, documents: u32) -> Option<NewDocument<'a>>
    requires { documents ≤ most_documents }
    ensures { (job : JobValue) → job.standing.documents ≡ documents →
        first_of ask.entry.now.job result ≡ sent_document (plain_ask ask.entry.now) job }
{
    if !has_data(ask) {
        return None;
    }
    Some(NewDocument {
        number: documents + 1,
        format: ask.format,
        bytes: ask.payload,
    })
}
