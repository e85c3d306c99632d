//! The operations on one job: Get-Job-Attributes, Cancel-Job, Hold-Job and Release-Job.

ghost use Rattle.std.specs.Prelude.{◌≡◌, ⊤, IfOk};
ghost use Rattle.store_events.specs.Answers.{of_response};
ghost use Rattle.store_events.specs.Prelude.{DoesAsRoom, DoesResponse, HasAccountRow, HasJobRow, IfOurTables, IsStanding, Keeps, StaysOpen, plain_ask};
ghost use Rattle.account_machine.specs.JobRequests.{acted, cancel_of, job_shown, hold_of, release_of};
ghost use Rattle.store_rounds.specs.Reading.{JobIsReadable};
ghost use Rattle.store_events.specs.Reading.{ReleaseIsReadable};

use crate::quota::keep_to_quota;
use crate::request::Request;
use crate::responses::{job_shown, request_done, request_refused};
use crate::standing::stand;
use account_machine::{Answered, Job, Refusal, Standing, no_job, released, wanted_names};
use rows_tables::TableFault;
use sqlite::Alter;
use std::alloc::Global;
use store_rounds::{Rounds, look_up};

/// Get-Job-Attributes: answers the job's attributes that were asked for.
pub fn describe<S: Alter>(
    alloc: Global,
    connection: &mut Rounds<S>,
    request: &Request<'_>,
) -> Result<Answered, TableFault>
    ensures connection { StaysOpen S.Store connection.old connection.new result }
    ensures served { let it = request.entry.now in
        IfOurTables S.Store connection.old connection.new (HasAccountRow it.account it.row) →
        DoesAsRoom S.Store connection.old connection.new it.account
        (JobIsReadable it.account it.ask.job)
        (λ room devices. of_response (job_shown room it.account it.now (plain_ask it.ask)))
        (λ room devices. room) result }
{
    let ask = &request.ask;
    let Some(job) = look_up(connection, request.account, ask.job)? else {
        return request_refused(alloc, ask, no_job());
    };
    job_shown(alloc, ask, &request.place(), &job, wanted_names(ask))
}

/// Cancel-Job: cancels the job, or tells its device to stop.
pub fn cancel<S: Alter>(
    alloc: Global,
    connection: &mut Rounds<S>,
    request: &Request<'_>,
) -> Result<Answered, TableFault>
    ensures served { let it = request.entry.now in
        DoesResponse S.Store connection.old connection.new it.account
        (JobIsReadable it.account it.ask.job)
        (λ room devices. acted room (plain_ask it.ask)
        (cancel_of room it.now (plain_ask it.ask))) result }
{
    let ask = &request.ask;
    let Some(job) = look_up(connection, request.account, ask.job)? else {
        return request_refused(alloc, ask, no_job());
    };
    let decided = account_machine::cancel(job.standing, request.now);
    act(alloc, connection, request, &job, decided)
}

/// Hold-Job: takes the job's release back.
pub fn hold<S: Alter>(
    alloc: Global,
    connection: &mut Rounds<S>,
    request: &Request<'_>,
) -> Result<Answered, TableFault>
    ensures served { let it = request.entry.now in
        DoesResponse S.Store connection.old connection.new it.account
        (JobIsReadable it.account it.ask.job)
        (λ room devices. acted room (plain_ask it.ask)
        (hold_of room (plain_ask it.ask))) result }
{
    let ask = &request.ask;
    let Some(job) = look_up(connection, request.account, ask.job)? else {
        return request_refused(alloc, ask, no_job());
    };
    let decided = account_machine::hold(job.standing);
    act(alloc, connection, request, &job, decided)
}

/// Release-Job: releases the job to any device of rate 1, as far as the quota allows it.
pub fn release<S: Alter>(
    alloc: Global,
    connection: &mut Rounds<S>,
    request: &Request<'_>,
) -> Result<Answered, TableFault>
    ensures served { let it = request.entry.now in
        DoesResponse S.Store connection.old connection.new it.account
        (ReleaseIsReadable it.account it.now it.ask.job)
        (λ room devices. acted room (plain_ask it.ask)
        (release_of room it.now (plain_ask it.ask))) result }
{
    let ask = &request.ask;
    let Some(job) = look_up(connection, request.account, ask.job)? else {
        return request_refused(alloc, ask, no_job());
    };
    let has_password = !job.password.as_slice().is_empty();
    let asked = released(job.standing, has_password);
    let decided = keep_to_quota(
        connection,
        request.account,
        request.now,
        job.standing.state,
        asked,
    )?;
    act(alloc, connection, request, &job, decided)
}

/// Gives the job the standing that was decided and answers the request. A refusal is answered, and
/// changes nothing.
fn act<S: Alter>(
    alloc: Global,
    connection: &mut Rounds<S>,
    request: &Request<'_>,
    job: &Job,
    decided: Result<Standing, Refusal>,
) -> Result<Answered, TableFault>
    requires number { job.now.job ≡ request.now.ask.job }
    requires before { IsStanding job.now.standing }
    requires in_range { IfOk decided IsStanding }
    requires kept { IfOk decided (Keeps job.now.standing) }
    ensures connection { StaysOpen S.Store connection.old connection.new result }
    ensures served { let it = request.entry.now in
        IfOurTables S.Store connection.old connection.new (HasJobRow it.account job.now) →
        DoesResponse S.Store connection.old connection.new it.account (λ db. ⊤)
        (λ room devices. acted room (plain_ask it.ask) decided) result }
{
    let ask = &request.ask;
    let standing = match decided {
        Ok(standing) => standing,
        Err(refusal) => return request_refused(alloc, ask, refusal),
    };
    let answered = request_done(alloc, ask)?;
    stand(connection, request.account, job, &standing)?;
    Ok(answered)
}
