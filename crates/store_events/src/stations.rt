//! The events of a station: releasing a job there, starting it and settling it.

ghost use Rattle.std.specs.Prelude.{◌≡◌, ◌≤◌, ⊤, map, IfErr, IfOk, OnOk, Err};
ghost use Rattle.store_events.specs.Prelude.{DoesStep, HasJobRow, IfOurTables, IsStanding, Keeps, LooksUp, StaysOpen};
ghost use Rattle.std.specs.FinMap.{get};
ghost use Rattle.account_replies.specs.Parts.{part_of};
ghost use Rattle.account_machine.specs.Stations.{by_word, station, station_release, release_told, station_settle, settling_told, station_start, start_told};
ghost use Rattle.account_machine.specs.Steps.{telling, with_moved};
ghost use Rattle.account_rules.specs.Devices.{Devices};
ghost use Rattle.account_rules.specs.Limits.{most_impressions, IsRate};
ghost use Rattle.account_rules.specs.StateLaws.{kept_to_quota};
ghost use Rattle.account_state.specs.Sums.{left_in};
ghost use Rattle.rows_tables.specs.Devices.{HoldsDevices};
ghost use Rattle.store_events.specs.ProofKnown.{ready_rate};
ghost use Rattle.store_events.specs.Reading.{DocumentsAreReadable, IsReady, QuotaIsReadable, SettlementIsReadable, StartIsReadable, StationIsReadable, StationReleaseIsReadable};

use crate::lines::{done_by, line_done, refused_by};
use crate::quota::left_now;
use crate::standing::stand;
use account_machine::{
    Answered, Document, Job, Moment, Name, Part, Refusal, Reply, Standing, Success, Word, by_word,
    check_on, handed, known_device, left_after, released_at, within_quota,
};
use ipp_coding::List;
use rows_statements::{find_device, find_documents, find_rate};
use rows_tables::TableFault;
use sqlite::Alter;
use std::alloc::Global;
use store_rounds::{Rounds, look_up};

/// Where and when something happens: the device at a station, and the moment.
#[derive(Clone, Copy)]
pub(crate) struct Station {
    pub device: Name,
    pub now: Moment,
}

/// Releases the job at the station, with the password and the impressions that the owner enters
/// there, as far as the quota allows it.
pub fn release_at<S: Alter>(
    alloc: Global,
    connection: &mut Rounds<S>,
    account: Name,
    at: &Station,
    number: u32,
    password: &[u8],
    impressions: u32,
) -> Result<Answered, TableFault>
    requires impressions { impressions ≤ most_impressions }
    ensures served { let it = at.entry.now in
        DoesStep S.Store connection.old connection.new account
        (StationReleaseIsReadable account it.device it.now number password.now impressions)
        (λ room devices. release_told room it.now number
        (station_release room (station devices it.device it.now) number password.now impressions))
        result }
{
    let rate = match ready_rate(connection, at.device)? {
        Ok(rate) => rate,
        Err(word) => return refused_by(alloc, word),
    };
    let Some(job) = look_up(connection, account, number)? else {
        return refused_by(alloc, Word::NoJob);
    };
    let asked = released_at(&job, at.device, rate, password, impressions);
    reserve(alloc, connection, account, at.now, &job, asked)
}

/// Starts the released job on the station's device, and answers with the job's documents.
pub fn start<S: Alter>(
    alloc: Global,
    connection: &mut Rounds<S>,
    account: Name,
    at: &Station,
    number: u32,
) -> Result<Answered, TableFault>
    ensures served { let it = at.entry.now in
        DoesStep S.Store connection.old connection.new account
        (StartIsReadable account it.device it.now number)
        (λ room devices. start_told room number
        (station_start room (station devices it.device it.now) number)) result }
{
    let rate = match ready_rate(connection, at.device)? {
        Ok(rate) => rate,
        Err(word) => return refused_by(alloc, word),
    };
    let Some(job) = look_up(connection, account, number)? else {
        return refused_by(alloc, Word::NoJob);
    };
    let decided = by_word(account_machine::start(job.standing, at.device, rate, at.now));
    hand_over(alloc, connection, account, &job, decided)
}

/// Ends the job, which the station's device has printed or given up (`failed`), and charges it for
/// the impressions that the device has counted, all copies included.
pub fn settle<S: Alter>(
    alloc: Global,
    connection: &mut Rounds<S>,
    account: Name,
    at: &Station,
    number: u32,
    impressions: u32,
    failed: bool,
) -> Result<Answered, TableFault>
    requires impressions { impressions ≤ most_impressions }
    ensures served { let it = at.entry.now in
        DoesStep S.Store connection.old connection.new account
        (SettlementIsReadable account it.device it.now number impressions failed)
        (λ room devices. settling_told room it.now number
        (station_settle room (station devices it.device it.now) number impressions failed))
        result }
{
    if let Err(word) = known_device(find_device(connection, at.device)?) {
        return refused_by(alloc, word);
    }
    let Some(job) = look_up(connection, account, number)? else {
        return refused_by(alloc, Word::NoJob);
    };
    let standing = job.standing;
    let moved = account_machine::settle(standing, at.device, impressions, failed, at.now);
    let decided = by_word(moved);
    charge(alloc, connection, account, at.now, &job, decided)
}

/// The units that an impression counts on the device, or the word of a refusal where the device is
/// unknown or switched off. `Damaged` where the device is on but has no rate.
fn ready_rate<S: Alter>(
    connection: &mut Rounds<S>,
    device: Name,
) -> Result<Result<u32, Word>, TableFault>
    ensures ready { IfOurTables S.Store connection.old connection.new
        (λ db. (devices : Devices) → HoldsDevices db devices →
        IfOk result (λ ready. ready ≡ ready_rate (get devices device))) }
    ensures rate { IfOk result (λ ready. IfOk ready IsRate) }
    ensures station { IfOurTables S.Store connection.old connection.new
        (λ db. IfOk result (λ ready. IfOk ready (λ rate. IsReady device rate db))) }
    ensures damaged { IfOurTables S.Store connection.old connection.new
        (λ db. result ≡ Err TableFault.Damaged → StationIsReadable device db → ⊥) }
    ensures looks { LooksUp S.Store connection.old connection.new result }
{
    let on = match known_device(find_device(connection, device)?) {
        Ok(on) => on,
        Err(word) => return Ok(Err(word)),
    };
    if let Err(word) = check_on(on) {
        return Ok(Err(word));
    }
    match find_rate(connection, device)? {
        Some(rate) => Ok(Ok(rate)),
        None => Err(TableFault::Damaged),
    }
}

/// Carries out a release at a station that the rules allow, if enough is left of the quota, and
/// answers what the job reserves and what is left then. A refusal is answered, and changes nothing.
fn reserve<S: Alter>(
    alloc: Global,
    connection: &mut Rounds<S>,
    account: Name,
    now: Moment,
    job: &Job,
    asked: Result<Standing, Refusal>,
) -> Result<Answered, TableFault>
    requires before { IsStanding job.now.standing }
    requires in_range { IfOk asked IsStanding }
    requires kept { IfOk asked (Keeps job.now.standing) }
    ensures connection { StaysOpen S.Store connection.old connection.new result }
    ensures served { IfOurTables S.Store connection.old connection.new (HasJobRow account job.now) →
        DoesStep S.Store connection.old connection.new account
        (λ db. OnOk asked (QuotaIsReadable account now db))
        (λ room devices. release_told room now job.now.job
        (by_word (kept_to_quota job.now.standing.state (left_in room now) asked))) result }
{
    let released = match asked {
        Ok(released) => released,
        Err(refusal) => return refused_by(alloc, refusal.word),
    };
    let left = left_now(connection, account, now)?;
    if let Err(refusal) = kept_to(left, job.standing, released) {
        return refused_by(alloc, refusal.word);
    }
    let told = Success::Released {
        reserved: released.reserved,
        left: left_after(left, &job.standing, &released),
    };
    tell(alloc, connection, account, job, &released, told)
}

/// The job as released, unless it reserves more than is `left`. A job that was released before has
/// its units reserved already, and is not refused.
fn kept_to(left: i64, before: Standing, released: Standing) -> Result<Standing, Refusal>
    ensures { result ≡ kept_to_quota before.state left (Ok released) }
{
    if before.state.is_released() {
        return Ok(released);
    }
    within_quota(released, left)
}

/// Carries out a settling that was decided, and answers what the job was charged and what is left
/// then. A refusal is answered, and changes nothing.
fn charge<S: Alter>(
    alloc: Global,
    connection: &mut Rounds<S>,
    account: Name,
    now: Moment,
    job: &Job,
    decided: Result<Standing, Word>,
) -> Result<Answered, TableFault>
    requires before { IsStanding job.now.standing }
    requires in_range { IfOk decided IsStanding }
    requires kept { IfOk decided (Keeps job.now.standing) }
    ensures connection { StaysOpen S.Store connection.old connection.new result }
    ensures served { IfOurTables S.Store connection.old connection.new (HasJobRow account job.now) →
        DoesStep S.Store connection.old connection.new account
        (λ db. OnOk decided (QuotaIsReadable account now db))
        (λ room devices. settling_told room now job.now.job decided) result }
{
    let settled = match decided {
        Ok(settled) => settled,
        Err(word) => return refused_by(alloc, word),
    };
    let left = left_now(connection, account, now)?;
    let told = Success::Settled {
        charged: settled.charged,
        left: left_after(left, &job.standing, &settled),
    };
    tell(alloc, connection, account, job, &settled, told)
}

/// Carries out a start that was decided, and answers with the job's documents. A refusal is
/// answered, and changes nothing.
fn hand_over<S: Alter>(
    alloc: Global,
    connection: &mut Rounds<S>,
    account: Name,
    job: &Job,
    decided: Result<Standing, Word>,
) -> Result<Answered, TableFault>
    requires before { IsStanding job.now.standing }
    requires in_range { IfOk decided IsStanding }
    requires kept { IfOk decided (Keeps job.now.standing) }
    ensures connection { StaysOpen S.Store connection.old connection.new result }
    ensures served { IfOurTables S.Store connection.old connection.new (HasJobRow account job.now) →
        DoesStep S.Store connection.old connection.new account
        (λ db. OnOk decided (DocumentsAreReadable account job.now.job db))
        (λ room devices. start_told room job.now.job decided) result }
{
    let standing = match decided {
        Ok(standing) => standing,
        Err(word) => return refused_by(alloc, word),
    };
    let documents = find_documents(alloc, connection, account, job.job)?;
    let parts = parts(alloc, standing.copies, documents)?;
    stand(connection, account, job, &standing)?;
    Ok(Answered {
        reply: Reply::Documents(parts),
        verdict: line_done(),
    })
}

/// The documents as the parts of an answer to a station, each with its line. `Memory` is its only
/// fault.
pub fn parts(
    alloc: Global,
    copies: u32,
    documents: List<Document>,
) -> Result<List<Part>, TableFault>
    ensures parts { IfOk result (λ parts. parts ≡ map (part_of copies) documents) }
    ensures memory { IfErr result (λ fault. fault ≡ TableFault.Memory) }
{
    let mut items = Vec::new(alloc);
    for document in documents.items {
        items.push(handed(alloc, copies, document)?)?;
    }
    Ok(List { items })
}

/// Gives the job its standing, and answers with the line that tells what was done.
fn tell<S: Alter>(
    alloc: Global,
    connection: &mut Rounds<S>,
    account: Name,
    job: &Job,
    standing: &Standing,
    told: Success,
) -> Result<Answered, TableFault>
    requires before { IsStanding job.now.standing }
    requires in_range { IsStanding standing.now }
    requires kept { Keeps job.now.standing standing.now }
    ensures connection { StaysOpen S.Store connection.old connection.new result }
    ensures served { IfOurTables S.Store connection.old connection.new (HasJobRow account job.now) →
        DoesStep S.Store connection.old connection.new account (λ db. ⊤)
        (λ room devices. telling (with_moved room job.now.job standing.now) told) result }
{
    let answered = done_by(alloc, told)?;
    stand(connection, account, job, standing)?;
    Ok(answered)
}
