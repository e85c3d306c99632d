//! Questions of a station about one account: which jobs wait there, and the documents of a job once
//! more. `questions` has asked before whether the account is open.

ghost use Rattle.std.specs.Prelude.{◌≡◌, Err, IfOk};
ghost use Rattle.std.specs.FinMap.{get};
ghost use Rattle.account_questions.specs.Stations.{handed_again, printed_by, said_or};
ghost use Rattle.account_questions.specs.declared.question.About.TheVariants as about;
ghost use Rattle.room_store.specs.Questions.{AgainIsReadable, PrintedIsReadable, TellsAbout, WaitingIsReadable};
ghost use Rattle.room_store.specs.Prelude.{HoldsRoom, IfOurTables, LooksUp, RoomValue};
ghost use Rattle.store_events.specs.Reading.{DocumentsAreReadable};

use account_machine::{Job, Name, Reply, Word, known_device};
use account_questions::{jobs_lines, printed_by, waiting_at};
use rows_statements::{find_device, find_documents, unfinished_jobs};
use rows_tables::TableFault;
use sqlite::Alter;
use std::alloc::Global;
use store_events::{parts, refusal_line};
use store_rounds::{Rounds, look_up};

/// Answers the jobs of the account that the station may release, start or settle, one in a line.
pub(crate) fn tell_waiting<S: Alter>(
    alloc: Global,
    connection: &mut Rounds<S>,
    account: Name,
    device: Name,
) -> Result<Reply, TableFault>
    ensures told { TellsAbout S.Store connection.old connection.new account (about.Waiting device) result }
    ensures damaged { IfOurTables S.Store connection.old connection.new
        (λ db. result ≡ Err TableFault.Damaged → WaitingIsReadable account device db → ⊥) }
    ensures looks { LooksUp S.Store connection.old connection.new result }
{
    if let Err(word) = known_device(find_device(connection, device)?) {
        return refusal_line(alloc, word);
    }
    let jobs = unfinished_jobs(alloc, connection, account, None)?;
    let waiting = waiting_at(alloc, device, jobs)?;
    Ok(Reply::Line(jobs_lines(alloc, waiting.as_slice())?))
}

/// Answers once more with the documents of a job that the station's device has started, until it is
/// settled.
pub(crate) fn tell_again<S: Alter>(
    alloc: Global,
    connection: &mut Rounds<S>,
    account: Name,
    device: Name,
    number: u32,
) -> Result<Reply, TableFault>
    ensures told { TellsAbout S.Store connection.old connection.new account (about.Again device number) result }
    ensures damaged { IfOurTables S.Store connection.old connection.new
        (λ db. result ≡ Err TableFault.Damaged → AgainIsReadable account device number db → ⊥) }
    ensures looks { LooksUp S.Store connection.old connection.new result }
{
    if let Err(word) = known_device(find_device(connection, device)?) {
        return refusal_line(alloc, word);
    }
    hand_printed(alloc, connection, account, device, number)
}

/// Answers with the documents of the job if the device is printing it, and else refuses.
fn hand_printed<S: Alter>(
    alloc: Global,
    connection: &mut Rounds<S>,
    account: Name,
    device: Name,
    number: u32,
) -> Result<Reply, TableFault>
    ensures told { IfOurTables S.Store connection.old connection.new (λ db.
        (room : RoomValue) → HoldsRoom db account room → IfOk result (λ told.
        told ≡ said_or (printed_by device (get room.jobs number)) (handed_again room))) }
    ensures damaged { IfOurTables S.Store connection.old connection.new (λ db.
        result ≡ Err TableFault.Damaged → PrintedIsReadable account device number db → ⊥) }
    ensures looks { LooksUp S.Store connection.old connection.new result }
{
    let found = look_up(connection, account, number)?;
    hand_again(alloc, connection, account, printed_by(device, found))
}

/// Answers with the documents of the job that was decided on, or with the refusal.
fn hand_again<S: Alter>(
    alloc: Global,
    connection: &mut Rounds<S>,
    account: Name,
    decided: Result<Job, Word>,
) -> Result<Reply, TableFault>
    ensures told { IfOurTables S.Store connection.old connection.new (λ db.
        (room : RoomValue) → HoldsRoom db account room
        → IfOk result (λ told. told ≡ said_or decided (handed_again room))) }
    ensures damaged { IfOurTables S.Store connection.old connection.new
        (λ db. result ≡ Err TableFault.Damaged
        → IfOk decided (λ job. DocumentsAreReadable account job.job db) → ⊥) }
    ensures looks { LooksUp S.Store connection.old connection.new result }
{
    let job = match decided {
        Ok(job) => job,
        Err(word) => return refusal_line(alloc, word),
    };
    let documents = find_documents(alloc, connection, account, job.job)?;
    Ok(Reply::Documents(parts(alloc, job.standing.copies, documents)?))
}
