//! The changes that events make, over `Rounds` (the parameter `connection`). Each calls the
//! function of its name in `rows_statements`, and then brings what is kept in memory up to date.
//! After a fault nothing is kept, since what was changed before may be undone.

ghost use Rattle.std.specs.Prelude.{◌≡◌, ◌<◌, pos, None, Err, IsTrue, OnErr, OnOk};
ghost use Rattle.sqlite.specs.Held.{state};
ghost use Rattle.sqlite.specs.State.{HasCleanDisk, Survives};
ghost use Rattle.account_rules.specs.Limits.{last_next_job, IsRate};
ghost use Rattle.account_rules.specs.Standings.{IsStanding};
ghost use Rattle.rows_statements.specs.Changed.{FinishesJob, GrantsPages, MakesJob, OpensAccount, RatesDevice, RestandsJob, SwitchesDevice};
ghost use Rattle.rows_statements.specs.NewDocuments.{first_of};
ghost use Rattle.rows_statements.specs.Prelude.{ChangesWhole, IfOurTables};
ghost use Rattle.rows_statements.specs.Rounds.{BeginsRound, EndsRound};
ghost use Rattle.rows_statements.specs.Rows.{IsFree};
ghost use Rattle.rows_tables.specs.Accounts.{job_at};
ghost use Rattle.rows_tables.specs.Calls.{IsUnchanged, IsUndone, KeepsConnection, UnchangedOrUndone};

use crate::kept::Added;
use crate::rounds::{Rounds, note_committed};
use account_rules::{Job, Moment, Name, Standing};
use rows_statements::NewDocument;
use rows_tables::TableFault;
use sqlite::{Alter, Error};

/// Opens the account at the moment `now`: inserts its row.
pub fn open_account<S: Alter>(
    connection: &mut Rounds<S>,
    account: Name,
    now: Moment,
) -> Result<(), Error>
    ensures opens { ChangesWhole S.Store connection.old connection.new result
        (OpensAccount account now) }
{
    note_committed(&connection.connection);
    let made = rows_statements::open_account(&mut connection.connection, account, now);
    connection.kept.follow_opening(account, &made);
    made
}

/// Adds the grant of a month to the account: pages to be used in that month or later.
pub fn add_grant<S: Alter>(
    connection: &mut Rounds<S>,
    account: Name,
    month: u32,
    pages: u32,
) -> Result<(), Error>
    ensures grants { ChangesWhole S.Store connection.old connection.new result
        (GrantsPages account month pages) }
{
    note_committed(&connection.connection);
    let made = rows_statements::add_grant(&mut connection.connection, account, month, pages);
    connection.kept.forget_after_fault(&made);
    made
}

/// Inserts the job, whose number is at most 999999, with its first document or with none. The
/// account's next job gets the number after it. `Damaged` where the job or the document is there
/// already.
pub fn make_job<S: Alter>(
    connection: &mut Rounds<S>,
    account: Name,
    job: &Job,
    document: Option<NewDocument<'_>>,
) -> Result<(), TableFault>
    requires standing { IsStanding job.now.standing }
    requires number { job.now.job < last_next_job }
    ensures makes { ChangesWhole S.Store connection.old connection.new result
        (MakesJob account job.now (first_of job.now.job document.entry)) }
    ensures damaged { IfOurTables S.Store connection.old connection.new
        (λ db. result ≡ Err TableFault.Damaged → job_at db account (pos job.now.job) ≡ None →
        IsFree account (first_of job.now.job document.entry) db → ⊥) }
{
    note_committed(&connection.connection);
    let was = connection.kept.row(account);
    let made = rows_statements::make_job(&mut connection.connection, account, job, document);
    connection.kept.follow_making(account, was, job, &made);
    made
}

/// Gives a job that is there another standing, and adds its next document, if one is given.
/// `Damaged` where a document of its number is there already.
pub fn restand_job<S: Alter>(
    connection: &mut Rounds<S>,
    account: Name,
    number: u32,
    standing: &Standing,
    document: Option<NewDocument<'_>>,
) -> Result<(), TableFault>
    requires standing { IsStanding standing.now }
    ensures restands { ChangesWhole S.Store connection.old connection.new result
        (RestandsJob account number standing.now (first_of number document.entry)) }
    ensures damaged { IfOurTables S.Store connection.old connection.new
        (λ db. result ≡ Err TableFault.Damaged →
        IsFree account (first_of number document.entry) db → ⊥) }
{
    note_committed(&connection.connection);
    let was = connection.kept.added_before(account, number);
    let made = rows_statements::restand_job(
        &mut connection.connection,
        account,
        number,
        standing,
        document,
    );
    connection.kept.follow_move(account, was, standing, &made);
    made
}

/// Gives a job that is there a standing in which it has ended, and deletes its documents.
pub fn end_job<S: Alter>(
    connection: &mut Rounds<S>,
    account: Name,
    number: u32,
    standing: &Standing,
) -> Result<(), Error>
    requires standing { IsStanding standing.now }
    ensures ends { ChangesWhole S.Store connection.old connection.new result
        (FinishesJob account number standing.now) }
{
    note_committed(&connection.connection);
    let was = connection.kept.added_before(account, number);
    let made = rows_statements::end_job(&mut connection.connection, account, number, standing);
    connection.kept.follow_move(account, was, standing, &made);
    connection.beyond = beyond(was, standing);
    made
}

/// The units that a job was charged beyond what it reserved before; 0 where that is not known.
fn beyond(was: Option<Added>, is: &Standing) -> u64 {
    match was {
        Some(added) => is.charged.saturating_sub(added.reserved),
        None => 0,
    }
}

/// Turns the device on or off. Where it is new (`is_new`) it is added, and gets rate 1.
pub fn switch_device<S: Alter>(
    connection: &mut Rounds<S>,
    name: Name,
    on: bool,
    is_new: bool,
) -> Result<(), Error>
    ensures turns { ChangesWhole S.Store connection.old connection.new result
        (SwitchesDevice name on is_new) }
{
    note_committed(&connection.connection);
    let made = rows_statements::switch_device(&mut connection.connection, name, on, is_new);
    connection.kept.forget_after_fault(&made);
    made
}

/// Sets the units, 1 to 100, that an impression counts on the device from now on.
pub fn rate_device<S: Alter>(
    connection: &mut Rounds<S>,
    name: Name,
    units: u32,
) -> Result<(), Error>
    requires units { IsRate units }
    ensures rates { ChangesWhole S.Store connection.old connection.new result
        (RatesDevice name units) }
{
    note_committed(&connection.connection);
    let made = rows_statements::rate_device(&mut connection.connection, name, units);
    connection.kept.forget_after_fault(&made);
    made
}

/// Begins a round: what is changed from now on is on the disk once the round is committed. It fails
/// where a transaction is under way.
pub(crate) fn begin_round<S: Alter>(connection: &mut Rounds<S>) -> Result<(), Error>
    ensures begins { HasCleanDisk (state S.Store connection.new) → OnOk result
        (BeginsRound (state S.Store connection.old) (state S.Store connection.new)) }
    ensures unchanged { HasCleanDisk (state S.Store connection.new) → OnErr result
        (IsTrue (state S.Store connection.new).is_open
        → IsUnchanged (state S.Store connection.old) (state S.Store connection.new)) }
    ensures connection { OnErr result
        (KeepsConnection (state S.Store connection.old) (state S.Store connection.new)) }
    ensures survives { Survives (state S.Store connection.old) (state S.Store connection.new)
        (λ _. ⊥) }
{
    note_committed(&connection.connection);
    let made = rows_statements::begin_round(&mut connection.connection);
    connection.kept.forget_after_fault(&made);
    made
}

/// Commits the round: all that it changed is on the disk then. It fails where no round is under
/// way. Where a commit fails, the round is undone.
pub(crate) fn commit_round<S: Alter>(connection: &mut Rounds<S>) -> Result<(), Error>
    ensures ends { HasCleanDisk (state S.Store connection.new) → OnOk result
        (EndsRound (state S.Store connection.old) (state S.Store connection.new)) }
    ensures undone { HasCleanDisk (state S.Store connection.new)
        → IsTrue (state S.Store connection.old).in_transaction → OnErr result
        (IsUndone (state S.Store connection.old) (state S.Store connection.new)) }
    ensures refused { HasCleanDisk (state S.Store connection.new) → OnErr result
        (UnchangedOrUndone (state S.Store connection.old) (state S.Store connection.new)) }
    ensures connection { KeepsConnection (state S.Store connection.old)
        (state S.Store connection.new) }
    ensures survives { Survives (state S.Store connection.old) (state S.Store connection.new)
        (λ found. found ≡ (state S.Store connection.old).now.trees) }
{
    note_committed(&connection.connection);
    let made = rows_statements::commit_round(&mut connection.connection);
    connection.kept.forget_after_fault(&made);
    made
}
