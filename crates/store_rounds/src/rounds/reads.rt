//! What is read over `Rounds` (the parameter `connection`). As it is a `Reads`, the functions of
//! `rows_statements`, `rows_checks` and `rows_survey` read by it. Those here answer from memory
//! what is kept there, and else call the function of their name in `rows_statements`. After a fault
//! of a read nothing is kept, since what was changed before may be undone.

ghost use Rattle.std.specs.Prelude.{◌≡◌, ◌≤◌, ◌<◌, Option, length, option_map, Some, Err, IfOk, IfSome, IsTrue, OnErr, OnOk};
ghost use Rattle.std.specs.FinMap.{get};
ghost use Rattle.sqlite.specs.Held.{state};
ghost use Rattle.sqlite.specs.State.{HasCleanDisk, Survives};
ghost use Rattle.account_rules.specs.Limits.{most_unfinished, most_units};
ghost use Rattle.account_state.specs.RoomRules.{unfinished_count};
ghost use Rattle.account_state.specs.Sums.{charged_in, reserved_in};
ghost use Rattle.rows_statements.specs.JobSums.{IsCounted};
ghost use Rattle.rows_statements.specs.Prelude.{HoldsRoom, IfOurTables, IsRowOf, ReadsStore, RoomValue};
ghost use Rattle.rows_statements.specs.Queues.{IsNumbered};
ghost use Rattle.rows_statements.specs.SoundRows.{CanBeCounted, job_rows, unfinished_rows};
ghost use Rattle.store_rounds.specs.Kept.{HasCount, HasRow, HasSums, HaveSums};
ghost use Rattle.store_rounds.specs.ProofKnown.{HasAccountRow, HasJobRow};
ghost use Rattle.store_rounds.specs.Reading.{JobIsReadable};
ghost use Rattle.store_rounds.specs.Looks.{LooksUp};
ghost use Rattle.rows_tables.specs.Accounts.{IsAccount, account_at};
ghost use Rattle.rows_tables.specs.Calls.{IsUnchanged, IsUndone};
ghost use Rattle.rows_tables.specs.Cells.{account_cells};

use crate::kept::{Kept, Sums};
use crate::rounds::{Rounds, note_committed};
use crate::{knocking, lookup};
use account_rules::{Account, Job, Name};
use rows_statements::{Gather, Reads};
use rows_tables::TableFault;
use sqlite::{Alter, Connection, Error, Row};
use sqlite_value::value::ValueRef;
use std::alloc::Global;

impl<S: Alter> Reads for Rounds<S> {
    type S = S;

    ghost held = { λ rounds. rounds };

    fn find_row(&mut self, text: &str, params: &[ValueRef<'_>]) -> Result<Option<Row>, Error> {
        note_committed(&self.connection);
        let found = self.connection.find_row(text, params);
        self.kept.forget_after_fault(&found);
        found
    }

    fn walk<G: Gather>(
        &mut self,
        text: &str,
        params: &[ValueRef<'_>],
        gathered: &mut G,
    ) -> Result<(), TableFault> {
        note_committed(&self.connection);
        let walked = self.connection.walk(text, params, gathered);
        self.kept.forget_after_fault(&walked);
        walked
    }
}

/// The account's own row, from memory or from its table. `None` where the account is not open;
/// `Damaged` where its row is broken.
pub fn find_account<S: Alter>(
    connection: &mut Rounds<S>,
    account: Name,
) -> Result<Option<Account>, TableFault>
    ensures found { IfOurTables S.Store connection.old connection.new
        (λ db. IfOk result
        (λ found. account_at db account ≡ option_map (account_cells account) found)) }
    ensures in_range { IfOk result (λ found. IfSome found IsAccount) }
    ensures damaged { IfOurTables S.Store connection.old connection.new (λ db.
        result ≡ Err TableFault.Damaged
        → IsRowOf (account_cells account) IsAccount (account_at db account) → ⊥) }
    ensures reads { ReadsStore S.Store connection.old connection.new result }
{
    note_committed(&connection.connection);
    let known = row(connection.is_ours, &connection.kept, account);
    let found = find_knowing(&mut connection.connection, account, known);
    connection.kept.keep_account(account, &found);
    found
}

/// The account's own row. Where it is `known` it is not read: then it is only tested whether the
/// connection can still be used.
fn find_knowing<S: Alter>(
    connection: &mut Connection<S>,
    account: Name,
    known: Option<Account>,
) -> Result<Option<Account>, TableFault>
    requires in_range { IfSome known IsAccount }
    ensures found { IfOurTables S.Store connection.old connection.new (λ db.
        IfSome known (λ row. HasAccountRow account row db) → IfOk result
        (λ found. account_at db account ≡ option_map (account_cells account) found)) }
    ensures in_range { IfOk result (λ found. IfSome found IsAccount) }
    ensures damaged { IfOurTables S.Store connection.old connection.new (λ db.
        result ≡ Err TableFault.Damaged
        → IsRowOf (account_cells account) IsAccount (account_at db account) → ⊥) }
    ensures reads { ReadsStore S.Store connection.old connection.new result }
{
    let Some(row) = known else {
        return rows_statements::find_account(connection, account);
    };
    match knocking::knock(connection) {
        Ok(()) => Ok(Some(row)),
        Err(fault) => Err(fault),
    }
}

/// Reads the account's job of this number. `None` where there is none; of a number that no job can
/// have the tables are not asked. `Damaged` where its row is broken.
pub fn look_up<S: Alter>(
    connection: &mut Rounds<S>,
    account: Name,
    number: u32,
) -> Result<Option<Job>, TableFault>
    ensures found { IfOurTables S.Store connection.old connection.new
        (λ db. (room : RoomValue) → HoldsRoom db account room →
        IfOk result (λ found. found ≡ get room.jobs number)) }
    ensures is_there { IfOurTables S.Store connection.old connection.new
        (λ db. IfOk result (λ found. IfSome found (λ job. HasJobRow account job db))) }
    ensures in_range { IfOk result
        (λ found. IfSome found (λ job. (job.job ≡ number) × IsNumbered job)) }
    ensures damaged { IfOurTables S.Store connection.old connection.new
        (λ db. result ≡ Err TableFault.Damaged → JobIsReadable account number db → ⊥) }
    ensures looks { LooksUp S.Store connection.old connection.new result }
{
    note_committed(&connection.connection);
    let found = lookup::look_up(&mut connection.connection, account, number);
    connection.kept.keep_job(account, number, &found);
    found
}

/// How many jobs of the account have not ended, from memory or counted. `Damaged` where there are
/// more than an account may have.
pub fn count_unfinished<S: Alter>(
    connection: &mut Rounds<S>,
    account: Name,
) -> Result<u32, TableFault>
    ensures counted { IfOurTables S.Store connection.old connection.new (λ db. (room : RoomValue)
        → HoldsRoom db account room → IfOk result (λ count. count ≡ unfinished_count room)) }
    ensures rows { IfOurTables S.Store connection.old connection.new
        (λ db. IfOk result (λ count. count ≡ length (unfinished_rows db account))) }
    ensures few { IfOk result (λ count. count ≤ most_unfinished) }
    ensures damaged { IfOurTables S.Store connection.old connection.new
        (λ db. result ≡ Err TableFault.Damaged
        → most_unfinished < length (unfinished_rows db account)) }
    ensures reads { ReadsStore S.Store connection.old connection.new result }
{
    note_committed(&connection.connection);
    let known = unfinished(connection.is_ours, &connection.kept, account);
    let found = count_knowing(&mut connection.connection, account, known);
    connection.kept.keep_count(account, &found);
    found
}

/// How many jobs of the account have not ended. Where that is `known` they are not counted: then it
/// is only tested whether the connection can still be used.
fn count_knowing<S: Alter>(
    connection: &mut Connection<S>,
    account: Name,
    known: Option<u32>,
) -> Result<u32, TableFault>
    requires few { IfSome known (λ count. count ≤ most_unfinished) }
    ensures rows { IfOurTables S.Store connection.old connection.new (λ db.
        IfSome known (IsCounted db account) → IfOk result (IsCounted db account)) }
    ensures few { IfOk result (λ count. count ≤ most_unfinished) }
    ensures damaged { IfOurTables S.Store connection.old connection.new
        (λ db. result ≡ Err TableFault.Damaged
        → most_unfinished < length (unfinished_rows db account)) }
    ensures reads { ReadsStore S.Store connection.old connection.new result }
{
    let Some(count) = known else {
        return rows_statements::count_unfinished(connection, account);
    };
    match knocking::knock(connection) {
        Ok(()) => Ok(count),
        Err(fault) => Err(fault),
    }
}

/// What all jobs of the account reserve and were charged, from memory or added up. `Damaged` where
/// a row is broken, or a sum is more than an account can have.
pub fn sum_up<S: Alter>(connection: &mut Rounds<S>, account: Name) -> Result<Sums, TableFault>
    ensures reserved { IfOurTables S.Store connection.old connection.new (λ db. (room : RoomValue)
        → HoldsRoom db account room → IfOk result (λ sums. sums.reserved ≡ reserved_in room)) }
    ensures charged { IfOurTables S.Store connection.old connection.new (λ db. (room : RoomValue)
        → HoldsRoom db account room → IfOk result (λ sums. sums.charged ≡ charged_in room)) }
    ensures bounds { IfOk result
        (λ sums. (sums.reserved ≤ most_units) × (sums.charged ≤ most_units)) }
    ensures damaged { IfOurTables S.Store connection.old connection.new
        (λ db. result ≡ Err TableFault.Damaged → CanBeCounted account (job_rows db account) → ⊥) }
    ensures reads { ReadsStore S.Store connection.old connection.new result }
{
    note_committed(&connection.connection);
    let known = sums(connection.is_ours, &connection.kept, account);
    let found = sums_knowing(&mut connection.connection, account, known);
    connection.kept.keep_sums(account, &found);
    found
}

/// What all jobs of the account reserve and were charged. Where that is `known` they are not added
/// up: then it is only tested whether the connection can still be used.
fn sums_knowing<S: Alter>(
    connection: &mut Connection<S>,
    account: Name,
    known: Option<Sums>,
) -> Result<Sums, TableFault>
    requires bounds { IfSome known
        (λ sums. (sums.reserved ≤ most_units) × (sums.charged ≤ most_units)) }
    ensures sums { IfOurTables S.Store connection.old connection.new
        (λ db. IfSome known (HaveSums db account) → IfOk result (HaveSums db account)) }
    ensures bounds { IfOk result
        (λ sums. (sums.reserved ≤ most_units) × (sums.charged ≤ most_units)) }
    ensures damaged { IfOurTables S.Store connection.old connection.new
        (λ db. result ≡ Err TableFault.Damaged → CanBeCounted account (job_rows db account) → ⊥) }
    ensures reads { ReadsStore S.Store connection.old connection.new result }
{
    let Some(sums) = known else {
        return added_up(connection, account);
    };
    match knocking::knock(connection) {
        Ok(()) => Ok(sums),
        Err(fault) => Err(fault),
    }
}

/// Adds up what all jobs of the account reserve and were charged.
fn added_up<S: Alter>(connection: &mut Connection<S>, account: Name) -> Result<Sums, TableFault>
    ensures sums { IfOurTables S.Store connection.old connection.new
        (λ db. IfOk result (HaveSums db account)) }
    ensures bounds { IfOk result
        (λ sums. (sums.reserved ≤ most_units) × (sums.charged ≤ most_units)) }
    ensures damaged { IfOurTables S.Store connection.old connection.new
        (λ db. result ≡ Err TableFault.Damaged → CanBeCounted account (job_rows db account) → ⊥) }
    ensures reads { ReadsStore S.Store connection.old connection.new result }
{
    match rows_statements::tally_jobs(connection, account) {
        Ok(tally) => Ok(Sums {
            reserved: tally.reserved,
            charged: tally.charged,
        }),
        Err(fault) => Err(fault),
    }
}

/// The account's own row, if it is kept. Where the tables may not be the store's (`is_ours` is
/// false) nothing that is kept is used.
fn row(is_ours: bool, kept: &Kept, account: Name) -> Option<Account>
    ensures kept { IfSome result (λ row. IsTrue is_ours × HasRow kept.now account row) }
    ensures in_range { IfSome result IsAccount }
{
    if is_ours { kept.row(account) } else { None }
}

/// How many jobs of the account have not ended, if it is kept. Where the tables may not be the
/// store's (`is_ours` is false) nothing that is kept is used.
fn unfinished(is_ours: bool, kept: &Kept, account: Name) -> Option<u32>
    ensures kept { IfSome result (λ count. IsTrue is_ours × HasCount kept.now account count) }
    ensures few { IfSome result (λ count. count ≤ most_unfinished) }
{
    if is_ours {
        kept.unfinished(account)
    } else {
        None
    }
}

/// What the jobs of the account reserve and were charged, if it is kept. Where the tables may not
/// be the store's (`is_ours` is false) nothing that is kept is used.
fn sums(is_ours: bool, kept: &Kept, account: Name) -> Option<Sums>
    ensures kept { IfSome result (λ sums. IsTrue is_ours × HasSums kept.now account sums) }
    ensures bounds { IfSome result
        (λ sums. (sums.reserved ≤ most_units) × (sums.charged ≤ most_units)) }
{
    if is_ours { kept.sums(account) } else { None }
}

/// Tests whether the connection can still be used. A failure undoes a transaction that is under
/// way.
pub fn knock<S: Alter>(connection: &mut Rounds<S>) -> Result<(), TableFault>
    ensures looks { LooksUp S.Store connection.old connection.new result }
    ensures opened { HasCleanDisk (state S.Store connection.new)
        → OnOk result (IsTrue (state S.Store connection.old).is_open) }
    ensures same { HasCleanDisk (state S.Store connection.new) → OnOk result
        (IsUnchanged (state S.Store connection.old) (state S.Store connection.new)) }
    ensures undone { HasCleanDisk (state S.Store connection.new) → OnErr result
        (IsUndone (state S.Store connection.old) (state S.Store connection.new)) }
    ensures survives { Survives (state S.Store connection.old) (state S.Store connection.new)
        (λ _. ⊥) }
    ensures damaged { result ≡ Err TableFault.Damaged → ⊥ }
{
    note_committed(&connection.connection);
    let found = knocking::knock(&mut connection.connection);
    connection.kept.forget_after_fault(&found);
    found
}

/// Tests whether the connection can still be used, and makes the cache of accounts for the events
/// to come, unless there is one, or no memory for one.
pub fn ready<S: Alter>(alloc: Global, connection: &mut Rounds<S>) -> Result<(), TableFault>
    ensures looks { LooksUp S.Store connection.old connection.new result }
    ensures opened { HasCleanDisk (state S.Store connection.new)
        → OnOk result (IsTrue (state S.Store connection.old).is_open) }
    ensures same { HasCleanDisk (state S.Store connection.new) → OnOk result
        (IsUnchanged (state S.Store connection.old) (state S.Store connection.new)) }
    ensures undone { HasCleanDisk (state S.Store connection.new) → OnErr result
        (IsUndone (state S.Store connection.old) (state S.Store connection.new)) }
    ensures survives { Survives (state S.Store connection.old) (state S.Store connection.new)
        (λ _. ⊥) }
    ensures damaged { result ≡ Err TableFault.Damaged → ⊥ }
{
    note_committed(&connection.connection);
    let found = knocking::knock(&mut connection.connection);
    connection.kept.forget_after_fault(&found);
    connection.kept.open(alloc);
    found
}
