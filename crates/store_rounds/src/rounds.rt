//! `Rounds`: the connection, with begin and commit of a round.

ghost use Rattle.std.specs.Prelude.{◌≡◌, false, IsFalse, IsTrue, OnErr, OnOk};
ghost use Rattle.sqlite.specs.Held.{state};
ghost use Rattle.sqlite.specs.State.{HasCleanDisk, Survives};
ghost use Rattle.rows_statements.specs.Rounds.{BeginsRound, EndsRound};
ghost use Rattle.store_rounds.specs.Shut.{LeavesIfShut};
ghost use Rattle.rows_tables.specs.Calls.{IsUnchanged, IsUndone, KeepsConnection, UnchangedOrUndone};
ghost use Rattle.rows_tables.specs.Crashes.{IsOnDisk};
ghost use Rattle.rows_tables.specs.Keyed.{HasSchema};

pub(crate) mod changes;
pub(crate) mod reads;

use crate::fault::StoreFault;
use crate::kept::Kept;
use changes::{begin_round, commit_round};
use reads::knock;
use rows_tables::TableFault;
use sqlite::{Alter, Connection};
use std::marker::Model;

/// The store's connection to its database, as all crates above use it; their parameters call it
/// `connection`. It owns the SQLite library's connection, as which contracts see it, and adds
/// rounds and memory.
///
/// Rounds: events between `begin` and `commit` share one commit, and before that nothing of them is
/// on the disk. An event outside a round is committed by itself. A failure of the storage may undo
/// a round.
///
/// Memory: it keeps rows, sums and counts of accounts, so that they are not read again. The
/// invariant says that they are what reading anew would give.
pub struct Rounds<S: Alter> {
    pub(crate) connection: Connection<S>,
    /// Whether the tables are known to be the store's. Else nothing that is kept is used.
    pub(crate) is_ours: bool,
    pub(crate) kept: Kept,
    /// The units that the last job to end was charged beyond what it had reserved, until somebody
    /// takes them.
    pub(crate) beyond: u64,
}

// In the place of `#[derive(Drop)]`, so that no caller proves again how the connection is dropped.
impl<S: Alter + Drop> Drop for Rounds<S> {
    fn drop(self) {
        let Rounds {
            connection: _,
            is_ours: _,
            kept: _,
            beyond: _,
        } = self;
    }
}

impl<S: Alter> Model for Rounds<S> {
    ghost use Rattle.std.specs.Prelude.{IsTrue};
    ghost use Rattle.sqlite.specs.Held.{Held, held_code, state};
    ghost use Rattle.store_rounds.specs.Kept.{IsKept, WhereOpen};

    ghost Value = { Held S };

    ghost coded = { held_code S.code };

    ghost view = { λ rounds. rounds.connection };

    ghost invariant = { λ rounds. IsTrue rounds.is_ours
        → WhereOpen (state S.Store rounds.connection)
        (IsKept (state S.Store rounds.connection) rounds.kept) };
}

impl<S: Alter> Rounds<S> {
    /// Takes a connection whose tables are not known to be the store's: nothing that is kept in
    /// memory is used then. It takes no memory.
    pub fn over(connection: Connection<S>) -> Rounds<S>
        ensures { result ≡ connection }
    {
        Rounds {
            connection,
            is_ours: false,
            kept: Kept::new(),
            beyond: 0,
        }
    }

    /// Takes a connection that is in no transaction, and whose tables are known to be the store's:
    /// what is kept in memory is used. It takes no memory.
    pub fn over_own(connection: Connection<S>) -> Rounds<S>
        requires schema { HasCleanDisk (state S.Store connection)
            → IsTrue (state S.Store connection).is_open
            → HasSchema (state S.Store connection).now }
        requires mode { HasCleanDisk (state S.Store connection)
            → connection.in_transaction ≡ false }
        ensures { result ≡ connection }
    {
        Rounds {
            connection,
            is_ours: true,
            kept: Kept::new(),
            beyond: 0,
        }
    }

    /// Whether a round is under way: it was begun, and neither committed nor undone.
    pub fn is_under_way(&self) -> bool
        ensures mode { result ≡ (state S.Store self.now).in_transaction }
        ensures settled { IsFalse result → IsTrue (state S.Store self.now).is_open
            → (state S.Store self.now).now ≡ (state S.Store self.now).committed }
        ensures on_disk { IsFalse result → IsOnDisk (state S.Store self.now) }
    {
        !self.connection.is_autocommit()
    }

    /// Begins a round. `Storage` also where one is under way already.
    pub fn begin(&mut self) -> Result<(), StoreFault>
        ensures begun { HasCleanDisk (state S.Store self.new) → OnOk result
            (BeginsRound (state S.Store self.old) (state S.Store self.new)) }
        ensures unchanged { HasCleanDisk (state S.Store self.new) → OnErr result
            (IsTrue (state S.Store self.new).is_open
            → IsUnchanged (state S.Store self.old) (state S.Store self.new)) }
        ensures connection { OnErr result
            (KeepsConnection (state S.Store self.old) (state S.Store self.new)) }
        ensures survives { Survives (state S.Store self.old) (state S.Store self.new) (λ _. ⊥) }
    {
        match begin_round(self) {
            Ok(()) => Ok(()),
            Err(error) => Err(StoreFault::from(TableFault::from(error))),
        }
    }

    /// Ends the round: all that its events changed is on the disk then. Where that fails the round
    /// is undone. `Storage` also where none is under way. A connection that is shut is not asked,
    /// so that what a crash would find stays.
    pub fn commit(&mut self) -> Result<(), StoreFault>
        ensures committed { HasCleanDisk (state S.Store self.new) → OnOk result
            (EndsRound (state S.Store self.old) (state S.Store self.new)) }
        ensures undone { HasCleanDisk (state S.Store self.new)
            → IsTrue (state S.Store self.old).in_transaction → OnErr result
            (IsUndone (state S.Store self.old) (state S.Store self.new)) }
        ensures refused { HasCleanDisk (state S.Store self.new) → OnErr result
            (UnchangedOrUndone (state S.Store self.old) (state S.Store self.new)) }
        ensures connection { KeepsConnection (state S.Store self.old) (state S.Store self.new) }
        ensures survives { Survives (state S.Store self.old) (state S.Store self.new)
            (λ found. found ≡ (state S.Store self.old).now.trees) }
        ensures shut { LeavesIfShut (state S.Store self.old) (state S.Store self.new) }
    {
        knock(self)?;
        match commit_round(self) {
            Ok(()) => Ok(()),
            Err(error) => Err(StoreFault::from(TableFault::from(error))),
        }
    }

    /// The units that the last job to end was charged beyond what it had reserved, since its device
    /// counted more than was released. The next call answers 0. `serve` logs them.
    pub fn take_beyond(&mut self) -> u64
        ensures { self.new ≡ self.old }
    {
        let units = self.beyond;
        self.beyond = 0;
        units
    }

    /// The SQLite library's connection, with the tables as they are. What a round under way has
    /// changed is not on the disk yet. It takes no memory.
    pub fn close(self) -> Connection<S>
        ensures { result ≡ self }
    {
        let Rounds {
            connection,
            is_ours: _,
            kept: _,
            beyond: _,
        } = self;
        connection
    }
}

/// Does nothing at run time: its contract is a step of the proof. While no transaction is under
/// way, what an open connection shows is what was committed, and only the library's clause of
/// `is_autocommit` says so. What a failure leaves of a round, and so what may be kept, follows from
/// that.
fn note_committed<S: Alter>(connection: &Connection<S>)
    ensures { IsTrue (state S.Store connection.now).is_open
        → (state S.Store connection.now).in_transaction ≡ false
        → (state S.Store connection.now).now ≡ (state S.Store connection.now).committed }
{
    let _told = connection.is_autocommit();
}
