//! BEGIN and COMMIT of a round, whose events share one commit.

ghost use Rattle.std.specs.Prelude.{◌≡◌, IsTrue, OnErr, OnOk};
ghost use Rattle.rows_statements.specs.Rounds.{BeginsRound, EndsRound};
ghost use Rattle.rows_tables.specs.Calls.{IsUnchanged, IsUndone, KeepsConnection, UnchangedOrUndone};
ghost use Rattle.sqlite.specs.Held.{state};
ghost use Rattle.sqlite.specs.State.{HasCleanDisk, Survives};

use sqlite::{Alter, Connection, Error, ErrorCode};

/// Begins a round: what is changed from now on is on the disk once the round is committed. It fails
/// where a transaction is under way.
pub fn begin_round<S: Alter>(connection: &mut Connection<S>) -> Result<(), Error>
    ensures begins { HasCleanDisk (state S.Store connection.new) → OnOk result
        (BeginsRound (state S.Store connection.old) (state S.Store connection.new)) }
    ensures unchanged { HasCleanDisk (state S.Store connection.new) → OnErr result
        (IsTrue (state S.Store connection.new).is_open
        → IsUnchanged (state S.Store connection.old) (state S.Store connection.new)) }
    ensures connection { OnErr result
        (KeepsConnection (state S.Store connection.old) (state S.Store connection.new)) }
    ensures survives { Survives (state S.Store connection.old) (state S.Store connection.new)
        (λ _. ⊥) }
{
    if !connection.is_autocommit() {
        return Err(Error::SqliteFailure(ErrorCode::TransactionState));
    }
    match connection.execute("BEGIN", &[]) {
        Ok(_) => Ok(()),
        Err(error) => Err(error),
    }
}

/// Commits the round: all that it changed is on the disk then. It fails where no round is under
/// way. Where a commit fails, the round is undone.
pub fn commit_round<S: Alter>(connection: &mut Connection<S>) -> Result<(), Error>
    ensures ends { HasCleanDisk (state S.Store connection.new) → OnOk result
        (EndsRound (state S.Store connection.old) (state S.Store connection.new)) }
    ensures undone { HasCleanDisk (state S.Store connection.new)
        → IsTrue (state S.Store connection.old).in_transaction → OnErr result
        (IsUndone (state S.Store connection.old) (state S.Store connection.new)) }
    ensures refused { HasCleanDisk (state S.Store connection.new) → OnErr result
        (UnchangedOrUndone (state S.Store connection.old) (state S.Store connection.new)) }
    ensures connection { KeepsConnection (state S.Store connection.old)
        (state S.Store connection.new) }
    ensures survives { Survives (state S.Store connection.old) (state S.Store connection.new)
        (λ found. found ≡ (state S.Store connection.old).now.trees) }
{
    match connection.execute("COMMIT", &[]) {
        Ok(_) => Ok(()),
        Err(error) => Err(error),
    }
}
