//! The two ways in: `apply` for an event that may be in a round, and `apply_in_own_transaction` for
//! one that may not.

ghost use Rattle.std.specs.Prelude.{◌≡◌, IsTrue, OnErr};
ghost use Rattle.store_events.specs.Prelude.{IfOurTables};
ghost use Rattle.sqlite.specs.Held.{state};
ghost use Rattle.sqlite.specs.State.{HasCleanDisk};
ghost use Rattle.account_machine.specs.Events.{plain_event};
ghost use Rattle.account_machine.specs.Fits.{fits};
ghost use Rattle.store_events.specs.Applied.{AppliesFully};
ghost use Rattle.store_events.specs.Rounds.{IsLost, StaysInRound};
ghost use Rattle.store_rounds.specs.Shut.{LeavesIfShut};
ghost use Rattle.rows_tables.specs.Calls.{KeepsConnection};

use crate::events::{answer_and_note_committed, is_short};
use account_machine::{Answered, Event, Moment};
use sqlite::Alter;
use std::alloc::Global;
use store_rounds::{Rounds, StoreFault};

/// Answers the event at the moment `now`, in seconds from 1970, with its verdict, as `Store::apply`
/// does. It may be in a round: an event that fails has then changed nothing, or a failure of the
/// storage has undone the round.
pub fn apply<S: Alter>(
    alloc: Global,
    connection: &mut Rounds<S>,
    now: u64,
    e: &Event<'_>,
) -> Result<Answered, StoreFault>
    requires { IsTrue (fits (plain_event e.now)) }
    ensures applies { (HasCleanDisk (state S.Store connection.new) → OnErr result
        ((state S.Store connection.new).in_transaction
        ≡ (state S.Store connection.old).in_transaction))
        → AppliesFully now (plain_event e.entry.now)
        (state S.Store connection.old) (state S.Store connection.new) result }
    ensures within { IfOurTables S.Store connection.old connection.new
        (λ _. StaysInRound (state S.Store connection.old) (state S.Store connection.new) result) }
    ensures lost { IfOurTables S.Store connection.old connection.new
        (λ _. IsLost (state S.Store connection.old) (state S.Store connection.new) result) }
    ensures shut { LeavesIfShut (state S.Store connection.old) (state S.Store connection.new) }
    ensures connection { KeepsConnection (state S.Store connection.old)
        (state S.Store connection.new) }
{
    // For the proof alone: its clause says that outside a round what is seen is what was committed.
    let _shares = connection.is_under_way();
    let Some(now) = Moment::new(now) else {
        return Err(StoreFault::Moment);
    };
    Ok(answer_and_note_committed(alloc, connection, now, e)?)
}

/// Answers the event at the moment `now`, in seconds from 1970, and commits it by itself. `Moment`
/// where `now` is past the year 2099, which is looked at first; `Storage` also where a transaction
/// is under way.
pub fn apply_in_own_transaction<S: Alter>(
    alloc: Global,
    connection: &mut Rounds<S>,
    now: u64,
    e: &Event<'_>,
) -> Result<Answered, StoreFault>
    requires { IsTrue (fits (plain_event e.now)) }
    ensures { AppliesFully now (plain_event e.entry.now)
        (state S.Store connection.old) (state S.Store connection.new) result }
{
    let shares = connection.is_under_way();
    let Some(now) = Moment::new(now) else {
        return Err(StoreFault::Moment);
    };
    if shares && !is_short(e) {
        return Err(StoreFault::Storage);
    }
    Ok(answer_and_note_committed(alloc, connection, now, e)?)
}
