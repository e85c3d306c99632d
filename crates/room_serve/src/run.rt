//! `run_events`: a list of events is applied, one after another.
ghost use Rattle.std.specs.Prelude.{◌≡◌, ◌++◌, ◌∷◌, [], ◌<◌, ◌≤◌, ℕ, true, List, length, map, All, IfOk, OnErr, IsTrue};
ghost use Rattle.std.specs.Vec.{vec_capacity, vec_len};
ghost use Rattle.sqlite.specs.Held.{state};
ghost use Rattle.sqlite_trees.specs.Tree.{Trees};
ghost use Rattle.account_machine.specs.Events.{plain_event, plain_timed};
ghost use Rattle.account_machine.specs.Fits.{fits};
ghost use Rattle.account_lives.specs.Lives.{Life};
ghost use Rattle.rows_tables.specs.Calls.{KeepsConnection, IfOurTables};
ghost use Rattle.rows_tables.specs.Keyed.{HasSchema};
ghost use Rattle.room_serve.specs.Crashes.{IsFound};
ghost use Rattle.room_serve.specs.LivesInFiles.{IsLifeIn, exchanges_of};
ghost use Rattle.room_serve.specs.Runs.{AreApplied, LeavesTheRest, RunsAlone, RunsDevices};

use crate::fault::RunFault;
use crate::outcome::Outcome;
use account_machine::Event;
use room_store::Store;
use sqlite::Alter;
use std::alloc::Global;

/// Answers the events in order, each at its moment in seconds from 1970, and tells what each came
/// to. An event that fails has changed nothing, as far as the connection is still open; those after
/// it are tried all the same.
///
/// `Memory` where there is no memory for all outcomes, which is asked for before the first event;
/// nothing is changed then. A moment past 2099 fails its event alone.
pub fn run_events<S: Alter>(
    alloc: Global,
    store: &mut Store<S>,
    events: &[(u64, Event<'_>)],
) -> Result<Vec<Outcome>, RunFault>
    requires fit { All (λ e. IsTrue (fits (plain_event e.1))) events.now }
    ensures applied { IfOk result (λ outcomes. AreApplied S.Store (map plain_timed events.now)
        outcomes.items store.old store.new) }
    ensures each { IfOk result (λ outcomes. length outcomes.items ≡ length events.now) }
    ensures alone { IfOurTables S.Store store.old store.new (λ db. IfOk result (λ outcomes.
        RunsAlone (map plain_timed events.now) outcomes.items db (state S.Store store.new).is_open
        (state S.Store store.new).now)) }
    ensures devices { IfOurTables S.Store store.old store.new (λ db. IfOk result (λ outcomes.
        RunsDevices (map plain_timed events.now) outcomes.items db
        (state S.Store store.new).is_open (state S.Store store.new).now)) }
    ensures rest { IfOurTables S.Store store.old store.new (λ db. IfOk result (λ outcomes.
        IsTrue (state S.Store store.new).is_open → LeavesTheRest (map plain_timed events.now)
        outcomes.items db (state S.Store store.new).is_open (state S.Store store.new).now)) }
    ensures lives { IfOurTables S.Store store.old store.new (λ db. IfOk result (λ outcomes.
        (name : List ℕ) (life : Life) → IsLifeIn db true name life
        → IsLifeIn (state S.Store store.new).now (state S.Store store.new).is_open name
        (life ++ exchanges_of name (map plain_timed events.now) outcomes.items))) }
    ensures found { IfOurTables S.Store store.old store.new (λ db. IfOk result (λ outcomes.
        IsTrue (state S.Store store.new).is_open
        → (name : List ℕ) (life : Life) → IsLifeIn db true name life
        → (found : Trees) → (state S.Store store.new).may_leave found
        → IsFound name (life ++ exchanges_of name (map plain_timed events.now) outcomes.items)
        found)) }
    ensures schema { IfOurTables S.Store store.old store.new (λ db.
        IsTrue (state S.Store store.new).is_open → HasSchema (state S.Store store.new).now) }
    ensures unchanged { OnErr result (store.new ≡ store.old) }
    ensures connection { KeepsConnection (state S.Store store.old) (state S.Store store.new) }
{
    let mut outcomes = Vec::with_capacity(alloc, events.len())?;
    // Asked for what it says: a crash finds what is seen.
    let _on_disk = store.is_on_disk();
    for (now, event) in events {
        let answer = store.apply(alloc, *now, event);
        keep(&mut outcomes, Outcome::from(answer));
    }
    Ok(outcomes)
}

/// Adds an outcome to a vector that was made large enough for all.
fn keep(outcomes: &mut Vec<Outcome>, outcome: Outcome)
    requires room { vec_len outcomes.old < vec_capacity outcomes.old }
    ensures kept { outcomes.new.items ≡ outcomes.old.items ++ outcome ∷ [] }
    ensures capacity { vec_capacity outcomes.old ≤ vec_capacity outcomes.new }
{
    outcomes.push(outcome).unwrap();
}
