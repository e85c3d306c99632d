//! How a command comes by the tables of its database, and applies its events to them.
ghost use Rattle.std.specs.Prelude.{◌≡◌, All, IfErr, IfOk, IsTrue, length, map};
ghost use Rattle.sqlite.specs.Held.{Held};
ghost use Rattle.account_machine.specs.Events.{plain_event, plain_timed};
ghost use Rattle.account_machine.specs.Fits.{fits};
ghost use Rattle.room_serve.specs.Runs.{AreApplied};
ghost use Rattle.cli_commands.specs.Outcomes.{first_failure};
ghost use Rattle.cli_words.specs.Statuses.{exit_status_of};

use crate::fault::{event_fault, open_fault, opened};
use crate::opener::Opener;
use account_machine::Event;
use cli_words::{Fault, MEMORY};
use room_serve::{Outcome, RunFault, run_events};
use room_store::{Refused, Store};
use sqlite::{Alter, Connection};
use std::alloc::Global;

/// How a command comes by the tables of its database: it makes them, brings them up to date, or
/// finds them. Who serves opens the file anew, so that what accounts were charged can be kept in
/// memory. Those of `:memory:` are always made, since no run before can have made them.
#[derive(Clone, Copy)]
pub enum Begin {
    Create,
    Migrate,
    Open,
    Serve,
}

/// Opens the database, comes by its tables as `how` says, and closes it.
pub fn prepare<S: Alter + Drop, F: Opener<Kept = Connection<S>> + Drop>(
    alloc: Global,
    mut opener: F,
    database: &str,
    how: Begin,
) -> Result<(), Fault>
    ensures status { IfErr result (λ fault. exit_status_of fault ≡ 3) }
{
    let store = store_of(alloc, &mut opener, database, how)?;
    opener.close(store.close());
    Ok(())
}

/// Opens the database, applies the events in order, and closes it. Answers what each came to.
pub fn outcomes_of<S: Alter + Drop, F: Opener<Kept = Connection<S>> + Drop>(
    alloc: Global,
    mut opener: F,
    database: &str,
    events: &[(u64, Event<'_>)],
) -> Result<Vec<Outcome>, Fault>
    requires { All (λ e. IsTrue (fits (plain_event e.1))) events.now }
    ensures applied { IfOk result (λ outcomes. (old : Held S) × (new : Held S)
        × AreApplied S.Store (map plain_timed events.now) outcomes.items old new) }
    ensures each { IfOk result (λ outcomes. length outcomes.items ≡ length events.now) }
{
    let mut store = store_of(alloc, &mut opener, database, Begin::Open)?;
    let outcomes = run_events(alloc, &mut store, events);
    opener.close(store.close());
    match outcomes {
        Ok(outcomes) => Ok(outcomes),
        Err(RunFault::Memory) => Err(Fault::Memory),
    }
}

/// The command's fault for the first event that failed, if one did.
pub fn first_failure(outcomes: &[Outcome]) -> Option<Fault>
    ensures { result ≡ first_failure outcomes.now }
{
    for outcome in outcomes {
        if let Outcome::Failed(fault) = outcome {
            return Some(event_fault(*fault));
        }
    }
    None
}

/// Opens the store that a command works on. The tables of `:memory:` are made whatever `how` says.
/// If it is refused the opener has its connection back, unless the file could not be opened anew.
pub fn store_of<S: Alter + Drop, F: Opener<Kept = Connection<S>>>(
    alloc: Global,
    opener: &mut F,
    database: &str,
    how: Begin,
) -> Result<Store<S>, Fault>
    ensures status { IfErr result (λ fault. exit_status_of fault ≡ 3) }
{
    let connection = opened(opener.open(database))?;
    let store = match how {
        Begin::Create => Store::create(connection),
        _ if database == MEMORY => Store::create(connection),
        Begin::Migrate => Store::migrate(connection),
        Begin::Open | Begin::Serve => Store::open(connection),
    };
    match store {
        Ok(store) => {
            if matches!(how, Begin::Serve) && database != MEMORY {
                opened(store.reopen(alloc))
            } else {
                Ok(store)
            }
        }
        Err(Refused { connection, fault }) => {
            opener.close(connection);
            Err(open_fault(fault))
        }
    }
}
