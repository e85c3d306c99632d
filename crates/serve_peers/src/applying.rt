//! The two calls that apply an entry to the tables: in a transaction of its own, or in the round
//! that is under way.
ghost use Rattle.std.specs.Prelude.{◌≡◌, true};
ghost use Rattle.serve_peers.specs.Applying.{AppliesAlone, AppliesEntry};

use crate::entry::Entry;
use account_machine::Answered;
use sqlite::Alter;
use std::alloc::Global;
use store_rounds::{Rounds, StoreFault};

/// Applies an entry in a transaction of its own, which is committed before this answers.
pub(crate) fn apply_in_own_transaction<S: Alter>(
    alloc: Global,
    rounds: &mut Rounds<S>,
    entry: &Entry,
) -> Result<Answered, StoreFault>
    ensures { AppliesAlone S.Store entry.now rounds.old rounds.new result }
{
    store_events::apply_in_own_transaction(alloc, rounds, entry.moment(), &entry.event())
}

/// Applies an entry in the round that is under way. Where the storage has undone the round already,
/// nothing is applied, and the answer is `Storage`.
pub(crate) fn apply_unless_lost<S: Alter>(
    alloc: Global,
    rounds: &mut Rounds<S>,
    entry: &Entry,
) -> Result<Answered, StoreFault>
    ensures { AppliesEntry S.Store true entry.now rounds.old rounds.new result }
{
    if !rounds.is_under_way() {
        return Err(StoreFault::Storage);
    }
    store_events::apply(alloc, rounds, entry.moment(), &entry.event())
}
