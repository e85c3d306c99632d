//! How an event goes through on a full disk: kept space is given up, and the event is applied
//! again.
ghost use Rattle.std.specs.Prelude.{◌≡◌, ◌+◌, ◌≤◌, Err, IsTrue};
ghost use Rattle.serve_peers.specs.Again.{IsOneMore, answer_at_last};
ghost use Rattle.serve_peers.specs.Applying.{AppliesAlone};
ghost use Rattle.serve_peers.specs.Space.{entry_needs_space, length_of_entry};
ghost use Rattle.serve_peers.specs.Writing.{rounds_in, under_way_in};
ghost use Rattle.serve_space.specs.Spares.{held_of, kept_back, kept_beside};

use crate::applying::apply_in_own_transaction;
use crate::entry::Entry;
use crate::journal::Journal;
use crate::outcome::is_done;
use account_machine::Answered;
use serve_space::Spare;
use sqlite::Alter;
use std::alloc::Global;
use store_rounds::{Rounds, StoreFault};

/// The bytes that a small change is given first. SQLite's write-ahead log grows by 256 KiB at once.
const FIRST_PIECE: usize = 524_288;

/// The bytes that the log of events is given: the most that waits for it, and a block.
const LOG_PIECE: usize = 1_052_672;

/// Applies what came. Where the storage fails it is applied once more from the space that is kept,
/// with a piece of that, and then with all of it.
pub(crate) fn apply_or_free_space<S: Alter>(
    alloc: Global,
    rounds: &mut Rounds<S>,
    spare: &mut Spare,
    entry: &Entry,
) -> Result<Answered, StoreFault>
    ensures { AppliesAlone S.Store entry.now rounds.old rounds.new result }
{
    let answer = apply_in_own_transaction(alloc, rounds, entry);
    let answer = apply_again_from_space(alloc, rounds, spare, entry, answer, FIRST_PIECE);
    apply_again_from_space(alloc, rounds, spare, entry, answer, usize::MAX)
}

/// Applies what failed once more, if space could be given up for it. What it leaves of that is
/// taken back at once, before somebody else's file takes it.
fn apply_again_from_space<S: Alter>(
    alloc: Global,
    rounds: &mut Rounds<S>,
    spare: &mut Spare,
    entry: &Entry,
    answer: Result<Answered, StoreFault>,
    most: usize,
) -> Result<Answered, StoreFault>
    ensures { IsOneMore S.Store entry.now rounds.old answer rounds.new result }
{
    if !frees_space(spare, entry, &answer, most) {
        return answer;
    }
    let answer = answer_at_last(apply_in_own_transaction(alloc, rounds, entry));
    spare.fill();
    answer
}

/// Gives up kept space where the storage failed, and answers whether there was some. For a small
/// change it gives up `most` bytes at most. For a job or a document it gives up as many more as
/// that is long, but as many have to stay kept.
fn frees_space(
    spare: &mut Spare,
    entry: &Entry,
    answer: &Result<Answered, StoreFault>,
    most: usize,
) -> bool
    ensures failed { IsTrue result → answer.now ≡ Err StoreFault.Storage }
    ensures left { IsTrue result → IsTrue (entry_needs_space entry.now)
        → length_of_entry entry.now + (kept_back + kept_beside) ≤ held_of spare.new }
{
    match answer {
        Err(StoreFault::Storage) => gives_up_for(spare, entry, most),
        _ => false,
    }
}

/// Gives up kept space for this entry, and answers whether there was some.
fn gives_up_for(spare: &mut Spare, entry: &Entry, most: usize) -> bool
    ensures { IsTrue result → IsTrue (entry_needs_space entry.now)
        → length_of_entry entry.now + (kept_back + kept_beside) ≤ held_of spare.new }
{
    if entry.needs_space() {
        let length = entry.length();
        spare.lend(length, most.saturating_add(length))
    } else {
        spare.give_up(most)
    }
}

/// What is answered to an event that was applied once more: rows that were found damaged only then
/// are a failure of the storage, as it was at first.
fn answer_at_last(answer: Result<Answered, StoreFault>) -> Result<Answered, StoreFault>
    ensures { result ≡ answer_at_last answer }
{
    match answer {
        Err(StoreFault::Damaged) => Err(StoreFault::Storage),
        answer => answer,
    }
}

/// Tells the kept space what was done: that a job ended, or that a job or a document came.
pub(crate) fn note_space(spare: &mut Spare, entry: &Entry, answer: &Result<Answered, StoreFault>) {
    if !is_done(answer) {
        return;
    }
    if entry.needs_space() {
        spare.took();
    } else if entry.ends_job() {
        spare.ended();
    }
}

/// Lets the log write the lines that wait, on a full disk too: it gives up a piece of the kept
/// space for them, and takes back what they leave of it.
pub(crate) fn log_from_space(journal: &mut Journal, spare: &mut Spare)
    ensures rounds { rounds_in journal.new ≡ rounds_in journal.old }
    ensures under_way { under_way_in journal.new ≡ under_way_in journal.old }
{
    if journal.log_lags() && spare.give_up(LOG_PIECE) {
        journal.push_out();
        spare.fill();
    }
}
