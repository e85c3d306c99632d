//! Counting the jobs of an account that have not ended: whether its queue takes one more, and what
//! its printer is doing.

ghost use Rattle.std.specs.Prelude.{◌≡◌, ◌<◌, ◌≤◌, length, map, Err, IfOk, OnOk, IsPermutation};
ghost use Rattle.rows_statements.specs.Prelude.{HasGathered, HoldsRoom, IfOurTables, KeepsOpen, ReadsStore, RoomValue, WalksStore};
ghost use Rattle.std.specs.FinMap.{values};
ghost use Rattle.account_rules.specs.Limits.{most_unfinished, most_units};
ghost use Rattle.account_state.specs.Queues.{not_completed};
ghost use Rattle.account_state.specs.RoomRules.{unfinished_count};
ghost use Rattle.account_state.specs.Sums.{has_processing};
ghost use Rattle.account_state.specs.Tallies.{tally_of};
ghost use Rattle.rows_statements.specs.Totals.{counted_cells, CountsJob, counts_one, number_cell, refuses_job, refuses_one};
ghost use Rattle.rows_statements.specs.SoundRows.{unfinished_rows, CanBeCounted};

use crate::reads::Reads;
use crate::walking::Gather;
use account_rules::{MOST_UNFINISHED, Name};
use account_state::Tally;
use rows_tables::TableFault;
use sqlite::Row;
use sqlite_value::value::ValueRef;

/// Tallies the unfinished jobs of the account, for Get-Printer-Attributes: how many there are, and
/// whether one is processing. `Damaged` where a row is broken, or there are more than an account
/// may have.
pub fn tally_unfinished<R: Reads>(connection: &mut R, account: Name) -> Result<Tally, TableFault>
    ensures counted { IfOurTables R.S.Store (R.held connection.old) (R.held connection.new) (λ db.
        (room : RoomValue) → HoldsRoom db account room
        → IfOk result (λ tally. tally ≡ tally_of (not_completed (values room.jobs)))) }
    ensures queue { IfOurTables R.S.Store (R.held connection.old) (R.held connection.new) (λ db.
        (room : RoomValue) → HoldsRoom db account room → IfOk result (λ tally.
        (tally.unfinished ≡ unfinished_count room) × (tally.is_processing ≡ has_processing room))) }
    ensures few { IfOk result (λ tally. tally.unfinished ≤ most_unfinished) }
    ensures bounds { IfOk result
        (λ tally. (tally.reserved ≤ most_units) × (tally.charged ≤ most_units)) }
    ensures damaged { IfOurTables R.S.Store (R.held connection.old) (R.held connection.new)
        (λ db. result ≡ Err TableFault.Damaged
        → CanBeCounted account (unfinished_rows db account) → ⊥) }
    ensures reads { ReadsStore R.S.Store (R.held connection.old) (R.held connection.new) result }
{
    let mut tally = Tally::new();
    walk_queued(connection, account, &mut tally)?;
    Ok(tally)
}

/// Adds the unfinished jobs up in `tally`. An `ended` of -1 says that a job has not ended.
fn walk_queued<R: Reads>(
    connection: &mut R,
    account: Name,
    tally: &mut Tally,
) -> Result<(), TableFault>
    ensures gathers { OnOk result (HasGathered CountsJob tally.old tally.new) }
    ensures walks { WalksStore CountsJob refuses_job R.S.Store (R.held connection.old)
        (R.held connection.new)
        (λ db. IsPermutation (map counted_cells (unfinished_rows db account)))
        tally.old tally.new result }
    ensures connection { KeepsOpen R.S.Store (R.held connection.old)
        (R.held connection.new) result }
{
    connection.walk(
        "SELECT state, reserved, charged FROM job WHERE account = ?1 AND ended = -1",
        &[ValueRef::Text(account.bytes())],
        tally,
    )
}

/// Counts the unfinished jobs of the account, of which a queue takes only so many. Only the index
/// is read. `Damaged` where there are more than an account may have.
pub fn count_unfinished<R: Reads>(connection: &mut R, account: Name) -> Result<u32, TableFault>
    ensures counted { IfOurTables R.S.Store (R.held connection.old) (R.held connection.new)
        (λ db. (room : RoomValue)
        → HoldsRoom db account room → IfOk result (λ count. count ≡ unfinished_count room)) }
    ensures rows { IfOurTables R.S.Store (R.held connection.old) (R.held connection.new)
        (λ db. IfOk result (λ count. count ≡ length (unfinished_rows db account))) }
    ensures few { IfOk result (λ count. count ≤ most_unfinished) }
    ensures damaged { IfOurTables R.S.Store (R.held connection.old) (R.held connection.new)
        (λ db. result ≡ Err TableFault.Damaged
        → most_unfinished < length (unfinished_rows db account)) }
    ensures reads { ReadsStore R.S.Store (R.held connection.old) (R.held connection.new) result }
{
    let mut unfinished = Unfinished { count: 0 };
    walk_index(connection, account, &mut unfinished)?;
    Ok(unfinished.count)
}

/// How many unfinished jobs were read so far.
#[derive(Drop)]
struct Unfinished {
    count: u32,
}

impl Gather for Unfinished {
    ghost use Rattle.rows_statements.specs.Totals.{counts_one, refuses_one};

    ghost step = { λ first row last. counts_one first.count row last.count };

    ghost refuses = { λ first row. refuses_one first.count row };

    fn gather(&mut self, _row: &Row) -> Result<(), TableFault> {
        if self.count >= MOST_UNFINISHED {
            return Err(TableFault::Damaged);
        }
        self.count += 1;
        Ok(())
    }
}

/// Counts the unfinished jobs by the index alone.
fn walk_index<R: Reads>(
    connection: &mut R,
    account: Name,
    unfinished: &mut Unfinished,
) -> Result<(), TableFault>
    ensures gathers { OnOk result (HasGathered
        (λ first row last. counts_one first.count row last.count)
        unfinished.old unfinished.new) }
    ensures walks { WalksStore (λ first row last. counts_one first.count row last.count)
        (λ first row. refuses_one first.count row) R.S.Store (R.held connection.old)
        (R.held connection.new)
        (λ db. IsPermutation (map number_cell (unfinished_rows db account)))
        unfinished.old unfinished.new result }
    ensures connection { KeepsOpen R.S.Store (R.held connection.old)
        (R.held connection.new) result }
{
    connection.walk(
        "SELECT job FROM job WHERE account = ?1 AND ended = -1",
        &[ValueRef::Text(account.bytes())],
        unfinished,
    )
}
