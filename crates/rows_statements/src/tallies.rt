//! Adding up all jobs of an account, which its quota needs.

ghost use Rattle.std.specs.Prelude.{◌≡◌, ◌≤◌, map, Err, IfOk, OnOk, IsPermutation};
ghost use Rattle.rows_statements.specs.Prelude.{HasGathered, HoldsRoom, IfOurTables, KeepsOpen, ReadsStore, RoomValue, WalksStore};
ghost use Rattle.std.specs.FinMap.{values};
ghost use Rattle.account_rules.specs.Limits.{most_unfinished, most_units};
ghost use Rattle.account_state.specs.Tallies.{tally_of};
ghost use Rattle.rows_statements.specs.Totals.{counted_cells, CountsJob, refuses_job};
ghost use Rattle.rows_statements.specs.JobSums.{IsSum, charges, reserves};
ghost use Rattle.rows_statements.specs.SoundRows.{job_rows, CanBeCounted};

use crate::reads::Reads;
use crate::walking::Gather;
use account_rules::Name;
use account_state::Tally;
use rows_tables::TableFault;
use rows_tables::values::{number_at, state_at};
use sqlite::Row;
use sqlite_value::value::ValueRef;

/// Adds up what all jobs of the account reserve and were charged, and counts the unfinished ones.
/// `Damaged` where a row is broken, or a sum is more than an account can have.
pub fn tally_jobs<R: Reads>(connection: &mut R, account: Name) -> Result<Tally, TableFault>
    ensures counted { IfOurTables R.S.Store (R.held connection.old) (R.held connection.new)
        (λ db. (room : RoomValue)
        → HoldsRoom db account room → IfOk result (λ tally. tally ≡ tally_of (values room.jobs))) }
    ensures reserved { IfOurTables R.S.Store (R.held connection.old) (R.held connection.new)
        (λ db. IfOk result (λ tally. IsSum reserves db account tally.reserved)) }
    ensures charged { IfOurTables R.S.Store (R.held connection.old) (R.held connection.new)
        (λ db. IfOk result (λ tally. IsSum charges db account tally.charged)) }
    ensures few { IfOk result (λ tally. tally.unfinished ≤ most_unfinished) }
    ensures bounds { IfOk result
        (λ tally. (tally.reserved ≤ most_units) × (tally.charged ≤ most_units)) }
    ensures damaged { IfOurTables R.S.Store (R.held connection.old) (R.held connection.new)
        (λ db. result ≡ Err TableFault.Damaged → CanBeCounted account (job_rows db account) → ⊥) }
    ensures reads { ReadsStore R.S.Store (R.held connection.old) (R.held connection.new) result }
{
    let mut tally = Tally::new();
    walk_jobs(connection, account, &mut tally)?;
    Ok(tally)
}

/// Gathers a tally: counts the job of each row in. `Damaged` where a sum is more than an account
/// can have.
impl Gather for Tally {
    ghost use Rattle.rows_statements.specs.Totals.{CountsJob, refuses_job};

    ghost step = { CountsJob };

    ghost refuses = { refuses_job };

    fn gather(&mut self, row: &Row) -> Result<(), TableFault> {
        match self.with(state_at(row, 0)?, number_at(row, 1)?, number_at(row, 2)?) {
            Some(counted) => *self = counted,
            // No account's jobs come to so much.
            None => return Err(TableFault::Damaged),
        }
        Ok(())
    }
}

/// Adds all jobs of the account up in `tally`.
fn walk_jobs<R: Reads>(
    connection: &mut R,
    account: Name,
    tally: &mut Tally,
) -> Result<(), TableFault>
    ensures gathers { OnOk result (HasGathered CountsJob tally.old tally.new) }
    ensures walks { WalksStore CountsJob refuses_job R.S.Store (R.held connection.old)
        (R.held connection.new)
        (λ db. IsPermutation (map counted_cells (job_rows db account))) tally.old tally.new result }
    ensures connection { KeepsOpen R.S.Store (R.held connection.old)
        (R.held connection.new) result }
{
    connection.walk(
        "SELECT state, reserved, charged FROM job WHERE account = ?1",
        &[ValueRef::Text(account.bytes())],
        tally,
    )
}
