//! Adding up what an account was charged on each day of a month, for the chart of the overview.

ghost use Rattle.std.specs.Prelude.{◌≡◌, ◌<◌, ℕ, map, Err, IfOk, IsPermutation, slice_index};
ghost use Rattle.std.specs.FinMap.{values};
ghost use Rattle.std.specs.List.{sum_by};
ghost use Rattle.page_overview.specs.Surveys.{charged_on, told};
ghost use Rattle.rows_statements.specs.Prelude.{HoldsRoom, IfOurTables, KeepsOpen, ReadsStore, RoomValue, WalksStore};
ghost use Rattle.rows_statements.specs.SoundRows.{job_rows, CanBeSummed};
ghost use Rattle.rows_survey.specs.Charges.{charged_cells, refuses_charge, AddsCharge};

use account_rules::Name;
use page_overview::{MOST_DAYS, place_of_day};
use rows_statements::{Gather, Reads};
use rows_tables::TableFault;
use rows_tables::values::{moment_at, number_at};
use sqlite::Row;
use sqlite_value::value::ValueRef;

/// Adds up the units that jobs of the account were charged, by the day of the month on which they
/// ended, in one walk over all its jobs. `Damaged` where a row is broken.
pub(crate) fn charges_of<R: Reads>(
    connection: &mut R,
    account: Name,
    month: u32,
) -> Result<[u64; MOST_DAYS], TableFault>
    ensures told { IfOurTables R.S.Store (R.held connection.old) (R.held connection.new)
        (λ db. (room : RoomValue)
        → HoldsRoom db account room → IfOk result (λ days. (place : ℕ) → place < MOST_DAYS
        → slice_index days place ≡ told (sum_by
        (λ job. charged_on month place job.standing.charged job.standing.ended)
        (values room.jobs)))) }
    ensures damaged { IfOurTables R.S.Store (R.held connection.old) (R.held connection.new)
        (λ db. result ≡ Err TableFault.Damaged → CanBeSummed account (job_rows db account) → ⊥) }
    ensures reads { ReadsStore R.S.Store (R.held connection.old) (R.held connection.new) result }
{
    let mut charges = Charges {
        month,
        days: [0; MOST_DAYS],
    };
    walk_jobs(connection, account, &mut charges)?;
    Ok(charges.days)
}

/// Charges under way: the month, and the units of each of its days so far. The first day is in
/// place 0.
#[derive(Drop)]
struct Charges {
    month: u32,
    days: [u64; MOST_DAYS],
}

impl Gather for Charges {
    ghost use Rattle.rows_survey.specs.Charges.{refuses_charge, AddsCharge};

    ghost step = { AddsCharge };

    ghost refuses = { λ first row. refuses_charge row };

    fn gather(&mut self, row: &Row) -> Result<(), TableFault> {
        let charged = number_at(row, 0)?;
        let ended = moment_at(row, 1)?;
        self.add(charged, ended);
        Ok(())
    }
}

impl Charges {
    ghost use Rattle.rows_survey.specs.Charges.{AddsUnits};

    /// Adds what a job was charged to the day on which it ended. A job that has not ended, or ended
    /// in another month, adds nothing.
    fn add(&mut self, charged: u64, ended: Option<u64>)
        ensures { AddsUnits charged ended self.old self.new }
    {
        let Some(at) = ended else {
            return;
        };
        if let Some(place) = place_of_day(self.month, at) {
            if place < MOST_DAYS {
                self.days[place] = self.days[place].saturating_add(charged);
            }
        }
    }
}

/// Adds all jobs of the account up in `charges`.
fn walk_jobs<R: Reads>(
    connection: &mut R,
    account: Name,
    charges: &mut Charges,
) -> Result<(), TableFault>
    ensures walks { WalksStore AddsCharge (λ _ row. refuses_charge row)
        R.S.Store (R.held connection.old) (R.held connection.new)
        (λ db. IsPermutation (map charged_cells (job_rows db account)))
        charges.old charges.new result }
    ensures connection { KeepsOpen R.S.Store (R.held connection.old)
        (R.held connection.new) result }
{
    connection.walk(
        "SELECT charged, ended FROM job WHERE account = ?1",
        &[ValueRef::Text(account.bytes())],
        charges,
    )
}
