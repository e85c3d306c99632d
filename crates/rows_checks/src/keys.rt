//! The first pass of the check: walks that list the keys of an account's rows (jobs, months of
//! grants, documents), or find out that there are none. The rows are then read one by one, since a
//! connection can read nothing else during a walk.

ghost use Rattle.std.specs.Prelude.{◌≡◌, Err, map, IsPermutation};
ghost use Rattle.rows_checks.specs.Checks.{ListsNumber, ListsPlace, all_documents, place_cells, refuses_number, refuses_place};
ghost use Rattle.rows_statements.specs.Prelude.{KeepsOpen, WalksStore};
ghost use Rattle.rows_statements.specs.SoundRows.{grant_rows, job_rows};
ghost use Rattle.rows_statements.specs.Totals.{number_cell};

use account_rules::Name;
use rows_statements::{Gather, Reads};
use rows_tables::TableFault;
use rows_tables::values::short_at;
use sqlite::Row;
use sqlite_value::value::ValueRef;
use std::marker::Model;

/// Refuses the first row of a walk: for a check that there are no rows.
#[derive(Drop)]
pub(crate) struct Nothing {}

impl Gather for Nothing {
    ghost use Rattle.std.specs.Prelude.{⊤};

    ghost step = { λ first row last. ⊥ };

    ghost refuses = { λ first row. ⊤ };

    fn gather(&mut self, _row: &Row) -> Result<(), TableFault> {
        Err(TableFault::Damaged)
    }
}

/// Hands the numbers of all jobs of the account to `gathered`.
pub(crate) fn walk_jobs<R: Reads, G: Gather>(
    connection: &mut R,
    account: Name,
    gathered: &mut G,
) -> Result<(), TableFault>
    ensures walks { WalksStore G.step G.refuses
        R.S.Store (R.held connection.old) (R.held connection.new)
        (λ db. IsPermutation (map number_cell (job_rows db account)))
        gathered.old gathered.new result }
    ensures connection { KeepsOpen R.S.Store (R.held connection.old)
        (R.held connection.new) result }
{
    connection.walk(
        "SELECT job FROM job WHERE account = ?1",
        &[ValueRef::Text(account.bytes())],
        gathered,
    )
}

/// Hands the months of all grants of the account to `gathered`.
pub(crate) fn walk_months<R: Reads, G: Gather>(
    connection: &mut R,
    account: Name,
    gathered: &mut G,
) -> Result<(), TableFault>
    ensures walks { WalksStore G.step G.refuses
        R.S.Store (R.held connection.old) (R.held connection.new)
        (λ db. IsPermutation (map number_cell (grant_rows db account)))
        gathered.old gathered.new result }
    ensures connection { KeepsOpen R.S.Store (R.held connection.old)
        (R.held connection.new) result }
{
    connection.walk(
        "SELECT month FROM grants WHERE account = ?1",
        &[ValueRef::Text(account.bytes())],
        gathered,
    )
}

/// A list of the numbers of jobs, or of the months of grants.
#[derive(Drop)]
pub(crate) struct Numbers {
    pub(crate) items: Vec<u32>,
}

impl Model for Numbers {
    ghost use Rattle.std.specs.Prelude.{List, ℕ};

    ghost Value = { List ℕ };

    ghost view = { λ a. a.items.items };
}

impl Numbers {
    pub(crate) fn as_slice(&self) -> &[u32]
        ensures { result.now ≡ self.now }
    {
        self.items.as_slice()
    }
}

impl Gather for Numbers {
    ghost use Rattle.rows_checks.specs.Checks.{ListsNumber, refuses_number};

    ghost step = { λ first row last. ListsNumber first row last };

    ghost refuses = { λ first row. refuses_number row };

    fn gather(&mut self, row: &Row) -> Result<(), TableFault> {
        let number = short_at(row, 0)?;
        self.items.push(number)?;
        Ok(())
    }
}

/// Hands the keys of all documents of the account to `gathered`: the number of the job, and that of
/// the document.
pub(crate) fn walk_places<R: Reads, G: Gather>(
    connection: &mut R,
    account: Name,
    gathered: &mut G,
) -> Result<(), TableFault>
    ensures walks { WalksStore G.step G.refuses
        R.S.Store (R.held connection.old) (R.held connection.new)
        (λ db. IsPermutation (map place_cells (all_documents db account)))
        gathered.old gathered.new result }
    ensures connection { KeepsOpen R.S.Store (R.held connection.old)
        (R.held connection.new) result }
{
    connection.walk(
        "SELECT job, number FROM document WHERE account = ?1",
        &[ValueRef::Text(account.bytes())],
        gathered,
    )
}

/// A list of keys of documents: the number of the job, and that of the document.
#[derive(Drop)]
pub(crate) struct Places {
    pub(crate) items: Vec<(u32, u32)>,
}

impl Model for Places {
    ghost use Rattle.std.specs.Prelude.{List, ℕ};

    ghost Value = { List (ℕ × ℕ) };

    ghost view = { λ a. a.items.items };
}

impl Places {
    pub(crate) fn as_slice(&self) -> &[(u32, u32)]
        ensures { result.now ≡ self.now }
    {
        self.items.as_slice()
    }
}

impl Gather for Places {
    ghost use Rattle.rows_checks.specs.Checks.{ListsPlace, refuses_place};

    ghost step = { λ first row last. ListsPlace first row last };

    ghost refuses = { λ first row. refuses_place row };

    fn gather(&mut self, row: &Row) -> Result<(), TableFault> {
        let job = short_at(row, 0)?;
        let number = short_at(row, 1)?;
        self.items.push((job, number))?;
        Ok(())
    }
}
