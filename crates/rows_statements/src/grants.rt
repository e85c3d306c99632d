//! Statements on the table `grants`: the pages that an account was granted, one row for each month.

ghost use Rattle.std.specs.Prelude.{◌≡◌, ◌≢◌, ℕ, ◌≤◌, pos, [], ◌∷◌, map, Err, option_map, IfOk, IfSome, OnOk, IsPermutation};
ghost use Rattle.rows_statements.specs.Prelude.{Changes, GetsRow, HasGathered, HoldsRoom, IfOurTables, IsRowOf, KeepsOpen, ReadsStore, RoomValue, SetsRow, WalksStore, WritesInSavepoint, column, number};
ghost use Rattle.account_rules.specs.Limits.{most_pages, most_units};
ghost use Rattle.account_state.specs.Sums.{granted_to};
ghost use Rattle.rows_tables.specs.Places.{grant_column, cell};
ghost use Rattle.rows_tables.specs.Tables.{grants as grants_table};
ghost use Rattle.rows_tables.specs.Cells.{grant_cells};
ghost use Rattle.rows_tables.specs.Accounts.{grant_at};
ghost use Rattle.rows_statements.specs.Totals.{granted_cells, gathers_grant, refuses_grant};
ghost use Rattle.rows_statements.specs.SoundRows.{grant_rows, CanBeAdded};

use crate::reads::Reads;
use crate::walking::Gather;
use account_rules::{MOST_PAGES, Name};
use account_state::sum_of_units;
use rows_tables::values::{number, number_at};
use rows_tables::{TableFault, write};
use sqlite::{Alter, Error, Row, Savepoint};
use sqlite_value::value::ValueRef;

/// Reads the pages that the account was granted in the month. `None` where that has no grant;
/// `Damaged` where the row is broken.
pub fn find_grant<R: Reads>(
    connection: &mut R,
    account: Name,
    month: u32,
) -> Result<Option<u32>, TableFault>
    ensures found { IfOurTables R.S.Store (R.held connection.old) (R.held connection.new)
        (λ db. IfOk result
        (λ found. grant_at db account (pos month) ≡ option_map (grant_cells account month) found)) }
    ensures in_range { IfOk result (λ found. IfSome found (λ pages. pages ≤ most_pages)) }
    ensures damaged { IfOurTables R.S.Store (R.held connection.old) (R.held connection.new) (λ db.
        result ≡ Err TableFault.Damaged
        → IsRowOf (grant_cells account month) (λ pages. pages ≤ most_pages)
        (grant_at db account (pos month)) → ⊥) }
    ensures reads { ReadsStore R.S.Store (R.held connection.old) (R.held connection.new) result }
{
    match grant_row(connection, account, month)? {
        Some(row) => Ok(Some(pages_from(&row)?)),
        None => Ok(None),
    }
}

/// Runs the query of `find_grant`.
fn grant_row<R: Reads>(connection: &mut R, account: Name, month: u32) -> Result<Option<Row>, Error>
    ensures gets { GetsRow R.S.Store (R.held connection.old) (R.held connection.new)
        (λ db. grant_at db account (pos month))
        (λ cells. cell grant_column.pages cells ∷ []) result }
    ensures connection { KeepsOpen R.S.Store (R.held connection.old)
        (R.held connection.new) result }
{
    connection.find_row(
        "SELECT pages FROM grants WHERE account = ?1 AND month = ?2",
        &[ValueRef::Text(account.bytes()), number(month as u64)],
    )
}

/// Reads the pages from the row of that query. `Damaged` where they are out of range.
fn pages_from(row: &Row) -> Result<u32, TableFault>
    ensures read { IfOk result (λ pages. column row.now 0 ≡ number pages) }
    ensures in_range { IfOk result (λ pages. pages ≤ most_pages) }
    ensures damaged { result ≡ Err TableFault.Damaged → (pages : ℕ) → pages ≤ most_pages
        → column row.now 0 ≢ number pages }
{
    let pages = number_at(row, 0)?;
    if pages > MOST_PAGES as u64 {
        return Err(TableFault::Damaged);
    }
    Ok(pages as u32)
}

/// Adds up the pages that the account was granted for all months up to and with the given one.
/// `Damaged` where a row is broken, or the sum is more than an account can have.
pub fn granted_to<R: Reads>(
    connection: &mut R,
    account: Name,
    month: u32,
) -> Result<u64, TableFault>
    ensures granted { IfOurTables R.S.Store (R.held connection.old) (R.held connection.new)
        (λ db. (room : RoomValue)
        → HoldsRoom db account room → IfOk result (λ pages. pages ≡ granted_to room month)) }
    ensures in_range { IfOk result (λ pages. pages ≤ most_units) }
    ensures damaged { IfOurTables R.S.Store (R.held connection.old) (R.held connection.new)
        (λ db. result ≡ Err TableFault.Damaged
        → CanBeAdded account month (grant_rows db account) → ⊥) }
    ensures reads { ReadsStore R.S.Store (R.held connection.old) (R.held connection.new) result }
{
    let mut granted = Granted { month, pages: 0 };
    walk_grants(connection, account, &mut granted)?;
    Ok(granted.pages)
}

/// A sum of grants under way: the last month that counts, and the pages so far.
#[derive(Drop)]
struct Granted {
    month: u32,
    pages: u64,
}

impl Gather for Granted {
    ghost use Rattle.rows_statements.specs.Totals.{gathers_grant, refuses_grant};

    ghost step = { gathers_grant };

    ghost refuses = { λ first row. refuses_grant first.month first.pages row };

    fn gather(&mut self, row: &Row) -> Result<(), TableFault> {
        let month = number_at(row, 0)?;
        let pages = number_at(row, 1)?;
        if month <= self.month as u64 {
            let Some(sum) = sum_of_units(self.pages, pages) else {
                return Err(TableFault::Damaged);
            };
            self.pages = sum;
        }
        Ok(())
    }
}

/// Adds the account's grants up in `granted`.
fn walk_grants<R: Reads>(
    connection: &mut R,
    account: Name,
    granted: &mut Granted,
) -> Result<(), TableFault>
    ensures gathers { OnOk result (HasGathered gathers_grant granted.old granted.new) }
    ensures walks { WalksStore gathers_grant
        (λ first row. refuses_grant first.month first.pages row)
        R.S.Store (R.held connection.old) (R.held connection.new)
        (λ db. IsPermutation (map granted_cells (grant_rows db account)))
        granted.old granted.new result }
    ensures connection { KeepsOpen R.S.Store (R.held connection.old)
        (R.held connection.new) result }
{
    connection.walk(
        "SELECT month, pages FROM grants WHERE account = ?1",
        &[ValueRef::Text(account.bytes())],
        granted,
    )
}

/// Inserts or replaces the grant of a month, inside a savepoint.
pub fn set_grant<S: Alter>(
    savepoint: &mut Savepoint<'_, S>,
    account: Name,
    month: u32,
    pages: u32,
) -> Result<(), Error>
    ensures sets { Changes S.Store savepoint.old.conn.now savepoint.new.conn.now result
        (SetsRow grants_table (grant_cells account month pages)) }
    ensures inside { WritesInSavepoint savepoint.old savepoint.new result }
{
    write(
        savepoint,
        "INSERT INTO grants (account, month, pages) VALUES (?1, ?2, ?3) ON CONFLICT (account, month) DO UPDATE SET pages = excluded.pages",
        &[
            ValueRef::Text(account.bytes()),
            number(month as u64),
            number(pages as u64),
        ],
    )
}
