//! Statements on the table `account`, which has one row for each account: when it was opened, and
//! the number of its next job.

ghost use Rattle.std.specs.Prelude.{◌≡◌, ◌≢◌, [], ◌∷◌, Some, Err, option_map, IfOk, IfSome};
ghost use Rattle.rows_statements.specs.Prelude.{Changes, GetsRow, IfOurTables, IsRowOf, KeepsOpen, ReadsStore, SetsRow, WritesInSavepoint, column, number};
ghost use Rattle.account_rules.specs.declared.account.Account.{Account as AccountValue};
ghost use Rattle.rows_tables.specs.Places.{account_column, cell};
ghost use Rattle.rows_tables.specs.Tables.{account as account_table};
ghost use Rattle.rows_tables.specs.Cells.{account_cells};
ghost use Rattle.rows_tables.specs.Accounts.{account_at, IsAccount};
ghost use Rattle.rows_statements.specs.Updates.{SetsNextJob};

use crate::reads::Reads;
use account_rules::{Account, LAST_JOB, LAST_MOMENT, Name};
use rows_tables::values::{number, number_at};
use rows_tables::{TableFault, write};
use sqlite::{Alter, Error, Row, Savepoint};
use sqlite_value::value::ValueRef;

/// Reads the account's own row. `None` where the account is not open. `Damaged` where the row is
/// broken.
pub fn find_account<R: Reads>(
    connection: &mut R,
    account: Name,
) -> Result<Option<Account>, TableFault>
    ensures found { IfOurTables R.S.Store (R.held connection.old) (R.held connection.new)
        (λ db. IfOk result
        (λ found. account_at db account ≡ option_map (account_cells account) found)) }
    ensures in_range { IfOk result (λ found. IfSome found IsAccount) }
    ensures damaged { IfOurTables R.S.Store (R.held connection.old) (R.held connection.new) (λ db.
        result ≡ Err TableFault.Damaged
        → IsRowOf (account_cells account) IsAccount (account_at db account) → ⊥) }
    ensures reads { ReadsStore R.S.Store (R.held connection.old) (R.held connection.new) result }
{
    match account_row(connection, account)? {
        Some(row) => Ok(Some(account_from(&row)?)),
        None => Ok(None),
    }
}

/// Runs the query of `find_account`.
fn account_row<R: Reads>(connection: &mut R, account: Name) -> Result<Option<Row>, Error>
    ensures gets { GetsRow R.S.Store (R.held connection.old) (R.held connection.new)
        (λ db. account_at db account)
        (λ cells. cell account_column.opened cells ∷ cell account_column.next_job cells ∷ [])
        result }
    ensures connection { KeepsOpen R.S.Store (R.held connection.old)
        (R.held connection.new) result }
{
    connection.find_row(
        "SELECT opened, next_job FROM account WHERE name = ?1",
        &[ValueRef::Text(account.bytes())],
    )
}

/// Reads an account from the row of that query. `Damaged` where a value is out of range.
fn account_from(row: &Row) -> Result<Account, TableFault>
    ensures read { IfOk result (λ it.
        (column row.now 0 ≡ number it.opened) × (column row.now 1 ≡ number it.next_job)) }
    ensures in_range { IfOk result IsAccount }
    ensures damaged { result ≡ Err TableFault.Damaged → (it : AccountValue) → IsAccount it
        → column row.now 0 ≡ number it.opened → column row.now 1 ≢ number it.next_job }
{
    let opened = number_at(row, 0)?;
    let next_job = number_at(row, 1)?;
    if opened > LAST_MOMENT || next_job < 1 || next_job > LAST_JOB as u64 + 1 {
        return Err(TableFault::Damaged);
    }
    Ok(Account {
        opened,
        next_job: next_job as u32,
    })
}

/// Inserts or replaces the account's own row, inside a savepoint.
pub fn set_account<S: Alter>(
    savepoint: &mut Savepoint<'_, S>,
    account: Name,
    row: Account,
) -> Result<(), Error>
    requires { IsAccount row }
    ensures sets { Changes S.Store savepoint.old.conn.now savepoint.new.conn.now result
        (SetsRow account_table (account_cells account row)) }
    ensures inside { WritesInSavepoint savepoint.old savepoint.new result }
{
    write(
        savepoint,
        "INSERT INTO account (name, opened, next_job) VALUES (?1, ?2, ?3) ON CONFLICT (name) DO UPDATE SET opened = excluded.opened, next_job = excluded.next_job",
        &[
            ValueRef::Text(account.bytes()),
            number(row.opened),
            number(row.next_job as u64),
        ],
    )
}

/// Sets the number that the next job of an open account gets, inside a savepoint.
pub fn set_next_job<S: Alter>(
    savepoint: &mut Savepoint<'_, S>,
    account: Name,
    next_job: u32,
) -> Result<(), Error>
    ensures sets { Changes S.Store savepoint.old.conn.now savepoint.new.conn.now result
        (SetsNextJob account next_job) }
    ensures inside { WritesInSavepoint savepoint.old savepoint.new result }
{
    write(
        savepoint,
        "UPDATE account SET next_job = ?2 WHERE name = ?1",
        &[ValueRef::Text(account.bytes()), number(next_job as u64)],
    )
}
