//! DELETE statements that remove all rows of an account from the copy, one for each table.

ghost use Rattle.std.specs.Prelude.{[], ◌∷◌};
ghost use Rattle.sqlite_value.specs.declared.value.Value.TheVariants.{Text};
ghost use Rattle.rows_tables.specs.Calls.{Changes, WritesInSavepoint};
ghost use Rattle.rows_tables.specs.Keyed.{RemovesRows};
ghost use Rattle.rows_tables.specs.Tables.{account as account_table, document as document_table};
ghost use Rattle.rows_tables.specs.Places.{account_places};
ghost use Rattle.rows_tables.specs.Tables.{grants as grants_table, job as job_table};

use account_rules::Name;
use rows_tables::write;
use sqlite::{Alter, Error, Savepoint};
use sqlite_value::value::ValueRef;

/// Deletes all documents of the account, inside a savepoint.
pub(crate) fn remove_documents<T: Alter>(
    savepoint: &mut Savepoint<'_, T>,
    account: Name,
) -> Result<(), Error>
    ensures removes { Changes T.Store savepoint.old.conn.now savepoint.new.conn.now result
        (RemovesRows document_table (Text account ∷ []) account_places) }
    ensures inside { WritesInSavepoint savepoint.old savepoint.new result }
{
    write(
        savepoint,
        "DELETE FROM document WHERE account = ?1",
        &[ValueRef::Text(account.bytes())],
    )
}

/// Deletes all jobs of the account, inside a savepoint.
pub(crate) fn remove_jobs<T: Alter>(
    savepoint: &mut Savepoint<'_, T>,
    account: Name,
) -> Result<(), Error>
    ensures removes { Changes T.Store savepoint.old.conn.now savepoint.new.conn.now result
        (RemovesRows job_table (Text account ∷ []) account_places) }
    ensures inside { WritesInSavepoint savepoint.old savepoint.new result }
{
    write(
        savepoint,
        "DELETE FROM job WHERE account = ?1",
        &[ValueRef::Text(account.bytes())],
    )
}

/// Deletes all grants of the account, inside a savepoint.
pub(crate) fn remove_grants<T: Alter>(
    savepoint: &mut Savepoint<'_, T>,
    account: Name,
) -> Result<(), Error>
    ensures removes { Changes T.Store savepoint.old.conn.now savepoint.new.conn.now result
        (RemovesRows grants_table (Text account ∷ []) account_places) }
    ensures inside { WritesInSavepoint savepoint.old savepoint.new result }
{
    write(
        savepoint,
        "DELETE FROM grants WHERE account = ?1",
        &[ValueRef::Text(account.bytes())],
    )
}

/// Deletes the account's own row, inside a savepoint.
pub(crate) fn remove_account<T: Alter>(
    savepoint: &mut Savepoint<'_, T>,
    account: Name,
) -> Result<(), Error>
    ensures removes { Changes T.Store savepoint.old.conn.now savepoint.new.conn.now result
        (RemovesRows account_table (Text account ∷ []) account_places) }
    ensures inside { WritesInSavepoint savepoint.old savepoint.new result }
{
    write(
        savepoint,
        "DELETE FROM account WHERE name = ?1",
        &[ValueRef::Text(account.bytes())],
    )
}
