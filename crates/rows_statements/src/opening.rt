//! The change that opens an account: its own row is inserted. Whether the account is open already
//! is asked above, in `store_events`.

ghost use Rattle.rows_statements.specs.Prelude.{ChangesWhole, SetsRow};
ghost use Rattle.rows_tables.specs.Accounts.{IsAccount};
ghost use Rattle.rows_tables.specs.Cells.{account_cells};
ghost use Rattle.rows_tables.specs.Tables.{account as account_table};
ghost use Rattle.rows_statements.specs.Changed.{OpensAccount};

use crate::set_account;
use account_rules::{Account, Moment, Name};
use sqlite::{Alter, Connection, Error};

/// Opens the account at the moment `now`: inserts its row, with 1 as the number of its next job.
pub fn open_account<S: Alter>(
    connection: &mut Connection<S>,
    account: Name,
    now: Moment,
) -> Result<(), Error>
    ensures opens { ChangesWhole S.Store connection.old connection.new result
        (OpensAccount account now) }
{
    let row = Account {
        opened: now.seconds(),
        next_job: 1,
    };
    put_account(connection, account, row)
}

/// Sets the account's own row, in one savepoint.
fn put_account<S: Alter>(
    connection: &mut Connection<S>,
    account: Name,
    row: Account,
) -> Result<(), Error>
    requires { IsAccount row }
    ensures sets { ChangesWhole S.Store connection.old connection.new result
        (SetsRow account_table (account_cells account row)) }
{
    let mut savepoint = connection.savepoint()?;
    set_account(&mut savepoint, account, row)?;
    savepoint.commit()
}
