//! The change that an operator's grant makes: one row of the table `grants`. Whether the grant may
//! be made is decided above, in `store_events`.

ghost use Rattle.rows_statements.specs.Prelude.{ChangesWhole, SetsRow};
ghost use Rattle.rows_tables.specs.Cells.{grant_cells};
ghost use Rattle.rows_tables.specs.Tables.{grants as grants_table};
ghost use Rattle.rows_statements.specs.Changed.{GrantsPages};

use crate::set_grant;
use account_rules::Name;
use sqlite::{Alter, Connection, Error};

/// Adds the grant of a month to the account: pages to be used in that month or later. A grant of
/// the month that is there is replaced; callers ask first.
pub fn add_grant<S: Alter>(
    connection: &mut Connection<S>,
    account: Name,
    month: u32,
    pages: u32,
) -> Result<(), Error>
    ensures grants { ChangesWhole S.Store connection.old connection.new result
        (GrantsPages account month pages) }
{
    put_grant(connection, account, month, pages)
}

/// The work of `add_grant`, in one savepoint.
fn put_grant<S: Alter>(
    connection: &mut Connection<S>,
    account: Name,
    month: u32,
    pages: u32,
) -> Result<(), Error>
    ensures sets { ChangesWhole S.Store connection.old connection.new result
        (SetsRow grants_table (grant_cells account month pages)) }
{
    let mut savepoint = connection.savepoint()?;
    set_grant(&mut savepoint, account, month, pages)?;
    savepoint.commit()
}
