//! The part of the check that reads grants: whether each has a month and pages in range.

ghost use Rattle.std.specs.Prelude.{◌≡◌, ℤ, Err, None, OnOk, Some};
ghost use Rattle.rows_checks.specs.Checks.{GrantIsInOrder, GrantsAreInOrder};
ghost use Rattle.rows_statements.specs.Prelude.{IfOurTables, ReadsStore};
ghost use Rattle.rows_tables.specs.Accounts.{grant_at, IsSound};

use crate::keys::{Nothing, Numbers, walk_months};
use account_rules::{FIRST_MONTH, LAST_MONTH, Name};
use rows_statements::{Reads, find_grant};
use rows_tables::TableFault;
use std::alloc::Global;

/// Checks that the account has no grant. `Damaged` where it has one.
pub(crate) fn check_no_grant<R: Reads>(connection: &mut R, account: Name) -> Result<(), TableFault>
    ensures none { IfOurTables R.S.Store (R.held connection.old) (R.held connection.new)
        (λ db. OnOk result ((month : ℤ) → grant_at db account month ≡ None)) }
    ensures damaged { IfOurTables R.S.Store (R.held connection.old) (R.held connection.new)
        (λ db. result ≡ Err TableFault.Damaged
        → ((month : ℤ) → grant_at db account month ≡ None) → ⊥) }
    ensures reads { ReadsStore R.S.Store (R.held connection.old) (R.held connection.new) result }
{
    let mut nothing = Nothing {};
    walk_months(connection, account, &mut nothing)
}

/// Checks each grant of the account. `Damaged` where one is out of range.
pub(crate) fn check_grants<R: Reads>(
    alloc: Global,
    connection: &mut R,
    account: Name,
) -> Result<(), TableFault>
    ensures in_order { IfOurTables R.S.Store (R.held connection.old) (R.held connection.new)
        (λ db. OnOk result (GrantsAreInOrder db account)) }
    ensures damaged { IfOurTables R.S.Store (R.held connection.old) (R.held connection.new)
        (λ db. result ≡ Err TableFault.Damaged → IsSound db account → ⊥) }
    ensures reads { ReadsStore R.S.Store (R.held connection.old) (R.held connection.new) result }
{
    // The connection can read nothing else while the walk is under way.
    let mut months = Numbers {
        items: Vec::new(alloc),
    };
    walk_months(connection, account, &mut months)?;
    for month in months.as_slice() {
        check_grant(connection, account, *month)?;
    }
    Ok(())
}

/// Checks the grant of the month, if there is one. `Damaged` where the month or the pages are out
/// of range.
fn check_grant<R: Reads>(connection: &mut R, account: Name, month: u32) -> Result<(), TableFault>
    ensures in_order { IfOurTables R.S.Store (R.held connection.old) (R.held connection.new)
        (λ db. OnOk result (GrantIsInOrder db account month)) }
    ensures damaged { IfOurTables R.S.Store (R.held connection.old) (R.held connection.new)
        (λ db. result ≡ Err TableFault.Damaged → IsSound db account → ⊥) }
    ensures reads { ReadsStore R.S.Store (R.held connection.old) (R.held connection.new) result }
{
    match find_grant(connection, account, month)? {
        Some(_) if month < FIRST_MONTH || month > LAST_MONTH => Err(TableFault::Damaged),
        _ => Ok(()),
    }
}
