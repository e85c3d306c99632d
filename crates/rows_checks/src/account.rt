//! `check_account`: the check of all rows of an account. The other files have its parts, one for
//! each table.

ghost use Rattle.std.specs.Prelude.{◌≡◌, Err, IfOk, None, OnOk, Some};
ghost use Rattle.rows_checks.specs.Checks.{AreOfNoRoom, IsSoundAs, OthersAreInOrder};
ghost use Rattle.rows_statements.specs.Prelude.{IfOurTables, ReadsStore};
ghost use Rattle.rows_tables.specs.Accounts.{account_at, HoldsNothing, IsSound};

use crate::documents::{check_no_document, check_places};
use crate::grants::{check_grants, check_no_grant};
use crate::jobs::{check_jobs, check_no_job};
use account_rules::Name;
use rows_statements::{Reads, count_unfinished, find_account};
use rows_tables::TableFault;
use std::alloc::Global;

/// Checks all rows of the account, and answers whether it is open. `Damaged` where they are not
/// sound. `Storage` and `Memory` where the storage failed or memory ran out: then nothing is known
/// of the rows. The numbers of its jobs, of their documents and of the months of its grants are in
/// memory meanwhile.
pub fn check_account<R: Reads>(
    alloc: Global,
    connection: &mut R,
    account: Name,
) -> Result<bool, TableFault>
    ensures sound { IfOurTables R.S.Store (R.held connection.old) (R.held connection.new)
        (λ db. IfOk result (IsSoundAs db account)) }
    ensures damaged { IfOurTables R.S.Store (R.held connection.old) (R.held connection.new)
        (λ db. result ≡ Err TableFault.Damaged → IsSound db account → ⊥) }
    ensures reads { ReadsStore R.S.Store (R.held connection.old) (R.held connection.new) result }
{
    match find_account(connection, account)? {
        Some(row) => {
            check_room(alloc, connection, account, row.next_job)?;
            Ok(true)
        }
        None => {
            check_nothing(connection, account)?;
            Ok(false)
        }
    }
}

/// Checks that an account without a row of its own has no rows in other tables. `Damaged` where it
/// has.
fn check_nothing<R: Reads>(connection: &mut R, account: Name) -> Result<(), TableFault>
    ensures nothing { IfOurTables R.S.Store (R.held connection.old) (R.held connection.new) (λ db.
        OnOk result (account_at db account ≡ None → HoldsNothing db account)) }
    ensures damaged { IfOurTables R.S.Store (R.held connection.old) (R.held connection.new)
        (λ db. result ≡ Err TableFault.Damaged → HoldsNothing db account → ⊥) }
    ensures reads { ReadsStore R.S.Store (R.held connection.old) (R.held connection.new) result }
{
    check_no_job(connection, account)?;
    check_no_document(connection, account)?;
    check_no_grant(connection, account)
}

/// Checks all rows of an open account but its own, by which its next job gets the number
/// `next_job`. `Damaged` where they are not sound.
fn check_room<R: Reads>(
    alloc: Global,
    connection: &mut R,
    account: Name,
    next_job: u32,
) -> Result<(), TableFault>
    ensures in_order { IfOurTables R.S.Store (R.held connection.old) (R.held connection.new)
        (λ db. OnOk result (OthersAreInOrder db account next_job)) }
    ensures damaged { IfOurTables R.S.Store (R.held connection.old) (R.held connection.new)
        (λ db. result ≡ Err TableFault.Damaged → AreOfNoRoom db account next_job) }
    ensures reads { ReadsStore R.S.Store (R.held connection.old) (R.held connection.new) result }
{
    check_jobs(alloc, connection, account, next_job)?;
    count_unfinished(connection, account)?;
    check_places(alloc, connection, account)?;
    check_grants(alloc, connection, account)
}
