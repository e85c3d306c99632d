//! Reading all grants of an account, as an operator and a backup list them.

ghost use Rattle.std.specs.Prelude.{◌≡◌, ℕ, map, Err, IfOk, OnOk};
ghost use Rattle.std.specs.List.{AllByRecursion};
ghost use Rattle.std.specs.FinMap.{entries};
ghost use Rattle.account_state.specs.Grants.{grant_of};
ghost use Rattle.account_state.specs.RoomRules.{IsGrant};
ghost use Rattle.rows_statements.specs.Prelude.{HasGathered, HoldsRoom, IfOurTables, KeepsOpen, ReadsStore, RoomValue, WalksStore};
ghost use Rattle.rows_statements.specs.GrantLists.{tells_no_grant, AreByMonth, IsInRange, ListsGrant};
ghost use Rattle.rows_statements.specs.SoundRows.{grant_rows, AreRowsOf};
ghost use Rattle.rows_statements.specs.Totals.{TellsGrant};
ghost use Rattle.rows_tables.specs.Cells.{grant_cells};

use crate::reads::Reads;
use crate::walking::Gather;
use account_rules::{FIRST_MONTH, Grant, LAST_MONTH, MOST_PAGES, Name};
use ipp_coding::List;
use rows_tables::TableFault;
use rows_tables::values::short_at;
use sqlite::Row;
use sqlite_value::value::ValueRef;
use std::alloc::Global;

/// Reads the grants of the account, by month. `Damaged` where a row is broken.
pub fn list_grants<R: Reads>(
    alloc: Global,
    connection: &mut R,
    account: Name,
) -> Result<List<Grant>, TableFault>
    ensures listed { IfOurTables R.S.Store (R.held connection.old) (R.held connection.new)
        (λ db. (room : RoomValue)
        → HoldsRoom db account room
        → IfOk result (λ grants. grants ≡ map grant_of (entries room.grants))) }
    ensures in_range { IfOk result (AllByRecursion IsInRange) }
    ensures damaged { IfOurTables R.S.Store (R.held connection.old) (R.held connection.new) (λ db.
        result ≡ Err TableFault.Damaged
        → AreRowsOf (λ (grant : ℕ × ℕ). grant_cells account grant.0 grant.1)
        (λ grant. IsGrant grant.0 grant.1) (grant_rows db account) → ⊥) }
    ensures reads { ReadsStore R.S.Store (R.held connection.old) (R.held connection.new) result }
{
    let mut grants = List {
        items: Vec::new(alloc),
    };
    walk_by_month(connection, account, &mut grants)?;
    Ok(grants)
}

/// Gathers the grants in the order of their months.
fn walk_by_month<R: Reads>(
    connection: &mut R,
    account: Name,
    grants: &mut List<Grant>,
) -> Result<(), TableFault>
    ensures gathers { OnOk result (HasGathered ListsGrant grants.old grants.new) }
    ensures walks { WalksStore ListsGrant (λ _ row. tells_no_grant row)
        R.S.Store (R.held connection.old) (R.held connection.new) (λ db. AreByMonth db account)
        grants.old grants.new result }
    ensures connection { KeepsOpen R.S.Store (R.held connection.old)
        (R.held connection.new) result }
{
    connection.walk(
        "SELECT month, pages FROM grants WHERE account = ?1 ORDER BY month",
        &[ValueRef::Text(account.bytes())],
        grants,
    )
}

/// Gathers grants: adds that of each row to the list.
impl Gather for List<Grant> {
    ghost use Rattle.rows_statements.specs.GrantLists.{tells_no_grant, ListsGrant};

    ghost step = { λ first row last. ListsGrant first row last };

    ghost refuses = { λ first row. tells_no_grant row };

    fn gather(&mut self, row: &Row) -> Result<(), TableFault> {
        let grant = grant_from(row)?;
        self.items.push(grant)?;
        Ok(())
    }
}

/// Reads a grant from its row. `Damaged` where a value is out of range.
fn grant_from(row: &Row) -> Result<Grant, TableFault>
    ensures read { IfOk result (λ grant. TellsGrant row.now grant.month grant.pages) }
    ensures in_range { IfOk result IsInRange }
    ensures damaged { result ≡ Err TableFault.Damaged → tells_no_grant row.now }
{
    let month = short_at(row, 0)?;
    let pages = short_at(row, 1)?;
    if month < FIRST_MONTH || month > LAST_MONTH || pages > MOST_PAGES {
        return Err(TableFault::Damaged);
    }
    Ok(Grant { month, pages })
}
