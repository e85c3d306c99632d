//! The names of all accounts, read from the table `account` in pages of at most 100. A backup and
//! an operator's `accounts` question page through them.

ghost use Rattle.std.specs.Prelude.{◌≡◌, ℕ, List, Err, IfOk, IsSome};
ghost use Rattle.account_state.specs.Names.{from_name, next_names, AreNames};
ghost use Rattle.rows_statements.specs.NameLists.{ListsName, ShowsNames, refuses_name};
ghost use Rattle.rows_statements.specs.Prelude.{IfOurTables, KeepsOpen, ReadsStore, WalksStore};
ghost use Rattle.rows_statements.specs.SoundRows.{AreNamed};
ghost use Rattle.rows_tables.specs.Accounts.{account_at};
ghost use Rattle.sqlite_value.specs.Value.{owned};
ghost use Rattle.sqlite_value.specs.declared.value.Value.TheVariants.{Text};

use crate::reads::Reads;
use crate::walking::Gather;
use account_rules::Name;
use ipp_coding::List;
use rows_tables::TableFault;
use rows_tables::values::name_at;
use sqlite::Row;
use sqlite_value::value::ValueRef;
use std::alloc::Global;

/// Reads the next page of names: at most 100 that come after `behind`, or the first, in the order
/// of their bytes. An operator who lists the accounts, and a backup, ask again behind the last name
/// of a page. `Damaged` where a row has no valid name.
pub fn next_accounts<R: Reads>(
    alloc: Global,
    connection: &mut R,
    behind: Option<Name>,
) -> Result<List<Name>, TableFault>
    ensures listed { IfOurTables R.S.Store (R.held connection.old) (R.held connection.new) (λ db.
        (names : List (List ℕ)) → AreNames (λ name. IsSome (account_at db name)) names
        → IfOk result (λ next. next ≡ next_names behind names)) }
    ensures damaged { IfOurTables R.S.Store (R.held connection.old) (R.held connection.new)
        (λ db. result ≡ Err TableFault.Damaged → AreNamed db → ⊥) }
    ensures reads { ReadsStore R.S.Store (R.held connection.old) (R.held connection.new) result }
{
    let mut names = List {
        items: Vec::new(alloc),
    };
    walk_names(connection, &behind, &mut names)?;
    Ok(names)
}

/// Gathers the names of the page.
fn walk_names<R: Reads>(
    connection: &mut R,
    behind: &Option<Name>,
    names: &mut List<Name>,
) -> Result<(), TableFault>
    ensures walks { WalksStore ListsName (λ _ row. refuses_name row)
        R.S.Store (R.held connection.old)
        (R.held connection.new) (ShowsNames behind.now) names.old names.new result }
    ensures connection { KeepsOpen R.S.Store (R.held connection.old)
        (R.held connection.new) result }
{
    connection.walk(
        "SELECT name FROM account WHERE name > ?1 ORDER BY name LIMIT 100",
        &[start_text(behind)],
        names,
    )
}

/// The name behind which the page begins, as a parameter of the statement. The empty text is before
/// all names.
fn start_text(behind: &Option<Name>) -> ValueRef<'_>
    ensures { owned result ≡ Text (from_name behind.now) }
{
    match behind {
        None => ValueRef::Text(&[]),
        Some(name) => ValueRef::Text(name.bytes()),
    }
}

/// Gathers names: adds that of each row to the list.
impl Gather for List<Name> {
    ghost use Rattle.rows_statements.specs.NameLists.{ListsName, refuses_name};

    ghost step = { λ first row last. ListsName first row last };

    ghost refuses = { λ first row. refuses_name row };

    fn gather(&mut self, row: &Row) -> Result<(), TableFault> {
        let name = name_at(row, 0)?;
        self.items.push(name)?;
        Ok(())
    }
}
