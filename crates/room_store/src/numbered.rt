//! `Numbered`: a connection that was opened anew, of which it is then known that no row number
//! comes twice in a table. `Store::reopen` needs that before it may keep sums in memory.

ghost use Rattle.std.specs.Prelude.{◌≡◌, IfOk, IsTrue};
ghost use Rattle.sqlite.specs.Held.{state};
ghost use Rattle.sqlite.specs.State.{HasCleanDisk};
ghost use Rattle.sqlite_trees.specs.declared.store.Shape.TheVariants as shape;
ghost use Rattle.room_store.specs.Shapes.{AreTables};
ghost use Rattle.rows_tables.specs.Tables.{room_schema};

use rows_tables::OpenFault;
use sqlite::{Alter, Connection};
use sqlite_trees::store::Shape;
use std::alloc::Global;
use std::marker::Model;

/// A connection of which it is known that no table of the store has a row number twice. Contracts
/// see it as the connection.
pub(crate) struct Numbered<S: Alter> {
    connection: Connection<S>,
}

// In the place of `#[derive(Drop)]`, so that no caller proves again how the connection is dropped.
impl<S: Alter + Drop> Drop for Numbered<S> {
    fn drop(self) {
        let Numbered { connection: _ } = self;
    }
}

impl<S: Alter> Model for Numbered<S> {
    ghost use Rattle.sqlite.specs.Held.{Held, held_code, state};
    ghost use Rattle.sqlite.specs.State.{HasCleanDisk};
    ghost use Rattle.rows_tables.specs.Keyed.{AreNumbered};
    ghost use Rattle.rows_tables.specs.Tables.{room_schema};

    ghost Value = { Held S };

    ghost coded = { held_code S.code };

    ghost view = { λ numbered. numbered.connection };

    ghost invariant = { λ numbered. HasCleanDisk (state S.Store numbered.connection)
        → AreNumbered room_schema.tables (state S.Store numbered.connection).now };
}

impl<S: Alter> Numbered<S> {
    ghost use Rattle.sqlite.specs.Held.{state};
    ghost use Rattle.sqlite.specs.State.{HasCleanDisk};
    ghost use Rattle.rows_tables.specs.Keyed.{AreNumbered};

    /// The connection itself.
    pub(crate) fn into_connection(self) -> Connection<S>
        ensures same { result ≡ self }
        ensures numbered { HasCleanDisk (state S.Store result)
            → AreNumbered room_schema.tables (state S.Store result).now }
    {
        let Numbered { connection } = self;
        connection
    }
}

/// Opens the connection's database anew. What was not committed is undone. `NotOurs` where the file
/// is broken, or a tree where a table of the store belongs is none.
pub(crate) fn reopen<S: Alter + Drop>(
    alloc: Global,
    connection: Connection<S>,
) -> Result<Numbered<S>, OpenFault>
    ensures rows { IfOk result (λ numbered. HasCleanDisk (state S.Store numbered)
        → (state S.Store numbered).now.trees ≡ (state S.Store connection).committed.trees) }
{
    let store = connection.into_store();
    if store.is_broken() || !are_tables(&store) {
        return Err(OpenFault::NotOurs);
    }
    match Connection::over(alloc, store) {
        Ok(connection) => Ok(Numbered { connection }),
        Err((error, _)) => Err(OpenFault::from(error)),
    }
}

/// Whether each table of the store has its tree in the file.
fn are_tables<S: Alter>(store: &S) -> bool
    ensures { IsTrue result → AreTables (S.Store.view store.now).shape room_schema.tables }
{
    is_table(store, 0)
        && is_table(store, 1)
        && is_table(store, 3)
        && is_table(store, 5)
        && is_table(store, 7)
        && is_table(store, 9)
        && is_table(store, 11)
}

/// Whether the tree of this number is a table.
fn is_table<S: Alter>(store: &S, tree: u32) -> bool
    ensures { IsTrue result → (S.Store.view store.now).shape tree ≡ shape.Table }
{
    matches!(store.shape(tree), Shape::Table)
}
