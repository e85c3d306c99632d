//! `Reads`: what rows are read by.

ghost use Rattle.std.specs.Prelude.{OnOk};
ghost use Rattle.rows_statements.specs.Asked.{IsQuery, IsTableQuery};
ghost use Rattle.rows_statements.specs.Walks.{HasGathered, Walks};
ghost use Rattle.rows_tables.specs.Calls.{KeepsOpen};
ghost use Rattle.rows_tables.specs.Queries.{Finds};
ghost use Rattle.sqlite.specs.Held.{state};
ghost use Rattle.sqlite.specs.State.{HasCleanDisk};
ghost use Rattle.sqlite.specs.Values.{bound};

use crate::walking::{Gather, walk};
use rows_tables::{TableFault, find_row};
use sqlite::{Alter, Connection, Error, Row};
use sqlite_value::value::ValueRef;

/// What rows are read by: a connection, or what has one and keeps something beside it. It is asked
/// only queries of the store's tables, which change nothing.
pub trait Reads {
    ghost use Rattle.sqlite.specs.Held.{Held};

    /// What the connection stores its database in.
    type S: Alter;

    // The connection.
    ghost held: { Self → Held Self.S };

    /// The first row that a query shows, if it shows one.
    fn find_row(&mut self, text: &str, params: &[ValueRef<'_>]) -> Result<Option<Row>, Error>
        requires { IsTableQuery text.now (bound params.now) }
        ensures finds { HasCleanDisk (state Self.S.Store (held self.new))
            → Finds (state Self.S.Store (held self.old)) (state Self.S.Store (held self.new))
            text.now (bound params.now) result }
        ensures connection { KeepsOpen Self.S.Store (held self.old) (held self.new) result };

    /// Gathers each row that a query shows. It keeps no list of them.
    fn walk<G: Gather>(
        &mut self,
        text: &str,
        params: &[ValueRef<'_>],
        gathered: &mut G,
    ) -> Result<(), TableFault>
        requires { IsQuery text.now (bound params.now) }
        ensures gathers { OnOk result (HasGathered G.step gathered.old gathered.new) }
        ensures walks { HasCleanDisk (state Self.S.Store (held self.new))
            → Walks G.step G.refuses
            (state Self.S.Store (held self.old)) (state Self.S.Store (held self.new))
            text.now (bound params.now) gathered.old gathered.new result }
        ensures connection { KeepsOpen Self.S.Store (held self.old) (held self.new) result };
}

impl<S: Alter> Reads for Connection<S> {
    type S = S;

    ghost held = { λ connection. connection };

    fn find_row(&mut self, text: &str, params: &[ValueRef<'_>]) -> Result<Option<Row>, Error> {
        find_row(self, text, params)
    }

    fn walk<G: Gather>(
        &mut self,
        text: &str,
        params: &[ValueRef<'_>],
        gathered: &mut G,
    ) -> Result<(), TableFault> {
        walk(self, text, params, gathered)
    }
}
