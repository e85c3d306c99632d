//! The database of `listen` and `serve`: opened before they serve, and closed once they have ended.

use crate::serving_command::ServingCommand;
use cli_commands::{Begin, Opener, store_of};
use cli_databases::{InFile, InMemory};
use cli_words::{Fault, MEMORY};
use sqlite::{Alter, Connection};
use std::io::Write;

/// Opens the database, lets the command serve over it, and closes it once the command has ended.
/// Where it is `:memory:` its tables are made; in a file they have to be there. Answers what the
/// command does, or why the database can't be opened.
pub fn serve_on_database<T: ServingCommand, W: Write>(
    rt: &HostRuntime,
    database: &str,
    command: &mut T,
    output: &mut W,
) -> Result<(), Fault> {
    if database == MEMORY {
        let alloc = rt.alloc();
        return serve_with_opener(rt, InMemory { alloc }, database, command, output);
    }
    serve_with_opener(rt, InFile { rt, is_new: false }, database, command, output)
}

/// Opens the database by this opener, lets the command serve over it, and closes it.
fn serve_with_opener<S, F, T, W>(
    rt: &HostRuntime,
    mut opener: F,
    database: &str,
    command: &mut T,
    output: &mut W,
) -> Result<(), Fault>
where
    S: Alter + Drop,
    F: Opener<Kept = Connection<S>> + Drop,
    T: ServingCommand,
    W: Write,
{
    let store = store_of(rt.alloc(), &mut opener, database, Begin::Serve)?;
    let (connection, served) = command.serve(rt, store, output);
    opener.close(connection);
    served
}
