//! The command `copy`: the rows of a database go into `FILE.part`, which is renamed to `FILE` once
//! it is whole.
ghost use Rattle.std.specs.Prelude.{◌≤◌};

use crate::placing::{
    DatabaseOpener, Failed, OnDisk, Place, failing_at, open_tables, open_there, part_of, print_ok,
    remove_database, replace, tables_of,
};
use cli_words::{Copying, Fault};
use room_store::Store;
use rows_statements::{TableFault, next_accounts};
use sqlite::{Alter, Connection};
use std::io::Write;
use store_copy::copy_all;
use store_rounds::Rounds;

/// Copies the database as it is asked, and answers the exit status: 3 where a file is no database
/// of ours, is open elsewhere or fails, and where memory runs out; 4 where the folder or the output
/// fails. Where that is not 0, `errors` gets the fault's text with a path behind it, and what stood
/// at the copy's path still stands there, but where after the rename the folder could not be
/// synced, or the last line not written.
pub(crate) fn copy<W: Write, E: Write>(
    rt: &HostRuntime,
    asked: &Copying<'_>,
    output: &mut W,
    errors: &mut E,
) -> u8
    ensures { result ≤ 5 }
{
    match perform(rt, &OnDisk { rt }, asked, output) {
        Ok(()) => 0,
        Err(failed) => failed.tell(&asked.database, asked.file, errors),
    }
}

/// Opens the database, copies it to its path, and prints `ok`.
fn perform<S: Alter + Drop, K: DatabaseOpener<Database = Connection<S>>, W: Write>(
    rt: &HostRuntime,
    opener: &K,
    asked: &Copying<'_>,
    output: &mut W,
) -> Result<(), Failed> {
    let part = failing_at(Place::Part, part_of(rt, asked.file))?;
    let mut source = failing_at(Place::Source, open_tables(rt, opener, asked.database))?;
    let copied = copy_from(rt, opener, &mut source, part.as_str(), asked.file);
    let _ = opener.close(source.close());
    copied?;
    failing_at(Place::File, print_ok(output))
}

/// Copies from the open database. Where that fails, the part is removed.
fn copy_from<S: Alter + Drop, K: DatabaseOpener<Database = Connection<S>>>(
    rt: &HostRuntime,
    opener: &K,
    source: &mut Rounds<S>,
    part: &str,
    file: &str,
) -> Result<(), Failed> {
    let older = failing_at(Place::File, open_there(rt, opener, file))?;
    let placed = copy_and_replace(rt, opener, source, older, part, file);
    if placed.is_err() {
        let _ = remove_database(rt, opener, part);
    }
    placed
}

/// Makes the whole copy at `part`, and puts it in the place of `file` by a rename. `older` is the
/// database that stands at `file`, if one does; it is held open until then.
fn copy_and_replace<S: Alter + Drop, K: DatabaseOpener<Database = Connection<S>>>(
    rt: &HostRuntime,
    opener: &K,
    source: &mut Rounds<S>,
    older: Option<Connection<S>>,
    part: &str,
    file: &str,
) -> Result<(), Failed> {
    // The copy stays open until it is in its place, so that nobody else takes the part meanwhile.
    let _whole = copy_into_part(rt, opener, source, part)?;
    failing_at(Place::File, replace(rt, opener, older, part, file))
}

/// Copies all rows into a new file at the path, closes it, and opens it again. Opening reads all of
/// it, and finds damage.
fn copy_into_part<S: Alter + Drop, K: DatabaseOpener<Database = Connection<S>>>(
    rt: &HostRuntime,
    opener: &K,
    source: &mut Rounds<S>,
    part: &str,
) -> Result<Rounds<S>, Failed> {
    let mut copy = failing_at(Place::Part, new_tables(rt, opener, part))?;
    let copied = copy_all(rt.alloc(), source, &mut copy);
    let closed = opener.close(copy);
    if let Err(fault) = copied {
        return Err(failed_copy(rt, source, fault));
    }
    failing_at(Place::Part, closed)?;
    failing_at(Place::Part, open_tables(rt, opener, part))
}

/// Makes a file with empty tables, after it has removed what an earlier copy left there.
fn new_tables<S: Alter + Drop, K: DatabaseOpener<Database = Connection<S>>>(
    rt: &HostRuntime,
    opener: &K,
    part: &str,
) -> Result<Connection<S>, Fault> {
    remove_database(rt, opener, part)?;
    let connection = opener.open(part)?;
    Ok(tables_of(opener, Store::create(connection))?.close())
}

/// The fault of copying, with its place. Damaged rows are the database's. Where a disk failed, it
/// is the database's if the database no longer answers, and else the copy's.
fn failed_copy<S: Alter>(rt: &HostRuntime, source: &mut Rounds<S>, fault: TableFault) -> Failed {
    let (place, fault) = match fault {
        TableFault::Memory => (Place::Part, Fault::Memory),
        TableFault::Damaged => (Place::Source, Fault::Store),
        TableFault::Storage => match next_accounts(rt.alloc(), source, None) {
            Ok(_) => (Place::Part, Fault::Store),
            Err(_) => (Place::Source, Fault::Store),
        },
    };
    Failed { place, fault }
}
