//! The command `backup`: a running process copies its rows into `FILE.part`, which this run checks
//! and renames to `FILE`.
ghost use Rattle.std.specs.Prelude.{◌≤◌};

use crate::placing::{
    DatabaseOpener, Failed, OnDisk, Place, failing_at, open_tables, open_there, part_of, print_ok,
    remove_database, replace,
};
use cli_words::{BackingUp, Fault};
use client_lines::{ClientFault, Peer};
use sqlite::{Alter, Connection};
use std::io::{BufRead, Write};
use store_rounds::Rounds;

/// Has the process at the other end back up its database as it is asked, and answers the exit
/// status: 3 where that failed there, where a file is no database of ours or is open elsewhere, and
/// where memory runs out; 4 where the connection, the folder or the output fails; 5 where another
/// backup is under way. Where that is not 0, `errors` gets the fault's text with a path or the
/// address behind it, and what stood at the backup's path still stands there, but where after the
/// rename the folder could not be synced, or the last line not written.
pub fn back_up<R: BufRead, W: Write, O: Write, E: Write>(
    rt: &HostRuntime,
    peer: &mut Peer<R, W>,
    asked: &BackingUp<'_>,
    output: &mut O,
    errors: &mut E,
) -> u8
    ensures { result ≤ 5 }
{
    match perform(rt, &OnDisk { rt }, peer, asked.file, output) {
        Ok(()) => 0,
        Err(failed) => failed.tell(&asked.address, asked.file, errors),
    }
}

/// Has the process make the backup, renames it to its path, and prints `ok`. Where that fails the
/// part is removed, if it is this run's.
fn perform<S, K, R, W, O>(
    rt: &HostRuntime,
    opener: &K,
    peer: &mut Peer<R, W>,
    file: &str,
    output: &mut O,
) -> Result<(), Failed>
where
    S: Alter + Drop,
    K: DatabaseOpener<Database = Connection<S>>,
    R: BufRead,
    W: Write,
    O: Write,
{
    let part = failing_at(Place::Part, part_of(rt, file))?;
    let older = failing_at(Place::File, open_there(rt, opener, file))?;
    let placed = back_up_and_replace(rt, opener, peer, older, part.as_str(), file);
    if has_failed(&placed) {
        let _ = remove_database(rt, opener, part.as_str());
    }
    placed?;
    failing_at(Place::File, print_ok(output))
}

/// Whether this run may have left a part, which is to be removed. Where the backup was refused the
/// part is another's.
fn has_failed(placed: &Result<(), Failed>) -> bool {
    match placed {
        Ok(()) => false,
        Err(failed) => !matches!(failed.fault, Fault::Refused),
    }
}

/// Has the process make the whole backup at `part`, and puts it in the place of `file` by a rename.
/// `older` is the database that stands at `file`, if one does; it is held open until then.
fn back_up_and_replace<S, K, R, W>(
    rt: &HostRuntime,
    opener: &K,
    peer: &mut Peer<R, W>,
    older: Option<Connection<S>>,
    part: &str,
    file: &str,
) -> Result<(), Failed>
where
    S: Alter + Drop,
    K: DatabaseOpener<Database = Connection<S>>,
    R: BufRead,
    W: Write,
{
    // The backup stays open until it is in its place, so that nobody else takes the part meanwhile.
    let _whole = ask_part(rt, opener, peer, part, file)?;
    failing_at(Place::File, replace(rt, opener, older, part, file))
}

/// Has the process make the part, and opens it once the process tells that it is whole. Opening
/// reads all of it, and finds damage.
fn ask_part<S, K, R, W>(
    rt: &HostRuntime,
    opener: &K,
    peer: &mut Peer<R, W>,
    part: &str,
    file: &str,
) -> Result<Rounds<S>, Failed>
where
    S: Alter + Drop,
    K: DatabaseOpener<Database = Connection<S>>,
    R: BufRead,
    W: Write,
{
    client_operator::back_up(rt.alloc(), peer, file).map_err(failed_backup)?;
    failing_at(Place::Part, open_tables(rt, opener, part))
}

/// The fault of a backup that a process was asked for, with its place: the part where it failed
/// there, the file where another backup is under way, and else the process's address.
fn failed_backup(fault: ClientFault) -> Failed {
    let place = match fault {
        ClientFault::Failed => Place::Part,
        ClientFault::Refused => Place::File,
        _ => Place::Source,
    };
    Failed {
        place,
        fault: Fault::from(fault),
    }
}
