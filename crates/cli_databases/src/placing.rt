//! What `copy` and `backup` have in common: databases that are held open, so that no one else takes
//! them; and the rename that puts a whole copy in the place of a file.
ghost use Rattle.std.specs.Prelude.{◌≡◌, ◌≤◌};
ghost use Rattle.cli_words.specs.Statuses.{exit_status_of};

use crate::file::connect;
use cli_commands::{open_fault, opened, print_text};
use cli_words::{Fault, MEMORY};
use room_store::{Refused, Store};
use sqlite::{Alter, Connection, File, FileStore};
use std::fmt::Display;
use std::io::{ErrorKind, Write};
use std::{fs, io};
use store_rounds::Rounds;

/// Who opens and closes databases. `OnDisk` alone names files, so that each other function is
/// proved over any store.
pub(crate) trait DatabaseOpener {
    type Database: Drop;

    /// A connection to the database at the path, which is made where none is there.
    fn open(&self, path: &str) -> Result<Self::Database, Fault>;

    /// Closes a database, which puts its write-ahead log into its file.
    fn close(&self, database: Self::Database) -> Result<(), Fault>;
}

/// The opener of databases in files of this machine.
#[derive(Drop)]
pub(crate) struct OnDisk<'a> {
    pub(crate) rt: &'a HostRuntime,
}

impl DatabaseOpener for OnDisk<'_> {
    type Database = Connection<FileStore<File>>;

    fn open(&self, path: &str) -> Result<Connection<FileStore<File>>, Fault> {
        opened(connect(self.rt, path))
    }

    fn close(&self, database: Connection<FileStore<File>>) -> Result<(), Fault> {
        database.close().map_err(|_| Fault::Store)
    }
}

/// Of which path a fault is told.
#[derive(Clone, Copy)]
pub(crate) enum Place {
    /// Where the rows are: the path of a database, or the address of a process.
    Source,
    /// Where the copy goes.
    File,
    /// Where it stands until it is whole.
    Part,
}

/// Why there is no copy: a fault, and the path or address of which it is told.
#[derive(Drop)]
pub(crate) struct Failed {
    pub(crate) place: Place,
    pub(crate) fault: Fault,
}

impl Failed {
    /// Writes the fault's text with the path or the address behind it, and answers the exit status.
    pub(crate) fn tell<D: Display, E: Write>(&self, source: &D, file: &str, errors: &mut E) -> u8
        ensures status { result ≡ exit_status_of self.now.fault }
        ensures most { result ≤ 5 }
    {
        let fault = &self.fault;
        // The status tells of the fault even where its text can't be written.
        let _ = match self.place {
            Place::Source => writeln!(errors, "{fault}: {source}"),
            Place::File => writeln!(errors, "{fault}: {file}"),
            Place::Part => writeln!(errors, "{fault}: {file}.part"),
        };
        fault.status()
    }
}

/// What was done, or its fault with the path of which it is told.
pub(crate) fn failing_at<T: Drop>(place: Place, done: Result<T, Fault>) -> Result<T, Failed> {
    done.map_err(|fault| Failed { place, fault })
}

/// Prints the line `ok`, by which both commands end well.
pub(crate) fn print_ok<W: Write>(output: &mut W) -> Result<(), Fault> {
    Ok(print_text(output, "ok\n")?)
}

/// The path where the copy stands until it is whole: `FILE.part`.
pub(crate) fn part_of(rt: &HostRuntime, file: &str) -> Result<String, Fault> {
    Ok(format!(in rt.alloc(); "{file}.part")?)
}

/// The path of a database's write-ahead log.
fn wal_path(rt: &HostRuntime, path: &str) -> Result<String, Fault> {
    Ok(format!(in rt.alloc(); "{path}-wal")?)
}

/// Opens a database that is there, and its tables. `Store` where no file is there, or its tables
/// are none of ours.
pub(crate) fn open_tables<S: Alter + Drop, K: DatabaseOpener<Database = Connection<S>>>(
    rt: &HostRuntime,
    opener: &K,
    path: &str,
) -> Result<Rounds<S>, Fault> {
    if is_free(rt, path) {
        return Err(Fault::Store);
    }
    let connection = opener.open(path)?;
    tables_of(opener, Store::open(connection))
}

/// The tables of a store that was opened. If it was refused its connection is closed, and the fault
/// is why.
pub(crate) fn tables_of<S: Alter + Drop, K: DatabaseOpener<Database = Connection<S>>>(
    opener: &K,
    store: Result<Store<S>, Refused<S>>,
) -> Result<Rounds<S>, Fault> {
    match store {
        Ok(store) => Ok(store.into_rounds()),
        Err(Refused { connection, fault }) => {
            let _ = opener.close(connection);
            Err(open_fault(fault))
        }
    }
}

/// Opens the database at the path, also where its write-ahead log alone is left there, so that
/// nobody else can. `None`: nothing is there. `Store` where what is there is no database, or
/// somebody has it open, which may be this run.
pub(crate) fn open_there<S: Alter + Drop, K: DatabaseOpener<Database = Connection<S>>>(
    rt: &HostRuntime,
    opener: &K,
    path: &str,
) -> Result<Option<Connection<S>>, Fault> {
    let wal = wal_path(rt, path)?;
    if path != MEMORY && is_free(rt, path) && is_free(rt, wal.as_str()) {
        return Ok(None);
    }
    Ok(Some(opener.open(path)?))
}

/// Whether no file is at the path.
fn is_free(rt: &HostRuntime, path: &str) -> bool {
    fs::metadata(rt, path).is_err()
}

/// Removes a database and its write-ahead log, as far as they are there. They are held until both
/// are gone, so they are nobody else's.
pub(crate) fn remove_database<S: Alter + Drop, K: DatabaseOpener<Database = Connection<S>>>(
    rt: &HostRuntime,
    opener: &K,
    path: &str,
) -> Result<(), Fault> {
    match open_there(rt, opener, path)? {
        Some(_held) => remove_both(rt, path),
        None => Ok(()),
    }
}

/// Removes the write-ahead log of the database at the path, and then the database.
fn remove_both(rt: &HostRuntime, path: &str) -> Result<(), Fault> {
    remove_wal(rt, path)?;
    remove(rt, path)
}

/// Removes the write-ahead log of the database at the path, if it is there.
fn remove_wal(rt: &HostRuntime, path: &str) -> Result<(), Fault> {
    let wal = wal_path(rt, path)?;
    remove(rt, wal.as_str())
}

/// Removes the file, if it is there.
fn remove(rt: &HostRuntime, path: &str) -> Result<(), Fault> {
    match fs::remove_file(rt, path) {
        Err(error) if error.kind() != ErrorKind::NotFound => Err(Fault::from(error)),
        _ => Ok(()),
    }
}

/// Puts the whole copy in the place of the file, by one rename. Before that `older`, the database
/// that stands at `file`, is closed, which puts its write-ahead log into it, and both such logs are
/// removed: one of another file must not stand beside the copy.
pub(crate) fn replace<S: Alter + Drop, K: DatabaseOpener<Database = Connection<S>>>(
    rt: &HostRuntime,
    opener: &K,
    older: Option<Connection<S>>,
    part: &str,
    file: &str,
) -> Result<(), Fault> {
    if let Some(database) = older {
        opener.close(database)?;
    }
    remove_wal(rt, part)?;
    remove_wal(rt, file)?;
    Ok(rename(rt, part, file)?)
}

/// Renames the file, and syncs its folder, so that the new name is on the disk.
fn rename(rt: &HostRuntime, part: &str, file: &str) -> io::Result<()> {
    fs::rename(rt, part, file)?;
    let folder = match file.rsplit_once('/') {
        Some(("", _)) => "/",
        Some((folder, _)) => folder,
        None => ".",
    };
    fs::File::open(rt, folder)?.sync_all()
}
