//! How a command comes by its database: one in memory (`InMemory`), or a file (`InFile`); and a run
//! of the program over it.
ghost use Rattle.std.specs.Prelude.{◌≤◌};

use crate::copying::copy;
use crate::file::connect;
use cli_commands::{Opener, run};
use cli_words::{CREATE, Copying, MEMORY, is_command};
use room_store::OpenFault;
use sqlite::{Connection, File, FileStore, MemStore};
use std::alloc::Global;
use std::fs;
use std::io::{Read, Write};

/// A database in memory, with no tables yet.
#[derive(Drop)]
pub struct InMemory {
    pub alloc: Global,
}

impl Opener for InMemory {
    type Kept = Connection<MemStore>;

    fn open(&mut self, _database: &str) -> Result<Connection<MemStore>, OpenFault> {
        Connection::open_in_memory(self.alloc).map_err(|_| OpenFault::Memory)
    }

    /// Drops the database, of which nothing is kept.
    fn close(&mut self, _kept: Connection<MemStore>) {}
}

/// A database in a file. One that is not there is `Storage`, and is not made, unless it is to be.
#[derive(Drop)]
pub struct InFile<'a> {
    pub rt: &'a HostRuntime,
    pub is_new: bool,
}

impl Opener for InFile<'_> {
    type Kept = Connection<FileStore<File>>;

    fn open(&mut self, database: &str) -> Result<Connection<FileStore<File>>, OpenFault> {
        if !self.is_new && fs::metadata(self.rt, database).is_err() {
            return Err(OpenFault::Storage);
        }
        connect(self.rt, database)
    }

    fn close(&mut self, kept: Connection<FileStore<File>>) {
        // The write-ahead log goes into the file; where that fails the next run reads it.
        let _ = kept.close();
    }
}

/// `run` over this machine's memory where the words name `:memory:`, and over its files otherwise;
/// `copy` over two of its files.
pub fn run_on<R: Read + Drop, W: Write, E: Write>(
    rt: &HostRuntime,
    words: &[&str],
    now: Option<u64>,
    input: R,
    output: &mut W,
    errors: &mut E,
) -> u8
    ensures { result ≤ 5 }
{
    let alloc = rt.alloc();
    // Words that are wrong are told by `run`.
    if let Ok(Some(asked)) = Copying::read(alloc, words) {
        return copy(rt, &asked, output, errors);
    }
    if words.contains(&MEMORY) {
        return run(alloc, words, now, InMemory { alloc }, input, output, errors);
    }
    let is_new = is_command(words, CREATE);
    run(
        alloc,
        words,
        now,
        InFile { rt, is_new },
        input,
        output,
        errors,
    )
}
