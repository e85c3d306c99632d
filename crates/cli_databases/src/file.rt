//! Connections to database files of this machine: how they are opened, made, and how much they keep
//! in memory.
ghost use Rattle.std.specs.Prelude.{◌≡◌, ◌*◌, ◌≤◌, IfOk};
ghost use Rattle.cli_databases.specs.FileFaults.{file_fault};

use cli_words::MEMORY;
use room_store::OpenFault;
use sqlite::{Connection, File, FileStore, Options, Unknown};
use sqlite_std_file::OpenError;
use std::fs::OpenOptions;
use std::hash::{BuildHasher, RandomState};
use std::io::ErrorKind;
use std::os::unix::fs::OpenOptionsExt;
use std::{fs, io};

/// The most pages that a connection keeps in memory of those that it has read. A page has 4096
/// bytes, so they take 160 MiB.
const CACHE_PAGES: usize = 40_000;

/// The pages that a connection keeps at least, which take 8 MiB.
const LEAST_CACHE_PAGES: usize = 2_000;

/// How many bytes a page has in a file that the program has made.
const PAGE_BYTES: u64 = 4_096;

/// How many frames the write-ahead log has before it is written over from its start. A short one
/// takes less of a full disk: what changes, and the frames of it, fit into the space that `serve`
/// keeps.
const CHECKPOINT_FRAMES: usize = 250;

/// Its owner alone reads and writes.
const OWNER_ALONE: u32 = 0o600;

/// A connection to the file, which is made where it is not there, for its owner alone. `Storage`
/// where the path is a URI or `:memory:`, which name no file, or the file can't be opened; `Memory`
/// where memory ran out.
pub(crate) fn connect(
    rt: &HostRuntime,
    path: &str,
) -> Result<Connection<FileStore<File>>, OpenFault> {
    if path == MEMORY || path.starts_with("file:") {
        return Err(OpenFault::Storage);
    }
    let options = options_for(rt, path)?;
    if let Err(error) = make_missing(rt, path) {
        return Err(fault_of(OpenError::Io(error)));
    }
    let files = match sqlite_std_file::open(rt, path, Unknown) {
        Ok(files) => files,
        Err(error) => return Err(fault_of(error)),
    };
    match Connection::open_files(rt.alloc(), files, options) {
        Ok(connection) => Ok(connection),
        Err((error, _)) => Err(OpenFault::from(error)),
    }
}

/// Makes an empty file where none is there, which is an empty database. The library gives its
/// write-ahead log its mode.
fn make_missing(rt: &HostRuntime, path: &str) -> io::Result<()> {
    let made = OpenOptions::new()
        .write(true)
        .create_new(true)
        .mode(OWNER_ALONE)
        .open(rt, path);
    match made {
        Err(error) if error.kind() != ErrorKind::AlreadyExists => Err(error),
        _ => Ok(()),
    }
}

/// The options of a connection to the file as long as it is now.
fn options_for(rt: &HostRuntime, path: &str) -> Result<Options, OpenFault>
    ensures least { IfOk result (λ options. LEAST_CACHE_PAGES ≤ options.cache_pages) }
    ensures most { IfOk result (λ options. options.cache_pages ≤ CACHE_PAGES) }
    ensures log { IfOk result (λ options. options.checkpoint_frames ≡ CHECKPOINT_FRAMES) }
{
    // A file that can't be looked at can't be opened either, unless it is made.
    let length = match fs::metadata(rt, path) {
        Ok(found) => found.len(),
        Err(_) => 0,
    };
    let Ok(state) = RandomState::new(rt) else {
        return Err(OpenFault::Storage);
    };
    let mut options = Options::new(state.hash_one(&0u8));
    options.cache_pages = cache_pages(length);
    options.checkpoint_frames = CHECKPOINT_FRAMES;
    Ok(options)
}

/// How many pages a connection keeps of a file of the length: all that it has, within both limits.
fn cache_pages(length: u64) -> usize
    ensures least { LEAST_CACHE_PAGES ≤ result }
    ensures most { result ≤ CACHE_PAGES }
    ensures all { length ≤ CACHE_PAGES * PAGE_BYTES → length ≤ result * PAGE_BYTES }
{
    let pages = (length / PAGE_BYTES + 1).min(CACHE_PAGES as u64) as usize;
    pages.max(LEAST_CACHE_PAGES)
}

/// The fault of a file that can't be opened: `Memory` where memory ran out, and else `Storage`.
fn fault_of(error: OpenError) -> OpenFault
    ensures { result ≡ file_fault error }
{
    match error {
        OpenError::OutOfMemory => OpenFault::Memory,
        OpenError::Io(error) if error.kind() == ErrorKind::OutOfMemory => OpenFault::Memory,
        _ => OpenFault::Storage,
    }
}
