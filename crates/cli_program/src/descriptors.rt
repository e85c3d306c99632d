//! A guard against closed standard streams: no file that is opened later takes one's descriptor.

use std::fs::File;
use std::io;
use std::os::fd::{AsRawFd, IntoRawFd};

/// The descriptor of standard error, the last of the three.
const LAST: i32 = 2;

/// What takes the place of a closed one: a folder that is there on every system, of which no read
/// and no write succeeds.
const ROOT: &str = "/";

/// Opens a folder in the place of each standard stream that the program was started without. A file
/// that is opened later could take its place, and what is printed would go into a database.
pub(crate) fn take_closed(rt: &HostRuntime) -> io::Result<()> {
    // Opening takes the lowest descriptor that is free.
    for _ in 0..=LAST {
        let folder = File::open(rt, ROOT)?;
        if LAST < folder.as_raw_fd() {
            return Ok(());
        }
        // It stays open for as long as the process runs.
        let _ = folder.into_raw_fd();
    }
    Ok(())
}
