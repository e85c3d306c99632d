//! The file of the log: opens it, appends to it, and opens it anew once it was moved away.

use std::alloc::Global;
use std::fs::{File, Files, OpenOptions};
use std::io::Write;
use std::os::unix::fs::{MetadataExt, OpenOptionsExt};
use std::{fs, io};

/// The mode of the file: its owner alone reads and writes.
const OWNER_ALONE: u32 = 0o600;

/// The file of the log at a path, to whose end lines go.
#[derive(Drop)]
pub struct LogFile {
    path: String,
    file: File,
    /// Whether the file took only a part of the last line that was appended by itself.
    is_cut: bool,
}

impl LogFile {
    /// Opens the file, or makes it for its owner alone. The error is the system's, or tells that
    /// memory was refused.
    pub fn open<R: Files<File = File> + Alloc<A = Global>>(
        files: &R,
        path: &str,
    ) -> io::Result<LogFile> {
        let file = open_to_append(files, path)?;
        let path = String::from_str(files.alloc(), path)?;
        Ok(LogFile {
            path,
            file,
            is_cut: false,
        })
    }

    /// Opens the path anew where the file that is open was moved away or removed. Where that fails,
    /// the file that is open goes on.
    pub(crate) fn reopen_if_moved<R: Files<File = File>>(&mut self, files: &R) {
        if self.is_in_place(files) {
            return;
        }
        if let Ok(file) = open_to_append(files, self.path.as_str()) {
            self.file = file;
            self.is_cut = false;
        }
    }

    /// Appends a line by itself. Where the file takes only a part of it, what is written next
    /// begins a new line.
    pub(crate) fn append(&mut self, line: &[u8]) -> io::Result<()> {
        let taken = self.write(line)?;
        self.is_cut = 0 < taken && taken < line.len();
        Ok(())
    }

    /// Whether the path still names the file that is open.
    fn is_in_place<R: Files<File = File>>(&self, files: &R) -> bool {
        let (Ok(open), Ok(named)) = (
            self.file.metadata(),
            fs::metadata(files, self.path.as_str()),
        ) else {
            return false;
        };
        open.dev() == named.dev() && open.ino() == named.ino()
    }
}

impl Write for LogFile {
    /// Writes by one call of the system, behind a line feed where the last line lacks its end.
    fn write(&mut self, bytes: &[u8]) -> io::Result<usize> {
        if self.is_cut {
            self.is_cut = self.file.write(b"\n")? == 0;
        }
        self.file.write(bytes)
    }

    fn flush(&mut self) -> io::Result<()> {
        Ok(())
    }
}

/// Opens a file to append to, or makes it for its owner alone.
fn open_to_append<R: Files<File = File>>(files: &R, path: &str) -> io::Result<File> {
    OpenOptions::new()
        .append(true)
        .create(true)
        .mode(OWNER_ALONE)
        .open(files, path)
}
