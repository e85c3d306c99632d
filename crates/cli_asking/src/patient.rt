//! `Patient`: a reader of what a process answers while it makes a backup. It tells how much is
//! copied, and waits as long as that grows.
ghost use Rattle.std.specs.Prelude.{◌≡◌, ◌++◌, codes, IfOk, string_bytes};

use std::alloc::AllocError;
use std::fs;
use std::io::{self, ErrorKind, Read, Write};
use std::time::Clock;

/// How many seconds lie between two lines that tell how much is copied.
const TOLD_EVERY: u64 = 10;

/// How many reads in a row may take too long while nothing is copied.
const MOST_IDLE: u32 = 20;

/// Reads what a process answers that copies its rows into `FILE.part`. A read that took too long is
/// tried again where more is copied than before, and 20 times in a row where it is not; else it
/// fails with `WouldBlock`. Standard error is told every ten seconds how much is copied.
#[derive(Drop)]
pub struct Patient<'a, R> {
    rt: &'a HostRuntime,
    reader: R,
    part: String,
    /// The write-ahead log of the part.
    wal: String,
    /// How many bytes were copied at the last look.
    copied: u64,
    /// How many reads in a row have taken too long since.
    idle: u32,
    /// The second of the last look.
    seen: u64,
}

impl<'a, R: Read + Drop> Patient<'a, R> {
    /// Reads what is answered to a backup into FILE. `AllocError` where memory runs out.
    pub fn new(rt: &'a HostRuntime, reader: R, file: &str) -> Result<Patient<'a, R>, AllocError>
        ensures reader { IfOk result (λ patient. patient.reader ≡ reader) }
        ensures part { IfOk result
            (λ patient. string_bytes patient.part ≡ file.now ++ codes ".part") }
        ensures wal { IfOk result
            (λ patient. string_bytes patient.wal ≡ file.now ++ codes ".part-wal") }
        ensures none_copied { IfOk result (λ patient. patient.copied ≡ 0) }
        ensures none_idle { IfOk result (λ patient. patient.idle ≡ 0) }
    {
        Ok(Patient {
            rt,
            reader,
            part: format!(in rt.alloc(); "{file}.part")?,
            wal: format!(in rt.alloc(); "{file}.part-wal")?,
            copied: 0,
            idle: 0,
            seen: second(rt),
        })
    }

    /// Looks how much is copied, where the last look was ten seconds ago, and tells it.
    fn look(&mut self) {
        let now = second(self.rt);
        if now.saturating_sub(self.seen) < TOLD_EVERY {
            return;
        }
        self.seen = now;
        let part = length(self.rt, self.part.as_str());
        let copied = part.saturating_add(length(self.rt, self.wal.as_str()));
        if copied > self.copied {
            self.idle = 0;
        }
        self.copied = copied;
        let megabytes = copied / 1_000_000;
        // What can't be told is not worth the backup.
        let _ = writeln!(
            self.rt.stderr(),
            "ipp-room: {megabytes} MB copied: {}",
            self.part
        );
    }
}

impl<R: Read + Drop> Read for Patient<'_, R> {
    fn read(&mut self, buffer: &mut [u8]) -> io::Result<usize> {
        self.idle = 0;
        for _ in 0..u64::MAX {
            self.look();
            match self.reader.read(buffer) {
                Err(error) if error.kind() == ErrorKind::WouldBlock && self.idle < MOST_IDLE => {
                    self.idle += 1;
                }
                done => return done,
            }
        }
        Err(io::Error::from(ErrorKind::WouldBlock))
    }
}

/// The second that the system's clock tells, from some start; 0 where it tells nothing.
fn second(rt: &HostRuntime) -> u64 {
    match rt.monotonic() {
        Ok(since) => since.as_secs(),
        Err(_) => 0,
    }
}

/// How many bytes a file has; none where it can't be looked at.
fn length(rt: &HostRuntime, path: &str) -> u64 {
    match fs::metadata(rt, path) {
        Ok(of_file) => of_file.len(),
        Err(_) => 0,
    }
}
