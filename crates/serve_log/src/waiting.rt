//! The lines that wait for the file: those that may go first, those of the round under way behind.
ghost use Rattle.std.specs.Prelude.{◌≡◌, ◌≤◌, [], if◌then◌else◌, ◌==◌, ◌++◌, not, drop, length, take, IfOk, OnErr, OnOk};
ghost use Rattle.std.specs.Io.KnownBytes.{Appends, Keeps};
ghost use Rattle.serve_log.specs.Books.{Takes, counted, may_wait, joined};

use http_server::Log;
use std::alloc::{AllocError, Global};
use std::io;
use std::io::Write;

/// The most bytes of lines that wait for the file.
pub const MOST_WAITING: usize = 1_048_576;

/// The lines that no file has taken yet.
pub struct Waiting {
    pub(crate) lines: Vec<u8>,
    /// How many bytes of `lines` may go. Those behind them are of the round that is under way.
    pub(crate) settled: usize,
    /// How many lines were left out, for want of memory or because too many waited.
    pub(crate) missed: u64,
    /// Each write: what waited, and how many bytes of it were taken. It takes no memory: only proofs
    /// read it.
    pub(crate) writes: Log<Vec<u8>, usize>,
    ghost within: { settled ≤ length lines.items },
}

// In the place of `#[derive(Drop)]`, so that no caller proves again how each part is dropped.
impl Drop for Waiting {
    fn drop(self) {
        let Waiting {
            lines: _,
            settled: _,
            missed: _,
            writes: _,
        } = self;
    }
}

impl Waiting {
    ghost use Rattle.serve_log.specs.Waits.{IsLeftOut, drafts_of, is_behind, logged_of, missed_of, waiting_of, written_of};

    /// Makes a queue in which nothing waits. It takes no memory.
    pub fn new(alloc: Global) -> Waiting
        ensures logged { logged_of result ≡ [] }
        ensures drafts { drafts_of result ≡ [] }
        ensures missed { missed_of result ≡ 0 }
    {
        Waiting {
            lines: Vec::new(alloc),
            settled: 0,
            missed: 0,
            writes: Log::new(),
        }
    }

    /// How many lines were left out.
    pub fn missed(&self) -> u64
        ensures { result ≡ missed_of self.now }
    {
        self.missed
    }

    /// Whether lines wait that may go: the file is behind.
    pub fn is_behind(&self) -> bool
        ensures { result ≡ is_behind self.now }
    {
        self.settled != 0
    }

    /// Counts a line as left out.
    pub fn miss(&mut self)
        ensures { IsLeftOut self.old self.new }
    {
        self.missed = self.missed.saturating_add(1);
    }

    /// Takes a line of the round that is under way, which waits for the round's end. Where there is
    /// no room for it, it is left out, and also where the memory for it was refused, which is the
    /// error.
    pub fn draft(&mut self, line: &[u8]) -> Result<(), AllocError>
        ensures drafts { OnOk result (drafts_of self.new
            ≡ joined (self.old.lines.items) (drafts_of self.old) line.now) }
        ensures missed { OnOk result (missed_of self.new
            ≡ (if may_wait self.old.lines.items line.now
            then missed_of self.old
            else counted (missed_of self.old))) }
        ensures refused { OnErr result ((drafts_of self.new ≡ drafts_of self.old)
            × (missed_of self.new ≡ counted (missed_of self.old))) }
        ensures waiting { waiting_of self.new ≡ waiting_of self.old }
        ensures written { written_of self.new ≡ written_of self.old }
    {
        if !may_wait(self.lines.as_slice(), line) {
            self.miss();
            return Ok(());
        }
        match self.lines.extend_from_slice(line) {
            Ok(()) => Ok(()),
            Err(error) => {
                self.miss();
                Err(error)
            }
        }
    }

    /// Takes a line of the round, or counts it as left out.
    pub(crate) fn draft_or_miss(&mut self, line: &[u8])
        ensures drafts { Takes (missed_of self.old) (missed_of self.new)
            (drafts_of self.old) (drafts_of self.new) line.now }
        ensures logged { logged_of self.new ≡ logged_of self.old }
    {
        match self.draft(line) {
            Ok(()) | Err(_) => {}
        }
    }

    /// Whether lines of a round that is under way wait.
    pub fn has_drafts(&self) -> bool
        ensures { result ≡ not (length (drafts_of self.now) == 0) }
    {
        self.settled != self.lines.len()
    }

    /// Ends the round. Where it was kept, its lines wait with the others; those of a lost round are
    /// dropped.
    pub fn settle(&mut self, kept: bool)
        ensures waiting { waiting_of self.new
            ≡ (if kept then self.old.lines.items else waiting_of self.old) }
        ensures drafts { drafts_of self.new ≡ [] }
        ensures missed { missed_of self.new ≡ missed_of self.old }
        ensures written { written_of self.new ≡ written_of self.old }
    {
        if kept {
            self.settled = self.lines.len();
        } else {
            self.lines.truncate(self.settled);
        }
    }

    /// Writes what may go, in one write, and says how many bytes were taken; what was not taken
    /// waits on. The error is the writer's, and then all of it waits on.
    pub fn push_out<W: Write>(&mut self, writer: &mut W) -> io::Result<usize>
        ensures went { IfOk result (λ count. Appends (W.contents writer.old) (W.contents writer.new)
            (take count (waiting_of self.old))) }
        ensures written { IfOk result (λ count. written_of self.new
            ≡ written_of self.old ++ take count (waiting_of self.old)) }
        ensures same { OnErr result (self.new ≡ self.old) }
        ensures writer { OnErr result (Keeps (W.contents writer.old) (W.contents writer.new)) }
        ensures logged { logged_of self.new ≡ logged_of self.old }
        ensures drafts { drafts_of self.new ≡ drafts_of self.old }
        ensures missed { missed_of self.new ≡ missed_of self.old }
    {
        let taken = writer.write(&self.lines.as_slice()[..self.settled])?;
        self.drop_written(taken);
        Ok(taken)
    }

    /// Drops the first bytes, so many, which were written.
    fn drop_written(&mut self, count: usize)
        requires { count ≤ length (waiting_of self.old) }
        ensures written { written_of self.new
            ≡ written_of self.old ++ take count (waiting_of self.old) }
        ensures waiting { waiting_of self.new ≡ drop count (waiting_of self.old) }
        ensures drafts { drafts_of self.new ≡ drafts_of self.old }
        ensures missed { missed_of self.new ≡ missed_of self.old }
    {
        self.writes = self.writes.and(&self.lines, &count);
        self.settled -= count;
        self.lines.drain(..count);
    }
}

/// Whether there is room for the bytes among those that wait.
fn may_wait(waiting: &[u8], bytes: &[u8]) -> bool
    ensures { result ≡ may_wait waiting.now bytes.now }
{
    waiting.len() <= MOST_WAITING && bytes.len() <= MOST_WAITING - waiting.len()
}
