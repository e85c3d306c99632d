//! What a turn of a connection is told (`Turn`) and comes to (`Next`), and what both kinds of peer
//! share of a turn's steps.
ghost use Rattle.std.specs.Prelude.{ℕ, ◌≢◌, List, Some};
ghost use Rattle.std.specs.Io.KnownBytes.{Consumes};

use std::io;
use std::io::{ErrorKind, Read};

/// So many reads and writes of a connection make a turn, so that no peer holds up the others.
pub(crate) const STEPS: u32 = 4;

/// A read has a buffer of so many bytes at least, so that one that brings fewer has brought all
/// that was there.
const LEAST_BUFFER: usize = 4_096;

/// How many bytes are read at once of what a peer sends that was told of the end.
const DROPPED: usize = 16_384;

/// What a connection is told as its turn begins.
#[derive(Clone, Copy)]
pub struct Turn {
    /// In milliseconds since any start that all turns share.
    pub ticks: u64,
    /// Whether a large request may go on coming.
    pub has_memory: bool,
    /// Whether the system has told that the peer sends no more.
    pub is_last: bool,
    /// Whether it may read. A peer that hears what it asked in a round leaves what comes next to
    /// the next round.
    pub reads: bool,
}

/// What a connection waits for.
#[derive(Clone, Copy, PartialEq, Eq)]
pub enum Next {
    /// The system tells when it can go on.
    Wait,
    /// It can go on at once, after the others.
    Again,
    /// It can go on once there is memory for it.
    HeldBack,
    /// All was said: the peer is to be told so, and what it still sends is dropped until it ends
    /// too.
    Leave,
    /// All was said before. The system tells when more comes, or the end.
    Left,
    /// It is over.
    Close,
}

/// Whether a read that brought so many bytes has brought all that was there. The system tells of
/// what comes after it, and of the end as well, if it has not told of it yet.
pub(crate) fn was_all(count: usize, turn: Turn) -> bool {
    count < LEAST_BUFFER && !turn.is_last
}

/// What the connection waits for after an error of a read or a write. `None`: it tries again.
pub(crate) fn after(error: &io::Error) -> Option<Next>
    ensures { result ≢ Some Next.HeldBack }
{
    match error.kind() {
        ErrorKind::WouldBlock => Some(Next::Wait),
        ErrorKind::Interrupted => None,
        _ => Some(Next::Close),
    }
}

/// Reads and drops what still comes. Were a connection closed over bytes that nobody read, the
/// system would take back the last answer.
pub(crate) fn drain<R: Read>(reader: &mut R) -> Next
    ensures drops { (came : List ℕ) × Consumes (R.remaining reader.old) (R.remaining reader.new) came }
    ensures waits { result ≢ Next.Wait }
    ensures holds { result ≢ Next.HeldBack }
{
    let mut dropped = [0; DROPPED];
    for _ in 0..STEPS {
        match reader.read(&mut dropped) {
            Ok(0) => return Next::Close,
            Ok(_) => {}
            Err(error) => match error.kind() {
                ErrorKind::WouldBlock => return Next::Left,
                ErrorKind::Interrupted => {}
                _ => return Next::Close,
            },
        }
    }
    Next::Again
}
