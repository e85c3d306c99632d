//! How far a connection is from turn to turn, over HTTP or of lines: its patience, whether all that
//! came is read, whether it is parting.

ghost use Rattle.std.specs.Prelude.{◌≡◌};

use crate::patience::Patience;
use crate::step::{Next, Turn, was_all};

/// How long a connection may take, and how far its reading is.
#[derive(Clone, Copy)]
pub(crate) struct Progress {
    pub patience: Patience,
    /// All that came was read.
    pub has_all: bool,
    /// All was said, and what the peer still sends is dropped.
    pub parts: bool,
}

impl Progress {
    /// Of a peer that came just now.
    pub(crate) fn new(ticks: u64) -> Progress {
        Progress {
            patience: Patience::new(ticks),
            has_all: false,
            parts: false,
        }
    }

    /// Begins a turn. If it may read, more may have come since the last.
    pub(crate) fn begin_turn(&mut self, turn: Turn) {
        if turn.reads {
            self.has_all = false;
        }
    }

    /// Counts the bytes of a read, and keeps whether they were all that was there.
    pub(crate) fn received(&mut self, count: usize, turn: Turn) {
        self.patience.moved(count, turn.ticks);
        self.has_all = was_all(count, turn);
    }

    /// Ends an answer, all of which has gone. The peer rests from now on, or, if its next request
    /// has begun, has a time of its own for that.
    pub(crate) fn sent_all(&mut self, has_begun: bool, ticks: u64) {
        self.patience.rested(ticks);
        if has_begun {
            self.patience.moved(0, ticks);
        }
    }

    /// Holds back the request that was begun, until there is memory for it.
    pub(crate) fn hold_back(&mut self, ticks: u64) -> Next
        ensures { result ≡ Next.HeldBack }
    {
        self.patience.held_back(ticks);
        Next::HeldBack
    }

    /// Begins the parting: nothing more is sent, and what still comes is dropped.
    pub(crate) fn part(&mut self, ticks: u64) -> Next
        ensures { result ≡ Next.Leave }
    {
        self.parts = true;
        self.patience.parted(ticks);
        Next::Leave
    }
}
