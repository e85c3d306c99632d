//! How many bytes a connection of HTTP holds of what came, and when that is large.

ghost use Rattle.std.specs.Prelude.{◌≡◌, nat_lt};
ghost use Rattle.serve_peers.specs.HttpPeers.{buffer_for};

use input_http::{BODY_LIMIT, HEAD_LIMIT};

/// A request, or an answer, of more bytes is a large one: the hall may hold it back.
pub const LARGE: usize = 65_536;

/// A request of which more bytes came shares no commit.
const LONG: usize = 262_144;

/// The most bytes of one request, with its head.
pub const LONGEST: usize = HEAD_LIMIT + BODY_LIMIT;

/// The bytes that a connection holds of what came. Its buffer keeps the memory that it ever had,
/// until it is closed.
#[derive(Clone, Copy, PartialEq, Eq)]
pub(crate) struct Load {
    /// How many bytes came since the last answer.
    coming: usize,
    /// How many of these the last read brought.
    last: usize,
    /// How many bytes the read brought that ended the last request. Some may be of the next one.
    before: usize,
    /// The most bytes that the buffer ever had to hold.
    most: usize,
}

impl Load {
    /// Nothing came yet.
    pub(crate) fn new() -> Load {
        Load {
            coming: 0,
            last: 0,
            before: 0,
            most: 0,
        }
    }

    /// Counts the bytes of one read.
    pub(crate) fn came(&mut self, count: usize) {
        self.coming = self.coming.saturating_add(count);
        self.last = count;
        self.most = self.most.max(self.before.saturating_add(self.coming));
    }

    /// Begins to count anew, since what came is answered.
    pub(crate) fn answered(&mut self) {
        self.before = self.last;
        self.coming = 0;
    }

    /// How many bytes the buffer takes: it grows to twice what it has to hold, but no further than
    /// to the longest request, unless it has to.
    pub(crate) fn bytes_held(&self) -> usize
        ensures { result ≡ buffer_for self.now.most }
    {
        self.most.saturating_mul(2).min(LONGEST).max(self.most)
    }

    /// How many bytes came since the last answer.
    pub(crate) fn came_so_far(&self) -> usize
        ensures { result ≡ self.now.coming }
    {
        self.coming
    }

    /// Whether a large request is coming.
    pub(crate) fn is_large(&self) -> bool
        ensures { result ≡ nat_lt LARGE self.now.coming }
    {
        self.coming > LARGE
    }

    /// Whether so much of a request came that it shares no round: it is applied by itself.
    pub(crate) fn is_long(&self) -> bool {
        self.coming > LONG
    }
}
