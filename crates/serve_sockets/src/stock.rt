//! How many bytes all connections hold together, and who may go on where that nears its bound.

ghost use Rattle.std.specs.Prelude.{◌≡◌, ◌≢◌, ◌⊎◌, ◌↔◌, ◌+◌, ◌-◌, ◌<◌, ◌^◌, true, false, IsFalse, IsSome, IsTrue, None, Some};
ghost use Rattle.serve_sockets.specs.Stocks.{favoured_of, has_memory_for_all, held_of, holds_back_of, most_held};

use serve_peers::LONGEST;

/// The bytes that all connections hold together, at most, but for the documents of one start.
const MOST_HELD: usize = 268_435_456;

/// What all connections hold. Where it nears its bound no further large request goes on coming, but
/// for one peer's, which has the memory that is left for the longest one.
#[derive(Drop)]
pub(crate) struct Stock {
    held: usize,
    favoured: Option<usize>,
    /// Whether somebody was held back since memory came free.
    holds_back: bool,
}

impl Stock {
    /// Nothing is held yet, and nobody is favoured or held back.
    pub(crate) fn new() -> Stock
        ensures held { held_of result ≡ 0 }
        ensures favoured { favoured_of result ≡ None }
        ensures holds_back { holds_back_of result ≡ false }
    {
        Stock {
            held: 0,
            favoured: None,
            holds_back: false,
        }
    }

    /// Whether a large request of any peer may go on coming: there is memory for two of the
    /// longest, one that a turn of this peer may bring, and one for the favoured peer.
    fn has_memory_for_all(&self) -> bool
        ensures { result ≡ has_memory_for_all self.now }
    {
        self.held <= MOST_HELD - 2 * LONGEST
    }

    /// Whether they hold too much: large answers made it so, since large requests stop before.
    pub(crate) fn is_over(&self) -> bool
        ensures { IsTrue result ↔ (most_held < held_of self.now) }
    {
        self.held > MOST_HELD
    }

    /// Whether a large request of this peer may go on coming.
    pub(crate) fn has_memory(&self, key: usize) -> bool
        ensures { IsTrue result
            ↔ (IsTrue (has_memory_for_all self.now) ⊎ (favoured_of self.now ≡ Some key)) }
    {
        self.has_memory_for_all() || self.favoured == Some(key)
    }

    /// Notes that a peer was held back.
    pub(crate) fn hold_back(&mut self)
        ensures holds_back { holds_back_of self.new ≡ true }
        ensures held { held_of self.new ≡ held_of self.old }
        ensures favoured { favoured_of self.new ≡ favoured_of self.old }
    {
        self.holds_back = true;
    }

    /// Counts anew what a peer holds after its turn: `after` bytes in the place of `before`. One
    /// that has nothing large under way is the favoured one no more.
    pub(crate) fn changed(&mut self, key: usize, before: usize, after: usize, is_large: bool)
        ensures held { (held_of self.old - before) + after < 2 ^ 64
            → held_of self.new ≡ (held_of self.old - before) + after }
        ensures stays { IsTrue is_large → favoured_of self.new ≡ favoured_of self.old }
        ensures ends { IsFalse is_large → favoured_of self.new ≢ Some key }
        ensures others { favoured_of self.old ≢ Some key
            → favoured_of self.new ≡ favoured_of self.old }
        ensures holds_back { holds_back_of self.new ≡ holds_back_of self.old }
    {
        self.held = self.held.saturating_sub(before).saturating_add(after);
        if !is_large {
            self.unfavour(key);
        }
    }

    /// Counts off what a peer held that has gone.
    pub(crate) fn left(&mut self, key: usize, held: usize)
        ensures held { held_of self.new ≡ held_of self.old - held }
        ensures ends { favoured_of self.new ≢ Some key }
        ensures others { favoured_of self.old ≢ Some key
            → favoured_of self.new ≡ favoured_of self.old }
        ensures holds_back { holds_back_of self.new ≡ holds_back_of self.old }
    {
        self.held = self.held.saturating_sub(held);
        self.unfavour(key);
    }

    /// Ends the favour of this peer, if it is the favoured one.
    fn unfavour(&mut self, key: usize)
        ensures ends { favoured_of self.new ≢ Some key }
        ensures others { favoured_of self.old ≢ Some key
            → favoured_of self.new ≡ favoured_of self.old }
        ensures held { held_of self.new ≡ held_of self.old }
        ensures holds_back { holds_back_of self.new ≡ holds_back_of self.old }
    {
        if self.favoured == Some(key) {
            self.favoured = None;
        }
    }

    /// Whether somebody is held back.
    pub(crate) fn holds_back(&self) -> bool
        ensures { result ≡ holds_back_of self.now }
    {
        self.holds_back
    }

    /// Lets all who are held back go on, if there is memory, and answers whether it did.
    pub(crate) fn lets_all_on(&mut self) -> bool
        ensures lets_on { IsTrue result
            ↔ (IsTrue (holds_back_of self.old) × IsTrue (has_memory_for_all self.old)) }
        ensures let_on { IsTrue result → holds_back_of self.new ≡ false }
        ensures others { IsFalse result → holds_back_of self.new ≡ holds_back_of self.old }
        ensures held { held_of self.new ≡ held_of self.old }
        ensures favoured { favoured_of self.new ≡ favoured_of self.old }
    {
        let lets_on = self.holds_back && self.has_memory_for_all();
        if lets_on {
            self.holds_back = false;
        }
        lets_on
    }

    /// Whether one of those who are held back can go on.
    pub(crate) fn lets_one_on(&self) -> bool
        ensures { IsTrue result
            ↔ (IsTrue (holds_back_of self.now) × (favoured_of self.now ≡ None)) }
    {
        self.holds_back && self.favoured.is_none()
    }

    /// Makes this peer the favoured one: it alone can go on. `None`: nobody is held back.
    pub(crate) fn favour(&mut self, key: Option<usize>)
        ensures favoured { favoured_of self.new ≡ key }
        ensures holds_back { IsTrue (holds_back_of self.new) ↔ IsSome key }
        ensures held { held_of self.new ≡ held_of self.old }
    {
        self.favoured = key;
        self.holds_back = key.is_some();
    }
}
