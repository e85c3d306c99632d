//! How long a connection may take for what it is at, in milliseconds, before it is closed.
ghost use Rattle.std.specs.Prelude.{◌≡◌, ◌↔◌, IsTrue};
ghost use Rattle.serve_peers.specs.Patience.{after_holding, after_letting_on, after_moving, doing_of, is_over, is_slow, moving, since_of};
ghost use Rattle.serve_peers.specs.declared.patience.Doing.TheVariants.{Holds, Leaves, Rests};

/// How many milliseconds a connection may rest, with no request under way.
const MOST_REST: u64 = 60_000;

/// How many milliseconds what was begun may take, or a piece of it.
const MOST_MOVE: u64 = 10_000;

/// Each time that so many bytes have moved, 16 KiB a second, that time begins anew.
const PIECE: u64 = 163_840;

/// How many milliseconds a request that was begun waits for memory.
const MOST_HOLD: u64 = 60_000;

/// How many milliseconds a peer has, from the last that it was sent, to end the connection too.
const MOST_LEAVING: u64 = 10_000;

/// After how many milliseconds without a piece a connection is a slow one.
const MOST_PAUSE: u64 = 250;

/// What a connection is at.
#[derive(Clone, Copy, PartialEq, Eq)]
pub enum Doing {
    /// No request is under way.
    Rests,
    /// A request comes, or its answer goes; so many bytes of the piece did.
    Moves(u64),
    /// A large request waits for memory.
    Holds,
    /// All was said.
    Leaves,
}

/// How long a connection may take still. Ticks are milliseconds since any start that all of them
/// share.
#[derive(Clone, Copy, PartialEq, Eq)]
pub struct Patience {
    // When `doing` began, or its last whole piece had moved.
    since: u64,
    doing: Doing,
}

impl Patience {
    /// For a connection that came just now.
    pub fn new(ticks: u64) -> Patience
        ensures doing { doing_of result ≡ Rests }
        ensures since { since_of result ≡ ticks }
    {
        Patience {
            since: ticks,
            doing: Doing::Rests,
        }
    }

    /// Counts bytes that came or went. The first ones begin a move, and each whole piece gives it
    /// its time anew.
    pub fn moved(&mut self, count: usize, ticks: u64)
        ensures { self.new ≡ after_moving self.old count ticks }
    {
        match self.doing {
            Doing::Rests | Doing::Holds => *self = moving(ticks, count as u64, ticks),
            Doing::Moves(before) => {
                *self = moving(self.since, before.saturating_add(count as u64), ticks);
            }
            Doing::Leaves => {}
        }
    }

    /// Begins a rest: all that was asked was answered, and the answer went.
    pub fn rested(&mut self, ticks: u64)
        ensures doing { doing_of self.new ≡ Rests }
        ensures since { since_of self.new ≡ ticks }
    {
        *self = Patience::new(ticks);
    }

    /// Begins the wait of a large request for memory. One that waits already goes on waiting.
    pub fn held_back(&mut self, ticks: u64)
        ensures { self.new ≡ after_holding self.old ticks }
    {
        if !self.is_held_back() {
            *self = Patience {
                since: ticks,
                doing: Doing::Holds,
            };
        }
    }

    /// Ends that wait, and gives the request its time anew. If it did not wait nothing changes.
    pub fn let_on(&mut self, ticks: u64)
        ensures { self.new ≡ after_letting_on self.old ticks }
    {
        if self.is_held_back() {
            *self = moving(ticks, 0, ticks);
        }
    }

    /// Begins the parting: the peer has `MOST_LEAVING` to end the connection too.
    pub fn parted(&mut self, ticks: u64)
        ensures doing { doing_of self.new ≡ Leaves }
        ensures since { since_of self.new ≡ ticks }
    {
        *self = Patience {
            since: ticks,
            doing: Doing::Leaves,
        };
    }

    /// Whether no request is under way.
    pub fn is_at_rest(&self) -> bool
        ensures { IsTrue result ↔ (doing_of self.now ≡ Rests) }
    {
        matches!(self.doing, Doing::Rests)
    }

    /// Whether what was begun waits for memory.
    pub fn is_held_back(&self) -> bool
        ensures { IsTrue result ↔ (doing_of self.now ≡ Holds) }
    {
        matches!(self.doing, Doing::Holds)
    }

    /// Whether the connection took too long for what it is at, and is to be closed.
    pub fn is_over(&self, ticks: u64) -> bool
        ensures { result ≡ is_over self.now ticks }
    {
        let most = match self.doing {
            Doing::Rests => MOST_REST,
            Doing::Moves(_) => MOST_MOVE,
            Doing::Holds => MOST_HOLD,
            Doing::Leaves => MOST_LEAVING,
        };
        ticks.saturating_sub(self.since) > most
    }

    /// Whether more than a quarter of a second has passed since it came to what it is at, or since
    /// its last whole piece.
    pub fn is_slow(&self, ticks: u64) -> bool
        ensures { result ≡ is_slow self.now ticks }
    {
        ticks.saturating_sub(self.since) > MOST_PAUSE
    }
}

/// The patience of a connection that has moved so many bytes of a piece since `since`. A whole
/// piece begins the next one, at `ticks`.
fn moving(since: u64, moved: u64, ticks: u64) -> Patience
    ensures { result ≡ moving since moved ticks }
{
    if moved < PIECE {
        return Patience {
            since,
            doing: Doing::Moves(moved),
        };
    }
    Patience {
        since: ticks,
        doing: Doing::Moves(0),
    }
}
