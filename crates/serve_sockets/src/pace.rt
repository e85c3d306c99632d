//! The time that deadlines go by, in milliseconds: it leaves out a stop of the process.

ghost use Rattle.std.specs.Prelude.{◌≡◌, ◌<◌, ◌^◌};
ghost use Rattle.serve_sockets.specs.Paces.{after_look, counted_of};

/// The most milliseconds that count between two looks at the clock.
const MOST_AT_ONCE: u64 = 1_000;

/// Milliseconds in which peers could be served. Where the process was stopped, or one event took
/// long, a second of it counts at most: what peers sent meanwhile is still to be read.
#[derive(Clone, Copy, PartialEq, Eq)]
pub(crate) struct Pace {
    counted: u64,
    /// What the clock told at the last look.
    seen: u64,
}

impl Pace {
    /// Nothing has counted yet.
    pub(crate) fn new(seen: u64) -> Pace
        ensures { counted_of result ≡ 0 }
    {
        Pace { counted: 0, seen }
    }

    /// Counts the time since the last look, by a clock that now tells `seen`. Answers how many
    /// milliseconds have counted so far.
    pub(crate) fn look(&mut self, seen: u64) -> u64
        ensures pace { counted_of (after_look self.old seen) < 2 ^ 64
            → self.new ≡ after_look self.old seen }
        ensures counted { result ≡ counted_of self.new }
    {
        let passed = seen.saturating_sub(self.seen).min(MOST_AT_ONCE);
        self.counted = self.counted.saturating_add(passed);
        self.seen = seen;
        self.counted
    }
}
