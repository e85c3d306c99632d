//! The two clocks that the hall reads: the moment of events, in seconds, and ticks for deadlines,
//! in milliseconds.

use std::io;
use std::time::{Clock, SystemTime, UNIX_EPOCH};

/// What the clocks told as a peer's turn began.
#[derive(Clone, Copy)]
pub(crate) struct Reading {
    /// The moment of events, in seconds since 1970-01-01T00:00:00Z.
    pub(crate) moment: u64,
    /// The ticks of deadlines, in milliseconds.
    pub(crate) ticks: u64,
}

/// The whole seconds since 1970-01-01T00:00:00Z, where the clock can be read and stands after
/// that.
pub fn moment(clock: &impl Clock) -> Option<u64> {
    let now = SystemTime::now(clock).ok()?;
    Some(now.duration_since(UNIX_EPOCH).ok()?.as_secs())
}

/// The milliseconds since a start that stays the same, by a clock that never goes back.
pub(crate) fn ticks(clock: &impl Clock) -> io::Result<u64> {
    let since = clock.monotonic()?;
    Ok(
        since
            .as_secs()
            .saturating_mul(1_000)
            .saturating_add(u64::from(since.subsec_millis())),
    )
}
