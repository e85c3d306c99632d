//! `Moment`: a time in seconds that is known to lie before 2100.

ghost use Rattle.std.specs.Prelude.{◌≡◌, ◌≤◌, ◌<◌, ◌↔◌, IfSome, IsNone};
ghost use Rattle.account_rules.specs.Limits.{last_moment};

use crate::limits::LAST_MOMENT;
use std::marker::Model;

/// A moment that the rules know: whole seconds since 1970-01-01T00:00:00Z, up to `LAST_MOMENT`.
/// Contracts see it as that number.
#[derive(Clone, Copy, PartialEq, Eq, PartialOrd, Ord)]
pub struct Moment {
    seconds: u64,
}

impl Model for Moment {
    ghost use Rattle.std.specs.Prelude.{ℕ};
    ghost use Rattle.account_rules.specs.Limits.{IsMoment};

    ghost Value = { ℕ };

    ghost view = { λ moment. moment.seconds };

    ghost invariant = { λ moment. IsMoment moment.seconds };

    ghost inverse = { λ seconds. record { seconds = seconds } };
}

impl Moment {
    /// The moment so many seconds after 1970-01-01T00:00:00Z. None past `LAST_MOMENT`.
    pub fn new(seconds: u64) -> Option<Moment>
        ensures value { IfSome result (λ moment. moment ≡ seconds) }
        ensures none { IsNone result ↔ (last_moment < seconds) }
    {
        if seconds > LAST_MOMENT {
            return None;
        }
        Some(Moment { seconds })
    }

    /// The seconds since 1970-01-01T00:00:00Z.
    pub fn seconds(self) -> u64
        ensures value { result ≡ self }
        ensures range { self ≤ last_moment }
    {
        self.seconds
    }
}
