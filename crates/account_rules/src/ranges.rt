//! Whether a standing, as one read from storage, is one that a job can have.

ghost use Rattle.std.specs.Prelude.{◌≡◌, ◌≤◌, ◌↔◌, IsTrue, IfSome};
ghost use Rattle.account_rules.specs.Limits.{IsMoment};
ghost use Rattle.account_rules.specs.Standings.{IsUnfinished, IsReleased, IsHeld, IsPending, IsProcessing, HasEnded, KeepsToState, HasRanges, IsStanding};

use crate::job::{JobState, Standing};
use crate::limits::{
    LAST_MOMENT, MOST_COPIES, MOST_DOCUMENTS, MOST_IMPRESSIONS, MOST_NEED, MOST_RATE,
};

impl Standing {
    /// Whether it is one that a job can have: what an act takes, and what is to be asked of a
    /// standing that was read from storage.
    pub fn is_in_range(self) -> bool
        ensures { IsTrue result ↔ IsStanding self }
    {
        // that a device which it is bound to has a name needs no test: it is a `Name`
        if !has_ranges(&self) {
            return false;
        }
        keeps_to_state(&self)
    }
}

/// Whether copies, impressions, documents, rate and moments lie within their limits.
fn has_ranges(s: &Standing) -> bool
    ensures { IsTrue result ↔ HasRanges s.now }
{
    if s.copies < 1 || s.copies > MOST_COPIES {
        return false;
    }
    if s.impressions > MOST_IMPRESSIONS || s.documents > MOST_DOCUMENTS {
        return false;
    }
    if s.rate < 1 || s.rate > MOST_RATE {
        return false;
    }
    if s.created > LAST_MOMENT {
        return false;
    }
    is_moment(s.started) && is_moment(s.ended)
}

/// Whether there is no moment, or one that the rules know.
fn is_moment(at: Option<u64>) -> bool
    ensures { IsTrue result ↔ IfSome at IsMoment }
{
    match at {
        None => true,
        Some(moment) => moment <= LAST_MOMENT,
    }
}

/// Whether the fields go with the state, as that a job which has ended has a moment of its end.
fn keeps_to_state(s: &Standing) -> bool
    requires { 1 ≤ s.now.rate }
    ensures { IsTrue result ↔ KeepsToState s.now.state s.now }
{
    match s.state {
        JobState::Held => is_held(s),
        JobState::Pending => is_pending(s),
        JobState::Processing => is_processing(s),
        JobState::Canceled | JobState::Aborted | JobState::Completed => has_ended(s),
    }
}

/// Whether the fields are those of a job that has not ended: no charge, and no moment of its end.
fn is_unfinished(s: &Standing) -> bool
    ensures { IsTrue result ↔ IsUnfinished s.now }
{
    s.charged == 0 && s.ended.is_none()
}

/// Whether the fields are those of a pending or processing job: it is closed, has a document, and
/// reserves no more than a release can need.
fn is_released(s: &Standing) -> bool
    ensures { IsTrue result ↔ IsReleased s.now }
{
    if s.is_open || s.documents < 1 || s.reserved > MOST_NEED {
        return false;
    }
    is_unfinished(s)
}

/// Whether the fields are those of a held job: at rate 1, with nothing reserved.
fn is_held(s: &Standing) -> bool
    ensures { IsTrue result ↔ IsHeld s.now }
{
    if s.rate != 1 || s.reserved != 0 {
        return false;
    }
    is_unfinished(s)
}

/// Whether the fields are those of a pending job: released, and where it is bound to no device, at
/// rate 1.
fn is_pending(s: &Standing) -> bool
    ensures { IsTrue result ↔ IsPending s.now }
{
    if s.device.is_none() && s.rate != 1 {
        return false;
    }
    is_released(s)
}

/// Whether the fields are those of a processing job: released, and bound to its device.
fn is_processing(s: &Standing) -> bool
    ensures { IsTrue result ↔ IsProcessing s.now }
{
    if s.device.is_none() {
        return false;
    }
    is_released(s)
}

/// Whether the fields are those of a job that has ended: it is closed, reserves nothing, has a
/// moment of its end, and was charged whole impressions at its rate, within the limit.
fn has_ended(s: &Standing) -> bool
    requires { 1 ≤ s.now.rate }
    ensures { IsTrue result ↔ HasEnded s.now }
{
    if s.is_open || s.ended.is_none() || s.reserved != 0 {
        return false;
    }
    let rate = s.rate as u64;
    s.charged % rate == 0 && s.charged <= MOST_IMPRESSIONS as u64 * rate
}
