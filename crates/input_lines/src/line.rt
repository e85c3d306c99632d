//! `Line`: a line that was parsed, with its moment.
ghost use Rattle.std.specs.Prelude.{◌≡◌, ℕ, All, IfOk, IfSome, IsTrue, length, slice_get, vec_len};
ghost use Rattle.account_machine.specs.Fits.{fits};
ghost use Rattle.account_machine.specs.Events.{plain_event, plain_timed};
ghost use Rattle.input_lines.specs.Actions.{event_of_action, is_in_range};

use crate::action::Action;
use account_machine::Event;
use std::alloc::{AllocError, Global};

/// What a line asks to be done, and the moment at which it counts as done, in seconds from 1970.
#[derive(Drop)]
pub struct Line {
    pub moment: u64,
    pub action: Action,
    ghost in_range: { IsTrue (is_in_range action) },
}

impl Line {
    /// The event that the line asks for.
    pub fn event(&self) -> Event<'_>
        ensures fit { IsTrue (fits (plain_event result)) }
        ensures same { plain_event result ≡ event_of_action self.now.action }
    {
        self.action.event()
    }
}

/// The events that the lines ask for, each at its moment, in order.
pub fn events_of(alloc: Global, lines: &[Line]) -> Result<Vec<(u64, Event<'_>)>, AllocError>
    ensures fit { IfOk result (λ events. All (λ e. IsTrue (fits (plain_event e.1))) events.items) }
    ensures count { IfOk result (λ events. vec_len events ≡ length lines.now) }
    ensures each { IfOk result (λ events. (k : ℕ) → IfSome (slice_get lines.now k)
        (λ line. IfSome (slice_get events.items k)
        (λ e. plain_timed e ≡ (line.moment, event_of_action line.action)))) }
{
    lines.iter().map(timed).collect(alloc)
}

/// The line's event with its moment.
fn timed(line: &Line) -> (u64, Event<'_>)
    ensures fit { IsTrue (fits (plain_event result.1)) }
    ensures of_line { plain_timed result ≡ (line.now.moment, event_of_action line.now.action) }
{
    (line.moment, line.event())
}
