//! One thing that a connection asks to be applied, a message of IPP or a line, with its moment.
ghost use Rattle.std.specs.Prelude.{◌≡◌, IsTrue};
ghost use Rattle.account_machine.specs.Events.{plain_event};
ghost use Rattle.account_machine.specs.Fits.{fits};
ghost use Rattle.room_serve.specs.Own.{is_of};
ghost use Rattle.serve_peers.specs.Entries.{event_of_entry, moment_at};
ghost use Rattle.serve_peers.specs.Logged.{door_for, door_of};
ghost use Rattle.serve_peers.specs.Space.{entry_needs_space, length_of_entry};

use crate::request::{cancels, needs_space};
use account_machine::{Event, Name};
use bytes::Bytes;
use input_lines::{Action, Line};
use serve_log::Door;

/// What a connection asked of the rooms or the devices, at a moment in seconds since
/// 1970-01-01T00:00:00Z.
pub enum Entry {
    /// A message of IPP for the queue of an account.
    Message {
        moment: u64,
        account: Name,
        body: Bytes,
    },
    /// A line of a station or an operator.
    Line(Line),
    /// A line that a form of the desk asks, and the operator who sent it.
    Desk {
        operator: Name,
        line: Line,
    },
}

// By hand, in the place of `#[derive(Drop)]`: the head of lib.rt says why.
impl Drop for Entry {
    fn drop(self) {
        match self {
            Entry::Message {
                moment: _,
                account: _,
                body: _,
            } => {}
            Entry::Line(_) => {}
            Entry::Desk {
                operator: _,
                line: _,
            } => {}
        }
    }
}

impl Entry {
    /// The moment at which it counts as done.
    pub(crate) fn moment(&self) -> u64
        ensures { result ≡ moment_at self.now }
    {
        match self {
            Entry::Message { moment, .. } => *moment,
            Entry::Line(line) | Entry::Desk { line, .. } => line.moment,
        }
    }

    /// The door that the log names for it: that of clients, of stations or of operators, or the desk
    /// with the operator.
    pub(crate) fn door(&self) -> Door
        ensures { result ≡ door_of self.now }
    {
        match self {
            Entry::Message { .. } => Door::Clients,
            Entry::Line(line) => door_of(&line.action),
            Entry::Desk { operator, .. } => Door::Desk(*operator),
        }
    }

    /// Whether it brings a job or a document, for which the disk has to have space.
    pub(crate) fn needs_space(&self) -> bool
        ensures { result ≡ entry_needs_space self.now }
    {
        match self {
            Entry::Message { body, .. } => needs_space(body.as_slice()),
            Entry::Line(_) | Entry::Desk { .. } => false,
        }
    }

    /// The bytes of the message, and of a line none.
    pub(crate) fn length(&self) -> usize
        ensures { result ≡ length_of_entry self.now }
    {
        match self {
            Entry::Message { body, .. } => body.len(),
            Entry::Line(_) | Entry::Desk { .. } => 0,
        }
    }

    /// Whether a job ends if this is done: it cancels or settles one. The documents then leave
    /// space.
    pub(crate) fn ends_job(&self) -> bool {
        match self.event() {
            Event::Ipp { body, .. } => cancels(body),
            Event::Settle { .. } => true,
            _ => false,
        }
    }

    /// Whether the event is the account's own, and no device's.
    pub(crate) fn is_of(&self, name: Name) -> bool
        ensures { result ≡ is_of name (event_of_entry self.now) }
    {
        match self.event() {
            Event::Open { account }
            | Event::Ipp { account, .. }
            | Event::Release { account, .. }
            | Event::Start { account, .. }
            | Event::Settle { account, .. }
            | Event::Grant { account, .. } => account == name,
            Event::Device { .. } | Event::Rate { .. } => false,
        }
    }

    /// The event that it asks for. Its bytes are borrowed, not copied.
    pub(crate) fn event(&self) -> Event<'_>
        ensures fit { IsTrue (fits (plain_event result)) }
        ensures same { plain_event result ≡ event_of_entry self.now }
    {
        match self {
            Entry::Message { account, body, .. } => Event::Ipp {
                account: *account,
                body: body.as_slice(),
            },
            Entry::Line(line) | Entry::Desk { line, .. } => line.event(),
        }
    }
}

/// The door whose lines may ask for the action. The log names it.
fn door_of(action: &Action) -> Door
    ensures { result ≡ door_for action.now }
{
    match action {
        Action::Release { .. } | Action::Start { .. } | Action::Settle { .. } => Door::Stations,
        _ => Door::Operators,
    }
}
