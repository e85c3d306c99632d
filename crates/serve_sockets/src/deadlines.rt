//! The deadlines: which peers a hall drops since they took too long, or rest on memory or a place
//! that others need.
ghost use Rattle.std.specs.Prelude.{◌≡◌};
ghost use Rattle.serve_sockets.specs.Halls.{OnlyLeave};

use crate::doors::MOST_GUESTS;
use crate::hall::{MOST_EVENTS, Peers};
use mio::Events;

/// How often, in milliseconds, the deadlines are looked at, and a door where somebody may wait.
pub(crate) const TICK: u64 = 250;

/// How many milliseconds at most a pass waits where somebody waits for a place.
pub(crate) const ROOM_TICK: u64 = 50;

impl Peers {
    /// At each door that is full and where somebody waits, drops who has had to send something for a
    /// quarter of a second: by saying nothing, or half of it, nobody keeps others out. What was sent
    /// is read before, so that nobody goes who has asked something. `events`: what the system told.
    pub(crate) fn make_room(&mut self, events: &Events, ticks: u64)
        ensures { OnlyLeave self.old.guests self.new.guests }
    {
        if self.was_told_all(events) && self.lack_room() {
            self.drop_silent(ticks);
        }
    }

    /// Whether the system has told of everybody who sent something: it told less than it can at once,
    /// or so often that each guest had its turn.
    fn was_told_all(&mut self, events: &Events) -> bool
        ensures { self.new.guests ≡ self.old.guests }
    {
        if events.iter().count() < MOST_EVENTS {
            self.full_passes = 0;
            return true;
        }
        self.full_passes = self.full_passes.saturating_add(1);
        self.full_passes > MOST_GUESTS / MOST_EVENTS
    }

    /// Drops each guest that says nothing and whose place others need.
    fn drop_silent(&mut self, ticks: u64)
        ensures { OnlyLeave self.old.guests self.new.guests }
    {
        for key in 0..self.most_guests {
            self.drop_if_silent(key, ticks);
        }
    }

    /// Drops the guest of the key, if others need its place and it says nothing.
    fn drop_if_silent(&mut self, key: usize, ticks: u64)
        ensures { OnlyLeave self.old.guests self.new.guests }
    {
        if self.has_to_make_room(key, ticks) {
            self.close(key);
        }
    }

    /// Whether the guest says nothing, and somebody waits for a place at its door.
    fn has_to_make_room(&self, key: usize, ticks: u64) -> bool {
        self.guests.get(key).is_some_and(|guest| self.lacks_room(guest.door())
            && guest.is_silent(ticks))
    }

    /// Once a tick, drops who took too long. Where others wait for memory, it also drops who rests on
    /// some, and where too much is held, who hardly reads what it asked for.
    pub(crate) fn drop_late(&mut self, ticks: u64)
        ensures { OnlyLeave self.old.guests self.new.guests }
    {
        if ticks.saturating_sub(self.dropped_late_at) < TICK {
            return;
        }
        self.dropped_late_at = ticks;
        for key in 0..self.most_guests {
            self.drop_if_late(key, ticks);
        }
    }

    /// Drops the guest of the key, if it has to go.
    fn drop_if_late(&mut self, key: usize, ticks: u64)
        ensures { OnlyLeave self.old.guests self.new.guests }
    {
        if self.has_to_go(key, ticks) {
            self.close(key);
        }
    }

    /// Whether the guest took too long, or rests on memory while others wait for some, or hardly
    /// reads a large answer while too much is held.
    fn has_to_go(&self, key: usize, ticks: u64) -> bool {
        self.guests.get(key).is_some_and(|guest| {
            guest.is_late(ticks)
                || self.stock.holds_back() && guest.rests_on_memory()
                || self.stock.is_over() && guest.reads_slowly(ticks)
        })
    }
}
