//! The round of a pass: the peers that the system told of ask one after another, and what they ask
//! shares one commit.

ghost use Rattle.std.specs.Prelude.{◌∷◌, []};
ghost use Rattle.mio.specs.Events.{items};
ghost use Rattle.serve_sockets.specs.Halls.{OnlyAsk, SharesRound, keys_told};

use crate::hall::{MOST_DOORS, Peers};
use mio::Events;
use mio::event::Event;
use serve_peers::Served;
use sqlite::Alter;
use std::time::Clock;

impl Peers {
    /// Has the peers that the system told of ask in one round, where they are several. Each has
    /// another turn once it is settled. No round is under way afterwards.
    pub(crate) fn share<S: Alter>(
        &mut self,
        events: &Events,
        clock: &impl Clock,
        served: &mut Served<S>,
    )
        ensures { SharesRound S.Store (keys_told (items events.now))
            self.old.guests self.new.guests served.old served.new }
    {
        if events.iter().count() < 2 {
            served.settle();
            return;
        }
        served.begin();
        self.ask_all(events, clock, served);
        served.settle();
    }

    /// Gives each peer that the system told of its turn in the round.
    fn ask_all<S: Alter>(&mut self, events: &Events, clock: &impl Clock, served: &mut Served<S>)
        ensures { OnlyAsk S.Store (keys_told (items events.now))
            self.old.guests self.new.guests served.old served.new }
    {
        for event in events {
            self.ask(clock, event, served);
        }
    }

    /// Gives one peer its turn in the round. It has none where no round could begin, the round is
    /// full, much is held and the peer is not the favoured one, or it is one that asks alone: then
    /// it asks by itself, in `serve_all`.
    fn ask<S: Alter>(&mut self, clock: &impl Clock, event: &Event, served: &mut Served<S>)
        ensures { OnlyAsk S.Store (keys_told (event.now ∷ []))
            self.old.guests self.new.guests served.old served.new }
    {
        let token = event.token().0;
        if let Some(key) = token.checked_sub(MOST_DOORS) {
            if served.is_shared() && !served.is_full() && self.may_share(key) {
                self.serve(clock, key, served, event.is_read_closed());
            }
        }
    }

    /// Whether the guest may ask in a round: there is memory for its request, and it does not ask
    /// alone.
    fn may_share(&self, key: usize) -> bool {
        self.stock.has_memory(key) && !self.never_shares(key)
    }

    /// Whether the guest of the key never asks in a round: a browser.
    pub(crate) fn never_shares(&self, key: usize) -> bool {
        match self.guests.get(key) {
            Some(guest) => guest.never_shares(),
            None => false,
        }
    }
}
