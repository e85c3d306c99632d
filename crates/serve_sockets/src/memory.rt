//! What a hall does where its peers hold much memory: it drops who hardly reads, and lets those go
//! on whom it held back.

ghost use Rattle.std.specs.Prelude.{[]};
ghost use Rattle.slab.specs.Slab.{get};
ghost use Rattle.serve_sockets.specs.Halls.{AreOthersKept, MayGo, OnlyLeave, ServesEach};

use crate::hall::Peers;
use serve_peers::Served;
use sqlite::Alter;
use std::time::Clock;

impl Peers {
    /// Where too much is held, has each large answer go on, and drops who hardly reads it, so that
    /// one pass gives out few more.
    pub(crate) fn free_memory<S: Alter>(&mut self, clock: &impl Clock, served: &mut Served<S>)
        ensures { ServesEach S.Store [] self.old.guests self.new.guests served.old served.new }
    {
        if !self.stock.is_over() {
            return;
        }
        for key in 0..self.most_guests {
            self.free_memory_of(clock, key, served);
        }
    }

    /// Has the peer's large answer go on, if it has one, and drops it where it hardly reads it.
    fn free_memory_of<S: Alter>(&mut self, clock: &impl Clock, key: usize, served: &mut Served<S>)
        ensures { ServesEach S.Store [] self.old.guests self.new.guests served.old served.new }
    {
        if !self.has_large_answer(key) {
            return;
        }
        self.serve(clock, key, served, true);
        self.drop_slow(clock, key);
    }

    /// Where memory has come free, those who are held back go on: all of them, or the one that holds
    /// least.
    pub(crate) fn resume_held_back(&mut self)
        ensures { OnlyLeave self.old.guests self.new.guests }
    {
        if self.stock.lets_all_on() {
            self.resume_all_held_back();
        } else if self.stock.lets_one_on() {
            let least = self.least_held_back();
            self.stock.favour(least);
            if let Some(key) = least {
                self.resume(key);
            }
        }
    }

    /// Lets all who are held back go on.
    fn resume_all_held_back(&mut self)
        ensures { OnlyLeave self.old.guests self.new.guests }
    {
        for key in 0..self.most_guests {
            self.resume_if_held_back(key);
        }
    }

    /// Lets the guest of the key go on, if it is held back.
    fn resume_if_held_back(&mut self, key: usize)
        ensures { OnlyLeave self.old.guests self.new.guests }
    {
        if self.is_held_back(key) {
            self.resume(key);
        }
    }

    /// Lets the guest of the key go on: the system tells of it again. Where that fails it is
    /// dropped.
    fn resume(&mut self, key: usize)
        ensures { OnlyLeave self.old.guests self.new.guests }
    {
        if !self.rearm(key) {
            self.close(key);
        }
    }

    fn is_held_back(&self, key: usize) -> bool {
        self.guests
            .get(key)
            .is_some_and(|guest| guest.is_held_back())
    }

    /// The key of the guest that holds least, of those who are held back.
    fn least_held_back(&self) -> Option<usize> {
        (0..self.most_guests)
            .filter(|key| self.is_held_back(*key))
            .min_by_key(|key| self.guests.get(*key).map(|guest| guest.bytes_held()))
    }

    fn has_large_answer(&self, key: usize) -> bool {
        self.guests
            .get(key)
            .is_some_and(|guest| guest.has_large_answer())
    }

    /// Drops the guest of the key, if it hardly reads its large answer.
    fn drop_slow(&mut self, clock: &impl Clock, key: usize)
        ensures may_go { MayGo (get self.old.guests key) (get self.new.guests key) }
        ensures others { AreOthersKept key self.old.guests self.new.guests }
    {
        let is_slow = match self.ticks(clock) {
            Ok(ticks) => self
                .guests
                .get(key)
                .is_some_and(|guest| guest.reads_slowly(ticks)),
            Err(_) => true,
        };
        if is_slow {
            self.close(key);
        }
    }
}
