//! The hall: the peers of all doors, and the loop that waits for their sockets and gives each its
//! turn.

ghost use Rattle.std.specs.Prelude.{◌≡◌, ◌≢◌, ◌≤◌, [], ◌∷◌, false, IfOk, OnOk, None, Some, IsFalse, IsTrue, map, sum, vec_len};
ghost use Rattle.std.specs.IoError.{error_kind};
ghost use Rattle.mio.specs.Events.{items};
ghost use Rattle.slab.specs.Slab.{SameValues, get};
ghost use Rattle.serve_peers.specs.Journals.{open_of, shares_of};
ghost use Rattle.serve_peers.specs.Rounds.{Follows};
ghost use Rattle.serve_sockets.specs.Doors.{most_of, speech_of};
ghost use Rattle.serve_sockets.specs.Guests.{NobodyWaits};

use crate::clock::{Reading, moment, ticks};
use crate::deadlines::{ROOM_TICK, TICK};
use crate::doors::{Entrance, MOST_GUESTS, Speech, most_guests, speeches_at};
use crate::guest::Guest;
use crate::pace::Pace;
use crate::stock::Stock;
use mio::event::Event;
use mio::{Events, Interest, Poll, Token};
use serve_peers::{Copies, Next, Served, Turn};
use slab::Slab;
use sqlite::{Alter, Connection};
use std::alloc::Global;
use std::fs::{File, Files};
use std::hash::RandomState;
use std::io;
use std::io::{Eprint, ErrorKind};
use std::net::Net;
use std::time::{Clock, Duration};
use store_copy::CopyMaker;

/// How many events are taken from the system at once. So many peers at most share a commit.
pub(crate) const MOST_EVENTS: usize = 64;

/// How many milliseconds answers have to go once serving ends.
const LAST_TICKS: u64 = 5_000;

/// The most doors of a hall. They have the tokens below this, and guests those from here on.
pub(crate) const MOST_DOORS: usize = 64;

/// The peers of all doors, and what the system told of them last.
#[derive(Drop)]
pub struct Hall {
    peers: Peers,
    events: Events,
    /// What is spoken at each door.
    doors: Vec<Speech>,
    /// Whether lines wait that the file of the log has not taken.
    log_lags: bool,
    // Whoever asked in a round heard of it, or is gone.
    ghost told: { NobodyWaits peers.guests },
}

/// The peers of all doors, and what it takes to serve them.
pub(crate) struct Peers {
    pub(crate) alloc: Global,
    pub(crate) keys: RandomState,
    pub(crate) poll: Poll,
    pub(crate) entrances: Vec<Entrance>,
    pub(crate) guests: Slab<Guest>,
    /// How many the doors let in together. The keys of guests are below this.
    pub(crate) most_guests: usize,
    pub(crate) stock: Stock,
    pace: Pace,
    /// When the deadlines were looked at last.
    pub(crate) dropped_late_at: u64,
    /// Whether who waits is let in, and what comes is read.
    pub(crate) receives: bool,
    /// The browser whose turn it is in the pass. What others ask waits for the next, so that nobody
    /// who prints waits for more than one page.
    chosen: Option<usize>,
    /// How many passes there were.
    passes: u64,
    /// Of each key, the pass in which a browser of that key was chosen last.
    chosen_at: Vec<u64>,
    /// In how many passes, one after another, the system may have had more to tell.
    pub(crate) full_passes: usize,
}

// In the place of `#[derive(Drop)]`, so that no caller proves again how each part is dropped.
impl Drop for Peers {
    fn drop(self) {
        let Peers {
            alloc: _,
            keys: _,
            poll: _,
            entrances: _,
            guests: _,
            most_guests: _,
            stock: _,
            pace: _,
            dropped_late_at: _,
            receives: _,
            chosen: _,
            passes: _,
            chosen_at: _,
            full_passes: _,
        } = self;
    }
}

impl Hall {
    ghost use Rattle.serve_sockets.specs.EndToEnd.{IsFresh, IsWhole};
    ghost use Rattle.serve_sockets.specs.Halls.{GoesOn, IsEmpty, ServesThose, doors_of, guests_of, told_by};

    /// A hall behind these doors, with nobody in it. `keys` are secret, since peers choose the
    /// names of fields. `InvalidInput` where there are more doors than a hall has, or they let in
    /// more peers together.
    pub fn open<R: Net + Clock + Alloc<A = Global>>(
        rt: &R,
        doors: Vec<Entrance>,
        keys: RandomState,
    ) -> io::Result<Hall>
        ensures empty { IfOk result IsEmpty }
        ensures doors { OnOk result (vec_len doors ≤ MOST_DOORS) }
        ensures guests { OnOk result (sum (map most_of doors.items) ≤ MOST_GUESTS) }
        ensures speeches { IfOk result (λ hall. doors_of hall ≡ map speech_of doors.items) }
    {
        if doors.len() > MOST_DOORS {
            return Err(too_many("a hall has 64 doors at most"));
        }
        match most_guests(doors.as_slice()) {
            Some(most) => Hall::open_for(rt, doors, most, keys),
            None => Err(too_many("a hall has 4096 peers at most")),
        }
    }

    /// A hall behind these doors, which let in so many peers.
    fn open_for<R: Net + Clock + Alloc<A = Global>>(
        rt: &R,
        mut doors: Vec<Entrance>,
        most_guests: usize,
        keys: RandomState,
    ) -> io::Result<Hall>
        ensures empty { IfOk result IsEmpty }
        ensures speeches { IfOk result (λ hall. doors_of hall ≡ map speech_of doors.items) }
    {
        let alloc = rt.alloc();
        let speeches = speeches_at(alloc, doors.as_slice())?;
        let poll = Poll::new(rt)?;
        for (place, entrance) in doors.iter_mut().enumerate() {
            poll.registry()
                .register(&mut entrance.door, Token(place), Interest::READABLE)?;
        }
        let events = Events::with_capacity(alloc, MOST_EVENTS)?;
        let mut chosen_at = Vec::new(alloc);
        chosen_at.resize(most_guests, 0)?;
        let peers = Peers {
            alloc,
            keys,
            poll,
            entrances: doors,
            guests: Slab::with_capacity(alloc, most_guests)?,
            most_guests,
            stock: Stock::new(),
            pace: Pace::new(ticks(rt)?),
            dropped_late_at: 0,
            receives: true,
            chosen: None,
            passes: 0,
            chosen_at,
            full_passes: 0,
        };
        Ok(Hall {
            peers,
            events,
            doors: speeches,
            log_lags: false,
        })
    }

    /// Serves whoever comes, pass after pass, until an operator asks it to end. Then what was told
    /// has some seconds to go. It ends with the first pass that fails.
    pub fn run<
        S: Alter,
        T: Alter,
        K: CopyMaker<Rows = Connection<T>>,
        R: Clock + Files<File = File> + Eprint,
    >(&mut self, rt: &R, served: &mut Served<S>, copies: &mut Copies<T, K>) -> io::Result<()>
        ensures goes_on { GoesOn S.Store (doors_of self.old)
            (guests_of self.old) (guests_of self.new) served.old served.new }
        ensures follows { shares_of served.old ≡ false → open_of served.old ≡ []
            → Follows S.Store served.old served.new }
        ensures whole { IsEmpty self.old → IsFresh served.old
            → IsWhole S.Store (doors_of self.old) (guests_of self.new)
            served.old served.new }
        ensures doors { doors_of self.new ≡ doors_of self.old }
    {
        for _ in 0..u64::MAX {
            if served.has_to_end() {
                break;
            }
            self.pass(rt, served, copies)?;
        }
        self.finish(rt, served, copies)
    }

    /// Sends the answers that wait, as far as peers take them within `LAST_TICKS`. Nothing more is
    /// read, and nobody is let in.
    fn finish<
        S: Alter,
        T: Alter,
        K: CopyMaker<Rows = Connection<T>>,
        R: Clock + Files<File = File> + Eprint,
    >(&mut self, rt: &R, served: &mut Served<S>, copies: &mut Copies<T, K>) -> io::Result<()>
        ensures goes_on { GoesOn S.Store (doors_of self.old)
            (guests_of self.old) (guests_of self.new) served.old served.new }
        ensures follows { shares_of served.old ≡ false → open_of served.old ≡ []
            → Follows S.Store served.old served.new }
        ensures doors { doors_of self.new ≡ doors_of self.old }
    {
        self.peers.receives = false;
        let last = self.peers.ticks(rt)?.saturating_add(LAST_TICKS);
        for _ in 0..u64::MAX {
            if !self.peers.has_output() || self.peers.ticks(rt)? > last {
                break;
            }
            self.pass(rt, served, copies)?;
        }
        Ok(())
    }

    /// Waits until something comes, or a tick is over. Does what the lines of a backup have asked
    /// for, at most a slice of it. Where it gathers accounts for the print room's page, it waits
    /// for nothing, and reads one of them. Then it serves each of whom the system told; where the
    /// system told of several, what they ask shares a commit, and nobody is answered before that.
    /// It makes room where a door is full, lets in who waits, has those go on who were held back
    /// where there is memory, and drops who took too long. Where the log's file was moved away, the log goes on in a new one.
    /// That the log can't be written is told once, on standard error. It fails where the system
    /// can't wait, or has no clock.
    pub fn pass<
        S: Alter,
        T: Alter,
        K: CopyMaker<Rows = Connection<T>>,
        R: Clock + Files<File = File> + Eprint,
    >(&mut self, rt: &R, served: &mut Served<S>, copies: &mut Copies<T, K>) -> io::Result<()>
        ensures goes_on { GoesOn S.Store (doors_of self.old)
            (guests_of self.old) (guests_of self.new) served.old served.new }
        ensures follows { shares_of served.old ≡ false → open_of served.old ≡ []
            → Follows S.Store served.old served.new }
        ensures serves { ServesThose S.Store (doors_of self.old) (told_by self.new)
            (guests_of self.old) (guests_of self.new) served.old served.new }
        ensures doors { doors_of self.new ≡ doors_of self.old }
    {
        let timeout = self.peers.timeout(served.gathers());
        self.peers.poll.poll(&mut self.events, timeout)?;
        served.look_at_log(rt, moment(rt));
        served.keep_backup(copies);
        served.gather();
        let ended = self.serve_told(rt, served);
        self.log_lags = tell_failure(rt, self.log_lags, served.log_lags());
        ended
    }

    /// Has those that the system told of ask in a round, and then gives each its turn. Then it makes
    /// room at the doors, lets in who waits, has those go on who were held back, and drops who is
    /// late.
    fn serve_told<S: Alter>(&mut self, clock: &impl Clock, served: &mut Served<S>) -> io::Result<()>
        ensures goes_on { GoesOn S.Store (doors_of self.old)
            (guests_of self.old) (guests_of self.new) served.old served.new }
        ensures follows { shares_of served.old ≡ false → open_of served.old ≡ []
            → Follows S.Store served.old served.new }
        ensures serves { ServesThose S.Store (doors_of self.old) (told_by self.new)
            (guests_of self.old) (guests_of self.new) served.old served.new }
        ensures doors { doors_of self.new ≡ doors_of self.old }
    {
        self.peers.choose_browser(&self.events);
        self.peers.share(&self.events, clock, served);
        self.peers.serve_all(&self.events, clock, served);
        let ticks = self.peers.ticks(clock)?;
        self.peers.make_room(&self.events, ticks);
        self.peers.admit_all(self.doors.as_slice(), ticks);
        self.peers.resume_held_back();
        self.peers.drop_late(ticks);
        Ok(())
    }
}

/// Tells once that the log can't be written, and answers whether it can't.
fn tell_failure<R: Eprint>(rt: &R, failed: bool, fails: bool) -> bool {
    if fails && !failed {
        // Where this can't be written either, nothing is left to tell it by.
        let _ = rt.eprintln("ipp-room: the log can't be written");
    }
    fails
}

/// The error `InvalidInput`, with a text.
fn too_many(words: &str) -> io::Error
    ensures { error_kind result ≡ ErrorKind.InvalidInput }
{
    io::Error::new(ErrorKind::InvalidInput, words)
}

impl Peers {
    ghost use Rattle.serve_sockets.specs.Halls.{AreOthersKept, MayLeave, Serves, ServesAt, ServesEach, StaysAfter, key_of, keys_told};

    /// The ticks that deadlines go by, after a look at the clock.
    pub(crate) fn ticks(&mut self, clock: &impl Clock) -> io::Result<u64>
        ensures { self.new.guests ≡ self.old.guests }
    {
        Ok(self.pace.look(ticks(clock)?))
    }

    /// How long a pass waits for what comes: no time where there is something to go on with, and
    /// else a tick, or less where somebody waits for a place. Where nobody is there, it waits until
    /// somebody comes.
    fn timeout(&self, goes_on: bool) -> Option<Duration> {
        if goes_on {
            return Some(Duration::ZERO);
        }
        let waits = self.entrances.iter().any(|entrance| entrance.waits);
        if self.guests.is_empty() && !waits {
            return None;
        }
        let tick = if self.lack_room() { ROOM_TICK } else { TICK };
        Some(Duration::from_millis(tick))
    }

    /// Whether somebody waits for a place at any door.
    pub(crate) fn lack_room(&self) -> bool {
        self.entrances.iter().any(|entrance| entrance.lacks_room())
    }

    /// Whether somebody waits for a place at the door in this place.
    pub(crate) fn lacks_room(&self, place: usize) -> bool {
        self.entrances
            .get(place)
            .is_some_and(|entrance| entrance.lacks_room())
    }

    /// Chooses the browser whose turn it is in the pass: of those of whom the system told, the one
    /// that was chosen longest ago. In the system's order one that asks again at once would always
    /// be first.
    fn choose_browser(&mut self, events: &Events)
        ensures { self.new.guests ≡ self.old.guests }
    {
        self.passes = self.passes.saturating_add(1);
        self.chosen = self.longest_waiting(events);
        if let Some(key) = self.chosen {
            if let Some(pass) = self.chosen_at.get_mut(key) {
                *pass = self.passes;
            }
        }
    }

    /// Of the browsers of whom the system told, the one that was chosen longest ago.
    fn longest_waiting(&self, events: &Events) -> Option<usize> {
        let mut longest = None;
        let mut since = u64::MAX;
        for event in events {
            let Some(key) = event.token().0.checked_sub(MOST_DOORS) else {
                continue;
            };
            let pass = self.chosen_at.get(key).copied().unwrap_or(0);
            if self.never_shares(key) && pass < since {
                longest = Some(key);
                since = pass;
            }
        }
        longest
    }

    /// Gives a turn to each guest that the system told of, one after another, and notes the doors
    /// at which somebody waits. No round is under way: who asked in one is now answered.
    fn serve_all<S: Alter>(&mut self, events: &Events, clock: &impl Clock, served: &mut Served<S>)
        ensures { ServesEach S.Store (keys_told (items events.now))
            self.old.guests self.new.guests served.old served.new }
    {
        for event in events {
            self.serve_event(clock, event, served);
        }
    }

    /// Gives a turn to the guest that this event tells of, or notes that somebody waits at a door.
    fn serve_event<S: Alter>(&mut self, clock: &impl Clock, event: &Event, served: &mut Served<S>)
        ensures { ServesEach S.Store (keys_told (event.now ∷ []))
            self.old.guests self.new.guests served.old served.new }
    {
        let token = event.token().0;
        match token.checked_sub(MOST_DOORS) {
            Some(key) => {
                self.serve(clock, key, served, event.is_read_closed());
                self.free_memory(clock, served);
            }
            None => self.note_waiting(token),
        }
    }

    /// Gives the guest of the key a turn, at what the clocks tell now.
    pub(crate) fn serve<S: Alter>(
        &mut self,
        clock: &impl Clock,
        key: usize,
        served: &mut Served<S>,
        is_last: bool,
    )
        ensures serves { Serves S.Store (get self.old.guests key) (get self.new.guests key)
            served.old served.new }
        ensures others { AreOthersKept key self.old.guests self.new.guests }
    {
        let told = self.read_clocks(clock);
        self.serve_at(told, key, served, is_last);
    }

    /// What both clocks tell, or None where one of them tells nothing.
    fn read_clocks(&mut self, clock: &impl Clock) -> Option<Reading>
        ensures { self.new.guests ≡ self.old.guests }
    {
        let moment = moment(clock)?;
        let ticks = self.ticks(clock).ok()?;
        Some(Reading { moment, ticks })
    }

    /// Gives the guest of the key a turn, at what the clocks told, and drops it where its connection
    /// is over, or they told nothing. All others stay as they are. Before that it takes a piece of
    /// the disk for the kept space, where that is not whole. `is_last`: the system may have told
    /// that the peer sends no more.
    fn serve_at<S: Alter>(
        &mut self,
        told: Option<Reading>,
        key: usize,
        served: &mut Served<S>,
        is_last: bool,
    )
        ensures serves { ServesAt S.Store (get self.old.guests key) told (get self.new.guests key)
            served.old served.new }
        ensures others { AreOthersKept key self.old.guests self.new.guests }
    {
        let Some(Reading { moment, ticks }) = told else {
            self.close(key);
            return;
        };
        served.set_moment(moment);
        served.mend_space();
        let rests = self.has_to_rest(key);
        let turn = Turn {
            ticks,
            has_memory: self.stock.has_memory(key),
            is_last,
            reads: self.may_read(rests),
        };
        let alloc = self.alloc;
        let shares = served.is_shared();
        let Some(guest) = self.guests.get_mut(key) else {
            return;
        };
        let before = guest.bytes_held();
        let next = guest.take_turn(alloc, served, turn);
        self.stock
            .changed(key, before, guest.bytes_held(), guest.is_large());
        self.after_turn(key, next, shares, rests);
    }

    /// Whether the guest has to wait in this pass: it is a browser, and another one was chosen.
    fn has_to_rest(&self, key: usize) -> bool {
        self.chosen != Some(key) && self.never_shares(key)
    }

    /// Whether what a peer sends is read in its turn.
    fn may_read(&self, rests: bool) -> bool {
        self.receives && !rests
    }

    /// Whether an answer to any guest is still to go.
    fn has_output(&self) -> bool {
        self.guests.iter().any(|(_, guest)| guest.has_output())
    }

    /// Keeps the guest after its turn, or drops it, as that came to. `shares`: the turn was in a
    /// round. `rests`: it had to wait in this pass.
    fn after_turn(&mut self, key: usize, next: Next, shares: bool, rests: bool)
        ensures stays { StaysAfter next
            (get self.old.guests key) (get self.new.guests key) }
        ensures others { AreOthersKept key self.old.guests self.new.guests }
    {
        if !self.goes_on_after(key, next, shares, rests) {
            self.close(key);
        }
    }

    /// Whether the peer stays after a turn. Behind a turn in a round the peer has another one, and
    /// the system need not tell of its socket again. Where a browser had to wait (`rests`) the
    /// system has to, since what the browser asks is still to be read.
    fn goes_on_after(&mut self, key: usize, next: Next, shares: bool, rests: bool) -> bool
        ensures same { SameValues self.old.guests self.new.guests }
        ensures goes { IsFalse result → MayLeave next }
        ensures stays { IsTrue result → next ≢ Next.Close }
    {
        match next {
            Next::Wait | Next::Left => {
                if rests {
                    self.rearm(key);
                }
                true
            }
            Next::Again => shares || self.rearm(key),
            Next::HeldBack => {
                self.stock.hold_back();
                true
            }
            Next::Leave => self.end(key) && self.rearm(key),
            Next::Close => false,
        }
    }

    /// Has the system tell again what is ready, and answers whether it will.
    pub(crate) fn rearm(&mut self, key: usize) -> bool
        ensures { SameValues self.old.guests self.new.guests }
    {
        match self.guests.get_mut(key) {
            Some(guest) => guest
                .rearm(self.poll.registry(), Peers::token_of(key))
                .is_ok(),
            None => false,
        }
    }

    /// Shuts the writing side of the guest's socket, and answers whether that could be done.
    fn end(&self, key: usize) -> bool {
        match self.guests.get(key) {
            Some(guest) => guest.end().is_ok(),
            None => false,
        }
    }

    /// Drops the guest of the key with its socket, and makes room at its door.
    pub(crate) fn close(&mut self, key: usize)
        ensures gone { get self.new.guests key ≡ None }
        ensures others { AreOthersKept key self.old.guests self.new.guests }
    {
        if let Some(guest) = self.guests.try_remove(key) {
            self.stock.left(key, guest.bytes_held());
            if let Some(entrance) = self.entrances.get_mut(guest.door()) {
                entrance.guests = entrance.guests.saturating_sub(1);
            }
        }
    }

    /// The token by which the system tells of the peer of the key.
    pub(crate) fn token_of(key: usize) -> Token
        ensures { key ≤ MOST_GUESTS → key_of result ≡ Some key }
    {
        Token(key.saturating_add(MOST_DOORS))
    }
}
