//! What a hall knows of each door: what is spoken there, how many peers may be in, how many are;
//! and how peers are let in.

ghost use Rattle.std.specs.Prelude.{◌≡◌, ◌≤◌, IfOk, IfSome, IsSome, IsTrue, List, Some, map, slice_get, sum};
ghost use Rattle.serve_sockets.specs.Doors.{is_at_port, kind_of, most_of, speech_of};
ghost use Rattle.serve_sockets.specs.Halls.{OnlyEnter};

use crate::door::Door;
use crate::guest::{Guest, Peer};
use crate::hall::Peers;
use crate::stream::Stream;
use serve_peers::{HttpPeer, LinePeer, Side};
use std::alloc::{AllocError, Global};
use std::hash::RandomState;
use std::io::ErrorKind;

/// The most peers of all doors together.
pub(crate) const MOST_GUESTS: usize = 4_096;

/// What is spoken by whoever comes in by a door.
#[derive(Clone, Copy, PartialEq, Eq)]
pub enum Speech {
    /// HTTP, with the service of the queues.
    Http,
    /// HTTP, with the service of pages.
    Pages,
    /// HTTP, with the service of the desk.
    Desk,
    /// Lines of a side.
    Lines(Side),
}

impl Speech {
    ghost use Rattle.serve_sockets.specs.Guests.{CameBy};

    /// Makes the peer that speaks this, for a socket that came in just now.
    fn peer(self, alloc: Global, keys: RandomState, ticks: u64) -> Peer
        ensures { CameBy self result }
    {
        match self {
            Speech::Http => Peer::Http(HttpPeer::new(alloc, keys, ticks)),
            Speech::Pages => Peer::Pages(HttpPeer::new(alloc, keys, ticks)),
            Speech::Desk => Peer::Desk(HttpPeer::new(alloc, keys, ticks)),
            Speech::Lines(side) => Peer::Lines(LinePeer::new(alloc, side, ticks)),
        }
    }
}

/// What a door is for: what is spoken there, and how many may come in.
#[derive(Clone, Copy, PartialEq, Eq)]
pub struct Kind {
    pub speech: Speech,
    /// The most peers who may be there by the door at once. Each door has its own share, so that
    /// those of one never keep out those of another.
    pub most: usize,
}

impl Kind {
    /// For clients, at the queues.
    pub const CLIENTS: Kind = Kind {
        speech: Speech::Http,
        most: 768,
    };

    /// For browsers, at the pages.
    pub const PAGES: Kind = Kind {
        speech: Speech::Pages,
        most: 256,
    };

    /// For operators in browsers, at the desk.
    pub const DESK: Kind = Kind {
        speech: Speech::Desk,
        most: 64,
    };

    /// For stations, which may name any device.
    pub const STATIONS: Kind = Kind {
        speech: Speech::Lines(Side::Station),
        most: 192,
    };

    /// For operators.
    pub const OPERATORS: Kind = Kind {
        speech: Speech::Lines(Side::Operator),
        most: 64,
    };

    /// For stations of these devices alone, whose names commas part: a bound door. It lets in few,
    /// so that a hall has room for many such doors.
    pub fn station(devices: &'static [u8]) -> Kind
        ensures { result.speech ≡ Speech.Lines (Side.Bound devices.entry) }
    {
        Kind {
            speech: Speech::Lines(Side::Bound(devices)),
            most: 16,
        }
    }
}

/// A door as a hall has it: the socket that listens, its kind, and how many peers that came by it
/// are in.
#[derive(Drop)]
pub struct Entrance {
    pub(crate) door: Door,
    pub(crate) kind: Kind,
    pub(crate) guests: usize,
    /// Somebody may wait, of whom the system will not tell again.
    pub(crate) waits: bool,
    /// Whoever comes in next, where the door was full when that peer came.
    next: Option<Stream>,
}

impl Entrance {
    /// A door by which nobody came in yet.
    pub fn new(door: Door, kind: Kind) -> Entrance
        ensures { kind_of result ≡ kind }
    {
        Entrance {
            door,
            kind,
            guests: 0,
            waits: false,
            next: None,
        }
    }

    /// The port on which it listens, if it does on one.
    pub fn port(&self) -> Option<u16>
        ensures { IsSome result → IsTrue (is_at_port self.now) }
    {
        self.door.port()
    }

    /// Whether somebody waits for whom there is no room.
    pub(crate) fn lacks_room(&self) -> bool {
        self.next.is_some()
    }

    /// Takes the next peer, if one waits and there is room. Where the door is full, it only comes to
    /// know of that peer.
    fn take_next(&mut self) -> Option<Stream> {
        if self.next.is_none() {
            self.next = self.accept();
        }
        if self.is_full() {
            return None;
        }
        self.next.take()
    }

    /// Takes the socket of a peer that waits, if the system has told of one.
    fn accept(&mut self) -> Option<Stream> {
        if !self.waits {
            return None;
        }
        match self.door.accept() {
            Ok(stream) => Some(stream),
            Err(error) => {
                // Where it is for lack of descriptors, say, the next tick tries again.
                self.waits = error.kind() != ErrorKind::WouldBlock;
                None
            }
        }
    }

    /// Whether as many are in as its kind lets in.
    fn is_full(&self) -> bool {
        self.guests >= self.kind.most
    }
}

/// How many peers the doors let in together, or `None` where that is more than `MOST_GUESTS`.
pub(crate) fn most_guests(doors: &[Entrance]) -> Option<usize>
    ensures { IfSome result (λ most. (most ≡ sum (map most_of doors.now)) × (most ≤ MOST_GUESTS)) }
{
    let mut most = 0;
    for entrance in doors {
        if entrance.kind.most > MOST_GUESTS - most {
            return None;
        }
        most += entrance.kind.most;
    }
    Some(most)
}

/// What is spoken at each of the doors.
pub(crate) fn speeches_at(alloc: Global, doors: &[Entrance]) -> Result<Vec<Speech>, AllocError>
    ensures { IfOk result (λ speeches. speeches.items ≡ map speech_of doors.now) }
{
    let mut speeches = Vec::with_capacity(alloc, doors.len())?;
    for entrance in doors {
        speeches.push(entrance.kind.speech)?;
    }
    Ok(speeches)
}

impl Peers {
    /// Notes that somebody may wait at the door in this place, as the system told.
    pub(crate) fn note_waiting(&mut self, place: usize)
        ensures { self.new.guests ≡ self.old.guests }
    {
        if let Some(entrance) = self.entrances.get_mut(place) {
            entrance.waits = true;
        }
    }

    /// Lets in who waits at the doors, unless nothing more is received. `doors`: what is spoken at
    /// each.
    pub(crate) fn admit_all(&mut self, doors: &[Speech], ticks: u64)
        ensures { OnlyEnter doors.now self.old.guests self.new.guests }
    {
        if !self.receives {
            return;
        }
        for place in 0..doors.len() {
            self.admit(doors, place, ticks);
        }
    }

    /// Lets in who waits at a door, while it has room.
    fn admit(&mut self, doors: &[Speech], place: usize, ticks: u64)
        ensures { OnlyEnter doors.now self.old.guests self.new.guests }
    {
        let Some(speech) = doors.get(place).copied() else {
            return;
        };
        for _ in 0..self.most_guests {
            let Some(stream) = self.next_at(place) else {
                return;
            };
            self.take_in(stream, speech, place, ticks);
        }
    }

    /// Takes the next peer at the door in this place, if one waits and there is room.
    fn next_at(&mut self, place: usize) -> Option<Stream>
        ensures { self.new.guests ≡ self.old.guests }
    {
        self.entrances.get_mut(place)?.take_next()
    }

    /// Takes in a peer who came by the door in this place, or drops it where the system or the
    /// memory has no room.
    fn take_in(&mut self, stream: Stream, speech: Speech, place: usize, ticks: u64)
        ensures { (doors : List Speech) → slice_get doors place ≡ Some speech
            → OnlyEnter doors self.old.guests self.new.guests }
    {
        let peer = speech.peer(self.alloc, self.keys, ticks);
        let mut guest = Guest::new(stream, peer, place);
        let key = self.guests.vacant_key();
        if guest
            .register(self.poll.registry(), Peers::token_of(key))
            .is_err()
        {
            return;
        }
        if self.guests.insert(guest).is_ok() {
            if let Some(entrance) = self.entrances.get_mut(place) {
                entrance.guests = entrance.guests.saturating_add(1);
            }
        }
    }
}
