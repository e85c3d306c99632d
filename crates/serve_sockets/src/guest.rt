//! A guest: a peer that came in by a door, with its socket; what a turn of it does in a round and
//! outside one, and how much it holds.

ghost use Rattle.std.specs.Prelude.{◌≡◌, [], false, IsFalse, IsTrue};
ghost use Rattle.serve_peers.specs.Journals.{is_lost_of, shares_of};
ghost use Rattle.serve_peers.specs.Space.{spare_of};
ghost use Rattle.serve_peers.specs.Turns.{Continues};
ghost use Rattle.serve_space.specs.Spares.{takes_of};
ghost use Rattle.serve_sockets.specs.Guests.{AsksAgain, AsksTurn, HasSentMore, HasTurn, IsAtRest, StaysOrIsRefused, TakesTurn, Turns, asked_in, peer_of, turns_of};

use crate::stream::{Stream, Unsent};
use http_server::Log;
use input_http::Refusal;
use mio::{Interest, Registry, Token};
use serve_desk::drive_desk;
use serve_peers::{Entry, HttpPeer, LARGE, LastPeer, LinePeer, Next, Patience, Served, Turn};
use serve_web::drive_browser;
use sqlite::Alter;
use std::alloc::Global;
use std::io;
use std::io::{Read, Write};

/// What a peer speaks.
pub(crate) enum Peer {
    /// A client of the queues.
    Http(HttpPeer),
    /// A browser at the pages.
    Pages(HttpPeer),
    /// An operator's browser at the desk.
    Desk(HttpPeer),
    Lines(LinePeer),
    /// It is told one last thing: what it asked in a round whose commit failed came to this, or its
    /// request is too long for the space that is left.
    Last(LastPeer),
}

// In the place of `#[derive(Drop)]`, so that no caller proves again how each part is dropped.
impl Drop for Peer {
    fn drop(self) {
        match self {
            Peer::Http(_) => {}
            Peer::Pages(_) => {}
            Peer::Desk(_) => {}
            Peer::Lines(_) => {}
            Peer::Last(_) => {}
        }
    }
}

impl Peer {
    /// Reads, answers and writes as far as it goes now, but a few steps at most.
    fn drive<S: Alter, R: Read, W: Write>(
        &mut self,
        reader: &mut R,
        writer: &mut W,
        served: &mut Served<S>,
        turn: Turn,
    ) -> Next
        ensures takes { TakesTurn S.Store (R.remaining reader.old, W.contents writer.old)
            (R.remaining reader.new, W.contents writer.new) result self.old self.new
            served.old served.new }
        ensures continues { Continues S.Store served.old served.new }
        ensures rests { result ≡ Next.Wait → IsAtRest self.new }
        ensures holds { result ≡ Next.HeldBack → IsFalse turn.has_memory }
    {
        match self {
            Peer::Http(peer) => peer.drive(reader, writer, served, turn),
            Peer::Pages(peer) => drive_browser(peer, reader, writer, served, turn),
            Peer::Desk(peer) => drive_desk(peer, reader, writer, served, turn),
            Peer::Lines(peer) => peer.drive(reader, writer, served, turn),
            Peer::Last(peer) => peer.drive(reader, writer, turn),
        }
    }
}

/// A peer that came in by a door.
pub(crate) struct Guest {
    stream: Stream,
    peer: Peer,
    /// The place among the doors of that by which it came in.
    door: usize,
    /// What it asked in a round, until it has another turn once that is settled.
    asked: Option<Entry>,
    /// Whether its last turn was not to read, so that what it sent may be unread.
    rests: bool,
    /// Its turns so far, each with what came of it. They take no memory: only proofs read them.
    turns: Log<Turn, Next>,
}

// In the place of `#[derive(Drop)]`, so that no caller proves again how each part is dropped.
impl Drop for Guest {
    fn drop(self) {
        let Guest {
            stream: _,
            peer: _,
            door: _,
            asked: _,
            rests: _,
            turns: _,
        } = self;
    }
}

impl Guest {
    /// A guest that came in by the door in this place, and has had no turn.
    pub(crate) fn new(stream: Stream, peer: Peer, door: usize) -> Guest
        ensures peer { peer_of result ≡ peer }
        ensures turns { turns_of result ≡ [] }
        ensures asked { asked_in result ≡ [] }
        ensures door { result.door ≡ door }
    {
        Guest {
            stream,
            peer,
            door,
            asked: None,
            rests: false,
            turns: Log::new(),
        }
    }

    /// The place among the doors of that by which it came in.
    pub(crate) fn door(&self) -> usize {
        self.door
    }

    /// Gives the peer its turn: reads what came by the socket, and applies what it asks. Outside a
    /// round it also writes the answers. Where the commit of the peer's round failed, it first asks
    /// again what the peer asked there.
    pub(crate) fn take_turn<S: Alter>(
        &mut self,
        alloc: Global,
        served: &mut Served<S>,
        turn: Turn,
    ) -> Next
        ensures { Turns S.Store (shares_of served.old) turn result
            self.old self.new served.old served.new }
    {
        if served.is_shared() {
            self.ask(served, turn)
        } else {
            self.go_on(alloc, served, turn)
        }
    }

    /// Gives the peer a turn in a round, in which nothing is written. What it asks is kept until
    /// the turn that it has once the round is settled.
    fn ask<S: Alter>(&mut self, served: &mut Served<S>, turn: Turn) -> Next
        ensures { AsksTurn S.Store turn result self.old self.new served.old served.new }
    {
        served.set_asked(self.asked.take());
        let mut stream = &self.stream;
        let next = self.peer.drive(&mut stream, &mut Unsent, served, turn);
        self.asked = served.take_asked();
        self.rests = !turn.reads;
        self.turns = self.turns.and(&turn, &next);
        next
    }

    /// Gives the peer a turn outside a round. A peer that asked in the round before only hears its
    /// answer in this turn, and reads nothing more.
    fn go_on<S: Alter>(&mut self, alloc: Global, served: &mut Served<S>, turn: Turn) -> Next
        requires { shares_of served.old ≡ false }
        ensures { HasTurn S.Store turn result self.old self.new served.old served.new }
    {
        let hears = Turn {
            reads: turn.reads && self.asked.is_none(),
            ..turn
        };
        self.ask_again(alloc, served, turn.ticks);
        let mut stream = &self.stream;
        let mut sink = stream.sink(served);
        let next = self.peer.drive(&mut stream, &mut sink, served, hears);
        self.rests = !turn.reads;
        self.turns = self.turns.and(&turn, &next);
        next
    }

    /// Asks again, by itself, what the peer asked in a round, where the commit of that failed. From
    /// then on the peer only hears what that came to, whatever it spoke. A peer that asked nothing
    /// in a round, and has sent more of a request than there is space for, is refused.
    fn ask_again<S: Alter>(&mut self, alloc: Global, served: &mut Served<S>, ticks: u64)
        requires { shares_of served.old ≡ false }
        ensures again { AsksAgain S.Store (is_lost_of served.old) (asked_in self.old)
            (peer_of self.old) (peer_of self.new) served.old served.new }
        ensures asked { asked_in self.new ≡ [] }
        ensures turns { turns_of self.new ≡ turns_of self.old }
        ensures socket { self.new.stream ≡ self.old.stream }
        ensures door { self.new.door ≡ self.old.door }
        ensures alone { shares_of served.new ≡ false }
    {
        let Some(asked) = self.asked.take() else {
            return self.refuse_for_space(alloc, served, ticks);
        };
        if served.is_lost() {
            let peer = LastPeer::told_again(alloc, &asked, served, ticks);
            self.peer = Peer::Last(peer);
        }
    }

    /// Refuses the request of a client that has sent more of it than there is space for, and has the
    /// log tell it. The path may not have come yet.
    fn refuse_for_space<S: Alter>(&mut self, alloc: Global, served: &mut Served<S>, ticks: u64)
        ensures refused { StaysOrIsRefused (takes_of (spare_of served.old))
            (peer_of self.old) (peer_of self.new) }
        ensures same { served.new ≡ served.old }
        ensures asked { asked_in self.new ≡ asked_in self.old }
        ensures turns { turns_of self.new ≡ turns_of self.old }
        ensures socket { self.new.stream ≡ self.old.stream }
        ensures door { self.new.door ≡ self.old.door }
    {
        if self.outgrows(served.takes()) {
            served.log_refusal(Refusal::NoSpace, b"-");
            self.peer = Peer::Last(LastPeer::refused(alloc, Refusal::NoSpace, ticks));
        }
    }

    /// Whether it is a client that has sent more of a request than this.
    fn outgrows(&self, most: usize) -> bool
        ensures { IsTrue result → HasSentMore most (peer_of self.now) }
    {
        match &self.peer {
            Peer::Http(peer) => peer.outgrows(most),
            Peer::Pages(peer) => peer.outgrows(most),
            Peer::Desk(peer) => peer.outgrows(most),
            Peer::Lines(_) | Peer::Last(_) => false,
        }
    }

    /// Whether it has no turn in a round: pages are shown as the tables are between rounds.
    pub(crate) fn never_shares(&self) -> bool {
        matches!(self.peer, Peer::Pages(_) | Peer::Desk(_))
    }

    /// Shuts the socket's writing side, so that the peer sees that nothing more comes.
    pub(crate) fn end(&self) -> io::Result<()> {
        self.stream.end()
    }

    /// Has the system tell from now on, under the token, when the socket can be read or written.
    pub(crate) fn register(&mut self, registry: &Registry, token: Token) -> io::Result<()>
        ensures { self.new ≡ self.old }
    {
        registry.register(&mut self.stream, token, both())
    }

    /// Has the system tell again what is ready.
    pub(crate) fn rearm(&mut self, registry: &Registry, token: Token) -> io::Result<()>
        ensures { self.new ≡ self.old }
    {
        registry.reregister(&mut self.stream, token, both())
    }

    /// Whether a large request of it waits for memory.
    pub(crate) fn is_held_back(&self) -> bool {
        self.patience().is_held_back()
    }

    /// What the peer is at, and since when.
    fn patience(&self) -> Patience {
        match &self.peer {
            Peer::Http(peer) => peer.patience(),
            Peer::Pages(peer) => peer.patience(),
            Peer::Desk(peer) => peer.patience(),
            Peer::Lines(peer) => peer.patience(),
            Peer::Last(peer) => peer.patience(),
        }
    }

    /// How many bytes it holds.
    pub(crate) fn bytes_held(&self) -> usize {
        match &self.peer {
            Peer::Http(peer) => peer.bytes_held(),
            Peer::Pages(peer) => peer.bytes_held(),
            Peer::Desk(peer) => peer.bytes_held(),
            Peer::Lines(peer) => peer.bytes_held(),
            Peer::Last(peer) => peer.bytes_held(),
        }
    }

    /// Whether something that it was told is still to go.
    pub(crate) fn has_output(&self) -> bool {
        match &self.peer {
            Peer::Http(peer) => peer.has_output(),
            Peer::Pages(peer) => peer.has_output(),
            Peer::Desk(peer) => peer.has_output(),
            Peer::Lines(peer) => peer.has_output(),
            Peer::Last(peer) => peer.bytes_held() > 0,
        }
    }

    /// Whether a large request of it is coming, or a large answer is going.
    pub(crate) fn is_large(&self) -> bool {
        match &self.peer {
            Peer::Http(peer) => peer.is_large(),
            Peer::Pages(peer) => peer.is_large(),
            Peer::Desk(peer) => peer.is_large(),
            Peer::Lines(peer) => peer.bytes_held() > LARGE,
            Peer::Last(peer) => peer.bytes_held() > LARGE,
        }
    }

    /// Whether it took too long.
    pub(crate) fn is_late(&self, ticks: u64) -> bool {
        self.patience().is_over(ticks)
    }

    /// Whether a large answer waits to go that can be asked for again, so that the peer may be
    /// dropped. Never on a connection of lines, where a start's documents are sent once, and never
    /// for the last text of a peer.
    pub(crate) fn has_large_answer(&self) -> bool {
        match &self.peer {
            Peer::Http(peer) => peer.has_large_answer(),
            Peer::Pages(peer) => peer.has_large_answer(),
            Peer::Desk(peer) => peer.has_large_answer(),
            Peer::Lines(_) | Peer::Last(_) => false,
        }
    }

    /// Whether a large answer waits, and no whole piece of it, or of its request, has moved for a
    /// quarter of a second. It may be let go where too much is held.
    pub(crate) fn reads_slowly(&self, ticks: u64) -> bool {
        self.has_large_answer() && self.patience().is_slow(ticks)
    }

    /// Whether it has had to send something for a quarter of a second: nothing that it asked is still
    /// to be read or told.
    pub(crate) fn is_silent(&self, ticks: u64) -> bool {
        let has_to_send = match &self.peer {
            Peer::Http(peer) => peer.has_to_send(),
            Peer::Pages(peer) => peer.has_to_send(),
            Peer::Desk(peer) => peer.has_to_send(),
            Peer::Lines(peer) => peer.has_to_send(),
            Peer::Last(peer) => peer.bytes_held() == 0,
        };
        has_to_send && self.asked.is_none() && !self.rests && self.patience().is_slow(ticks)
    }

    /// Whether nothing was begun on it, and it keeps the memory of a large request.
    pub(crate) fn rests_on_memory(&self) -> bool {
        self.patience().is_at_rest() && self.bytes_held() > LARGE
    }
}

/// The interest in reading and in writing.
fn both() -> Interest {
    Interest::READABLE | Interest::WRITABLE
}
