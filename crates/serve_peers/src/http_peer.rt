//! A peer that speaks HTTP: its connection, what each of its turns does, how long it may take, and
//! how much it holds.

ghost use Rattle.std.specs.Prelude.{◌≡◌, ◌≢◌, ◌+◌, ◌*◌, ◌<◌, ◌≤◌, ◌↔◌, length, nat_lt, IsFalse, IsTrue, Some};
ghost use Rattle.input_http.specs.Limits.{longest_body, longest_head};
ghost use Rattle.http_server.specs.Connection.{config_of, history};
ghost use Rattle.http_server.specs.History.{new_history};
ghost use Rattle.serve_peers.specs.Turns.{Continues};

use crate::bytes_held::{LARGE, Load};
use crate::patience::Patience;
use crate::progress::Progress;
use crate::room_service::RoomService;
use crate::step::{Next, STEPS, Turn, after, drain};
use crate::{answer_requests, connection_config};
use http_server::{Connection, Reason, State};
use input_http::HEAD_LIMIT;
use std::alloc::Global;
use std::hash::RandomState;
use std::io::{Read, Write};

/// What begins the text that asks a client for the body of its request.
const INVITATION: &[u8] = b"HTTP/1.1 100 ";

/// A peer that speaks HTTP, with the queues or with the pages.
pub struct HttpPeer {
    connection: Connection,
    progress: Progress,
    load: Load,
}

// By hand, in the place of `#[derive(Drop)]`: the head of lib.rt says why.
impl Drop for HttpPeer {
    fn drop(self) {
        let HttpPeer {
            connection: _,
            progress: _,
            load: _,
        } = self;
    }
}

impl HttpPeer {
    ghost use Rattle.serve_peers.specs.HttpPeers.{CallsService, GoesOn, HasAnswer, HasToSend, IsAtRest, IsLater, IsStill, KeepsLimits, calls_of, came_of, connection_of, input_buffer, patience_of};
    ghost use Rattle.serve_peers.specs.ProofHttpSteps.{ReadsBytes, WritesBytes};

    /// A peer that came just now. It takes no memory.
    pub fn new(alloc: Global, keys: RandomState, ticks: u64) -> HttpPeer
        ensures history { history (connection_of result) ≡ new_history }
        ensures head { (config_of (connection_of result)).limits.max_head_len ≡ longest_head }
        ensures body { (config_of (connection_of result)).max_body_len ≡ longest_body }
        ensures pending { (config_of (connection_of result)).max_pending ≡ 0 }
    {
        HttpPeer {
            connection: Connection::new(alloc, keys, connection_config()),
            progress: Progress::new(ticks),
            load: Load::new(),
        }
    }

    /// One turn: answers what came, each request by one call of the service, reads and writes, in
    /// at most `STEPS` steps. Answers what the peer goes on with (`Next`): `Again` too where a long
    /// request has come and the round is shared, since that is to commit alone, and `Wait` only
    /// where each request that came has its call. Of a peer that was told of the end it only drops
    /// what still comes.
    pub fn drive<V: RoomService, R: Read, W: Write>(
        &mut self,
        reader: &mut R,
        writer: &mut W,
        service: &mut V,
        turn: Turn,
    ) -> Next
        ensures calls { CallsService V.answers self.old self.new service.old service.new }
        ensures later { IsLater (R.remaining reader.old, W.contents writer.old)
            (R.remaining reader.new, W.contents writer.new) self.old self.new }
        ensures continues { Continues V.Kept.Store (V.rooms service.old) (V.rooms service.new) }
        ensures rests { result ≡ Next.Wait → IsAtRest self.new }
        ensures holds { result ≡ Next.HeldBack → IsFalse turn.has_memory }
        ensures limits { KeepsLimits self.old self.new }
    {
        if self.progress.parts {
            return drain(reader);
        }
        self.progress.begin_turn(turn);
        for _ in 0..STEPS {
            if service.is_shared() && self.load.is_long() {
                return Next::Again;
            }
            answer_requests(&mut self.connection, service);
            if let Some(next) = self.step(reader, writer, turn) {
                return next;
            }
        }
        Next::Again
    }

    /// One read or one write. Answers what to wait for, where it can't go on.
    fn step<R: Read, W: Write>(
        &mut self,
        reader: &mut R,
        writer: &mut W,
        turn: Turn,
    ) -> Option<Next>
        ensures calls { calls_of self.new ≡ calls_of self.old }
        ensures later { GoesOn (R.remaining reader.old, W.contents writer.old)
            (R.remaining reader.new, W.contents writer.new)
            (history (connection_of self.old)) (history (connection_of self.new)) }
        ensures waits { result ≡ Some Next.Wait → IsStill self.old self.new }
        ensures holds { result ≡ Some Next.HeldBack → IsFalse turn.has_memory }
        ensures limits { KeepsLimits self.old self.new }
    {
        if self.connection.is_done() {
            return Some(self.finish(turn.ticks));
        }
        if self.connection.wants_write() {
            return self.send(writer, turn.ticks);
        }
        if self.load.is_large() && !turn.has_memory {
            return Some(self.progress.hold_back(turn.ticks));
        }
        if self.progress.has_all {
            return Some(Next::Wait);
        }
        if !turn.reads {
            return Some(Next::Again);
        }
        self.progress.patience.let_on(turn.ticks);
        self.receive(reader, turn)
    }

    /// Writes once. With the last byte of an answer the peer's time begins anew.
    fn send<W: Write>(&mut self, writer: &mut W, ticks: u64) -> Option<Next>
        ensures calls { calls_of self.new ≡ calls_of self.old }
        ensures sends { WritesBytes (W.contents writer.old) (W.contents writer.new)
            (history (connection_of self.old)) (history (connection_of self.new)) }
        ensures waits { result ≡ Some Next.Wait → IsStill self.old self.new }
        ensures moves { result ≢ Some Next.HeldBack }
        ensures limits { KeepsLimits self.old self.new }
    {
        self.load.answered();
        // The body of what was begun is to come.
        let invites = self.connection.output().starts_with(INVITATION);
        match self.connection.write_to(writer) {
            Ok(0) => Some(Next::Close),
            Ok(count) => {
                self.progress.patience.moved(count, ticks);
                if !self.connection.wants_write() {
                    self.progress.sent_all(invites, ticks);
                }
                None
            }
            Err(error) => after(&error),
        }
    }

    /// Reads once.
    fn receive<R: Read>(&mut self, reader: &mut R, turn: Turn) -> Option<Next>
        ensures calls { calls_of self.new ≡ calls_of self.old }
        ensures receives { ReadsBytes (R.remaining reader.old) (R.remaining reader.new)
            (history (connection_of self.old)) (history (connection_of self.new)) }
        ensures waits { result ≡ Some Next.Wait → IsStill self.old self.new }
        ensures moves { result ≢ Some Next.HeldBack }
        ensures limits { KeepsLimits self.old self.new }
    {
        match self.connection.read_from(reader) {
            Ok(count) => {
                self.load.came(count);
                self.progress.received(count, turn);
                None
            }
            Err(error) => after(&error),
        }
    }

    /// Ends the connection, on which nothing more is answered: the peer has to end it too. Where it
    /// has, or memory ran out, the connection closes at once.
    fn finish(&mut self, ticks: u64) -> Next
        ensures connection { connection_of self.new ≡ connection_of self.old }
        ensures ends { result ≢ Next.Wait }
        ensures moves { result ≢ Next.HeldBack }
    {
        match self.connection.state() {
            State::Closing(Reason::EndOfInput) | State::Aborted => Next::Close,
            _ => self.progress.part(ticks),
        }
    }

    /// What the peer is at, and since when: the hall asks whether that takes too long.
    pub fn patience(&self) -> Patience
        ensures { result ≡ patience_of self.now }
    {
        self.progress.patience
    }

    /// How many bytes its buffers take: that of requests, and that of answers, which grows to twice
    /// what waits.
    pub fn bytes_held(&self) -> usize
        ensures requests { input_buffer self.now ≤ result }
        ensures answers { result ≤ input_buffer self.now
            + 2 * length (history (connection_of self.now)).pending }
    {
        let waiting = self.connection.output().len();
        self.load
            .bytes_held()
            .saturating_add(waiting.saturating_mul(2))
    }

    /// Whether an answer waits to go.
    pub fn has_output(&self) -> bool
        ensures { IsTrue result ↔ HasAnswer self.now }
    {
        self.connection.wants_write()
    }

    /// Whether the peer has to send something next: no answer waits to go, and of a request no more
    /// came than a head may have.
    pub fn has_to_send(&self) -> bool
        ensures { IsTrue result ↔ HasToSend self.now }
    {
        !self.has_output() && self.load.came_so_far() <= HEAD_LIMIT
    }

    /// Whether a large answer waits to go.
    pub fn has_large_answer(&self) -> bool
        ensures { IsTrue result
            → LARGE < length (history (connection_of self.now)).pending }
    {
        self.connection.output().len() > LARGE
    }

    /// Whether a large request is coming that is longer than this, in bytes of its body, while no
    /// answer waits to go.
    pub fn outgrows(&self, most: usize) -> bool
        ensures longer { IsTrue result → most + longest_head < came_of self.now }
        ensures none_waits { IsTrue result → ¬ (HasAnswer self.now) }
    {
        let longest = most.saturating_add(HEAD_LIMIT);
        self.load.is_large() && self.load.came_so_far() > longest && !self.has_output()
    }

    /// Whether a large request is coming.
    pub fn is_large(&self) -> bool
        ensures { result ≡ nat_lt LARGE (came_of self.now) }
    {
        self.load.is_large()
    }
}
