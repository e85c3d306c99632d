//! A peer that speaks lines: what each of its turns does with its connection, and how long it may
//! take.

ghost use Rattle.std.specs.Prelude.{◌≡◌, ◌≢◌, ◌↔◌, false, length, nat_lt, IsFalse, IsTrue, Some};
ghost use Rattle.serve_peers.specs.Turns.{Continues};
ghost use Rattle.serve_peers.specs.Lines.{IsNewOf, bytes_held, ended_of, input_of, output_of};

use crate::line_connection::Front;
use crate::patience::Patience;
use crate::progress::Progress;
use crate::step::{Next, STEPS, Turn, after, drain};
use crate::{LineConnection, Served, Side};
use serve_log::LineRefusal;
use sqlite::Alter;
use std::alloc::Global;
use std::io::{Read, Write};

/// A peer that speaks lines: a station or an operator.
pub struct LinePeer {
    connection: LineConnection,
    progress: Progress,
}

// By hand, in the place of `#[derive(Drop)]`: the head of lib.rt says why.
impl Drop for LinePeer {
    fn drop(self) {
        let LinePeer {
            connection: _,
            progress: _,
        } = self;
    }
}

impl LinePeer {
    ghost use Rattle.serve_peers.specs.LinePeers.{HasTaken, HasToSend, TakesTurn, lines_of, patience_of};
    ghost use Rattle.serve_peers.specs.ProofLineSteps.{IsEnded, IsNoLine, ReceivesBytes, SendsBytes, TakesStep};

    /// A peer that came just now. It takes no memory.
    pub fn new(alloc: Global, side: Side, ticks: u64) -> LinePeer
        ensures { IsNewOf side (lines_of result) }
    {
        LinePeer {
            connection: LineConnection::new(alloc, side),
            progress: Progress::new(ticks),
        }
    }

    /// Reads, answers and writes as far as it goes now, but a few steps at most: what came is taken
    /// line by line, each is applied, once, or is a question or a bad one, and what is told goes in
    /// order. With a connection that is over, answers that had not gone yet are lost.
    pub fn drive<S: Alter, R: Read, W: Write>(
        &mut self,
        reader: &mut R,
        writer: &mut W,
        served: &mut Served<S>,
        turn: Turn,
    ) -> Next
        ensures takes { TakesTurn S.Store (R.remaining reader.old, W.contents writer.old)
            (R.remaining reader.new, W.contents writer.new) result self.old self.new
            served.old served.new }
        ensures continues { Continues S.Store served.old served.new }
        ensures rests { result ≡ Next.Wait → HasTaken (lines_of self.new) }
        ensures holds { result ≡ Next.HeldBack → IsFalse turn.has_memory }
    {
        if self.progress.parts {
            return drain(reader);
        }
        self.progress.begin_turn(turn);
        for _ in 0..STEPS {
            if let Some(next) = self.step(reader, writer, served, turn) {
                return next;
            }
        }
        Next::Again
    }

    /// One read, one line or one write: a line is answered once the answers before it have gone.
    /// Answers what to wait for, where it can't go on.
    fn step<S: Alter, R: Read, W: Write>(
        &mut self,
        reader: &mut R,
        writer: &mut W,
        served: &mut Served<S>,
        turn: Turn,
    ) -> Option<Next>
        ensures takes { TakesStep S.Store (R.remaining reader.old, W.contents writer.old)
            (R.remaining reader.new, W.contents writer.new) result
            (lines_of self.old) (lines_of self.new) served.old served.new }
        ensures continues { Continues S.Store served.old served.new }
        ensures rests { result ≡ Some Next.Wait → HasTaken (lines_of self.new) }
        ensures holds { result ≡ Some Next.HeldBack → IsFalse turn.has_memory }
    {
        if self.connection.wants_write() {
            return self.send(writer, turn.ticks);
        }
        if !turn.has_memory && self.connection.asks_documents() {
            return Some(self.progress.hold_back(turn.ticks));
        }
        self.progress.patience.let_on(turn.ticks);
        match self.connection.answer(served) {
            Ok(Front::Answered) => None,
            Ok(Front::PutOff) => Some(Next::Again),
            Ok(Front::Unended) if self.connection.has_ended || self.connection.is_too_long() => {
                self.end(served, turn.ticks)
            }
            Ok(Front::NoText) => self.end(served, turn.ticks),
            Ok(Front::Unended) if self.progress.has_all => Some(Next::Wait),
            Ok(Front::Unended) if !turn.reads => Some(Next::Again),
            Ok(Front::Unended) => self.receive(reader, turn),
            Err(_) => Some(Next::Close),
        }
    }

    /// Writes once. With the last byte of the answers the peer's time begins anew.
    fn send<W: Write>(&mut self, writer: &mut W, ticks: u64) -> Option<Next>
        ensures sends { SendsBytes (W.contents writer.old) (W.contents writer.new)
            (lines_of self.old) (lines_of self.new) }
        ensures waits { result ≡ Some Next.Wait → lines_of self.new ≡ lines_of self.old }
        ensures moves { result ≢ Some Next.HeldBack }
    {
        match self.connection.write_to(writer) {
            Ok(0) => Some(Next::Close),
            Ok(count) => {
                self.progress.patience.moved(count, ticks);
                if !self.connection.wants_write() {
                    self.progress.sent_all(self.connection.has_rest(), ticks);
                }
                None
            }
            Err(error) => after(&error),
        }
    }

    /// Reads once, and keeps whether the peer has ended.
    fn receive<R: Read>(&mut self, reader: &mut R, turn: Turn) -> Option<Next>
        requires open { ended_of (lines_of self.old) ≡ false }
        ensures receives { ReceivesBytes (R.remaining reader.old) (R.remaining reader.new)
            (lines_of self.old) (lines_of self.new) }
        ensures waits { result ≡ Some Next.Wait
            → input_of (lines_of self.new) ≡ input_of (lines_of self.old) }
        ensures moves { result ≢ Some Next.HeldBack }
    {
        match self.connection.read_from(reader) {
            Ok(0) => {
                self.connection.has_ended = true;
                None
            }
            Ok(count) => {
                self.progress.received(count, turn);
                None
            }
            Err(error) => after(&error),
        }
    }

    /// Ends the reading: the input has ended, or a line is too long or no text. A rest that is no
    /// line is answered as a bad one first (`None`: that has to go), with all that came behind it.
    /// Else all was said, and the peer leaves.
    fn end<S: Alter>(&mut self, served: &mut Served<S>, ticks: u64) -> Option<Next>
        requires none { IsNoLine (input_of (lines_of self.old)) }
        ensures ended { IsEnded result (lines_of self.old) (lines_of self.new) }
        ensures same { served.new ≡ served.old }
        ensures waits { result ≢ Some Next.Wait }
        ensures moves { result ≢ Some Next.HeldBack }
    {
        self.connection.has_ended = true;
        if self.connection.has_rest() {
            served.log_refused_line(self.connection.side().door(), LineRefusal::BadLine);
            return match self.connection.refuse_rest() {
                Ok(()) => None,
                Err(_) => Some(Next::Close),
            };
        }
        Some(self.progress.part(ticks))
    }

    /// What the peer is at, and since when: the hall asks whether that takes too long.
    pub fn patience(&self) -> Patience
        ensures { result ≡ patience_of self.now }
    {
        self.progress.patience
    }

    /// Whether answers wait to go.
    pub fn has_output(&self) -> bool
        ensures { result ≡ nat_lt 0 (length (output_of (lines_of self.now))) }
    {
        self.connection.wants_write()
    }

    /// Whether the peer has to send something next: no answer waits to go, and no line waits for
    /// memory.
    pub fn has_to_send(&self) -> bool
        ensures { IsTrue result ↔ HasToSend self.now }
    {
        !self.has_output() && !self.progress.patience.is_held_back()
    }

    /// How many bytes wait: those that came, and those that are to go.
    pub fn bytes_held(&self) -> usize
        ensures { result ≡ bytes_held (lines_of self.now) }
    {
        self.connection.bytes_held()
    }
}
