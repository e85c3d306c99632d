//! A peer that is told one last thing, and then ends: its round's commit failed, or its request is
//! too long for the space that is left.

ghost use Rattle.std.specs.Prelude.{◌≡◌, ◌≢◌, [], length, false, IfOk, OnErr, Some};
ghost use Rattle.std.specs.Io.KnownBytes.{Keeps};
ghost use Rattle.serve_peers.specs.Journals.{shares_of};

use crate::last_text::put_last;
use crate::patience::Patience;
use crate::progress::Progress;
use crate::step::{Next, STEPS, Turn, after, drain};
use crate::{Entry, Served};
use bytes::{Buf, BufMut};
use http_server::Rope;
use input_http::{Refusal, refusal_text};
use sqlite::Alter;
use std::alloc::Global;
use std::io;
use std::io::{Read, Write};

/// A peer that only writes what waits, and ends, whatever it spoke. It can ask nothing more: no
/// turn of it is given what is served.
pub struct LastPeer {
    output: Rope,
    progress: Progress,
}

// By hand, in the place of `#[derive(Drop)]`: the head of lib.rt says why.
impl Drop for LastPeer {
    fn drop(self) {
        let LastPeer {
            output: _,
            progress: _,
        } = self;
    }
}

impl LastPeer {
    ghost use Rattle.serve_peers.specs.LastPeers.{IsToldAgain, IsToldRefusal, Leaves, SaysLast, Sends, left_of, patience_of};

    /// Applies again, in a round of its own, what the peer asked in a round whose commit failed.
    /// The peer is told last what that came to, or nothing where there is no memory for the text.
    pub fn told_again<S: Alter>(
        alloc: Global,
        asked: &Entry,
        served: &mut Served<S>,
        ticks: u64,
    ) -> LastPeer
        requires { shares_of served.old ≡ false }
        ensures { IsToldAgain S.Store asked.now result served.old served.new }
    {
        let told = served.apply_in_own_round(asked);
        let mut output = Rope::new(alloc);
        if put_last(alloc, &mut output, asked, told).is_err() {
            output.clear();
        }
        LastPeer {
            output,
            progress: Progress::new(ticks),
        }
    }

    /// Refuses a peer's request before it is whole. The peer is told the refusal last, or nothing
    /// where there is no memory for the text.
    pub fn refused(alloc: Global, refusal: Refusal, ticks: u64) -> LastPeer
        ensures { IsToldRefusal refusal result }
    {
        let mut output = Rope::new(alloc);
        if output.put_slice(&refusal_text(refusal)).is_err() {
            output.clear();
        }
        LastPeer {
            output,
            progress: Progress::new(ticks),
        }
    }

    /// Writes as far as it goes now, but a few steps at most. What comes is read only once all has
    /// gone, and dropped.
    pub fn drive<R: Read, W: Write>(&mut self, reader: &mut R, writer: &mut W, turn: Turn) -> Next
        ensures says { SaysLast (R.remaining reader.old, W.contents writer.old)
            (R.remaining reader.new, W.contents writer.new) self.old self.new }
        ensures rests { result ≡ Next.Wait → left_of self.new ≢ [] }
        ensures holds { result ≢ Next.HeldBack }
    {
        if self.progress.parts {
            return drain(reader);
        }
        for _ in 0..STEPS {
            if let Some(next) = self.step(writer, turn.ticks) {
                return next;
            }
        }
        Next::Again
    }

    /// One write. Answers what to wait for, where it can't go on.
    fn step<W: Write>(&mut self, writer: &mut W, ticks: u64) -> Option<Next>
        ensures sends { Sends (W.contents writer.old) (W.contents writer.new) self.old self.new }
        ensures waits { result ≡ Some Next.Wait → left_of self.new ≢ [] }
        ensures moves { result ≢ Some Next.HeldBack }
    {
        if self.output.is_empty() {
            return Some(self.progress.part(ticks));
        }
        match self.write_to(writer) {
            Ok(0) => Some(Next::Close),
            Ok(count) => {
                self.progress.patience.moved(count, ticks);
                None
            }
            Err(error) => after(&error),
        }
    }

    /// Writes once, and drops from what waits what has gone.
    fn write_to<W: Write>(&mut self, writer: &mut W) -> io::Result<usize>
        ensures went { IfOk result
            (Leaves (W.contents writer.old) (W.contents writer.new) self.old self.new) }
        ensures nothing { OnErr result (self.new ≡ self.old) }
        ensures kept { OnErr result (Keeps (W.contents writer.old) (W.contents writer.new)) }
    {
        let count = writer.write(self.output.chunk())?;
        self.output.advance(count);
        Ok(count)
    }

    /// What the peer is at, and since when: the hall asks whether that takes too long.
    pub fn patience(&self) -> Patience
        ensures { result ≡ patience_of self.now }
    {
        self.progress.patience
    }

    /// How many bytes are still to go.
    pub fn bytes_held(&self) -> usize
        ensures { result ≡ length (left_of self.now) }
    {
        self.output.len()
    }
}
