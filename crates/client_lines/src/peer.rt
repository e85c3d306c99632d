//! A connection to a server process: a line goes there, and its answer comes back.
ghost use Rattle.std.specs.Prelude.{◌≡◌, ◌≢◌, ◌++◌, [], codes, length, IfErr, IfOk, IsTrue, OnOk};
ghost use Rattle.std.specs.Io.KnownBytes.{Appends, Consumes};
ghost use Rattle.client_lines.specs.Answers.{is_text};
ghost use Rattle.client_lines.specs.Sending.{AppendsUpTo, IsAtKnownEnd};

use crate::answer::is_text;
use crate::bytes::{take_bytes, take_feed};
use crate::fault::ClientFault;
use crate::line::{Taken, take_line};
use crate::sent::put;
use std::alloc::Global;
use std::io::{BufRead, Write};

/// A connection to a server process: one end to read from, one to write to.
#[derive(Drop)]
pub struct Peer<R, W> {
    reader: R,
    writer: W,
}

impl<R: BufRead, W: Write> Peer<R, W> {
    ghost use Rattle.client_lines.specs.Peers.{reader_of, writer_of};

    /// Takes the two ends of a connection, over which nothing was sent yet.
    pub fn new(reader: R, writer: W) -> Peer<R, W>
        ensures reader { reader_of result ≡ reader }
        ensures writer { writer_of result ≡ writer }
    {
        Peer { reader, writer }
    }

    /// Sends a line, with the line feed that ends it.
    pub(crate) fn say(&mut self, line: &[u8]) -> Result<(), ClientFault>
        ensures sent { OnOk result (Appends (W.contents self.old.writer)
            (W.contents self.new.writer) (line.now ++ codes "\n")) }
        ensures front { AppendsUpTo (W.contents self.old.writer) (W.contents self.new.writer)
            (line.now ++ codes "\n") }
        ensures reader { self.new.reader ≡ self.old.reader }
        ensures fault { IfErr result (λ fault. fault ≢ ClientFault.TooLong) }
    {
        put(&mut self.writer, line)?;
        put(&mut self.writer, b"\n")?;
        Ok(self.writer.flush()?)
    }

    /// Takes the next line, without the line feed that ends it. `Broken` where the connection ends
    /// before, or the line is too long or may not be printed. No more is read of one that is too
    /// long.
    pub(crate) fn hear(&mut self, alloc: Global) -> Result<Vec<u8>, ClientFault>
        ensures line { IfOk result (λ line. Consumes (R.remaining self.old.reader)
            (R.remaining self.new.reader) (line.items ++ codes "\n")) }
        ensures text { IfOk result (λ line. IsTrue (is_text line.items)) }
        ensures writer { self.new.writer ≡ self.old.writer }
        ensures fault { IfErr result (λ fault. fault ≢ ClientFault.TooLong) }
    {
        match take_line(alloc, &mut self.reader)? {
            Taken::Line(line) => text_of(line),
            Taken::Last(_) | Taken::Long => Err(ClientFault::Broken),
        }
    }

    /// Takes the next bytes, so many, and the line feed that has to follow. Memory is taken as they
    /// come.
    pub(crate) fn hear_bytes(&mut self, alloc: Global, count: u32) -> Result<Vec<u8>, ClientFault>
        ensures bytes { IfOk result (λ bytes. Consumes (R.remaining self.old.reader)
            (R.remaining self.new.reader) (bytes.items ++ codes "\n")) }
        ensures count { IfOk result (λ bytes. length bytes.items ≡ count) }
        ensures writer { self.new.writer ≡ self.old.writer }
        ensures fault { IfErr result (λ fault. fault ≢ ClientFault.TooLong) }
    {
        let bytes = take_bytes(alloc, &mut self.reader, count as usize)?;
        take_feed(&mut self.reader)?;
        Ok(bytes)
    }

    /// Waits until the other side closes the connection. `Broken` where anything comes before.
    pub fn hear_end(&mut self, alloc: Global) -> Result<(), ClientFault>
        ensures nothing { OnOk result (Consumes (R.remaining (reader_of self.old))
            (R.remaining (reader_of self.new)) []) }
        ensures end { OnOk result (IsAtKnownEnd (R.remaining (reader_of self.old))
            (R.remaining (reader_of self.new))) }
        ensures writer { writer_of self.new ≡ writer_of self.old }
    {
        match take_line(alloc, &mut self.reader)? {
            Taken::Last(rest) => be_empty(rest),
            Taken::Line(_) | Taken::Long => Err(ClientFault::Broken),
        }
    }
}

/// Checks that nothing came before the connection was closed.
fn be_empty(rest: Vec<u8>) -> Result<(), ClientFault>
    ensures { OnOk result (rest.items ≡ []) }
{
    if rest.is_empty() {
        return Ok(());
    }
    Err(ClientFault::Broken)
}

/// Checks that a line may be printed, and gives it back.
fn text_of(line: Vec<u8>) -> Result<Vec<u8>, ClientFault>
    ensures same { IfOk result (λ text. text ≡ line) }
    ensures text { IfOk result (λ text. IsTrue (is_text text.items)) }
    ensures fault { IfErr result (λ fault. fault ≢ ClientFault.TooLong) }
{
    if is_text(line.as_slice()) {
        return Ok(line);
    }
    Err(ClientFault::Broken)
}
