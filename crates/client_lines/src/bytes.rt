//! Takes a known number of bytes of a reader, for a document that comes in an answer.

ghost use Rattle.std.specs.Prelude.{◌≡◌, ◌≢◌, ◌+◌, ◌≤◌, IfErr, IfOk, OnOk, codes, length};
ghost use Rattle.std.specs.Io.KnownBytes.{Consumes};
ghost use Rattle.client_lines.specs.ProofTaking.{TakesMore};

use crate::fault::ClientFault;
use std::alloc::Global;
use std::io::{ErrorKind, Read};

/// The most bytes that are taken at once.
const PIECE: usize = 4096;

/// Takes the next bytes of a reader, so many. Memory is taken as they come, not for all at once.
pub(crate) fn take_bytes<R: Read>(
    alloc: Global,
    reader: &mut R,
    count: usize,
) -> Result<Vec<u8>, ClientFault>
    ensures bytes { IfOk result
        (λ bytes. Consumes (R.remaining reader.old) (R.remaining reader.new) bytes.items) }
    ensures count { IfOk result (λ bytes. length bytes.items ≡ count) }
    ensures fault { IfErr result (λ fault. fault ≢ ClientFault.TooLong) }
{
    let mut bytes = Vec::new(alloc);
    while bytes.len() < count {
        let room = (count - bytes.len()).min(PIECE);
        add_bytes(reader, room, &mut bytes)?;
    }
    Ok(bytes)
}

/// Takes the next bytes, as many as there is `room`, and adds them.
fn add_bytes<R: Read>(reader: &mut R, room: usize, bytes: &mut Vec<u8>) -> Result<(), ClientFault>
    requires { room ≤ PIECE }
    ensures added { OnOk result (TakesMore (R.remaining reader.old) (R.remaining reader.new)
        bytes.old.items bytes.new.items) }
    ensures count { OnOk result (length bytes.new.items ≡ length bytes.old.items + room) }
    ensures fault { IfErr result (λ fault. fault ≢ ClientFault.TooLong) }
{
    let mut piece = [0; PIECE];
    let front = &mut piece[..room];
    fill(reader, front)?;
    Ok(bytes.extend_from_slice(front)?)
}

/// Takes the line feed that has to come next. `Broken` where another byte comes.
pub(crate) fn take_feed<R: Read>(reader: &mut R) -> Result<(), ClientFault>
    ensures feed { OnOk result
        (Consumes (R.remaining reader.old) (R.remaining reader.new) (codes "\n")) }
    ensures fault { IfErr result (λ fault. fault ≢ ClientFault.TooLong) }
{
    let mut feed = [0];
    fill(reader, &mut feed)?;
    if feed[0] == b'\n' {
        return Ok(());
    }
    Err(ClientFault::Broken)
}

/// Fills the buffer with the next bytes. `Broken` where the reader ends before.
fn fill<R: Read>(reader: &mut R, buffer: &mut [u8]) -> Result<(), ClientFault>
    ensures filled { OnOk result
        (Consumes (R.remaining reader.old) (R.remaining reader.new) buffer.new) }
    ensures fault { IfErr result (λ fault. fault ≢ ClientFault.TooLong) }
{
    match reader.read_exact(buffer) {
        Ok(()) => Ok(()),
        Err(error) if error.kind() == ErrorKind::UnexpectedEof => Err(ClientFault::Broken),
        Err(error) => Err(ClientFault::from(error)),
    }
}
