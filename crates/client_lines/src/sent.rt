//! Writes bytes to a connection, all of them or up to where that fails.

ghost use Rattle.std.specs.Prelude.{◌≡◌, ◌≢◌, ◌≤◌, [], IfErr, IfOk, OnOk, OnErr, length, take};
ghost use Rattle.std.specs.Io.KnownBytes.{Appends};
ghost use Rattle.client_lines.specs.Sending.{AppendsUpTo};

use crate::fault::ClientFault;
use std::io;
use std::io::{ErrorKind, Write};

/// Writes all bytes, or a front of them where that fails. A call that a signal interrupts is made
/// again.
pub(crate) fn put<W: Write>(writer: &mut W, bytes: &[u8]) -> Result<(), ClientFault>
    ensures whole { OnOk result
        (Appends (W.contents writer.old) (W.contents writer.new) bytes.now) }
    ensures front { AppendsUpTo (W.contents writer.old) (W.contents writer.new) bytes.now }
    ensures fault { IfErr result (λ fault. fault ≢ ClientFault.TooLong) }
{
    let mut rest = bytes;
    for _ in 0..u64::MAX {
        if rest.is_empty() {
            return Ok(());
        }
        let count = put_front(writer, rest)?;
        rest = &rest[count..];
    }
    Err(ClientFault::Io)
}

/// Writes a front of the bytes, by one call, and gives how many they are.
fn put_front<W: Write>(writer: &mut W, bytes: &[u8]) -> Result<usize, ClientFault>
    ensures bound { IfOk result (λ count. count ≤ length bytes.now) }
    ensures front { IfOk result (λ count. Appends (W.contents writer.old) (W.contents writer.new)
        (take count bytes.now)) }
    ensures nothing { OnErr result (Appends (W.contents writer.old) (W.contents writer.new) []) }
    ensures fault { IfErr result (λ fault. fault ≢ ClientFault.TooLong) }
{
    match writer.write(bytes) {
        Ok(0) => Err(ClientFault::Io),
        Ok(count) => Ok(count),
        Err(error) => none_put(error),
    }
}

/// Gives 0 where a signal interrupted the call, so that it is made again. Any other error is the
/// fault.
fn none_put(error: io::Error) -> Result<usize, ClientFault>
    ensures none { IfOk result (λ count. count ≡ 0) }
    ensures fault { IfErr result (λ fault. fault ≢ ClientFault.TooLong) }
{
    if error.kind() == ErrorKind::Interrupted {
        return Ok(0);
    }
    Err(ClientFault::from(error))
}
