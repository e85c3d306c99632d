//! The command `end`: asks a process to end, and waits until it has closed the connection.
ghost use Rattle.std.specs.Prelude.{OnOk};
ghost use Rattle.client_operator.specs.Talks.{EndsProcess, at};

use crate::ping::tell;
use client_lines::{ClientFault, Peer};
use std::alloc::Global;
use std::io::{BufRead, Write};

/// Sends `end`, prints its answer, and waits until the process closes the connection. `Refused`
/// where the answer is not `ok`, `Broken` where anything comes behind it.
pub(crate) fn end<R: BufRead, W: Write, O: Write>(
    alloc: Global,
    peer: &mut Peer<R, W>,
    output: &mut O,
) -> Result<(), ClientFault>
    ensures { OnOk result (EndsProcess
        (at W.contents R.remaining O.contents peer.old output.old)
        (at W.contents R.remaining O.contents peer.new output.new)) }
{
    tell(alloc, peer, b"end", output)?;
    peer.hear_end(alloc)
}
