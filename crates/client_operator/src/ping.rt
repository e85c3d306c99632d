//! `ping`, which asks whether a process answers; and `tell`, for all that is one line and its
//! answer.
ghost use Rattle.std.specs.Prelude.{OnOk, codes};
ghost use Rattle.client_operator.specs.Talks.{GetsDone, at};

use crate::printed::print_line;
use client_lines::{ClientFault, Peer, ask_line, judge};
use std::alloc::Global;
use std::io::{BufRead, Write};

/// Sends `ping`, and prints its answer. `Refused` where that is not `ok`.
pub(crate) fn ping<R: BufRead, W: Write, O: Write>(
    alloc: Global,
    peer: &mut Peer<R, W>,
    output: &mut O,
) -> Result<(), ClientFault>
    ensures { OnOk result (GetsDone
        (at W.contents R.remaining O.contents peer.old output.old)
        (at W.contents R.remaining O.contents peer.new output.new) (codes "ping")) }
{
    tell(alloc, peer, b"ping", output)
}

/// Sends a line, and prints its answer. `Refused` where that is not `ok`.
pub(crate) fn tell<R: BufRead, W: Write, O: Write>(
    alloc: Global,
    peer: &mut Peer<R, W>,
    line: &[u8],
    output: &mut O,
) -> Result<(), ClientFault>
    ensures { OnOk result (GetsDone
        (at W.contents R.remaining O.contents peer.old output.old)
        (at W.contents R.remaining O.contents peer.new output.new) line.now) }
{
    let told = ask_line(alloc, peer, line)?;
    print_line(told.as_slice(), output)?;
    judge(told.as_slice())
}
