//! The commands `ping`, `end`, `report`, `waiting`, `expire` and `refund`, which ask an operator's
//! address.

use crate::connected::{BUFFER, at_path, at_port};
use cli_words::{Address, Errand, Fault};
use client_lines::Peer;
use client_operator::{Bar, perform};
use std::io::{BufReader, BufWriter, IsTerminal, Read, Write};

/// Connects to the command's address, asks what the command asks for, and prints the answer.
/// Standard error shows how far it has come, where that is a terminal. `now` is the clock's moment,
/// or `None` where it has none to give: then the fault is `Io`.
pub fn run_errand<O: Write>(
    rt: &HostRuntime,
    now: Option<u64>,
    asked: &Errand<'_>,
    output: &mut O,
) -> Result<(), Fault> {
    match asked.address {
        Address::Port(port) => {
            let stream = at_port(rt, port)?;
            perform_over_stream(rt, now, asked, &stream, &stream, output)
        }
        Address::Path(path) => {
            let stream = at_path(rt, path)?;
            perform_over_stream(rt, now, asked, &stream, &stream, output)
        }
    }
}

/// Does the errand over a stream that is connected: asks, prints the answer, and shows how far it
/// has come. `Refused` where not all was done.
fn perform_over_stream<R: Read + Drop, W: Write + Drop, O: Write>(
    rt: &HostRuntime,
    now: Option<u64>,
    asked: &Errand<'_>,
    reader: R,
    writer: W,
    output: &mut O,
) -> Result<(), Fault> {
    let alloc = rt.alloc();
    let now = now.ok_or(Fault::Io)?;
    let reader = BufReader::with_capacity(alloc, BUFFER, reader)?;
    let writer = BufWriter::with_capacity(alloc, BUFFER, writer)?;
    let mut peer = Peer::new(reader, writer);
    let errors = rt.stderr();
    let terminal = if errors.is_terminal() {
        Some(errors)
    } else {
        None
    };
    let mut bar = Bar::new(terminal);
    judge_done(perform(alloc, &mut peer, &asked.task, now, &mut bar, output)?)
}

/// Ends a command by what it answers: well where all was `done`, and else with `Refused`.
pub(crate) fn judge_done(done: bool) -> Result<(), Fault> {
    if done {
        return Ok(());
    }
    Err(Fault::Refused)
}
