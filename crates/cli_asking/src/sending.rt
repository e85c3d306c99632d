//! The command `send`: the lines or the grants of standard input go to a running process on this
//! machine.

use crate::connected::{BUFFER, at_path, at_port};
use crate::folder::Folder;
use cli_words::{Address, Fault, Sending};
use client_lines::{HexLines, Outcome, Peer, Worst, ask_line, send_grants, send_lines};
use input_fields::Counted;
use std::io::{BufRead, BufReader, BufWriter, Read, Write};
use std::{fs, io};

/// Sends standard input to the command's address, and prints the answers. A folder for documents
/// has to be there before anything is sent. How many lines were refused goes to standard error.
pub fn send<O: Write>(rt: &HostRuntime, asked: &Sending<'_>, output: &mut O) -> Result<(), Fault> {
    if let Some(folder) = asked.folder {
        if !fs::metadata(rt, folder)?.is_dir() {
            return Err(Fault::Io);
        }
    }
    let outcome = match asked.address {
        Address::Port(port) => {
            let stream = at_port(rt, port)?;
            send_over_stream(rt, asked, &stream, &stream, output)?
        }
        Address::Path(path) => {
            let stream = at_path(rt, path)?;
            send_over_stream(rt, asked, &stream, &stream, output)?
        }
    };
    tell_refused(&outcome, &mut rt.stderr())?;
    ended(outcome)
}

/// Sends standard input over a stream that is connected. Where it has no line, it sends `ping`, so
/// that a process that does not answer is noticed.
fn send_over_stream<R: Read + Drop, W: Write + Drop, O: Write>(
    rt: &HostRuntime,
    asked: &Sending<'_>,
    reader: R,
    writer: W,
    output: &mut O,
) -> Result<Outcome, Fault> {
    let alloc = rt.alloc();
    let reader = BufReader::with_capacity(alloc, BUFFER, reader)?;
    let writer = BufWriter::with_capacity(alloc, BUFFER, writer)?;
    let mut peer = Peer::new(reader, writer);
    let outcome = send_input(rt, asked, &mut peer, output)?;
    if outcome.lines == 0 {
        // Nothing was asked, so whether the process answers is not known yet.
        ask_line(alloc, &mut peer, b"ping")?;
    }
    Ok(outcome)
}

/// Sends standard input as a file of grants or as lines, and prints the answers: documents as files
/// of the folder, or in hexadecimal digits.
fn send_input<R: BufRead, W: Write, O: Write>(
    rt: &HostRuntime,
    asked: &Sending<'_>,
    peer: &mut Peer<R, W>,
    output: &mut O,
) -> Result<Outcome, Fault> {
    let alloc = rt.alloc();
    if asked.grants {
        return Ok(send_grants(alloc, &mut Counted::new(rt.stdin()), peer, output)?);
    }
    let mut input = BufReader::new(alloc, rt.stdin())?;
    match asked.folder {
        Some(folder) => {
            let mut keeper = Folder { rt, folder };
            Ok(send_lines(alloc, &mut input, peer, &mut keeper, output)?)
        }
        None => Ok(send_lines(alloc, &mut input, peer, &mut HexLines, output)?),
    }
}

/// Tells how many lines or records were refused, if any was.
fn tell_refused<E: Write>(outcome: &Outcome, errors: &mut E) -> io::Result<()> {
    let Outcome { lines, refused, .. } = *outcome;
    if refused == 0 {
        return Ok(());
    }
    writeln!(errors, "{refused} of {lines} refused")
}

/// Ends the command by the worst that was answered: `Store` where the process failed, the number of
/// the first bad line, or `Refused`.
fn ended(outcome: Outcome) -> Result<(), Fault> {
    match outcome.worst {
        Worst::Failed => Err(Fault::Store),
        Worst::BadLine(number) => Err(Fault::Line(number)),
        Worst::Fine if 0 < outcome.refused => Err(Fault::Refused),
        Worst::Fine => Ok(()),
    }
}
