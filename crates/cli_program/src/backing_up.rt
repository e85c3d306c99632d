//! The command `backup`: it connects to an operator's address; `cli_databases` does the rest.
ghost use Rattle.std.specs.Prelude.{◌≤◌, IfOk};

use cli_asking::{BUFFER, Patient, at_path, at_port};
use cli_databases::back_up;
use cli_words::{Address, BackingUp, Fault};
use client_lines::Peer;
use std::io::{BufReader, BufWriter, Read, Write};

/// Connects to the command's address, has the process there back up its database, and answers the
/// exit status. Where that is not 0, standard error has why.
pub(crate) fn run_backup<O: Write>(
    rt: &HostRuntime,
    asked: &BackingUp<'_>,
    output: &mut O,
) -> Result<u8, Fault>
    ensures { IfOk result (λ status. status ≤ 5) }
{
    match asked.address {
        Address::Port(port) => {
            let stream = at_port(rt, port)?;
            back_up_over_stream(rt, asked, &stream, &stream, output)
        }
        Address::Path(path) => {
            let stream = at_path(rt, path)?;
            back_up_over_stream(rt, asked, &stream, &stream, output)
        }
    }
}

/// Does the backup over a stream that is connected, and answers the exit status. Standard error is
/// told meanwhile how much is copied.
fn back_up_over_stream<R: Read + Drop, W: Write + Drop, O: Write>(
    rt: &HostRuntime,
    asked: &BackingUp<'_>,
    reader: R,
    writer: W,
    output: &mut O,
) -> Result<u8, Fault>
    ensures { IfOk result (λ status. status ≤ 5) }
{
    let alloc = rt.alloc();
    let patient = Patient::new(rt, reader, asked.file)?;
    let reader = BufReader::with_capacity(alloc, BUFFER, patient)?;
    let writer = BufWriter::with_capacity(alloc, BUFFER, writer)?;
    let mut peer = Peer::new(reader, writer);
    Ok(back_up(rt, &mut peer, asked, output, &mut rt.stderr()))
}
