//! The commands `print`, `jobs`, `cancel`, `hold` and `release`, which ask the queue of an account.

use crate::connected::{BUFFER, to_host};
use crate::errands::judge_done;
use account_rules::LONGEST_DOCUMENT;
use cli_words::{Fault, OwnerErrand, OwnerTask, Printing};
use client_owner::{Asked, NewJob, Queue, format_of, perform, read_pin};
use input_fields::{Counted, StreamFault, read_whole};
use std::fs::File;
use std::io::{BufReader, BufWriter, IsTerminal, Write};

/// Asks the queue what the command asks for, and prints the answer. The document and the PIN are
/// read before it connects. `now` is the clock's moment, or `None` where it has none to give.
pub fn run_owner_errand<O: Write>(
    rt: &HostRuntime,
    now: Option<u64>,
    asked: &OwnerErrand<'_>,
    output: &mut O,
) -> Result<(), Fault> {
    match &asked.task {
        OwnerTask::Print(printing) => print(rt, now, &asked.queue, printing, output),
        OwnerTask::Jobs => ask(rt, now, &asked.queue, &Asked::Jobs, output),
        OwnerTask::Act { act, job } => {
            let wish = Asked::Act {
                act: *act,
                job: *job,
            };
            ask(rt, now, &asked.queue, &wish, output)
        }
    }
}

/// Reads the document, and the PIN if there is to be one, and asks the queue to print it.
fn print<O: Write>(
    rt: &HostRuntime,
    now: Option<u64>,
    queue: &Queue<'_>,
    printing: &Printing<'_>,
    output: &mut O,
) -> Result<(), Fault> {
    let document = document_in(rt, printing.file)?;
    let pin = pin_for(rt, printing.has_pin)?;
    let password = pin.as_ref().map(|word| word.as_slice());
    let job = new_job(
        printing.name,
        printing.copies,
        printing.pages,
        password,
        document.as_slice(),
    );
    ask(rt, now, queue, &Asked::Print(job), output)
}

/// The job that is asked for, of the format that the document's first bytes tell.
fn new_job<'a>(
    name: &'a [u8],
    copies: u32,
    impressions: Option<u32>,
    password: Option<&'a [u8]>,
    document: &'a [u8],
) -> NewJob<'a> {
    NewJob {
        name,
        copies,
        impressions,
        password,
        format: format_of(document),
        document,
    }
}

/// Reads the whole file. `Document` where it is longer than a document may be.
fn document_in(rt: &HostRuntime, file: &str) -> Result<Vec<u8>, Fault> {
    let file = File::open(rt, file)?;
    match read_whole(rt.alloc(), &mut Counted::new(file), LONGEST_DOCUMENT) {
        Ok(document) => Ok(document),
        Err(StreamFault::TooLong) => Err(Fault::Document),
        Err(fault) => Err(Fault::from(fault)),
    }
}

/// Reads the PIN from standard input, where there is to be one. Where standard error is a terminal
/// it prompts for it there.
fn pin_for(rt: &HostRuntime, has_pin: bool) -> Result<Option<Vec<u8>>, Fault> {
    if !has_pin {
        return Ok(None);
    }
    let mut errors = rt.stderr();
    if errors.is_terminal() {
        write!(errors, "PIN: ")?;
    }
    match read_pin(rt.alloc(), BufReader::new(rt.alloc(), rt.stdin())?)? {
        Some(pin) => Ok(Some(pin)),
        None => Err(Fault::Pin),
    }
}

/// Asks a queue over a connection of its own.
fn ask<O: Write>(
    rt: &HostRuntime,
    now: Option<u64>,
    queue: &Queue<'_>,
    asked: &Asked<'_>,
    output: &mut O,
) -> Result<(), Fault> {
    let now = now.ok_or(Fault::Io)?;
    let stream = to_host(rt, queue.address, queue.port)?;
    let mut reader = BufReader::with_capacity(rt.alloc(), BUFFER, &stream)?;
    let mut writer = BufWriter::with_capacity(rt.alloc(), BUFFER, &stream)?;
    let done = perform(
        rt.alloc(),
        queue,
        asked,
        now,
        &mut reader,
        &mut writer,
        output,
    )?;
    judge_done(done)
}
