//! What an owner asks of a queue (to print, which jobs there are, acts on a job), and the asking.
ghost use Rattle.std.specs.Prelude.{IfOk};
ghost use Rattle.client_owner.specs.Outcomes.{Performs, at};

use crate::acts::JobAct;
use crate::answers::read_answer;
use crate::exchange::exchange;
use crate::new_job::NewJob;
use crate::queue::Queue;
use crate::requests::request_text;
use client_lines::ClientFault;
use std::alloc::Global;
use std::io::{Read, Write};

/// What an owner asks of a queue.
#[derive(Clone, Copy)]
pub enum Asked<'a> {
    /// To print a document.
    Print(NewJob<'a>),
    /// Which jobs have not ended.
    Jobs,
    /// To cancel, hold or release a job.
    Act { act: JobAct, job: u32 },
}

/// Asks a queue over a connection to it, at the moment now (seconds since 1970-01-01T00:00:00Z),
/// and prints what the answer tells. Gives `false` where what was asked was refused.
pub fn perform<R: Read, W: Write, O: Write>(
    alloc: Global,
    queue: &Queue<'_>,
    asked: &Asked<'_>,
    now: u64,
    reader: &mut R,
    writer: &mut W,
    output: &mut O,
) -> Result<bool, ClientFault>
    ensures { IfOk result (λ done. Performs queue.now asked.now now done
        (at (W.contents writer.old) (R.remaining reader.old) (O.contents output.old))
        (at (W.contents writer.new) (R.remaining reader.new) (O.contents output.new))) }
{
    let request = request_text(alloc, queue.uri, asked)?;
    let answer = exchange(alloc, reader, writer, queue, request.as_slice())?;
    let told = read_answer(alloc, queue.uri, asked, now, &answer)?;
    output.write_all(told.text.as_slice())?;
    output.flush()?;
    Ok(told.done)
}
