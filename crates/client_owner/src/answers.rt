//! Reads the answers of a queue, and makes the text that is printed of each.
ghost use Rattle.std.specs.Prelude.{◌≡◌, ◌++◌, ℕ, List, Some, IfOk, codes, option_map};
ghost use Rattle.ipp_coding.specs.Plain.{plain_message};
ghost use Rattle.client_owner.specs.Answers.{is_success, job_made, reason};
ghost use Rattle.client_owner.specs.Outcomes.{IsDone, Tells, TellsIpp, TellsMessage};

use crate::asked::Asked;
use crate::attributes::{number_named, text_named};
use crate::exchange::Answer;
use crate::jobs::table_of;
use crate::printed::{http_line, job_text};
use account_asks::{job_group, operation_group};
use client_lines::{ClientFault, is_text};
use ipp_coding::{Message, ReadFault, read_message};
use std::alloc::Global;

/// Whether the queue did what it was asked, and the text that is printed of its answer.
#[derive(Drop)]
pub(crate) struct Told {
    pub(crate) done: bool,
    pub(crate) text: Vec<u8>,
}

/// Reads an answer that came at the moment now (seconds since 1970-01-01T00:00:00Z), and makes the
/// text that is printed of it. `Broken` where it is no answer to what was asked.
pub(crate) fn read_answer(
    alloc: Global,
    uri: &[u8],
    asked: &Asked<'_>,
    now: u64,
    answer: &Answer,
) -> Result<Told, ClientFault>
    ensures { IfOk result (λ told. Tells uri.now asked.now now answer.now.status
        answer.now.body.items told.done told.text.items) }
{
    if answer.status != 200 {
        let text = http_line(alloc, answer.status)?;
        return Ok(Told { done: false, text });
    }
    told_by_ipp(alloc, uri, asked, now, answer.body.as_slice())
}

/// Reads the body of an answer with status 200, which has to be an IPP message.
fn told_by_ipp(
    alloc: Global,
    uri: &[u8],
    asked: &Asked<'_>,
    now: u64,
    body: &[u8],
) -> Result<Told, ClientFault>
    ensures { IfOk result
        (λ told. TellsIpp uri.now asked.now now body.now told.done told.text.items) }
{
    match read_message(alloc, body) {
        Ok(message) => told_by_message(alloc, uri, asked, now, &message),
        Err(ReadFault::Malformed) => Err(ClientFault::Broken),
        Err(ReadFault::Memory) => Err(ClientFault::Memory),
    }
}

/// Makes the text for an IPP message: of what was done, or why it was refused. `Broken` where the
/// message lacks what that takes: the number of the new job, or a status-message that can be
/// printed.
fn told_by_message(
    alloc: Global,
    uri: &[u8],
    asked: &Asked<'_>,
    now: u64,
    message: &Message<'_>,
) -> Result<Told, ClientFault>
    ensures { IfOk result (λ told. TellsMessage uri.now asked.now now (plain_message message.now)
        told.done told.text.items) }
{
    if is_success(message.code) {
        let text = done_text(alloc, uri, asked, now, message)?;
        return Ok(Told { done: true, text });
    }
    let text = reason_line(alloc, message)?;
    Ok(Told { done: false, text })
}

/// Whether the status-code of an IPP message is one of success: below 0x0100.
fn is_success(code: u16) -> bool
    ensures { result ≡ is_success code }
{
    code < 0x0100
}

/// Makes the text for what was done: the new job, the table of jobs, or `ok`.
fn done_text(
    alloc: Global,
    uri: &[u8],
    asked: &Asked<'_>,
    now: u64,
    message: &Message<'_>,
) -> Result<Vec<u8>, ClientFault>
    ensures { IfOk result
        (λ text. IsDone uri.now asked.now now (plain_message message.now) text.items) }
{
    match asked {
        Asked::Print(job) => match job_made(message) {
            Some(number) => job_text(alloc, uri, number, job),
            None => Err(ClientFault::Broken),
        },
        Asked::Jobs => table_of(alloc, message.groups.as_slice(), now),
        Asked::Act { .. } => Ok(Vec::from_slice(alloc, b"ok\n")?),
    }
}

/// Gives the number of the job that was made.
fn job_made(message: &Message<'_>) -> Option<u32>
    ensures { result ≡ job_made (plain_message message.now) }
{
    number_named(job_group(message.groups.as_slice())?, b"job-id")
}

/// Makes the line that tells why what was asked was refused.
fn reason_line(alloc: Global, message: &Message<'_>) -> Result<Vec<u8>, ClientFault>
    ensures { IfOk result (λ text. (word : List ℕ)
        × (reason (plain_message message.now) ≡ Some word) × (text.items ≡ word ++ codes "\n")) }
{
    let Some(word) = reason(message) else {
        return Err(ClientFault::Broken);
    };
    let mut text = Vec::from_slice(alloc, word)?;
    text.push(b'\n')?;
    Ok(text)
}

/// Gives the word that tells why what was asked was refused: the message's status-message. `None`
/// where that may not be printed.
fn reason<'a>(message: &Message<'a>) -> Option<&'a [u8]>
    ensures { option_map (λ word. word.now) result ≡ reason (plain_message message.now) }
{
    let group = operation_group(message.groups.as_slice())?;
    let word = text_named(group, b"status-message")?;
    if is_text(word) { Some(word) } else { None }
}
