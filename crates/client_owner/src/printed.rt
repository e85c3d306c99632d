//! The texts that are printed of a job that was made, and of a refusal by HTTP.
ghost use Rattle.std.specs.Prelude.{◌≡◌, ◌++◌, IfOk, OnOk, decimal, is_some, false, true};
ghost use Rattle.client_owner.specs.Outcomes.{http_line, job_text, status_words, what_is_left};

use crate::new_job::NewJob;
use client_lines::ClientFault;
use itoa::Buffer;
use std::alloc::Global;

/// Makes the text for a job that was made: its number, and how its owner can release it.
pub(crate) fn job_text(
    alloc: Global,
    uri: &[u8],
    number: u32,
    job: &NewJob<'_>,
) -> Result<Vec<u8>, ClientFault>
    ensures { IfOk result (λ text. text.items ≡ job_text uri.now number
        (is_some job.now.password) (is_some job.now.impressions)) }
{
    let mut text = Vec::new(alloc);
    text.extend_from_slice(b"job ")?;
    put_number(&mut text, number)?;
    text.push(b'\n')?;
    put_left(&mut text, uri, number, job)?;
    text.push(b'\n')?;
    Ok(text)
}

/// Appends a number in decimal.
fn put_number(text: &mut Vec<u8>, number: u32) -> Result<(), ClientFault>
    ensures { OnOk result (text.new.items ≡ text.old.items ++ decimal number) }
{
    let mut digits = Buffer::new();
    Ok(text.extend_from_slice(digits.format(number).as_bytes())?)
}

/// Appends how the owner can release the job: at a station, with what is to be told there, or by a
/// command too.
fn put_left(
    text: &mut Vec<u8>,
    uri: &[u8],
    number: u32,
    job: &NewJob<'_>,
) -> Result<(), ClientFault>
    ensures { OnOk result (text.new.items ≡ text.old.items ++ what_is_left uri.now number
        (is_some job.now.password) (is_some job.now.impressions)) }
{
    let left = match (job.password.is_some(), job.impressions.is_some()) {
        (false, true) => return put_release(text, uri, number),
        (false, false) => "Release it at a station, and tell there how many pages it has.",
        (true, true) => "Release it at a station, with its PIN.",
        (true, false) => {
            "Release it at a station, with its PIN, and tell there how many pages it has."
        }
    };
    Ok(text.extend_from_slice(left.as_bytes())?)
}

/// Appends that the job can be released at a station or by a command, and by which.
fn put_release(text: &mut Vec<u8>, uri: &[u8], number: u32) -> Result<(), ClientFault>
    ensures { OnOk result (text.new.items
        ≡ text.old.items ++ what_is_left uri.now number false true) }
{
    text.extend_from_slice(b"Release it at a station, or: ipp-room release ")?;
    text.extend_from_slice(uri)?;
    text.push(b' ')?;
    put_number(text, number)
}

/// Makes the line for an answer of HTTP that is none of IPP: its status, and what that means.
pub(crate) fn http_line(alloc: Global, status: u16) -> Result<Vec<u8>, ClientFault>
    ensures { IfOk result (λ text. text.items ≡ http_line status) }
{
    let mut text = Vec::new(alloc);
    text.extend_from_slice(b"HTTP ")?;
    put_number(&mut text, u32::from(status))?;
    text.extend_from_slice(status_words(status).as_bytes())?;
    text.push(b'\n')?;
    Ok(text)
}

/// Gives what a status of HTTP means to an owner, if it is one that a queue answers.
fn status_words(status: u16) -> &'static str
    ensures { result.now ≡ status_words status }
{
    match status {
        404 => ": no such account",
        413 => ": too large",
        503 => ": no space now",
        _ => "",
    }
}
