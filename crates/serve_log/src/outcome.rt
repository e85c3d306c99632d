//! Writes the end of an event's line in the log: what the event came to.
ghost use Rattle.std.specs.Prelude.{◌≡◌, ◌++◌, OnOk};
ghost use Rattle.serve_log.specs.LogLines.{answer_field, outcome_field, shown, printable_byte, verdict_field};

use crate::digits::put_number;
use crate::ipp::{put_code, success_word};
use account_machine::{Answered, Reply, Verdict, line};
use std::alloc::AllocError;

/// Appends what an event came to: its answer, or `failed` where the store failed.
pub(crate) fn put_outcome<F>(
    output: &mut Vec<u8>,
    told: &Result<Answered, F>,
) -> Result<(), AllocError>
    ensures { OnOk result
        (output.new.items ≡ output.old.items ++ outcome_field told.now) }
{
    match told {
        Ok(answered) => put_answer(output, &answered.reply, answered.verdict),
        Err(_) => output.extend_from_slice(b"failed"),
    }
}

/// Appends what was answered: the line, how many documents, or the status of a response.
fn put_answer(output: &mut Vec<u8>, reply: &Reply, verdict: Verdict) -> Result<(), AllocError>
    ensures { OnOk result
        (output.new.items ≡ output.old.items ++ answer_field reply.now verdict) }
{
    match reply {
        Reply::Line(text) => put_shown(output, text.items.as_slice()),
        Reply::Documents(parts) => {
            output.extend_from_slice(b"documents ")?;
            put_number(output, parts.items.len() as u64)
        }
        Reply::Ipp(_) => put_verdict(output, verdict),
        Reply::NoAccount => output.extend_from_slice(b"no-account"),
        Reply::Short => output.extend_from_slice(b"short"),
    }
}

/// Appends the status-code of a response, and its keyword or the word that tells why it was
/// refused.
fn put_verdict(output: &mut Vec<u8>, verdict: Verdict) -> Result<(), AllocError>
    ensures { OnOk result (output.new.items ≡ output.old.items ++ verdict_field verdict) }
{
    match verdict {
        Verdict::Done { status, .. } => {
            put_code(output, status)?;
            output.extend_from_slice(b" ")?;
            output.extend_from_slice(success_word(status))
        }
        Verdict::Refused { refusal, .. } => {
            put_code(output, refusal.status)?;
            output.extend_from_slice(b" ")?;
            let word = line(*output.allocator(), refusal.word)?;
            output.extend_from_slice(word.items.as_slice())
        }
    }
}

/// Appends a text, with `?` in the place of each byte that is not printable ASCII.
pub(crate) fn put_shown(output: &mut Vec<u8>, text: &[u8]) -> Result<(), AllocError>
    ensures { OnOk result (output.new.items ≡ output.old.items ++ shown text.now) }
{
    for byte in text {
        output.push(printable_byte(*byte))?;
    }
    Ok(())
}

/// Gives the byte, or `?` where it is not printable ASCII.
fn printable_byte(byte: u8) -> u8
    ensures { result ≡ printable_byte byte }
{
    if (32..=126).contains(&byte) {
        byte
    } else {
        b'?'
    }
}
