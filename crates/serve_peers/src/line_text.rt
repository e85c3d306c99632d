//! The bytes that answer a line, for each thing that it can come to.
ghost use Rattle.std.specs.Prelude.{◌≡◌, ◌++◌, codes, OnOk};
ghost use Rattle.serve_peers.specs.LineTexts.{answer_text, bad_line_text, line_text, part_text, parts_text, question_text, refused_line, reply_text, verdict_text};

use crate::into_bytes::into_bytes;
use account_machine::{Answered, Part, Reply, Verdict, line};
use bytes::BufMut;
use http_server::Rope;
use serve_log::LineRefusal;
use std::alloc::{AllocError, Global};
use store_rounds::StoreFault;

/// Appends the answer to a line that asked for an event.
pub(crate) fn put_told(
    alloc: Global,
    output: &mut Rope,
    told: Result<Answered, StoreFault>,
) -> Result<(), AllocError>
    ensures { OnOk result (output.new.items ≡ output.old.items ++ line_text told) }
{
    match told {
        Ok(Answered { reply, verdict }) => put_reply(alloc, output, reply, Some(verdict)),
        Err(_) => output.put_slice(b"failed\n"),
    }
}

/// Appends the answer to a question, or `log-fails` in its place where the answer `warns`, as that
/// to `ping` does while lines wait for the log's file.
pub(crate) fn put_answer(
    alloc: Global,
    output: &mut Rope,
    warns: bool,
    told: Result<Reply, StoreFault>,
) -> Result<(), AllocError>
    ensures { OnOk result (output.new.items ≡ output.old.items ++ answer_text warns told) }
{
    if warns {
        output.put_slice(b"log-fails\n")
    } else {
        put_question_told(alloc, output, told)
    }
}

/// Appends the answer to a question, or `failed`.
fn put_question_told(
    alloc: Global,
    output: &mut Rope,
    told: Result<Reply, StoreFault>,
) -> Result<(), AllocError>
    ensures { OnOk result (output.new.items ≡ output.old.items ++ question_text told) }
{
    match told {
        Ok(reply) => put_reply(alloc, output, reply, None),
        Err(_) => output.put_slice(b"failed\n"),
    }
}

/// Appends a reply, and in the place of a response of IPP its verdict.
fn put_reply(
    alloc: Global,
    output: &mut Rope,
    reply: Reply,
    verdict: Option<Verdict>,
) -> Result<(), AllocError>
    ensures { OnOk result (output.new.items ≡ output.old.items ++ reply_text verdict reply) }
{
    match reply {
        Reply::Line(text) => put_line(output, text.items.as_slice()),
        Reply::Documents(parts) => put_parts(alloc, output, parts.items),
        Reply::NoAccount => output.put_slice(b"no-account\n"),
        Reply::Short => output.put_slice(b"short\n"),
        Reply::Ipp(_) => put_verdict(alloc, output, verdict),
    }
}

/// Appends `ok`, or the word that tells why the act was refused. `None`, of a question, does not
/// happen: no question is answered by a response.
fn put_verdict(alloc: Global, output: &mut Rope, verdict: Option<Verdict>) -> Result<(), AllocError>
    ensures { OnOk result
        (output.new.items ≡ output.old.items ++ verdict_text verdict ++ codes "\n") }
{
    match verdict {
        Some(Verdict::Done { .. }) => put_line(output, b"ok"),
        Some(Verdict::Refused { refusal, .. }) => {
            let word = line(alloc, refusal.word)?;
            put_line(output, word.items.as_slice())
        }
        None => put_line(output, b"failed"),
    }
}

/// Appends a text and a line feed.
fn put_line(output: &mut Rope, text: &[u8]) -> Result<(), AllocError>
    ensures { OnOk result (output.new.items ≡ output.old.items ++ text.now ++ codes "\n") }
{
    output.put_slice(text)?;
    output.put_slice(b"\n")
}

/// Appends the documents of a start: a line with their count, and then each.
fn put_parts(alloc: Global, output: &mut Rope, parts: Vec<Part>) -> Result<(), AllocError>
    ensures { OnOk result (output.new.items ≡ output.old.items ++ parts_text parts.items) }
{
    let count = parts.len();
    let head = format!(in alloc; "documents {count}\n")?;
    output.put_slice(head.as_bytes())?;
    for part in parts {
        put_part(output, part)?;
    }
    Ok(())
}

/// Appends one document: the line that describes it, its bytes, which are moved and not copied, and
/// a line feed.
fn put_part(output: &mut Rope, part: Part) -> Result<(), AllocError>
    ensures { OnOk result (output.new.items ≡ output.old.items ++ part_text part) }
{
    put_line(output, part.line.items.as_slice())?;
    output.push(into_bytes(part.bytes.items)?)?;
    output.put_slice(b"\n")
}

/// Appends the answer to a line that a door refuses.
pub(crate) fn put_refused(output: &mut Rope, why: LineRefusal) -> Result<(), AllocError>
    ensures { OnOk result (output.new.items ≡ output.old.items ++ refused_line why) }
{
    match why {
        LineRefusal::BadLine => put_bad(output),
        LineRefusal::NotYourDevice => output.put_slice(b"not-your-device\n"),
    }
}

/// Appends the answer to a line that is none of its grammar.
pub(crate) fn put_bad(output: &mut Rope) -> Result<(), AllocError>
    ensures { OnOk result (output.new.items ≡ output.old.items ++ bad_line_text) }
{
    output.put_slice(b"bad-line\n")
}
