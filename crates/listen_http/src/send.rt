//! Writing answers: a response, a refusal, or the 100 text.
ghost use Rattle.std.specs.Prelude.{◌≡◌, ◌+◌, ◌-◌, ◌^◌, ◌<◌, ◌≤◌, ◌++◌, IfErr, OnErr, OnOk, length, true};
ghost use Rattle.std.specs.Io.KnownBytes.{Appends};
ghost use Rattle.listen_http.specs.Exchange.{AppendsFront, write_faults};
ghost use Rattle.input_http.specs.Texts.{answer_text, interim_text, refusal_text};

use crate::fault::WireFault;
use arrayvec::ArrayVec;
use input_fields::Sink;
use input_http::{Refusal, put, put_answer_head, refusal_text};

/// The most bytes that are written by the first call of an answer.
const FIRST_PIECE: usize = 65536;

/// Writes all of a text. A call that failed is not tried again: only a front of the text was
/// written then.
#[tactic(auto, using(crate::proofs::Streams::Appends_more, crate::proofs::Streams::wrote_more))]
pub(crate) fn write_all<W: Sink>(writer: &mut W, text: &[u8]) -> Result<(), WireFault>
    requires { W.failures writer.old < 2 ^ 64 - 1 }
    ensures sent { OnOk result (Appends (W.given writer.old) (W.given writer.new) text.now) }
    ensures front { OnErr result (AppendsFront (W.given writer.old) (W.given writer.new) text.now) }
    ensures cause { IfErr result (λ fault. fault ≡ WireFault.Write) }
    ensures count { W.failures writer.new ≡ W.failures writer.old + write_faults result }
{
    let mut at = 0;
    'pieces: while at < text.len() {
        match writer.write(&text[at..]) {
            Ok(0) => return Err(WireFault::Write),
            Ok(count) => at += count,
            Err(_) => return Err(WireFault::Write),
        }
    }
    Ok(())
}

/// Writes `100 Continue`, where the client waits for that before it sends the body (RFC 9110
/// section 15.2.1).
#[tactic(auto, using(crate::proofs::Streams::nothing_sent))]
pub(crate) fn send_interim<W: Sink>(writer: &mut W, expects: bool) -> Result<(), WireFault>
    requires { W.failures writer.old < 2 ^ 64 - 1 }
    ensures sent { OnOk result
        (Appends (W.given writer.old) (W.given writer.new) (interim_text expects)) }
    ensures front { OnErr result
        (AppendsFront (W.given writer.old) (W.given writer.new) (interim_text true)) }
    ensures due { OnErr result (expects ≡ true) }
    ensures cause { IfErr result (λ fault. fault ≡ WireFault.Write) }
    ensures count { W.failures writer.new ≡ W.failures writer.old + write_faults result }
{
    if !expects {
        return Ok(());
    }
    write_all(writer, b"HTTP/1.1 100 Continue\r\n\r\n")
}

/// Writes the whole answer to a message that is refused.
pub fn send_refusal<W: Sink>(writer: &mut W, refusal: Refusal) -> Result<(), WireFault>
    requires { W.failures writer.old < 2 ^ 64 - 1 }
    ensures sent { OnOk result
        (Appends (W.given writer.old) (W.given writer.new) (refusal_text refusal)) }
    ensures front { OnErr result
        (AppendsFront (W.given writer.old) (W.given writer.new) (refusal_text refusal)) }
    ensures cause { IfErr result (λ fault. fault ≡ WireFault.Write) }
    ensures count { W.failures writer.new ≡ W.failures writer.old + write_faults result }
{
    let text = refusal_text(refusal);
    write_all(writer, text.as_slice())
}

/// Writes an IPP response with its HTTP head: in one piece where they have at most 64 KiB together,
/// and else the head with the first part of it in one piece, and then the rest. It takes no memory.
pub fn send_answer<W: Sink>(writer: &mut W, answer: &[u8], closes: bool) -> Result<(), WireFault>
    requires { W.failures writer.old < 2 ^ 64 - 1 }
    ensures sent { OnOk result
        (Appends (W.given writer.old) (W.given writer.new) (answer_text answer.now closes)) }
    ensures front { OnErr result
        (AppendsFront (W.given writer.old) (W.given writer.new) (answer_text answer.now closes)) }
    ensures cause { IfErr result (λ fault. fault ≡ WireFault.Write) }
    ensures count { W.failures writer.new ≡ W.failures writer.old + write_faults result }
{
    let mut first: ArrayVec<u8, FIRST_PIECE> = ArrayVec::new();
    put_answer_head(&mut first, answer.len(), closes);
    let (front, rest) = answer.split_at(answer.len().min(FIRST_PIECE - first.len()));
    put(&mut first, front);
    write_both(writer, first.as_slice(), rest)
}

/// Writes two texts, one after the other.
fn write_both<W: Sink>(writer: &mut W, first: &[u8], rest: &[u8]) -> Result<(), WireFault>
    requires { W.failures writer.old < 2 ^ 64 - 1 }
    ensures sent { OnOk result
        (Appends (W.given writer.old) (W.given writer.new) (first.now ++ rest.now)) }
    ensures front { OnErr result
        (AppendsFront (W.given writer.old) (W.given writer.new) (first.now ++ rest.now)) }
    ensures cause { IfErr result (λ fault. fault ≡ WireFault.Write) }
    ensures count { W.failures writer.new ≡ W.failures writer.old + write_faults result }
{
    write_all(writer, first)?;
    write_all(writer, rest)
}
