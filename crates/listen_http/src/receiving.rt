//! `receive`: one whole message is read, head and body, and no byte after it.
ghost use Rattle.std.specs.Prelude.{◌≡◌, ◌+◌, ◌-◌, ◌^◌, ◌<◌, ◌≤◌, All, IfErr, IfOk, length, map};
ghost use Rattle.httparse.specs.Grammar.{RequestHead};
ghost use Rattle.httparse.specs.Spans.{IsHeaderWithin, IsRequestAt, IsRequestWithin, header_bytes};
ghost use Rattle.listen_http.specs.Exchange.{FailedReceiving, HasHeader, ReceivedIs, TakesAtMost, most_taken, read_faults, write_faults};
ghost use Rattle.listen_http.specs.Fields.{plain_field};
ghost use Rattle.listen_http.specs.Judging.{FitsLimit, judged, said_by};
ghost use Rattle.input_http.specs.Limits.{longest_head};
ghost use Rattle.listen_http.specs.ProofReading.{IsReading, OpeningIs};

use crate::body::{Body, read_body};
use crate::fault::WireFault;
use crate::fields::Field;
use crate::head::{Head, read_head};
use crate::judging::{Order, Request, judge};
use crate::send::send_interim;
use arrayvec::ArrayVec;
use httparse::spans::{EMPTY_HEADER_SPAN, HeaderSpan, RequestSpans};
use input_fields::{Sink, Source};
use input_http::Refusal;
use std::alloc::Global;

/// The most header fields that a head may have.
const MOST_FIELDS: usize = 64;

/// The fewest bytes that a body may have: those of an IPP message up to its request-id (RFC 8010
/// section 3.1.1).
const SHORTEST_BODY: usize = 8;

/// What was read where a message was expected.
#[derive(Drop)]
pub enum Received {
    /// The end, before any byte.
    Nothing,
    /// What is to be refused.
    Refused(Refusal),
    /// A message: what its head orders, and its body, which has at least 8 bytes.
    Carried(Order, Vec<u8>),
}

/// What a head came to, before any body is read.
#[derive(Clone, Copy)]
pub(crate) enum Opening {
    Nothing,
    Refused(Refusal),
    Ordered(Order),
}

/// Reads one message and no byte after it. Where its client waits for the 100 text, that is
/// written between head and body.
///
/// `Read`, `Write` or `Memory` where that failed; nothing but the 100 text, or a front of it, was
/// written then, and that only where a head was read that asks for it. Where it is due, that text
/// is written before anything after the head is read. However a call ends, it has read at most
/// `most_taken` bytes.
pub fn receive<R: Source, W: Sink>(
    alloc: Global,
    reader: &mut R,
    writer: &mut W,
) -> Result<Received, WireFault>
    requires reads { R.failures reader.old < 2 ^ 64 - 1 }
    requires writes { W.failures writer.old < 2 ^ 64 - 1 }
    ensures received { IfOk result (ReceivedIs (R.left reader.old) (R.left reader.new)
        (W.given writer.old) (W.given writer.new)) }
    ensures bounded { TakesAtMost most_taken (R.left reader.old) (R.left reader.new) }
    ensures header { IfOk result HasHeader }
    ensures fault { IfErr result (FailedReceiving (R.left reader.old) (R.left reader.new)
        (W.given writer.old) (W.given writer.new)) }
    ensures reads { R.failures reader.new ≡ R.failures reader.old + read_faults result }
    ensures writes { W.failures writer.new ≡ W.failures writer.old + write_faults result }
{
    let order = match read_order(alloc, reader)? {
        Opening::Nothing => return Ok(Received::Nothing),
        Opening::Refused(refusal) => return Ok(Received::Refused(refusal)),
        Opening::Ordered(order) => order,
    };
    send_interim(writer, order.expects)?;
    match read_body(alloc, reader, order.framing)? {
        Body::Whole(body) => {
            if body.len() < SHORTEST_BODY {
                return Ok(Received::Refused(Refusal::BadRequest));
            }
            Ok(Received::Carried(order, body))
        }
        Body::Bad => Ok(Received::Refused(Refusal::BadRequest)),
        Body::TooLong => Ok(Received::Refused(Refusal::PayloadTooLarge)),
    }
}

/// Reads a head and judges it.
pub(crate) fn read_order<R: Source>(alloc: Global, reader: &mut R) -> Result<Opening, WireFault>
    requires { R.failures reader.old < 2 ^ 64 - 1 }
    ensures is { IfOk result (OpeningIs (R.left reader.old) (R.left reader.new)) }
    ensures bounded { TakesAtMost longest_head (R.left reader.old) (R.left reader.new) }
    ensures count { R.failures reader.new ≡ R.failures reader.old + read_faults result }
    ensures cause { IfErr result IsReading }
{
    let mut text = Vec::new(alloc);
    let mut headers = [EMPTY_HEADER_SPAN; MOST_FIELDS];
    match read_head(reader, &mut text, &mut headers)? {
        Head::Whole(spans) => match judge_spans(text.as_slice(), spans, &headers) {
            Ok(order) => Ok(Opening::Ordered(order)),
            Err(refusal) => Ok(Opening::Refused(refusal)),
        },
        Head::Absent => Ok(Opening::Nothing),
        Head::Cut => Ok(Opening::Refused(Refusal::BadRequest)),
        Head::Invalid => Ok(Opening::Refused(Refusal::BadRequest)),
        Head::TooMany => Ok(Opening::Refused(Refusal::BadRequest)),
        Head::TooLong => Ok(Opening::Refused(Refusal::HeadTooLarge)),
    }
}

/// Judges a head that was parsed: `spans` and `headers` tell where its parts are in `text`.
pub(crate) fn judge_spans(
    text: &[u8],
    spans: RequestSpans,
    headers: &[HeaderSpan],
) -> Result<Order, Refusal>
    requires within { IsRequestWithin text.now headers.now spans }
    requires few { length headers.now ≤ MOST_FIELDS }
    ensures value { (head : RequestHead) → IsRequestAt text.now headers.now spans head
        → result ≡ judged (said_by head) }
    ensures fits { IfOk result (λ order. FitsLimit order.framing) }
{
    let fields = fields_of(text, &headers[..spans.headers]);
    judge(&Request {
        method: spans.method.of(text),
        target: spans.path.of(text),
        minor: spans.version,
        fields: fields.as_slice(),
    })
}

/// The header fields that `headers` tells the places of in `text`.
pub(crate) fn fields_of<'a>(
    text: &'a [u8],
    headers: &[HeaderSpan],
) -> ArrayVec<Field<'a>, MOST_FIELDS>
    requires within { All (IsHeaderWithin (length text.now)) headers.now }
    requires few { length headers.now ≤ MOST_FIELDS }
    ensures { map plain_field result.items ≡ map (header_bytes text.now) headers.now }
{
    let mut fields = ArrayVec::new();
    for header in headers {
        fields.push(Field {
            name: header.name.of(text),
            value: header.value.of(text),
        });
    }
    fields
}
