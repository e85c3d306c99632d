//! Reading the head of a request, byte by byte, so that no byte after it is taken.
ghost use Rattle.std.specs.Prelude.{◌≡◌, ◌+◌, ◌-◌, ◌^◌, ◌<◌, ◌≤◌, ◌&&◌, [], length, IfErr, IfOk, IfNone, OnOk};
ghost use Rattle.listen_http.specs.ProofKinds.{ends_empty_line};
ghost use Rattle.input_fields.specs.Streams.{IsSpent, Yields, byte_list};
ghost use Rattle.listen_http.specs.Exchange.{TakesAtMost, read_faults};
ghost use Rattle.listen_http.specs.ProofReading.{HeadIs, IsReading};

use crate::fault::WireFault;
use httparse::spans::{HeaderSpan, RequestSpans, parse_request};
use httparse::{Error, Status};
use input_fields::Source;
use input_http::HEAD_LIMIT;

/// What was read where a head was expected.
#[derive(Clone, Copy)]
pub(crate) enum Head {
    /// A head, and nothing after it.
    Whole(RequestSpans),
    /// The end, before any byte.
    Absent,
    /// The end, after some bytes.
    Cut,
    /// Bytes that no head begins with.
    Invalid,
    /// More fields than there is room for.
    TooMany,
    /// As many bytes as a head may have, which hold none.
    TooLong,
}

/// Reads one byte. `None` at the end of the input.
pub(crate) fn read_byte<R: Source>(reader: &mut R) -> Result<Option<u8>, WireFault>
    requires { R.failures reader.old < 2 ^ 64 - 1 }
    ensures took { IfOk result
        (λ byte. Yields (R.left reader.old) (R.left reader.new) (byte_list byte)) }
    ensures end { IfOk result (λ byte. IfNone byte (IsSpent (R.left reader.new))) }
    ensures bounded { TakesAtMost 1 (R.left reader.old) (R.left reader.new) }
    ensures count { R.failures reader.new ≡ R.failures reader.old + read_faults result }
    ensures cause { IfErr result IsReading }
{
    match input_fields::read_byte(reader) {
        Ok(byte) => Ok(byte),
        Err(_) => Err(WireFault::Read),
    }
}

/// Reads the head of a request into `text`, which is empty before, and parses it. Where an empty
/// line has ended and a space came before, a head may end: only there the parser is asked, so once
/// for each message, however many empty lines come before it.
#[tactic(auto, using(crate::proofs::Streams::Yields_more, crate::proofs::Heads::no_head_with_byte, crate::proofs::Heads::whole_head))]
pub(crate) fn read_head<R: Source>(
    reader: &mut R,
    text: &mut Vec<u8>,
    headers: &mut [HeaderSpan],
) -> Result<Head, WireFault>
    requires ready { R.failures reader.old < 2 ^ 64 - 1 }
    requires empty { text.old.items ≡ [] }
    ensures took { OnOk result (Yields (R.left reader.old) (R.left reader.new) text.new.items) }
    ensures short { length text.new.items ≤ HEAD_LIMIT }
    ensures is { IfOk result
        (HeadIs (length headers.old) (R.left reader.new) text.new.items headers.new) }
    ensures bounded { TakesAtMost HEAD_LIMIT (R.left reader.old) (R.left reader.new) }
    ensures count { R.failures reader.new ≡ R.failures reader.old + read_faults result }
    ensures cause { IfErr result IsReading }
{
    let mut has_space = false;
    'bytes: while text.len() < HEAD_LIMIT {
        let Some(byte) = read_byte(reader)? else {
            return Ok(if text.is_empty() {
                Head::Absent
            } else {
                Head::Cut
            });
        };
        text.push(byte)?;
        has_space |= byte == b' ';
        if may_end(has_space, text.as_slice()) {
            match parse_request(text.as_slice(), headers) {
                Ok(Status::Complete(spans)) => return Ok(Head::Whole(spans)),
                Ok(Status::Partial) => {}
                Err(Error::TooManyHeaders) => return Ok(Head::TooMany),
                Err(_) => return Ok(Head::Invalid),
            }
        }
    }
    match parse_request(text.as_slice(), headers) {
        Ok(_) => Ok(Head::TooLong),
        Err(Error::TooManyHeaders) => Ok(Head::TooMany),
        Err(_) => Ok(Head::Invalid),
    }
}

/// Whether a head may end here: a space has come, and an empty line has ended by CR LF or LF.
fn may_end(has_space: bool, text: &[u8]) -> bool
    ensures { result ≡ (has_space && ends_empty_line text.now) }
{
    has_space && (text.ends_with(b"\n\n") || text.ends_with(b"\n\r\n"))
}
