//! Takes the head of an HTTP answer: its status, and how long its body is.
ghost use Rattle.std.specs.Prelude.{◌≡◌, ◌≤◌, All, IfOk, IfSome, OnOk, codes, length, map, option_map};
ghost use Rattle.std.specs.Io.KnownBytes.{Consumes};
ghost use Rattle.httparse.specs.Spans.{IsHeaderWithin, header_bytes};
ghost use Rattle.input_http.specs.Words.{is_same_word};
ghost use Rattle.client_owner.specs.Exchanges.{length_told};
ghost use Rattle.client_owner.specs.ProofHeads.{IsHead, TakesHead, TellsLength};

use client_lines::ClientFault;
use httparse::Status;
use httparse::spans::{EMPTY_HEADER_SPAN, HeaderSpan, ResponseSpans, parse_response};
use input_fields::number;
use input_http::HEAD_LIMIT;
use std::alloc::Global;
use std::io::{ErrorKind, Read};

/// The most fields that the head of an answer may have.
const MOST_FIELDS: usize = 64;

/// The most bytes that the body of an answer may have: 4 MiB.
const BODY_LIMIT: u32 = 4_194_304;

/// What the head of an answer tells.
#[derive(Clone, Copy)]
pub(crate) struct Head {
    pub(crate) status: u16,
    /// The bytes of the body, at most 4194304.
    pub(crate) length: u32,
}

/// Takes the head of an HTTP answer, and nothing behind it. `Broken` where it is no head, or does
/// not tell how long its body is.
pub(crate) fn take_head<R: Read>(alloc: Global, reader: &mut R) -> Result<Head, ClientFault>
    ensures { IfOk result (TakesHead (R.remaining reader.old) (R.remaining reader.new)) }
{
    let text = take_text(alloc, reader)?;
    head_of(text.as_slice()).ok_or(ClientFault::Broken)
}

/// Takes the bytes up to an empty line, and that. `Broken` where they are more than `HEAD_LIMIT`.
fn take_text<R: Read>(alloc: Global, reader: &mut R) -> Result<Vec<u8>, ClientFault>
    ensures taken { IfOk result
        (λ text. Consumes (R.remaining reader.old) (R.remaining reader.new) text.items) }
    ensures short { IfOk result (λ text. length text.items ≤ HEAD_LIMIT) }
{
    let mut text = Vec::new(alloc);
    while text.len() < HEAD_LIMIT {
        let mut byte = [0];
        fill(reader, &mut byte)?;
        text.push(byte[0])?;
        if text.ends_with(b"\r\n\r\n") {
            return Ok(text);
        }
    }
    Err(ClientFault::Broken)
}

/// Fills the buffer with the next bytes. `Broken` where the reader ends before.
pub(crate) fn fill<R: Read>(reader: &mut R, buffer: &mut [u8]) -> Result<(), ClientFault>
    ensures { OnOk result (Consumes (R.remaining reader.old) (R.remaining reader.new) buffer.new) }
{
    match reader.read_exact(buffer) {
        Ok(()) => Ok(()),
        Err(error) if error.kind() == ErrorKind::UnexpectedEof => Err(ClientFault::Broken),
        Err(error) => Err(ClientFault::from(error)),
    }
}

/// Reads a head. `None` where the text is not just a head that tells how long its body is.
fn head_of(text: &[u8]) -> Option<Head>
    ensures { IfSome result (IsHead text.now) }
{
    let mut headers = [EMPTY_HEADER_SPAN; MOST_FIELDS];
    match parse_response(text, &mut headers) {
        Ok(Status::Complete(spans)) if spans.len == text.len() => {
            head_in(text, &headers[..spans.headers], spans.code)
        }
        _ => None,
    }
}

/// Makes the head of its status and its fields. `None` where these tell no length within the limit.
fn head_in(text: &[u8], headers: &[HeaderSpan], status: u16) -> Option<Head>
    requires { All (IsHeaderWithin (length text.now)) headers.now }
    ensures status { IfSome result (λ head. head.status ≡ status) }
    ensures length { IfSome result
        (λ head. TellsLength (map (header_bytes text.now) headers.now) head.length) }
{
    let digits = length_told(text, headers)?;
    let length = number(digits, 0, BODY_LIMIT)?;
    Some(Head { status, length })
}

/// Gives the value of the first field Content-Length.
fn length_told<'a>(text: &'a [u8], headers: &[HeaderSpan]) -> Option<&'a [u8]>
    requires { All (IsHeaderWithin (length text.now)) headers.now }
    ensures { option_map (λ value. value.now) result
        ≡ length_told (map (header_bytes text.now) headers.now) }
{
    match headers {
        [] => None,
        [first, ..] if is_length(first.name.of(text)) => Some(first.value.of(text)),
        [_, rest @ ..] => length_told(text, rest),
    }
}

/// Whether the field is Content-Length, whatever its case.
fn is_length(name: &[u8]) -> bool
    ensures { result ≡ is_same_word name.now (codes "content-length") }
{
    name.eq_ignore_ascii_case(b"content-length")
}
