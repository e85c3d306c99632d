//! Writing the heads of HTTP answers, and whole refusals, into buffers of a fixed size.
ghost use Rattle.std.specs.Prelude.{◌≡◌, ◌+◌, ◌++◌, ◌≤◌, [], length, true, unwrap_or};
ghost use Rattle.input_http.specs.Limits.{longest_answer_head, longest_status_line, longest_phrase};
ghost use Rattle.http.specs.StatusCode.{reason_phrase};
ghost use Rattle.arrayvec.specs.ArrayVec.{array_vec_len};
ghost use Rattle.input_http.specs.Texts.{answer_head, more_fields, refusal_text, status_line};

use crate::refusal::Refusal;
use arrayvec::ArrayVec;
use http::StatusCode;
use itoa::Buffer;

/// The bytes of a buffer that has room for the head of any answer.
const HEAD_ROOM: usize = 256;

/// Adds bytes to a buffer that has room for them.
pub fn put<const N: usize>(text: &mut ArrayVec<u8, N>, bytes: &[u8])
    requires { array_vec_len text.old + length bytes.now ≤ N }
    ensures items { text.new.items ≡ text.old.items ++ bytes.now }
    ensures len { array_vec_len text.new ≡ array_vec_len text.old + length bytes.now }
{
    let _ = text.try_extend_from_slice(bytes);
}

/// Adds a status line (RFC 9112 section 4).
fn put_status<const N: usize>(text: &mut ArrayVec<u8, N>, status: StatusCode)
    requires room { array_vec_len text.old + longest_status_line ≤ N }
    requires short { length (unwrap_or (reason_phrase status) []) ≤ longest_phrase }
    ensures items { text.new.items ≡ text.old.items ++ status_line status }
    ensures len { array_vec_len text.new ≤ array_vec_len text.old + longest_status_line }
{
    put(text, b"HTTP/1.1 ");
    put(text, status.as_str().as_bytes());
    put(text, b" ");
    put(text, phrase_of(status).as_bytes());
    put(text, b"\r\n");
}

/// The reason phrase of a status, as `Not Found`.
fn phrase_of(status: StatusCode) -> &'static str
    ensures { result.now ≡ unwrap_or (reason_phrase status) [] }
{
    status.canonical_reason().unwrap_or("")
}

/// The whole answer to a message that is refused, which ends the connection. `MethodNotAllowed`
/// names the method that is allowed (RFC 9110 section 15.5.6), and `NoSpace` after how many seconds
/// to ask again (RFC 9110 section 10.2.3).
pub fn refusal_text(refusal: Refusal) -> ArrayVec<u8, HEAD_ROOM>
    ensures { result.items ≡ refusal_text refusal }
{
    let mut text = ArrayVec::new();
    put_status(&mut text, refusal.status());
    put(&mut text, b"Content-Length: 0\r\nConnection: close\r\n");
    put(&mut text, more_fields(refusal));
    put(&mut text, b"\r\n");
    text
}

/// The header fields that an answer has for this refusal alone.
fn more_fields(refusal: Refusal) -> &'static [u8]
    ensures value { result.now ≡ more_fields refusal }
    ensures short { length result.now ≤ 17 }
{
    match refusal {
        Refusal::MethodNotAllowed => b"Allow: POST\r\n",
        Refusal::NoSpace => b"Retry-After: 60\r\n",
        _ => b"",
    }
}

/// Adds the head of an IPP response of `size` bytes. `closes` adds that the connection ends with
/// it.
pub fn put_answer_head<const N: usize>(text: &mut ArrayVec<u8, N>, size: usize, closes: bool)
    requires { array_vec_len text.old + longest_answer_head ≤ N }
    ensures items { text.new.items ≡ text.old.items ++ answer_head size closes }
    ensures len { array_vec_len text.new ≤ array_vec_len text.old + longest_answer_head }
{
    let mut digits = Buffer::new();
    put_status(text, StatusCode::OK);
    put(text, b"Content-Type: application/ipp\r\nContent-Length: ");
    put(text, digits.format(size).as_bytes());
    put(text, b"\r\n");
    if closes {
        put(text, b"Connection: close\r\n");
    }
    put(text, b"\r\n");
}

/// The head of an IPP response of `size` bytes that ends the connection.
pub fn last_answer_head(size: usize) -> ArrayVec<u8, HEAD_ROOM>
    ensures { result.items ≡ answer_head size true }
{
    let mut text = ArrayVec::new();
    put_answer_head(&mut text, size, true);
    text
}
