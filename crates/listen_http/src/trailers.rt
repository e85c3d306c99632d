//! Reading the trailers of a body in chunks (RFC 9112 section 7.1.2), which are ignored.

ghost use Rattle.std.specs.Prelude.{◌≡◌, ◌+◌, ◌-◌, ◌^◌, ◌<◌, IfErr, IfOk};
ghost use Rattle.listen_http.specs.Exchange.{TakesAtMost, read_faults};
ghost use Rattle.listen_http.specs.ProofReading.{IsReading, TrailersAre};

use crate::fault::WireFault;
use crate::head::read_byte;
use arrayvec::ArrayVec;
use httparse::Status;
use httparse::spans::{EMPTY_HEADER_SPAN, parse_headers};
use input_fields::Source;
use input_http::TRAILERS_LIMIT;

/// The most fields that the trailers may have.
const MOST_TRAILERS: usize = 64;

/// Reads the trailers up to and with the empty line, and ignores what they say. `false` where
/// something else came, or the end.
pub(crate) fn read_trailers<R: Source>(reader: &mut R) -> Result<bool, WireFault>
    requires { R.failures reader.old < 2 ^ 64 - 1 }
    ensures is { IfOk result (TrailersAre (R.left reader.old) (R.left reader.new)) }
    ensures bounded { TakesAtMost TRAILERS_LIMIT (R.left reader.old) (R.left reader.new) }
    ensures count { R.failures reader.new ≡ R.failures reader.old + read_faults result }
    ensures cause { IfErr result IsReading }
{
    let mut text: ArrayVec<u8, TRAILERS_LIMIT> = ArrayVec::new();
    let mut headers = [EMPTY_HEADER_SPAN; MOST_TRAILERS];
    'bytes: while text.len() < TRAILERS_LIMIT {
        let Some(byte) = read_byte(reader)? else {
            return Ok(false);
        };
        text.push(byte);
        // A field ends in a line feed, and so does the empty line.
        if byte == b'\n' {
            match parse_headers(text.as_slice(), &mut headers) {
                Ok(Status::Complete(_)) => return Ok(true),
                Ok(Status::Partial) => {}
                Err(_) => return Ok(false),
            }
        }
    }
    Ok(false)
}
