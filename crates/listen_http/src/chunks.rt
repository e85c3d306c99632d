//! Reading the chunks of a body (RFC 9112 section 7.1), up to the line of size 0 and no byte after
//! it.
ghost use Rattle.std.specs.Prelude.{◌≡◌, ◌+◌, ◌-◌, ◌^◌, ◌<◌, ◌≤◌, ℕ, List, [], IfErr, IfOk, length};
ghost use Rattle.listen_http.specs.Exchange.{TakesAtMost, most_of_chunks, read_faults};
ghost use Rattle.listen_http.specs.ProofReading.{ChunksAre, IsReading, LineEndIs, SizeLineIs};

use crate::body::{PIECE, read_into};
use crate::fault::WireFault;
use crate::head::read_byte;
use arrayvec::ArrayVec;
use httparse::{Status, parse_chunk_size};
use input_fields::Source;
use input_http::BODY_LIMIT;

/// The most bytes that the line with a chunk's size may have, its end included.
const LINE_LIMIT: usize = 256;

/// What was read where the line with a chunk's size was expected.
#[derive(Clone, Copy, PartialEq, Eq)]
pub(crate) enum SizeLine {
    Size(u64),
    /// No such line.
    Invalid,
}

/// What was read where chunks were expected.
#[derive(Clone, Copy, PartialEq, Eq)]
pub(crate) enum Chunks {
    /// Chunks, and the line of size 0.
    Whole,
    /// Something else.
    Invalid,
    /// Chunks that have more bytes than a body may have.
    TooLong,
}

/// Reads the line that tells a chunk's size.
pub(crate) fn read_size_line<R: Source>(reader: &mut R) -> Result<SizeLine, WireFault>
    requires { R.failures reader.old < 2 ^ 64 - 1 }
    ensures is { IfOk result (SizeLineIs (R.left reader.old) (R.left reader.new)) }
    ensures bounded { TakesAtMost LINE_LIMIT (R.left reader.old) (R.left reader.new) }
    ensures count { R.failures reader.new ≡ R.failures reader.old + read_faults result }
    ensures cause { IfErr result IsReading }
{
    let mut line: ArrayVec<u8, LINE_LIMIT> = ArrayVec::new();
    'bytes: while line.len() < LINE_LIMIT {
        let Some(byte) = read_byte(reader)? else {
            return Ok(SizeLine::Invalid);
        };
        line.push(byte);
        // It ends in a line feed.
        if byte == b'\n' {
            match parse_chunk_size(line.as_slice()) {
                Ok(Status::Complete((_, size))) => return Ok(SizeLine::Size(size)),
                Ok(Status::Partial) => {}
                Err(_) => return Ok(SizeLine::Invalid),
            }
        }
    }
    Ok(SizeLine::Invalid)
}

/// Reads CR LF, which ends a chunk. `false` where something else came, or the end.
pub(crate) fn read_line_end<R: Source>(reader: &mut R) -> Result<bool, WireFault>
    requires { R.failures reader.old < 2 ^ 64 - 1 }
    ensures is { IfOk result (LineEndIs (R.left reader.old) (R.left reader.new)) }
    ensures bounded { TakesAtMost 2 (R.left reader.old) (R.left reader.new) }
    ensures count { R.failures reader.new ≡ R.failures reader.old + read_faults result }
    ensures cause { IfErr result IsReading }
{
    let Some(first) = read_byte(reader)? else {
        return Ok(false);
    };
    if first != b'\r' {
        return Ok(false);
    }
    let Some(second) = read_byte(reader)? else {
        return Ok(false);
    };
    if second != b'\n' {
        return Ok(false);
    }
    Ok(true)
}

/// Reads the chunks of a body up to the line of size 0, and puts their bytes in `body`, which is
/// empty before.
pub(crate) fn read_chunks<R: Source>(
    reader: &mut R,
    body: &mut Vec<u8>,
) -> Result<Chunks, WireFault>
    requires ready { R.failures reader.old < 2 ^ 64 - 1 }
    requires empty { body.old.items ≡ [] }
    ensures is { IfOk result (ChunksAre (R.left reader.old) (R.left reader.new) body.new.items) }
    ensures bounded { TakesAtMost most_of_chunks (R.left reader.old) (R.left reader.new) }
    ensures count { R.failures reader.new ≡ R.failures reader.old + read_faults result }
    ensures cause { IfErr result IsReading }
{
    let mut piece = [0; PIECE];
    'chunks: while body.len() <= BODY_LIMIT {
        match read_size_line(reader)? {
            SizeLine::Size(0) => return Ok(Chunks::Whole),
            SizeLine::Size(size) => {
                if size > (BODY_LIMIT - body.len()) as u64 {
                    return Ok(Chunks::TooLong);
                }
                if !read_into(reader, body, size as usize, &mut piece)? {
                    return Ok(Chunks::Invalid);
                }
                if !read_line_end(reader)? {
                    return Ok(Chunks::Invalid);
                }
            }
            SizeLine::Invalid => return Ok(Chunks::Invalid),
        }
    }
    Ok(Chunks::TooLong)
}
