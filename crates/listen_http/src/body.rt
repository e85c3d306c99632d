//! Reading the body of a message, and no byte after it.
ghost use Rattle.std.specs.Prelude.{◌≡◌, ◌+◌, ◌-◌, ◌^◌, ◌<◌, IfErr, IfOk, length};
ghost use Rattle.listen_http.specs.Exchange.{TakesAtMost, most_of_body, read_faults};
ghost use Rattle.listen_http.specs.Judging.{FitsLimit};
ghost use Rattle.listen_http.specs.ProofReading.{BodyIs, IsReading, ReadsInto};

use crate::chunks::{Chunks, read_chunks};
use crate::fault::WireFault;
use crate::framing::Framing;
use crate::trailers::read_trailers;
use input_fields::Source;
use std::alloc::Global;

/// How many bytes are read at once.
pub(crate) const PIECE: usize = 16384;

/// What was read where a body was expected.
#[derive(Drop)]
pub(crate) enum Body {
    Whole(Vec<u8>),
    /// The input ended before, or its chunks or trailers are malformed.
    Bad,
    /// Chunks that have more bytes than a body may have.
    TooLong,
}

/// Reads exactly `count` bytes, and adds them to the body; `piece` is the buffer. `false` where the
/// input ends before.
pub(crate) fn read_into<R: Source>(
    reader: &mut R,
    body: &mut Vec<u8>,
    count: usize,
    piece: &mut [u8],
) -> Result<bool, WireFault>
    requires ready { R.failures reader.old < 2 ^ 64 - 1 }
    requires piece { 0 < length piece.old }
    ensures is { IfOk result
        (ReadsInto (R.left reader.old) (R.left reader.new) body.old.items body.new.items count) }
    ensures bounded { TakesAtMost count (R.left reader.old) (R.left reader.new) }
    ensures count { R.failures reader.new ≡ R.failures reader.old + read_faults result }
    ensures cause { IfErr result IsReading }
    ensures piece { length piece.new ≡ length piece.old }
{
    let mut left = count;
    'pieces: while left > 0 {
        let want = piece.len().min(left);
        match reader.read(&mut piece[..want]) {
            Ok(0) => return Ok(false),
            Ok(read) => {
                body.extend_from_slice(&piece[..read])?;
                left -= read;
            }
            Err(_) => return Err(WireFault::Read),
        }
    }
    Ok(true)
}

/// Reads the body that the framing announces, and no byte after it. Memory for one whose length is
/// told is taken at once. `TooLong` comes only of chunks: a length was judged with the head.
pub(crate) fn read_body<R: Source>(
    alloc: Global,
    reader: &mut R,
    framing: Framing,
) -> Result<Body, WireFault>
    requires ready { R.failures reader.old < 2 ^ 64 - 1 }
    requires fits { FitsLimit framing }
    ensures is { IfOk result (BodyIs framing (R.left reader.old) (R.left reader.new)) }
    ensures bounded { TakesAtMost most_of_body (R.left reader.old) (R.left reader.new) }
    ensures count { R.failures reader.new ≡ R.failures reader.old + read_faults result }
    ensures cause { IfErr result IsReading }
{
    match framing {
        Framing::Length(size) => read_sized(alloc, reader, size as usize),
        Framing::Chunked => read_chunked(alloc, reader),
    }
}

/// Reads a body of `size` bytes. `Bad` where the input ends before.
fn read_sized<R: Source>(alloc: Global, reader: &mut R, size: usize) -> Result<Body, WireFault>
    requires ready { R.failures reader.old < 2 ^ 64 - 1 }
    ensures is { IfOk result
        (BodyIs (Framing.Length size) (R.left reader.old) (R.left reader.new)) }
    ensures bounded { TakesAtMost size (R.left reader.old) (R.left reader.new) }
    ensures count { R.failures reader.new ≡ R.failures reader.old + read_faults result }
    ensures cause { IfErr result IsReading }
{
    let mut piece = [0; PIECE];
    let mut body = Vec::with_capacity(alloc, size)?;
    if !read_into(reader, &mut body, size, &mut piece)? {
        return Ok(Body::Bad);
    }
    Ok(Body::Whole(body))
}

/// Reads a body in chunks, with the trailers behind it.
fn read_chunked<R: Source>(alloc: Global, reader: &mut R) -> Result<Body, WireFault>
    requires ready { R.failures reader.old < 2 ^ 64 - 1 }
    ensures is { IfOk result (BodyIs Framing.Chunked (R.left reader.old) (R.left reader.new)) }
    ensures bounded { TakesAtMost most_of_body (R.left reader.old) (R.left reader.new) }
    ensures count { R.failures reader.new ≡ R.failures reader.old + read_faults result }
    ensures cause { IfErr result IsReading }
{
    let mut body = Vec::new(alloc);
    match read_chunks(reader, &mut body)? {
        Chunks::Whole => {}
        Chunks::Invalid => return Ok(Body::Bad),
        Chunks::TooLong => return Ok(Body::TooLong),
    }
    if !read_trailers(reader)? {
        return Ok(Body::Bad);
    }
    Ok(Body::Whole(body))
}
