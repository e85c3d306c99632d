//! `Counted`: makes a `Source` of a std reader, and a `Sink` of a std writer.

ghost use Rattle.std.specs.Prelude.{◌≡◌, ◌+◌, ◌-◌, ◌^◌, ◌<◌, ◌≤◌, ℕ, List, [], false, IfOk, OnErr, length, take};
ghost use Rattle.std.specs.Io.KnownBytes.{WriteAppends};

use crate::sink::Sink;
use crate::source::Source;
use std::io;
use std::io::{Read, Write};

/// A reader or a writer of std that counts how many of its calls failed. Once a reader has told its
/// end, it is not called again.
#[derive(Drop)]
pub struct Counted<R> {
    inner: R,
    has_ended: bool,
    failures: u64,
}

impl<R> Counted<R> {
    ghost use Rattle.input_fields.specs.Counts.{failures_of, has_told_end, inner_of};

    /// Wraps a reader or a writer of which no call has failed yet.
    pub fn new(inner: R) -> Counted<R>
        ensures inner { inner_of result ≡ inner }
        ensures going { has_told_end result ≡ false }
        ensures count { failures_of result ≡ 0 }
    {
        Counted {
            inner,
            has_ended: false,
            failures: 0,
        }
    }

    /// How many calls failed so far.
    pub fn failures(&self) -> u64
        ensures { result ≡ failures_of self.now }
    {
        self.failures
    }
}

impl<R: Read> Source for Counted<R> {
    ghost use Rattle.input_fields.specs.Counts.{failures_of, has_told_end, inner_of};
    ghost use Rattle.input_fields.specs.Streams.{MayBeLeft};
    ghost use Rattle.input_fields.specs.ProofSomeLeft.{some_left_of};

    ghost left = { λ s rest. MayBeLeft (R.remaining (inner_of s)) (has_told_end s) rest };

    ghost failures = { failures_of };

    ghost some_left = { λ s. some_left_of (R.remaining (inner_of s)) (has_told_end s) };

    fn read(&mut self, buffer: &mut [u8]) -> io::Result<usize> {
        if self.has_ended {
            return Ok(0);
        }
        let result = self.inner.read(buffer);
        match &result {
            Ok(count) => {
                if *count == 0 && !buffer.is_empty() {
                    self.has_ended = true;
                }
            }
            Err(_) => self.failures += 1,
        }
        result
    }
}

impl<W: Write> Sink for Counted<W> {
    ghost use Rattle.input_fields.specs.Counts.{failures_of, inner_of};

    ghost given = { λ s. W.contents (inner_of s) };

    ghost failures = { failures_of };

    fn write(&mut self, piece: &[u8]) -> io::Result<usize> {
        match self.inner.write(piece) {
            Ok(count) if count > 0 || piece.is_empty() => Ok(count),
            failed => {
                self.failures += 1;
                failed
            }
        }
    }
}
