//! `Source`: what bytes are read from; and `read_byte`.

ghost use Rattle.std.specs.Prelude.{◌≡◌, ◌+◌, ◌-◌, ◌^◌, ◌<◌, ◌≤◌, ℕ, List, [], IfNone, IfOk, OnErr, length, take};
ghost use Rattle.input_fields.specs.Streams.{IsSpent, Yields, byte_list, failed_reads};

use std::io;

/// What bytes are read from. Its contracts count the calls of `read` that failed, each by whatever
/// error: `Interrupted` counts too.
pub trait Source {
    // The bytes that may be left to be read, up to the end.
    ghost left: { Self → List ℕ → Type 0 };

    // How many calls failed so far.
    ghost failures: { Self → ℕ };

    /// Reads the next bytes into the front of `buffer` and answers how many. 0 tells the end, where
    /// the buffer is not empty. A call that fails takes nothing of what is left.
    fn read(&mut self, buffer: &mut [u8]) -> io::Result<usize>
        requires { failures self.old < 2 ^ 64 - 1 }
        ensures bound { IfOk result (λ n. n ≤ length buffer.old) }
        ensures bytes { IfOk result
            (λ n. Yields (left self.old) (left self.new) (take n buffer.new)) }
        ensures end { IfOk result (λ n. n ≡ 0 → 0 < length buffer.old → IsSpent (left self.new)) }
        ensures failed { OnErr result (Yields (left self.old) (left self.new) []) }
        ensures count { failures self.new ≡ failures self.old + failed_reads result };

    // Something may be left, if nothing but the end.
    ghost some_left: { (s : Self) → (rest : List ℕ) × left s rest };
}

/// Reads the next byte, and nothing behind it. `None` at the end.
pub fn read_byte<R: Source>(reader: &mut R) -> io::Result<Option<u8>>
    requires { R.failures reader.old < 2 ^ 64 - 1 }
    ensures took { IfOk result
        (λ byte. Yields (R.left reader.old) (R.left reader.new) (byte_list byte)) }
    ensures end { IfOk result (λ byte. IfNone byte (IsSpent (R.left reader.new))) }
    ensures failed { OnErr result (Yields (R.left reader.old) (R.left reader.new) []) }
    ensures count { R.failures reader.new ≡ R.failures reader.old + failed_reads result }
{
    let mut byte = [0u8; 1];
    match reader.read(&mut byte)? {
        0 => Ok(None),
        _ => Ok(Some(byte[0])),
    }
}
