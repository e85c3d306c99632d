//! `Sink`: what bytes are written to.

ghost use Rattle.std.specs.Prelude.{◌≡◌, ◌+◌, ◌-◌, ◌^◌, ◌<◌, ◌≤◌, ℕ, List, Option, IfOk, length};
ghost use Rattle.std.specs.Io.KnownBytes.{WriteAppends};
ghost use Rattle.input_fields.specs.Streams.{failed_writes};

use std::io;

/// What bytes are written to. Its contracts count the calls of `write` that failed, each by
/// whatever error; one that took nothing of a piece that is not empty counts too.
pub trait Sink {
    // The bytes that it was given so far, where they are known.
    ghost given: { Self → Option (List ℕ) };

    // How many calls failed so far.
    ghost failures: { Self → ℕ };

    /// Takes the first bytes of `piece` and answers how many. A call that fails takes nothing.
    fn write(&mut self, piece: &[u8]) -> io::Result<usize>
        requires { failures self.old < 2 ^ 64 - 1 }
        ensures bound { IfOk result (λ n. n ≤ length piece.now) }
        ensures took { WriteAppends (given self.old) (given self.new) result piece.now }
        ensures count { failures self.new ≡ failures self.old + failed_writes result piece.now };
}
