//! `read_whole`: reads an input to its end, up to a limit.

ghost use Rattle.std.specs.Prelude.{◌≡◌, ◌+◌, ◌-◌, ◌^◌, ◌<◌, ◌≤◌, ℕ, List, IfOk, IsErrOf, OnOk, length};
ghost use Rattle.input_fields.specs.Streams.{IsSpent, Yields, read_faults};

use crate::source::Source;
use crate::stream_fault::StreamFault;
use std::alloc::Global;

/// How many bytes are read at once.
const PIECE: usize = 4096;

/// Reads all that is left in `reader`, `most` bytes at most. `TooLong` where there is more: then no
/// byte behind the first too many is read. A call that failed is not tried again.
#[tactic(auto, using(crate::proofs::Leaving::Yields_more))]
pub fn read_whole<R: Source>(
    alloc: Global,
    reader: &mut R,
    most: usize,
) -> Result<Vec<u8>, StreamFault>
    requires count { R.failures reader.old < 2 ^ 64 - 1 }
    requires most { most < 2 ^ 64 - 1 }
    ensures all { IfOk result (λ bytes. R.left reader.old bytes.items) }
    ensures short { IfOk result (λ bytes. length bytes.items ≤ most) }
    ensures end { OnOk result (IsSpent (R.left reader.new)) }
    ensures long { IsErrOf result StreamFault.TooLong
        → (bytes : List ℕ) × R.left reader.old bytes × (most < length bytes) }
    ensures takes { (bytes : List ℕ) × (length bytes ≤ most + 1)
        × Yields (R.left reader.old) (R.left reader.new) bytes }
    ensures count { R.failures reader.new ≡ R.failures reader.old + read_faults result }
{
    let mut bytes = Vec::new(alloc);
    let mut piece = [0; PIECE];
    while bytes.len() <= most {
        let room = (most + 1 - bytes.len()).min(PIECE);
        let count = match reader.read(&mut piece[..room]) {
            Ok(count) => count,
            Err(_) => return Err(StreamFault::Read),
        };
        if count == 0 {
            return Ok(bytes);
        }
        bytes.extend_from_slice(&piece[..count])?;
    }
    Err(StreamFault::TooLong)
}
