//! A vector made into `Bytes`, so that a long answer is moved and not copied.
ghost use Rattle.std.specs.Prelude.{◌≡◌, IfOk};

use bytes::Bytes;
use std::alloc::AllocError;

/// The same bytes as `Bytes`, which takes the vector's memory over. Memory is needed for a count
/// alone.
pub(crate) fn into_bytes(bytes: Vec<u8>) -> Result<Bytes, AllocError>
    ensures { IfOk result (λ shared. shared ≡ bytes.items) }
{
    match Bytes::from_vec(bytes) {
        Ok(shared) => Ok(shared),
        Err(_) => Err(AllocError),
    }
}
