//! Copies bytes, for jobs and documents that a room in memory keeps. The server keeps accounts in
//! tables, and does not use this.

ghost use Rattle.std.specs.Prelude.{◌≡◌, IfOk};

use ipp_coding::List;
use std::alloc::{AllocError, Global};

/// Copies the bytes into a list of their own.
pub(crate) fn copied(alloc: Global, bytes: &[u8]) -> Result<List<u8>, AllocError>
    ensures copied { IfOk result (λ list. list ≡ bytes.now) }
{
    let items = Vec::from_slice(alloc, bytes)?;
    Ok(List { items })
}
