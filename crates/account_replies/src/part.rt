//! A document as it is handed to a device: a line that tells what it is, and its bytes.

ghost use Rattle.std.specs.Prelude.{◌≡◌, IfOk};
ghost use Rattle.account_replies.specs.Parts.{part_of};

use crate::Success;
use crate::text::success;
use account_rules::Document;
use ipp_coding::List;
use std::alloc::{AllocError, Global};

/// A document that is handed to a device.
#[derive(Drop)]
pub struct Part {
    /// The line that tells its job, copies, format and length, without its end.
    pub line: List<u8>,
    pub bytes: List<u8>,
}

/// Makes a document ready for a device: a line before it that tells so many copies, and its bytes,
/// which are moved.
pub fn handed(alloc: Global, copies: u32, document: Document) -> Result<Part, AllocError>
    ensures part { IfOk result (λ part. part ≡ part_of copies document) }
{
    let line = success(
        alloc,
        Success::Started {
            job: document.job,
            copies,
            format: document.format,
            length: document.bytes.as_slice().len() as u64,
        },
    )?;
    Ok(Part {
        line,
        bytes: document.bytes,
    })
}
