//! Writes the lines that stations and operators are told, each as a list of bytes of its own.

ghost use Rattle.std.specs.Prelude.{◌≡◌, IfOk};
ghost use Rattle.account_replies.specs.Lines.{success_text};
ghost use Rattle.account_replies.specs.Words.{word_text};

use crate::Success;
use crate::station_line::{append_line, append_success};
use account_rules::Word;
use ipp_coding::List;
use std::alloc::{AllocError, Global};

/// Writes the line that tells a refusal, without its end.
pub fn line(alloc: Global, word: Word) -> Result<List<u8>, AllocError>
    ensures text { IfOk result (λ line. line ≡ word_text word) }
{
    let mut items = Vec::new(alloc);
    append_line(&mut items, word)?;
    Ok(List { items })
}

/// Writes the line that tells a success, without its end.
pub fn success(alloc: Global, success: Success) -> Result<List<u8>, AllocError>
    ensures text { IfOk result (λ line. line ≡ success_text success) }
{
    let mut items = Vec::new(alloc);
    append_success(&mut items, success)?;
    Ok(List { items })
}
