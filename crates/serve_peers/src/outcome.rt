//! Helpers that read what an event came to: its reply, whether it was done, and how many bytes the
//! reply has.
ghost use Rattle.std.specs.Prelude.{◌≡◌};
ghost use Rattle.account_machine.specs.Verdicts.{reply_of};

use account_machine::{Answered, Part, Reply, Verdict};
use store_rounds::StoreFault;

/// The reply alone, without the verdict: what a client over HTTP is sent.
pub(crate) fn reply_of(answer: Result<Answered, StoreFault>) -> Result<Reply, StoreFault>
    ensures { result ≡ reply_of answer }
{
    match answer {
        Ok(Answered { reply, .. }) => Ok(reply),
        Err(fault) => Err(fault),
    }
}

/// Whether what was asked was done, and neither refused nor failed.
pub(crate) fn is_done(answer: &Result<Answered, StoreFault>) -> bool {
    match answer {
        Ok(answered) => matches!(answered.verdict, Verdict::Done { .. }),
        Err(_) => false,
    }
}

/// About how many bytes the reply has. Short lines count as none.
pub(crate) fn size_of(answer: &Result<Answered, StoreFault>) -> usize {
    match answer {
        Ok(answered) => size_of_reply(&answered.reply),
        Err(_) => 0,
    }
}

fn size_of_reply(reply: &Reply) -> usize {
    match reply {
        Reply::Ipp(answer) => answer.items.len(),
        Reply::Documents(parts) => size_of_parts(parts.items.as_slice()),
        _ => 0,
    }
}

fn size_of_parts(parts: &[Part]) -> usize {
    let mut size: usize = 0;
    for part in parts {
        size = size.saturating_add(part.bytes.items.len());
    }
    size
}
