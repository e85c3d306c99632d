//! Answers that are lines of text, to events of stations and operators and to questions.

ghost use Rattle.std.specs.Prelude.{◌≡◌, IfOk, IfErr};
ghost use Rattle.account_machine.specs.Verdicts.{line_done, line_refused};
ghost use Rattle.account_machine.specs.declared.event.Reply.TheVariants as reply;
ghost use Rattle.account_replies.specs.Lines.{success_text};
ghost use Rattle.account_replies.specs.Words.{word_text};
ghost use Rattle.store_events.specs.Answers.{done_by, refused_by};

use account_machine::{Answered, Refusal, Reply, Success, Verdict, Word, line, success};
use rows_tables::TableFault;
use std::alloc::Global;

/// The answer that refuses an event, by a line with the word. `Memory` is its only fault.
pub(crate) fn refused_by(alloc: Global, word: Word) -> Result<Answered, TableFault>
    ensures answered { IfOk result (λ answered. answered ≡ refused_by word) }
    ensures memory { IfErr result (λ fault. fault ≡ TableFault.Memory) }
{
    let reply = refusal_line(alloc, word)?;
    Ok(Answered {
        reply,
        verdict: line_refused(word),
    })
}

/// The answer that an event was carried out, by a line. `Memory` is its only fault.
pub(crate) fn done_by(alloc: Global, told: Success) -> Result<Answered, TableFault>
    ensures answered { IfOk result (λ answered. answered ≡ done_by told) }
    ensures memory { IfErr result (λ fault. fault ≡ TableFault.Memory) }
{
    let reply = success_line(alloc, told)?;
    Ok(Answered {
        reply,
        verdict: line_done(),
    })
}

/// A line that tells a refusal's word. `Memory` is its only fault.
pub fn refusal_line(alloc: Global, word: Word) -> Result<Reply, TableFault>
    ensures line { IfOk result (λ told_line. told_line ≡ reply.Line (word_text word)) }
    ensures memory { IfErr result (λ fault. fault ≡ TableFault.Memory) }
{
    Ok(Reply::Line(line(alloc, word)?))
}

/// A line that tells that something was carried out. `Memory` is its only fault.
pub fn success_line(alloc: Global, told: Success) -> Result<Reply, TableFault>
    ensures line { IfOk result (λ told_line. told_line ≡ reply.Line (success_text told)) }
    ensures memory { IfErr result (λ fault. fault ≡ TableFault.Memory) }
{
    Ok(Reply::Line(success(alloc, told)?))
}

/// The verdict of an event that is refused by a line: client-error-not-possible.
pub(crate) fn line_refused(word: Word) -> Verdict
    ensures { result ≡ line_refused word }
{
    let refusal = Refusal {
        status: 0x0404,
        word,
    };
    Verdict::Refused { refusal, job: None }
}

/// The verdict of an event that is carried out, and answered by a line or by documents:
/// successful-ok.
pub(crate) fn line_done() -> Verdict
    ensures { result ≡ line_done }
{
    Verdict::Done {
        status: 0x0000,
        job: None,
    }
}
