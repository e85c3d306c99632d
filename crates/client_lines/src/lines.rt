//! Sends the lines of an input one after another, and prints their answers, for `send`.

ghost use Rattle.std.specs.Prelude.{◌≡◌, ◌≢◌, ◌++◌, codes, IfErr, IfOk, IfSome, IfNone, IsErrOf, OnOk, OnErr};
ghost use Rattle.std.specs.Io.KnownBytes.{Appends};
ghost use Rattle.client_lines.specs.ProofAnswering.{AnsweredOnce, PrintsAnswer, SentAndAnswered, TakesLines};
ghost use Rattle.client_lines.specs.Replies.{Answered};
ghost use Rattle.client_lines.specs.Sending.{HasLongLine, IsAtKnownEnd, SendsAll, SendsFront, SendsOn};
ghost use Rattle.client_lines.specs.ProofTaking.{TakesTooMany};
ghost use Rattle.client_lines.specs.Peers.{reader_of, writer_of};

use crate::answer::Answer;
use crate::documents::take_documents;
use crate::fault::ClientFault;
use crate::input::next_line;
use crate::keeper::Keeper;
use crate::outcome::Outcome;
use crate::peer::Peer;
use std::alloc::Global;
use std::io::{BufRead, Write};

/// Sends each line of the input, to its end, and prints its answer before the next one is read: the
/// line that was answered with those that follow it, or of each document its line and what the
/// keeper prints. No line is judged here.
pub fn send_lines<I: BufRead, R: BufRead, W: Write, K: Keeper, O: Write>(
    alloc: Global,
    input: &mut I,
    peer: &mut Peer<R, W>,
    keeper: &mut K,
    output: &mut O,
) -> Result<Outcome, ClientFault>
    ensures sent { OnOk result (SendsAll (I.remaining input.old)
        (W.contents (writer_of peer.old)) (W.contents (writer_of peer.new))) }
    ensures front { OnErr result (SendsFront (I.remaining input.old)
        (W.contents (writer_of peer.old)) (W.contents (writer_of peer.new))) }
    ensures end { OnOk result
        (IsAtKnownEnd (I.remaining input.old) (I.remaining input.new)) }
    ensures answered { IfOk result (Answered (K.shown keeper.old)
        (W.contents (writer_of peer.old)) (W.contents (writer_of peer.new))
        (R.remaining (reader_of peer.old)) (R.remaining (reader_of peer.new))
        (O.contents output.old) (O.contents output.new)) }
    ensures long { IsErrOf result ClientFault.TooLong
        → IfSome (I.remaining input.old) HasLongLine }
{
    let mut outcome = Outcome::NOTHING_SENT;
    for number in 1..usize::MAX {
        let Some(answer) = send_next(alloc, input, peer, keeper, output)? else {
            return Ok(outcome);
        };
        outcome = outcome.after(number, answer);
    }
    // More lines than any input has.
    Err(ClientFault::Io)
}

/// Sends the next line of the input and prints its answer. `None` at the end of the input.
fn send_next<I: BufRead, R: BufRead, W: Write, K: Keeper, O: Write>(
    alloc: Global,
    input: &mut I,
    peer: &mut Peer<R, W>,
    keeper: &mut K,
    output: &mut O,
) -> Result<Option<Answer>, ClientFault>
    ensures sent { OnOk result (SendsOn (I.remaining input.old) (I.remaining input.new)
        (W.contents peer.old.writer) (W.contents peer.new.writer)) }
    ensures front { OnErr result (SendsFront (I.remaining input.old)
        (W.contents peer.old.writer) (W.contents peer.new.writer)) }
    ensures end { IfOk result (λ answer. IfNone answer
        (IsAtKnownEnd (I.remaining input.old) (I.remaining input.new))) }
    ensures answered { IfOk result (λ answer. IfSome answer (SentAndAnswered (K.shown keeper.old)
        (W.contents peer.old.writer) (W.contents peer.new.writer)
        (R.remaining peer.old.reader) (R.remaining peer.new.reader)
        (O.contents output.old) (O.contents output.new))) }
    ensures unheard { IfOk result (λ answer. IfNone answer (peer.new ≡ peer.old)) }
    ensures unprinted { IfOk result (λ answer. IfNone answer (output.new ≡ output.old)) }
    ensures same { K.shown keeper.new ≡ K.shown keeper.old }
    ensures long { IsErrOf result ClientFault.TooLong
        → TakesTooMany (I.remaining input.old) (I.remaining input.new) }
{
    let Some(line) = next_line(alloc, input)? else {
        return Ok(None);
    };
    peer.say(line.as_slice())?;
    let answer = take_answer(alloc, peer, line.as_slice(), keeper, output)?;
    output.flush()?;
    Ok(Some(answer))
}

/// Takes the answer to the line and prints it. Any line that the program does not know counts as a
/// refusal. `Broken` where a count of lines or documents that follow is no number.
fn take_answer<R: BufRead, W: Write, K: Keeper, O: Write>(
    alloc: Global,
    peer: &mut Peer<R, W>,
    line: &[u8],
    keeper: &mut K,
    output: &mut O,
) -> Result<Answer, ClientFault>
    ensures answered { IfOk result (AnsweredOnce (K.shown keeper.old)
        (R.remaining peer.old.reader) (R.remaining peer.new.reader)
        (O.contents output.old) (O.contents output.new) line.now) }
    ensures same { K.shown keeper.new ≡ K.shown keeper.old }
    ensures writer { peer.new.writer ≡ peer.old.writer }
    ensures fault { IfErr result (λ fault. fault ≢ ClientFault.TooLong) }
{
    let text = peer.hear(alloc)?;
    let answer = Answer::read(text.as_slice()).ok_or(ClientFault::Broken)?;
    print_answer(alloc, peer, line, text.as_slice(), answer, keeper, output)?;
    Ok(answer)
}

/// Prints an answer to the line: what it says with the lines that follow, or the documents.
fn print_answer<R: BufRead, W: Write, K: Keeper, O: Write>(
    alloc: Global,
    peer: &mut Peer<R, W>,
    line: &[u8],
    text: &[u8],
    answer: Answer,
    keeper: &mut K,
    output: &mut O,
) -> Result<(), ClientFault>
    ensures printed { OnOk result (PrintsAnswer (K.shown keeper.old)
        (R.remaining peer.old.reader) (R.remaining peer.new.reader)
        (O.contents output.old) (O.contents output.new) line.now text.now answer) }
    ensures same { K.shown keeper.new ≡ K.shown keeper.old }
    ensures writer { peer.new.writer ≡ peer.old.writer }
    ensures fault { IfErr result (λ fault. fault ≢ ClientFault.TooLong) }
{
    if let Answer::Documents(count) = answer {
        return take_documents(alloc, peer, line, count, keeper, output);
    }
    print_line(text, output)?;
    take_lines(alloc, peer, answer.lines(), output)
}

/// Takes so many lines, and prints each as it is.
fn take_lines<R: BufRead, W: Write, O: Write>(
    alloc: Global,
    peer: &mut Peer<R, W>,
    count: u32,
    output: &mut O,
) -> Result<(), ClientFault>
    ensures taken { OnOk result (TakesLines
        (R.remaining peer.old.reader) (R.remaining peer.new.reader)
        (O.contents output.old) (O.contents output.new) count) }
    ensures writer { peer.new.writer ≡ peer.old.writer }
    ensures fault { IfErr result (λ fault. fault ≢ ClientFault.TooLong) }
{
    for _ in 0..count {
        let line = peer.hear(alloc)?;
        print_line(line.as_slice(), output)?;
    }
    Ok(())
}

/// Prints the line, and a line feed.
fn print_line<O: Write>(line: &[u8], output: &mut O) -> Result<(), ClientFault>
    ensures printed { OnOk result (Appends (O.contents output.old) (O.contents output.new)
        (line.now ++ codes "\n")) }
    ensures fault { IfErr result (λ fault. fault ≢ ClientFault.TooLong) }
{
    output.write_all(line)?;
    output.write_all(b"\n")?;
    Ok(())
}
