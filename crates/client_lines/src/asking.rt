//! Asks one question over a connection: sends a line, and gives its answer to the caller.
ghost use Rattle.std.specs.Prelude.{◌≡◌, ◌≢◌, ◌++◌, IfErr, IfOk, IsErrOf, IsTrue, List, OnOk, Some, codes, length, map, ℕ};
ghost use Rattle.std.specs.Io.KnownBytes.{Appends, Consumes};
ghost use Rattle.client_lines.specs.Answers.{answer_said, is_text};
ghost use Rattle.client_lines.specs.Asking.{HearsList, HearsLines, IsDone};
ghost use Rattle.client_lines.specs.Peers.{reader_of, writer_of};
ghost use Rattle.client_lines.specs.Sending.{AppendsUpTo};

use crate::answer::Answer;
use crate::fault::ClientFault;
use crate::peer::Peer;
use std::alloc::Global;
use std::io::{BufRead, Write};

/// Sends a line and takes its answer, which is one line, whatever that says. `Broken` where the
/// answer is a list or documents.
pub fn ask_line<R: BufRead, W: Write>(
    alloc: Global,
    peer: &mut Peer<R, W>,
    line: &[u8],
) -> Result<Vec<u8>, ClientFault>
    ensures sent { OnOk result (Appends (W.contents (writer_of peer.old))
        (W.contents (writer_of peer.new)) (line.now ++ codes "\n")) }
    ensures front { AppendsUpTo (W.contents (writer_of peer.old))
        (W.contents (writer_of peer.new)) (line.now ++ codes "\n") }
    ensures heard { IfOk result (λ text. Consumes (R.remaining (reader_of peer.old))
        (R.remaining (reader_of peer.new)) (text.items ++ codes "\n")) }
    ensures text { IfOk result (λ text. IsTrue (is_text text.items)) }
{
    peer.say(line)?;
    let text = peer.hear(alloc)?;
    if !is_one_line(text.as_slice()) {
        return Err(ClientFault::Broken);
    }
    Ok(text)
}

/// Whether an answer with this first line ends there: no lines and no documents follow.
fn is_one_line(text: &[u8]) -> bool {
    !matches!(
        Answer::read(text),
        None | Some(Answer::Documents(_) | Answer::Lines(_))
    )
}

/// Sends a line and takes its answer, which is a list: the lines behind the first. `Failed` where
/// it is `failed`, `Refused` where what was asked was refused, `Broken` where it is anything else.
pub fn ask_list<R: BufRead, W: Write>(
    alloc: Global,
    peer: &mut Peer<R, W>,
    line: &[u8],
) -> Result<Vec<Vec<u8>>, ClientFault>
    ensures sent { OnOk result (Appends (W.contents (writer_of peer.old))
        (W.contents (writer_of peer.new)) (line.now ++ codes "\n")) }
    ensures front { AppendsUpTo (W.contents (writer_of peer.old))
        (W.contents (writer_of peer.new)) (line.now ++ codes "\n") }
    ensures heard { IfOk result (λ lines. HearsList (R.remaining (reader_of peer.old))
        (R.remaining (reader_of peer.new)) (map (λ line. line.items) lines.items)) }
{
    peer.say(line)?;
    let text = peer.hear(alloc)?;
    let count = count_told(text.as_slice())?;
    hear_lines(alloc, peer, count)
}

/// Reads how many lines a list has behind its first. A fault where the answer is no list: `Failed`
/// or `Refused` where it says so, else `Broken`.
fn count_told(text: &[u8]) -> Result<u32, ClientFault>
    ensures { IfOk result (λ count. answer_said text.now ≡ Some (Answer.Lines count)) }
{
    match Answer::read(text) {
        Some(Answer::Lines(count)) => Ok(count),
        Some(Answer::Failed) => Err(ClientFault::Failed),
        Some(Answer::Refused) => Err(ClientFault::Refused),
        None | Some(Answer::BadLine | Answer::Documents(_) | Answer::Told) => {
            Err(ClientFault::Broken)
        }
    }
}

/// Takes the next lines, so many.
fn hear_lines<R: BufRead, W: Write>(
    alloc: Global,
    peer: &mut Peer<R, W>,
    count: u32,
) -> Result<Vec<Vec<u8>>, ClientFault>
    ensures heard { IfOk result (λ lines. HearsLines (R.remaining peer.old.reader)
        (R.remaining peer.new.reader) count (map (λ line. line.items) lines.items)) }
    ensures writer { peer.new.writer ≡ peer.old.writer }
{
    let mut lines = Vec::new(alloc);
    for _ in 0..count {
        let line = peer.hear(alloc)?;
        lines.push(line)?;
    }
    Ok(lines)
}

/// Checks that an answer of one line tells that what was asked was done. `Failed` where it is
/// `failed`, and `Refused` where it is anything else.
pub fn judge(text: &[u8]) -> Result<(), ClientFault>
    ensures done { OnOk result (IsDone text.now) }
    ensures not_done { IfErr result (λ _. IsDone text.now → ⊥) }
    ensures failed { IsErrOf result ClientFault.Failed → answer_said text.now ≡ Some Answer.Failed }
{
    match Answer::read(text) {
        Some(Answer::Told) => Ok(()),
        Some(Answer::Failed) => Err(ClientFault::Failed),
        _ => Err(ClientFault::Refused),
    }
}
