//! Sends a file of grants, record by record, for `send --grants`.
ghost use Rattle.std.specs.Prelude.{◌≡◌, ◌≢◌, ◌-◌, ◌^◌, ◌<◌, ◌≤◌, ◌++◌, All, IfErr, IfOk, IsErrOf, OnErr, OnOk, List, ℕ, Some, codes, decimal, option_map, true};
ghost use Rattle.std.specs.Io.KnownBytes.{Appends};
ghost use Rattle.account_rules.specs.Limits.{first_month, last_month};
ghost use Rattle.client_lines.specs.ProofAnswering.{GrantAnswered, HearsResult};
ghost use Rattle.client_lines.specs.Answers.{answer_said};
ghost use Rattle.client_lines.specs.Grants.{SendsFile, SendsFileFront, grant_text, line_asked, record_sent, records_sent};
ghost use Rattle.client_lines.specs.GrantReplies.{FileAnswered, GrantsAnswered};
ghost use Rattle.client_lines.specs.Peers.{reader_of, writer_of};
ghost use Rattle.client_lines.specs.Sending.{AppendsUpTo};
ghost use Rattle.input_fields.specs.GrantFiles.{is_too_large};
ghost use Rattle.input_fields.specs.GrantLines.{IsInRange};

use crate::answer::Answer;
use crate::fault::ClientFault;
use crate::month::month_text;
use crate::outcome::Outcome;
use crate::peer::Peer;
use account_rules::Name;
use input_fields::{GrantLine, Source, read_grants};
use std::alloc::{AllocError, Global};
use std::io::{BufRead, Write};

/// Reads a file of grants, sends a line `grant ACCOUNT YYYY-MM PAGES` for each good record, in
/// order, and prints of each record its number from 1 and what its grant came to, or `bad`. Nothing
/// is sent of a file that is too long.
pub fn send_grants<S: Source, R: BufRead, W: Write, O: Write>(
    alloc: Global,
    input: &mut S,
    peer: &mut Peer<R, W>,
    output: &mut O,
) -> Result<Outcome, ClientFault>
    requires { S.failures input.old < 2 ^ 64 - 1 }
    ensures sent { OnOk result (SendsFile (S.left input.old)
        (W.contents (writer_of peer.old)) (W.contents (writer_of peer.new))) }
    ensures front { OnErr result (SendsFileFront (S.left input.old)
        (W.contents (writer_of peer.old)) (W.contents (writer_of peer.new))) }
    ensures answered { IfOk result (FileAnswered (S.left input.old)
        (R.remaining (reader_of peer.old)) (R.remaining (reader_of peer.new))
        (O.contents output.old) (O.contents output.new)) }
    ensures long { IsErrOf result ClientFault.TooLong → (file : List ℕ)
        × S.left input.old file × (is_too_large file ≡ true) }
{
    let records = read_grants(alloc, input)?;
    send_records(alloc, peer, records.as_slice(), output)
}

/// Sends the lines of the records, one after another, and prints what each grant came to.
fn send_records<R: BufRead, W: Write, O: Write>(
    alloc: Global,
    peer: &mut Peer<R, W>,
    records: &[GrantLine],
    output: &mut O,
) -> Result<Outcome, ClientFault>
    requires { All IsInRange records.now }
    ensures sent { OnOk result (Appends (W.contents peer.old.writer) (W.contents peer.new.writer)
        (records_sent records.now)) }
    ensures front { AppendsUpTo (W.contents peer.old.writer) (W.contents peer.new.writer)
        (records_sent records.now) }
    ensures answered { IfOk result (GrantsAnswered records.now
        (R.remaining peer.old.reader) (R.remaining peer.new.reader)
        (O.contents output.old) (O.contents output.new)) }
    ensures fault { IfErr result (λ fault. fault ≢ ClientFault.TooLong) }
{
    let mut outcome = Outcome::NOTHING_SENT;
    for (index, record) in records.iter().enumerate() {
        let number = index + 1;
        let answer = send_record(alloc, peer, number, record, output)?;
        outcome = outcome.after(number, answer);
    }
    Ok(outcome)
}

/// Sends the line of a record, where it has one, and prints its number and its answer.
fn send_record<R: BufRead, W: Write, O: Write>(
    alloc: Global,
    peer: &mut Peer<R, W>,
    number: usize,
    said: &GrantLine,
    output: &mut O,
) -> Result<Answer, ClientFault>
    requires { IsInRange said.now }
    ensures sent { OnOk result (Appends (W.contents peer.old.writer) (W.contents peer.new.writer)
        (record_sent said.now)) }
    ensures front { AppendsUpTo (W.contents peer.old.writer) (W.contents peer.new.writer)
        (record_sent said.now) }
    ensures answered { IfOk result (GrantAnswered said.now number
        (R.remaining peer.old.reader) (R.remaining peer.new.reader)
        (O.contents output.old) (O.contents output.new)) }
    ensures fault { IfErr result (λ fault. fault ≢ ClientFault.TooLong) }
{
    let Some(line) = line_of(alloc, said)? else {
        print_bad(number, output)?;
        return Ok(Answer::Refused);
    };
    peer.say(line.as_slice())?;
    take_result(alloc, peer, number, output)
}

/// Prints that the record of the number is bad: `NUMBER bad`.
fn print_bad<O: Write>(number: usize, output: &mut O) -> Result<(), ClientFault>
    ensures printed { OnOk result (Appends (O.contents output.old) (O.contents output.new)
        (decimal number ++ codes " bad\n")) }
    ensures fault { IfErr result (λ fault. fault ≢ ClientFault.TooLong) }
{
    writeln!(output, "{number} bad")?;
    Ok(output.flush()?)
}

/// Prints the number of a record, and a space.
fn print_number<O: Write>(number: usize, output: &mut O) -> Result<(), ClientFault>
    ensures printed { OnOk result (Appends (O.contents output.old) (O.contents output.new)
        (decimal number ++ codes " ")) }
    ensures fault { IfErr result (λ fault. fault ≢ ClientFault.TooLong) }
{
    Ok(write!(output, "{number} ")?)
}

/// Takes the answer to the line of a record, and prints it behind the record's number.
fn take_result<R: BufRead, W: Write, O: Write>(
    alloc: Global,
    peer: &mut Peer<R, W>,
    number: usize,
    output: &mut O,
) -> Result<Answer, ClientFault>
    ensures heard { IfOk result (HearsResult number
        (R.remaining peer.old.reader) (R.remaining peer.new.reader)
        (O.contents output.old) (O.contents output.new)) }
    ensures writer { peer.new.writer ≡ peer.old.writer }
    ensures fault { IfErr result (λ fault. fault ≢ ClientFault.TooLong) }
{
    let text = peer.hear(alloc)?;
    let answer = result_said(text.as_slice())?;
    print_number(number, output)?;
    output.write_all(text.as_slice())?;
    output.write_all(b"\n")?;
    output.flush()?;
    Ok(answer)
}

/// Reads what a grant was answered. `Broken` where documents or a list follow.
fn result_said(text: &[u8]) -> Result<Answer, ClientFault>
    ensures said { IfOk result (λ answer. answer_said text.now ≡ Some answer) }
    ensures fault { IfErr result (λ fault. fault ≢ ClientFault.TooLong) }
{
    match Answer::read(text) {
        None | Some(Answer::Documents(_) | Answer::Lines(_)) => Err(ClientFault::Broken),
        Some(answer) => Ok(answer),
    }
}

/// Makes the line that grants what a record says. `None` where the record is a bad one.
fn line_of(alloc: Global, said: &GrantLine) -> Result<Option<Vec<u8>>, AllocError>
    requires { IsInRange said.now }
    ensures { IfOk result (λ line. option_map (λ line. line.items) line ≡ line_asked said.now) }
{
    match *said {
        GrantLine::Good {
            account,
            month,
            pages,
        } => Ok(Some(grant_text(alloc, &account, month, pages)?)),
        GrantLine::Bad(_) => Ok(None),
    }
}

/// Makes the line `grant ACCOUNT YYYY-MM PAGES`.
pub fn grant_text(
    alloc: Global,
    account: &Name,
    month: u32,
    pages: u32,
) -> Result<Vec<u8>, AllocError>
    requires first { first_month ≤ month }
    requires last { month ≤ last_month }
    ensures { IfOk result (λ line. line.items ≡ grant_text account.now month pages) }
{
    let mut line = Vec::new(alloc);
    line.extend_from_slice(b"grant ")?;
    line.extend_from_slice(account.bytes())?;
    line.push(b' ')?;
    line.extend_from_slice(&month_text(month))?;
    let pages = format!(in alloc; " {pages}")?;
    line.extend_from_slice(pages.as_bytes())?;
    Ok(line)
}
