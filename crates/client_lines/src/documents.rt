//! Takes the documents of an answer, and gives them to the keeper.
ghost use Rattle.std.specs.Prelude.{◌≡◌, ◌≢◌, ◌≤◌, ℕ, List, IfErr, IfSome, OnOk};
ghost use Rattle.account_rules.specs.Limits.{longest_document};
ghost use Rattle.client_lines.specs.ProofAnswering.{HearsDocument, TakesDocuments};
ghost use Rattle.client_lines.specs.Words.{AsksDocumentsOf, IsHeadOf};

use crate::asked::Asked;
use crate::fault::ClientFault;
use crate::keeper::Keeper;
use crate::peer::Peer;
use crate::words::{after_word, first_word};
use account_rules::{LONGEST_DOCUMENT, MOST_COPIES};
use input_fields::number;
use std::alloc::Global;
use std::io::{BufRead, Write};

/// Takes the documents of the job that the line asked for, one after another: prints the line of
/// each, and gives its bytes to the keeper.
pub(crate) fn take_documents<R: BufRead, W: Write, K: Keeper, O: Write>(
    alloc: Global,
    peer: &mut Peer<R, W>,
    line: &[u8],
    count: u8,
    keeper: &mut K,
    output: &mut O,
) -> Result<(), ClientFault>
    ensures taken { OnOk result ((account : List ℕ) × (job : ℕ)
        × AsksDocumentsOf line.now account job × TakesDocuments (K.shown keeper.old)
        (R.remaining peer.old.reader) (R.remaining peer.new.reader)
        (O.contents output.old) (O.contents output.new) account job count) }
    ensures same { K.shown keeper.new ≡ K.shown keeper.old }
    ensures writer { peer.new.writer ≡ peer.old.writer }
    ensures fault { IfErr result (λ fault. fault ≢ ClientFault.TooLong) }
{
    let asked = Asked::read(line).ok_or(ClientFault::Broken)?;
    for index in 0..count {
        take_document(alloc, peer, &asked, index + 1, keeper, output)?;
    }
    Ok(())
}

/// Takes the document of the number, from 1: prints its line, and gives its bytes to the keeper.
fn take_document<R: BufRead, W: Write, K: Keeper, O: Write>(
    alloc: Global,
    peer: &mut Peer<R, W>,
    asked: &Asked,
    number: u8,
    keeper: &mut K,
    output: &mut O,
) -> Result<(), ClientFault>
    ensures taken { OnOk result (HearsDocument (K.shown keeper.old)
        (R.remaining peer.old.reader) (R.remaining peer.new.reader)
        (O.contents output.old) (O.contents output.new) asked.now.account asked.now.job number) }
    ensures same { K.shown keeper.new ≡ K.shown keeper.old }
    ensures writer { peer.new.writer ≡ peer.old.writer }
    ensures fault { IfErr result (λ fault. fault ≢ ClientFault.TooLong) }
{
    let head = peer.hear(alloc)?;
    let length = length_said(head.as_slice(), asked.job).ok_or(ClientFault::Broken)?;
    let bytes = peer.hear_bytes(alloc, length)?;
    output.write_all(head.as_slice())?;
    output.write_all(b"\n")?;
    let name = asked.document_name(alloc, number)?;
    keeper.keep(output, name.as_str(), bytes)?;
    Ok(())
}

/// Reads how many bytes a document has, of its line `document JOB COPIES FORMAT LENGTH`. `None`
/// where that is no line of a document of the job.
fn length_said(line: &[u8], job: u32) -> Option<u32>
    ensures most { IfSome result (λ length. length ≤ longest_document) }
    ensures said { IfSome result (IsHeadOf line.now job) }
{
    let words = after_word(line, b"document")?;
    let (own, rest) = first_word(words)?;
    let (copies, rest) = first_word(rest)?;
    let (_format, bytes) = first_word(rest)?;
    let _job = number(own, job, job)?;
    let _copies = number(copies, 1, MOST_COPIES)?;
    let length = number(bytes, 0, LONGEST_DOCUMENT as u32)?;
    Some(length)
}
