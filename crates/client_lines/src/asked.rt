//! The job whose documents a line (`start`, `again`) asks for, and the names of these documents.
ghost use Rattle.std.specs.Prelude.{◌≡◌, IfOk, IfSome, string_bytes};
ghost use Rattle.client_lines.specs.Names.{document_name};
ghost use Rattle.client_lines.specs.Words.{AsksDocumentsOf, asks_documents};

use crate::words::first_word;
use account_rules::{LAST_JOB, Name};
use input_fields::number;
use std::alloc::{AllocError, Global};
use std::str;

/// The job whose documents a line `start DEVICE ACCOUNT JOB` or `again DEVICE ACCOUNT JOB` asks
/// for.
#[derive(Clone, Copy, PartialEq, Eq)]
pub(crate) struct Asked {
    pub(crate) account: Name,
    pub(crate) job: u32,
}

impl Asked {
    /// Reads the job that the line names. `None` where it is no such line.
    pub(crate) fn read(line: &[u8]) -> Option<Asked>
        ensures { IfSome result (λ asked. AsksDocumentsOf line.now asked.account asked.job) }
    {
        let (word, words) = first_word(line)?;
        if !asks_documents(word) {
            return None;
        }
        let (_device, rest) = first_word(words)?;
        let (account, job) = first_word(rest)?;
        let account = Name::read(account)?;
        let job = number(job, 1, LAST_JOB)?;
        Some(Asked { account, job })
    }

    /// Makes the name under which its document of the number is kept: `ACCOUNT-JOB-NUMBER`.
    pub(crate) fn document_name(&self, alloc: Global, number: u8) -> Result<String, AllocError>
        ensures { IfOk result
            (λ name. string_bytes name ≡ document_name self.now.account self.now.job number) }
    {
        match str::from_utf8(self.account.bytes()) {
            Ok(account) => name_of(alloc, account, self.job, number),
            // The bytes of a name are ASCII.
            Err(_) => Err(AllocError),
        }
    }
}

/// Whether a line that begins with the word is answered by documents.
fn asks_documents(word: &[u8]) -> bool
    ensures { result ≡ asks_documents word.now }
{
    matches!(word, b"start" | b"again")
}

/// Makes the text `ACCOUNT-JOB-NUMBER`.
fn name_of(alloc: Global, account: &str, job: u32, number: u8) -> Result<String, AllocError>
    ensures { IfOk result (λ name. string_bytes name ≡ document_name account.now job number) }
{
    format!(in alloc; "{account}-{job}-{number}")
}
