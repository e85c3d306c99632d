//! What the command `backup` asks for.
ghost use Rattle.std.specs.Prelude.{◌≡◌, ◌≢◌, IfOk, IfSome, IsTrue, None, Ok, Some, codes};
ghost use Rattle.std.specs.List.{list_all};
ghost use Rattle.cli_words.specs.Addresses.{IsAddressOf};
ghost use Rattle.cli_words.specs.Commands.{SaysBackingUp, can_be_told, is_of_field};
ghost use Rattle.cli_words.specs.Words.{first_word, placed, texts};

use crate::address::Address;
use crate::command::Command;
use crate::fault::Fault;
use crate::unfit::Unfit;
use crate::words::{BACKUP, is_command};
use std::alloc::Global;

/// The command `backup`: an operator's address, whose port is not 0, and the path where the backup
/// goes. That begins with `/`, since the process there may be in another folder, and has no space
/// and no line feed, since it is told in a line.
#[derive(Clone, Copy)]
pub struct BackingUp<'a> {
    pub address: Address<'a>,
    pub file: &'a str,
}

impl<'a> BackingUp<'a> {
    ghost use Rattle.cli_words.specs.Commands.{is_backing_up_in_range};

    /// What the words after the program's name ask for, or `None` where they are another command,
    /// or ask for help.
    pub fn read(alloc: Global, words: &'a [&'a str]) -> Result<Option<BackingUp<'a>>, Fault>
        ensures named { IfOk result (λ found. IfSome found
            (λ _. first_word words.now ≡ Some (codes "backup"))) }
        ensures other { first_word words.now ≢ Some (codes "backup") → result ≡ Ok None }
        ensures said { IfOk result
            (λ found. IfSome found (SaysBackingUp (placed (texts words.now)))) }
        ensures range { IfOk result
            (λ found. IfSome found (λ asked. IsTrue (is_backing_up_in_range asked))) }
    {
        if !is_command(words, BACKUP) {
            return Ok(None);
        }
        match Command::read(alloc, words)? {
            Command::Backup(backup) => Ok(Some(backup)),
            _ => Ok(None),
        }
    }

    /// Reads the two words behind the command's name, an address and a path.
    pub(crate) fn of(address: &'a str, file: &'a str) -> Result<BackingUp<'a>, Unfit>
        ensures address { IfOk result (λ asked. IsAddressOf address.now 1 asked.address) }
        ensures file { IfOk result (λ asked. asked.file.now ≡ file.now) }
        ensures range { IfOk result (λ asked. IsTrue (is_backing_up_in_range asked)) }
    {
        let address = Address::read(address, 1).ok_or(Unfit::Address)?;
        if !can_be_told(file) {
            return Err(Unfit::File);
        }
        Ok(BackingUp { address, file })
    }
}

/// Whether a path begins at the root, and is one field of a line.
fn can_be_told(path: &str) -> bool
    ensures { result ≡ can_be_told path.now }
{
    path.as_bytes().starts_with(b"/") && is_field(path)
}

/// Whether a path can be one field of a line: it has no space and no line feed.
fn is_field(path: &str) -> bool
    ensures { result ≡ list_all is_of_field path.now }
{
    path.bytes().all(|byte| is_of_field(byte))
}

/// Whether a byte is neither a space nor a line feed.
fn is_of_field(byte: u8) -> bool
    ensures { result ≡ is_of_field byte }
{
    byte != b' ' && byte != b'\n'
}
