//! What the command `send` asks for.
ghost use Rattle.std.specs.Prelude.{◌≡◌, ◌≢◌, IfOk, IfSome, IsTrue, None, Ok, Some, codes};
ghost use Rattle.cli_words.specs.Words.{first_word};

use crate::address::Address;
use crate::command::Command;
use crate::fault::Fault;
use crate::words::{SEND, is_command};
use std::alloc::Global;

/// The command `send`: the lines of standard input, or its grants, go to an address, whose port is
/// not 0.
#[derive(Clone, Copy)]
pub struct Sending<'a> {
    pub address: Address<'a>,
    /// Whether the input is a file of grants.
    pub grants: bool,
    /// Where documents go that are not to be printed.
    pub folder: Option<&'a str>,
}

impl<'a> Sending<'a> {
    ghost use Rattle.cli_words.specs.Commands.{is_sending_in_range};

    /// What the words after the program's name ask for, or `None` where they are another command,
    /// or ask for help.
    pub fn read(alloc: Global, words: &'a [&'a str]) -> Result<Option<Sending<'a>>, Fault>
        ensures named { IfOk result (λ found. IfSome found
            (λ _. first_word words.now ≡ Some (codes "send"))) }
        ensures other { first_word words.now ≢ Some (codes "send") → result ≡ Ok None }
        ensures range { IfOk result
            (λ found. IfSome found (λ asked. IsTrue (is_sending_in_range asked))) }
    {
        if !is_command(words, SEND) {
            return Ok(None);
        }
        match Command::read(alloc, words)? {
            Command::Send(send) => Ok(Some(send)),
            _ => Ok(None),
        }
    }
}
