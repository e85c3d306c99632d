//! What the command `copy` asks for.
ghost use Rattle.std.specs.Prelude.{◌≡◌, ◌≢◌, IfOk, IfSome, None, Ok, Some, codes};
ghost use Rattle.cli_words.specs.Commands.{SaysCopying};
ghost use Rattle.cli_words.specs.Words.{first_word, placed, texts};

use crate::command::Command;
use crate::fault::Fault;
use crate::words::{COPY, is_command};
use std::alloc::Global;

/// The command `copy`: the path of a database, and the path where its copy goes.
#[derive(Clone, Copy)]
pub struct Copying<'a> {
    pub database: &'a str,
    pub file: &'a str,
}

impl<'a> Copying<'a> {
    /// What the words after the program's name ask for, or `None` where they are another command,
    /// or ask for help.
    pub fn read(alloc: Global, words: &'a [&'a str]) -> Result<Option<Copying<'a>>, Fault>
        ensures named { IfOk result (λ found. IfSome found
            (λ _. first_word words.now ≡ Some (codes "copy"))) }
        ensures other { first_word words.now ≢ Some (codes "copy") → result ≡ Ok None }
        ensures said { IfOk result
            (λ found. IfSome found (SaysCopying (placed (texts words.now)))) }
    {
        if !is_command(words, COPY) {
            return Ok(None);
        }
        match Command::read(alloc, words)? {
            Command::Copy(copy) => Ok(Some(copy)),
            _ => Ok(None),
        }
    }
}
