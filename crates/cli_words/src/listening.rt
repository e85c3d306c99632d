//! What the command `listen` asks for.
ghost use Rattle.std.specs.Prelude.{◌≡◌, ◌≢◌, IfOk, IfSome, IsTrue, None, Ok, Some, codes};
ghost use Rattle.cli_words.specs.Commands.{SaysListening};
ghost use Rattle.cli_words.specs.Words.{first_word, placed, texts};

use crate::command::Command;
use crate::fault::Fault;
use crate::words::{LISTEN, is_command};
use std::alloc::Global;

/// The command `listen`: so many connections, at most 1000000, one after another on a port of
/// 127.0.0.1, which is not 0.
#[derive(Clone, Copy)]
pub struct Listening<'a> {
    pub database: &'a str,
    pub port: u16,
    pub connections: u32,
}

impl<'a> Listening<'a> {
    ghost use Rattle.cli_words.specs.Commands.{is_listening_in_range};

    /// What the words after the program's name ask for, or `None` where they are another command,
    /// or ask for help.
    pub fn read(alloc: Global, words: &'a [&'a str]) -> Result<Option<Listening<'a>>, Fault>
        ensures named { IfOk result (λ found. IfSome found
            (λ _. first_word words.now ≡ Some (codes "listen"))) }
        ensures other { first_word words.now ≢ Some (codes "listen") → result ≡ Ok None }
        ensures range { IfOk result
            (λ found. IfSome found (λ asked. IsTrue (is_listening_in_range asked))) }
        ensures said { IfOk result
            (λ found. IfSome found (SaysListening (placed (texts words.now)))) }
    {
        if !is_command(words, LISTEN) {
            return Ok(None);
        }
        match Command::read(alloc, words)? {
            Command::Listen(listen) => Ok(Some(listen)),
            _ => Ok(None),
        }
    }
}
