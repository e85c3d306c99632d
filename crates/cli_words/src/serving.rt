//! What the command `serve` asks for.
ghost use Rattle.std.specs.Prelude.{◌≡◌, ◌≢◌, IfOk, IfSome, None, Ok, Some, codes};
ghost use Rattle.cli_words.specs.Commands.{SaysServing};
ghost use Rattle.cli_words.specs.Words.{first_word, placed, texts};

use crate::command::Command;
use crate::fault::Fault;
use crate::served_door::ServedDoor;
use crate::words::{SERVE, is_command};
use std::alloc::Global;

/// The command `serve`.
pub struct Serving<'a> {
    pub database: &'a str,
    /// Of clients, of stations, of operators, and those that options name, in their order.
    pub doors: Vec<ServedDoor<'a>>,
    /// The file of the log, where one is asked for.
    pub log: Option<&'a str>,
    /// Whether the pages take no file without a password, a PIN.
    pub needs_password: bool,
    /// The names of the Hosts that the pages answer, parted by commas, where they are said.
    pub hosts: Option<&'a str>,
}

// In the place of `#[derive(Drop)]`, so that no caller proves again how each part is dropped.
impl Drop for Serving<'_> {
    fn drop(self) {
        let Serving {
            database: _,
            doors: _,
            log: _,
            needs_password: _,
            hosts: _,
        } = self;
    }
}

impl<'a> Serving<'a> {
    /// What the words after the program's name ask for, or `None` where they are another command,
    /// or ask for help.
    pub fn read(alloc: Global, words: &'a [&'a str]) -> Result<Option<Serving<'a>>, Fault>
        ensures named { IfOk result (λ found. IfSome found
            (λ _. first_word words.now ≡ Some (codes "serve"))) }
        ensures other { first_word words.now ≢ Some (codes "serve") → result ≡ Ok None }
        ensures said { IfOk result
            (λ found. IfSome found (SaysServing (placed (texts words.now)))) }
    {
        if !is_command(words, SERVE) {
            return Ok(None);
        }
        match Command::read(alloc, words)? {
            Command::Serve(serve) => Ok(Some(serve)),
            _ => Ok(None),
        }
    }
}
