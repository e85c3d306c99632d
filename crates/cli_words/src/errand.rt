//! What `ping`, `end`, `report`, `waiting`, `expire` and `refund` ask an operator's address for.
ghost use Rattle.std.specs.Prelude.{◌≡◌, ◌↔◌, IfOk, IfSome, IsTrue, None, Ok};
ghost use Rattle.cli_words.specs.Words.{first_word, IsErrand};

use crate::address::Address;
use crate::command::Command;
use crate::fault::Fault;
use crate::words::{END, EXPIRE, PING, REFUND, REPORT, WAITING, is_command};
use client_operator::Task;
use std::alloc::Global;

/// A command over an operator's address, whose port is not 0: `ping`, `end`, `report`, `waiting`,
/// `expire` or `refund`.
#[derive(Clone, Copy)]
pub struct Errand<'a> {
    pub address: Address<'a>,
    pub task: Task,
}

impl<'a> Errand<'a> {
    ghost use Rattle.cli_words.specs.Commands.{is_errand_in_range};

    /// What the words after the program's name ask for, or `None` where they are another command,
    /// or ask for help.
    pub fn read(alloc: Global, words: &'a [&'a str]) -> Result<Option<Errand<'a>>, Fault>
        ensures named { IfOk result
            (λ found. IfSome found (λ _. IsErrand (first_word words.now))) }
        ensures other { (IsErrand (first_word words.now) → ⊥) → result ≡ Ok None }
        ensures range { IfOk result
            (λ found. IfSome found (λ asked. IsTrue (is_errand_in_range asked))) }
    {
        if !is_errand(words) {
            return Ok(None);
        }
        match Command::read(alloc, words)? {
            Command::Errand(errand) => Ok(Some(errand)),
            _other => Ok(None),
        }
    }
}

/// Whether the first word is one of these commands.
fn is_errand(words: &[&str]) -> bool
    ensures { IsTrue result ↔ IsErrand (first_word words.now) }
{
    is_command(words, PING)
        || is_command(words, END)
        || is_command(words, REPORT)
        || is_command(words, WAITING)
        || is_command(words, EXPIRE)
        || is_command(words, REFUND)
}
