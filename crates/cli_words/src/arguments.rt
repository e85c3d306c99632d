//! The words that the system gives the program, as texts.

use crate::command::not_text;
use crate::fault::Fault;
use std::alloc::{AllocGlobal, Global};
use std::env::Env;
use std::io::ErrorKind;
use std::{env, io};

/// The words after the program's name. Where one is not UTF-8 they are no command line of the
/// program.
pub fn words_of<R: Env + AllocGlobal>(rt: &R) -> Result<Vec<String>, Fault> {
    match env::args(rt) {
        Ok(words) => Ok(words.skip(1).collect(rt.alloc())?),
        Err(error) => Err(fault_of(rt.alloc(), error)),
    }
}

/// Why the words can't be had: a word that is not UTF-8 is a fault of usage.
fn fault_of(alloc: Global, error: io::Error) -> Fault {
    match error.kind() {
        // A word is not UTF-8.
        ErrorKind::InvalidData => not_text(alloc),
        _ => Fault::from(error),
    }
}
