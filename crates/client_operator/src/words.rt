//! Takes the words of an answer, one after another, at its spaces.
ghost use Rattle.std.specs.Prelude.{◌≡◌, ◌++◌, IfOk, OnOk, codes};
ghost use Rattle.client_lines.specs.Words.{HasNoSpace};

use client_lines::{ClientFault, first_word};

/// The words of a line, one after another.
#[derive(Clone, Copy)]
pub(crate) struct Words<'a> {
    rest: &'a [u8],
}

impl<'a> Words<'a> {
    /// Begins with the first word of a line.
    pub(crate) fn of(line: &'a [u8]) -> Words<'a>
        ensures { result.rest.now ≡ line.now }
    {
        Words { rest: line }
    }

    /// Takes the next word, which has a space behind it. `Broken` where none has.
    pub(crate) fn take(&mut self) -> Result<&'a [u8], ClientFault>
        ensures parts { IfOk result
            (λ word. self.old.rest.now ≡ word.now ++ codes " " ++ self.new.rest.now) }
        ensures word { IfOk result (λ word. HasNoSpace word.now) }
    {
        let (word, rest) = first_word(self.rest).ok_or(ClientFault::Broken)?;
        self.rest = rest;
        Ok(word)
    }

    /// Takes the next word, which has to be this one. `Broken` where it is another.
    pub(crate) fn skip(&mut self, wanted: &[u8]) -> Result<(), ClientFault>
        ensures { OnOk result
            (self.old.rest.now ≡ wanted.now ++ codes " " ++ self.new.rest.now) }
    {
        if self.take()? == wanted {
            return Ok(());
        }
        Err(ClientFault::Broken)
    }

    /// Gives the last word: all that is left, which may have spaces, as a job's name has.
    pub(crate) fn last(self) -> &'a [u8]
        ensures { result.now ≡ self.entry.rest.now }
    {
        self.rest
    }
}
