//! Reads the answer to `statement`: what an account has, and what of it in one month.

ghost use Rattle.std.specs.Prelude.{◌≡◌, ◌++◌, IfOk, codes};
ghost use Rattle.client_lines.specs.Words.{IsNumber};
ghost use Rattle.client_operator.specs.Statements.{TellsMonth, TellsStatement};

use crate::words::Words;
use client_lines::ClientFault;
use input_fields::decimal;

/// The numbers of a statement, in units but for `ended_then`. All but the first are as they were
/// told.
#[derive(Clone, Copy)]
pub(crate) struct Statement<'a> {
    pub(crate) granted: u64,
    pub(crate) reserved: &'a [u8],
    pub(crate) charged: &'a [u8],
    pub(crate) left: &'a [u8],
    pub(crate) charged_then: &'a [u8],
    /// How many jobs ended in the month.
    pub(crate) ended_then: &'a [u8],
    /// Units charged in the month beyond what the jobs' releases let them cost.
    pub(crate) beyond_then: &'a [u8],
}

impl<'a> Statement<'a> {
    /// Reads a line `ok granted G reserved R charged C left L month M held H pending P processing I
    /// ended E beyond B`. `Broken` where it is any other.
    pub(crate) fn read(line: &'a [u8]) -> Result<Statement<'a>, ClientFault>
        ensures { IfOk result (TellsStatement line.now) }
    {
        let mut words = Words::of(line);
        words.skip(b"ok")?;
        let (granted, reserved) = next_two(&mut words, b"granted", b"reserved")?;
        let granted = number_of(granted)?;
        let (charged, left) = next_two(&mut words, b"charged", b"left")?;
        let month = take_month(words)?;
        Ok(Statement {
            granted,
            reserved,
            charged,
            left,
            charged_then: month.charged,
            ended_then: month.ended,
            beyond_then: month.beyond,
        })
    }
}

/// The numbers of a statement that are of its month.
#[derive(Clone, Copy)]
struct Month<'a> {
    charged: &'a [u8],
    ended: &'a [u8],
    beyond: &'a [u8],
}

/// Reads `month M held H pending P processing I ended E beyond B`, and gives M, E and B.
fn take_month<'a>(words: Words<'a>) -> Result<Month<'a>, ClientFault>
    ensures { IfOk result (TellsMonth words.entry.rest.now) }
{
    let mut words = words;
    let (charged, _held) = next_two(&mut words, b"month", b"held")?;
    let (_pending, _processing) = next_two(&mut words, b"pending", b"processing")?;
    let ended = next_number(&mut words, b"ended")?;
    words.skip(b"beyond")?;
    let beyond = words.last();
    Ok(Month {
        charged,
        ended,
        beyond,
    })
}

/// Takes a name and the word behind it, and gives that word. `Broken` where another name comes.
fn next_number<'a>(words: &mut Words<'a>, name: &[u8]) -> Result<&'a [u8], ClientFault>
    ensures { IfOk result (λ word. words.old.rest.now
        ≡ name.now ++ codes " " ++ (word.now ++ codes " " ++ words.new.rest.now)) }
{
    words.skip(name)?;
    words.take()
}

/// Takes two names and the word behind each, and gives these words.
fn next_two<'a>(
    words: &mut Words<'a>,
    first: &[u8],
    second: &[u8],
) -> Result<(&'a [u8], &'a [u8]), ClientFault>
    ensures { IfOk result (λ both. words.old.rest.now
        ≡ first.now ++ codes " " ++ (both.0.now ++ codes " " ++ (second.now ++ codes " "
        ++ (both.1.now ++ codes " " ++ words.new.rest.now)))) }
{
    let number = next_number(words, first)?;
    Ok((number, next_number(words, second)?))
}

/// Reads a number in decimal.
fn number_of(word: &[u8]) -> Result<u64, ClientFault>
    ensures { IfOk result (IsNumber word.now) }
{
    decimal(word).ok_or(ClientFault::Broken)
}
