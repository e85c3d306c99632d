//! Appends the lines that stations and operators are told: the word of a refusal, or a success.
//! `text.rt` has them as lists of their own.

ghost use Rattle.std.specs.Prelude.{◌≡◌, ◌≤◌, length, IfOk, IfErr, OnErr, string_bytes};
ghost use Rattle.ipp_coding.specs.Spelling.{Fits};
ghost use Rattle.account_replies.specs.ProofAppends.{Appends};
ghost use Rattle.account_replies.specs.Lines.{success_text};
ghost use Rattle.account_replies.specs.Words.{word_numbers, word_text};

use crate::names::word_name;
use account_rules::{CoreFault, Format, Word};
use std::alloc::{AllocError, Global};

/// What an act of a station or an operator came to, as its line tells it.
#[derive(Clone, Copy, PartialEq, Eq)]
pub enum Success {
    Ok,
    /// The units that a job reserves, and what is left of the quota.
    Released {
        reserved: u64,
        left: i64,
    },
    /// The units that a job was charged, and what is left of the quota.
    Settled {
        charged: u64,
        left: i64,
    },
    /// A document of a job that is started: in how many copies, its format and its length in bytes.
    Started {
        job: u32,
        copies: u32,
        format: Format,
        length: u64,
    },
}

/// Appends the text of a word with its numbers, which is short enough for a value of an attribute.
/// `Memory` is its only fault.
pub fn put_line(out: &mut Vec<u8>, word: Word) -> Result<(), CoreFault>
    ensures appended { Appends result out.old.items out.new.items (word_text word) }
    ensures fits { Fits (word_text word) }
    ensures memory { IfErr result (λ fault. fault ≡ CoreFault.Memory) }
    ensures unchanged { OnErr result (out.new.items ≡ out.old.items) }
{
    Ok(append_line(out, word)?)
}

/// Appends the text of a word with its numbers, or nothing where memory ran out.
pub(crate) fn append_line(out: &mut Vec<u8>, word: Word) -> Result<(), AllocError>
    ensures appended { Appends result out.old.items out.new.items (word_text word) }
    ensures fits { Fits (word_text word) }
    ensures unchanged { OnErr result (out.new.items ≡ out.old.items) }
{
    let name = word_name(word);
    let numbers = word_numbers(*out.allocator(), word)?;
    // One reservation for both, so that a refusal leaves nothing half written.
    out.reserve(name.len() + numbers.len())?;
    out.extend_from_slice(name)?;
    out.extend_from_slice(numbers.as_bytes())
}

/// Writes the numbers that follow a word, a blank before each. Most words have none, which takes no
/// memory.
fn word_numbers(alloc: Global, word: Word) -> Result<String, AllocError>
    ensures numbers { IfOk result (λ text. string_bytes text ≡ word_numbers word) }
    ensures short { length (word_numbers word) ≤ 42 }
{
    match word {
        Word::Quota { need, left } => quota_numbers(alloc, need, left),
        Word::Conflict { held } => conflict_number(alloc, held),
        _ => Ok(String::new(alloc)),
    }
}

/// Writes the units that a release needs, and those that are left.
fn quota_numbers(alloc: Global, need: u64, left: i64) -> Result<String, AllocError>
    ensures numbers { IfOk result
        (λ text. string_bytes text ≡ word_numbers (Word.Quota need left)) }
    ensures short { length (word_numbers (Word.Quota need left)) ≤ 42 }
{
    format!(in alloc; " {need} {left}")
}

/// Writes the pages that the month was granted.
fn conflict_number(alloc: Global, held: u32) -> Result<String, AllocError>
    ensures number { IfOk result (λ text. string_bytes text ≡ word_numbers (Word.Conflict held)) }
    ensures short { length (word_numbers (Word.Conflict held)) ≤ 11 }
{
    format!(in alloc; " {held}")
}

/// Appends the line that tells a success. `Memory` is its only fault.
pub fn put_success(out: &mut Vec<u8>, s: Success) -> Result<(), CoreFault>
    ensures appended { Appends result out.old.items out.new.items (success_text s) }
    ensures memory { IfErr result (λ fault. fault ≡ CoreFault.Memory) }
    ensures unchanged { OnErr result (out.new.items ≡ out.old.items) }
{
    Ok(append_success(out, s)?)
}

/// Appends the line that tells a success, or nothing where memory ran out.
pub(crate) fn append_success(out: &mut Vec<u8>, s: Success) -> Result<(), AllocError>
    ensures appended { Appends result out.old.items out.new.items (success_text s) }
    ensures unchanged { OnErr result (out.new.items ≡ out.old.items) }
{
    let text = success_text(*out.allocator(), s)?;
    out.extend_from_slice(text.as_bytes())
}

/// Writes the line that tells a success.
fn success_text(alloc: Global, s: Success) -> Result<String, AllocError>
    ensures { IfOk result (λ text. string_bytes text ≡ success_text s) }
{
    match s {
        Success::Ok => String::from_str(alloc, "ok"),
        Success::Released { reserved, left } => {
            format!(in alloc; "ok reserved {reserved} left {left}")
        }
        Success::Settled { charged, left } => format!(in alloc; "ok charged {charged} left {left}"),
        Success::Started {
            job,
            copies,
            format,
            length,
        } => {
            let kind = format.media_type();
            format!(in alloc; "document {job} {copies} {kind} {length}")
        }
    }
}
