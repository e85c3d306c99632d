//! The query of the owner's page that tells what came of the last act: how it is written and read.
ghost use Rattle.std.specs.Prelude.{◌≡◌, ◌++◌, OnOk};
ghost use Rattle.serve_web.specs.OutcomeQueries.{act_name, act_named, act_and_job, came_in, done_in, done_text, outcome_text, refused_behind, refused_in, refused_text, why_text};

use crate::digits::number;
use crate::replaced::put_replaced;
use crate::word::word_in;
use account_replies::line;
use account_rules::Word;
use input_http::before;
use itoa::Buffer;
use page_pages::{Act, Outcome};
use std::alloc::AllocError;

/// Reads what came of the last act: `done=ACT&job=NUMBER`, `refused=ACT&job=NUMBER&why=WORD` or
/// `failed`. `None` where the query is any other.
pub(crate) fn came_in(query: &[u8]) -> Option<Outcome>
    ensures { result ≡ came_in query.now }
{
    if query == b"failed".as_slice() {
        return Some(Outcome::Failed);
    }
    match query.strip_prefix(b"done=".as_slice()) {
        Some(rest) => done_in(rest),
        None => refused_in(query.strip_prefix(b"refused=".as_slice())?),
    }
}

/// Reads what stands behind `done=`.
fn done_in(rest: &[u8]) -> Option<Outcome>
    ensures { result ≡ done_in rest.now }
{
    let name = before(b'&', rest);
    let act = act_named(name)?;
    let job = number(rest[name.len()..].strip_prefix(b"&job=".as_slice())?)?;
    Some(Outcome::Done { act, job })
}

/// Reads what stands behind `refused=`.
fn refused_in(rest: &[u8]) -> Option<Outcome>
    ensures { result ≡ refused_in rest.now }
{
    let name = before(b'&', rest);
    let act = act_named(name)?;
    refused_behind(act, rest[name.len()..].strip_prefix(b"&job=".as_slice())?)
}

/// Reads what stands behind `refused=ACT&job=`: the number, and why.
fn refused_behind(act: Act, rest: &[u8]) -> Option<Outcome>
    ensures { result ≡ refused_behind rest.now act }
{
    let digits = before(b'&', rest);
    let job = number(digits)?;
    let word = word_in(rest[digits.len()..].strip_prefix(b"&why=".as_slice())?)?;
    Some(Outcome::Refused { act, job, word })
}

/// Gives the act of a name in a query.
fn act_named(name: &[u8]) -> Option<Act>
    ensures { result ≡ act_named name.now }
{
    if name == b"release".as_slice() {
        Some(Act::Release)
    } else if name == b"hold".as_slice() {
        Some(Act::Hold)
    } else if name == b"cancel".as_slice() {
        Some(Act::Cancel)
    } else if name == b"print".as_slice() {
        Some(Act::Print)
    } else {
        None
    }
}

/// Gives the name of an act in a query.
fn act_name(act: Act) -> &'static str
    ensures { result.now ≡ act_name act }
{
    match act {
        Act::Release => "release",
        Act::Hold => "hold",
        Act::Cancel => "cancel",
        Act::Print => "print",
    }
}

/// Appends what came of an act, as `came_in` reads it.
pub(crate) fn put_outcome(out: &mut Vec<u8>, outcome: &Outcome) -> Result<(), AllocError>
    ensures { OnOk result (out.new.items ≡ out.old.items ++ outcome_text outcome.now) }
{
    match outcome {
        Outcome::Done { act, job } => put_done(out, *act, *job),
        Outcome::Refused { act, job, word } => put_refused(out, *act, *job, *word),
        Outcome::Failed => out.extend_from_slice(b"failed"),
    }
}

fn put_done(out: &mut Vec<u8>, act: Act, job: u32) -> Result<(), AllocError>
    ensures { OnOk result (out.new.items ≡ out.old.items ++ done_text act job) }
{
    out.extend_from_slice(b"done=")?;
    put_act_and_job(out, act, job)
}

fn put_refused(out: &mut Vec<u8>, act: Act, job: u32, word: Word) -> Result<(), AllocError>
    ensures { OnOk result (out.new.items ≡ out.old.items ++ refused_text act job word) }
{
    out.extend_from_slice(b"refused=")?;
    put_act_and_job(out, act, job)?;
    out.extend_from_slice(b"&why=")?;
    put_why(out, word)
}

/// Appends `ACT&job=NUMBER`.
fn put_act_and_job(out: &mut Vec<u8>, act: Act, job: u32) -> Result<(), AllocError>
    ensures { OnOk result (out.new.items ≡ out.old.items ++ act_and_job act job) }
{
    let mut digits = Buffer::new();
    out.extend_from_slice(act_name(act).as_bytes())?;
    out.extend_from_slice(b"&job=")?;
    out.extend_from_slice(digits.format(job).as_bytes())
}

/// Appends the word that tells why, with `+` in the place of each space.
fn put_why(out: &mut Vec<u8>, word: Word) -> Result<(), AllocError>
    ensures { OnOk result (out.new.items ≡ out.old.items ++ why_text word) }
{
    let text = line(*out.allocator(), word)?;
    put_replaced(out, text.items.as_slice(), b' ', b'+')
}
