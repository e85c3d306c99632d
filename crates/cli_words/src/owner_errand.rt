//! What `print`, `jobs`, `cancel`, `hold` and `release` ask the queue of an account for.
ghost use Rattle.std.specs.Prelude.{◌≡◌, ◌≤◌, ◌↔◌, IfOk, IfSome, IsTrue, None, Ok, length};
ghost use Rattle.cli_words.specs.Words.{first_word, IsOwnerErrand};
ghost use Rattle.client_owner.specs.Queues.{IsQueueAt};

use crate::command::Command;
use crate::fault::Fault;
use crate::unfit::Unfit;
use crate::words::{CANCEL, HOLD, JOBS, PRINT, RELEASE, is_command};
use account_rules::LONGEST_JOB_NAME;
use client_owner::{JobAct, Queue};
use std::alloc::Global;

/// A command over the queue of an account, by its owner: `print`, `jobs`, `cancel`, `hold` or
/// `release`.
#[derive(Clone, Copy)]
pub struct OwnerErrand<'a> {
    pub queue: Queue<'a>,
    pub task: OwnerTask<'a>,
}

/// What an owner wants of a queue.
#[derive(Clone, Copy)]
pub enum OwnerTask<'a> {
    Print(Printing<'a>),
    Jobs,
    Act { act: JobAct, job: u32 },
}

/// A document that is to be printed.
#[derive(Clone, Copy)]
pub struct Printing<'a> {
    pub file: &'a str,
    /// The job's name, at most 255 bytes.
    pub name: &'a [u8],
    /// 1 to 999.
    pub copies: u32,
    /// The impressions of one copy, at least 1, where they are told.
    pub pages: Option<u32>,
    /// Whether standard input has a PIN.
    pub has_pin: bool,
}

impl<'a> OwnerErrand<'a> {
    ghost use Rattle.cli_words.specs.Commands.{is_owner_in_range};

    /// What the words after the program's name ask for, or `None` where they are another command,
    /// or ask for help.
    pub fn read(alloc: Global, words: &'a [&'a str]) -> Result<Option<OwnerErrand<'a>>, Fault>
        ensures named { IfOk result
            (λ found. IfSome found (λ _. IsOwnerErrand (first_word words.now))) }
        ensures other { (IsOwnerErrand (first_word words.now) → ⊥) → result ≡ Ok None }
        ensures range { IfOk result
            (λ found. IfSome found (λ asked. IsTrue (is_owner_in_range asked))) }
    {
        if !is_owner_command(words) {
            return Ok(None);
        }
        match Command::read(alloc, words)? {
            Command::Owner(errand) => Ok(Some(errand)),
            _other => Ok(None),
        }
    }
}

/// Whether the first word is one of these commands.
fn is_owner_command(words: &[&str]) -> bool
    ensures { IsTrue result ↔ IsOwnerErrand (first_word words.now) }
{
    is_command(words, PRINT)
        || is_command(words, JOBS)
        || is_command(words, CANCEL)
        || is_command(words, HOLD)
        || is_command(words, RELEASE)
}

/// The queue that a URI names, or why the word is no queue's URI.
pub(crate) fn queue_at(uri: &str) -> Result<Queue<'_>, Unfit>
    ensures { IfOk result (IsQueueAt uri.now) }
{
    Queue::read(uri.as_bytes()).ok_or(Unfit::Queue)
}

/// The name that a job gets: that which was told, or else the last part of the file's path. It is
/// refused where it has more than 255 bytes.
pub(crate) fn job_name<'a>(told: Option<&'a str>, file: &'a str) -> Result<&'a [u8], Unfit>
    ensures { IfOk result (λ name. length name.now ≤ LONGEST_JOB_NAME) }
{
    let name = match told {
        Some(name) => name.as_bytes(),
        None => last_part(file.as_bytes()),
    };
    if name.len() > LONGEST_JOB_NAME {
        return Err(Unfit::JobName);
    }
    Ok(name)
}

/// What stands behind the last `/` of a path.
fn last_part(path: &[u8]) -> &[u8] {
    match path.iter().rposition(|byte| *byte == b'/') {
        Some(place) => &path[place + 1..],
        None => path,
    }
}
