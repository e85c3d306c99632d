//! The command `waiting`: prints a CSV record for each job that is held or pending.
ghost use Rattle.std.specs.Prelude.{◌≡◌, ◌++◌, IfOk, OnOk, map};
ghost use Rattle.std.specs.Io.KnownBytes.{Appends};
ghost use Rattle.client_operator.specs.Csv.{record_text};
ghost use Rattle.client_operator.specs.Tables.{PrintsTable};
ghost use Rattle.client_operator.specs.Talks.{InTurn, at};
ghost use Rattle.client_operator.specs.Waiting.{ListsAccount, ListsJob, is_chosen, job_fields, or_empty, waiting_head};

use crate::asked::account_line;
use crate::bar::Bar;
use crate::csv::put_record;
use crate::days_ago::is_as_old;
use crate::job::TellsJob;
use crate::names::all_names;
use crate::printed::print_record;
use crate::shown::shown_text;
use account_rules::Name;
use client_lines::{ClientFault, Peer, ask_list};
use std::alloc::Global;
use std::io::{BufRead, Write};

/// Which jobs a command is about, by age: all, or those made at least so many days before now.
#[derive(Clone, Copy)]
pub(crate) struct Age {
    /// `None` is any age.
    pub(crate) days: Option<u32>,
    /// In seconds since 1970-01-01T00:00:00Z.
    pub(crate) now: u64,
}

impl Age {
    /// Whether the job waits, and is of the age.
    pub(crate) fn has(self, job: &TellsJob<'_>) -> Result<bool, ClientFault>
        ensures { IfOk result (λ has. has ≡ is_chosen self job.now) }
    {
        if !job.waits() {
            return Ok(false);
        }
        match self.days {
            Some(days) => Ok(is_as_old(job.moment()?, days, self.now)),
            None => Ok(true),
        }
    }
}

/// Prints a record for each job of the age that waits, of all accounts. `bar` shows how many
/// accounts are done.
pub(crate) fn list_waiting<R: BufRead, W: Write, O: Write, E: Write>(
    alloc: Global,
    peer: &mut Peer<R, W>,
    age: Age,
    bar: &mut Bar<E>,
    output: &mut O,
) -> Result<(), ClientFault>
    ensures { OnOk result (PrintsTable waiting_head (ListsAccount age)
        (at W.contents R.remaining O.contents peer.old output.old)
        (at W.contents R.remaining O.contents peer.new output.new)) }
{
    let names = all_names(alloc, peer)?;
    print_head(alloc, output)?;
    list_each(alloc, peer, names.as_slice(), age, bar, output)?;
    Ok(output.flush()?)
}

/// Prints the names of the columns.
fn print_head<O: Write>(alloc: Global, output: &mut O) -> Result<(), ClientFault>
    ensures { OnOk result (Appends (O.contents output.old) (O.contents output.new)
        (record_text waiting_head)) }
{
    let fields: [&[u8]; 10] = [
        b"account",
        b"job",
        b"state",
        b"device",
        b"made",
        b"password",
        b"copies",
        b"impressions",
        b"documents",
        b"name",
    ];
    print_record(alloc, &fields, output)
}

/// Prints the records of these accounts' jobs, and has the bar show how many accounts are done.
fn list_each<R: BufRead, W: Write, O: Write, E: Write>(
    alloc: Global,
    peer: &mut Peer<R, W>,
    names: &[Name],
    age: Age,
    bar: &mut Bar<E>,
    output: &mut O,
) -> Result<(), ClientFault>
    ensures { OnOk result (InTurn (ListsAccount age)
        (at W.contents R.remaining O.contents peer.old output.old)
        (at W.contents R.remaining O.contents peer.new output.new) names.now) }
{
    for (index, name) in names.iter().enumerate() {
        list_account(alloc, peer, name, age, output)?;
        bar.show(index + 1, names.len());
    }
    Ok(())
}

/// Asks for the account's jobs, and prints the records of those of the age that wait.
fn list_account<R: BufRead, W: Write, O: Write>(
    alloc: Global,
    peer: &mut Peer<R, W>,
    account: &Name,
    age: Age,
    output: &mut O,
) -> Result<(), ClientFault>
    ensures { OnOk result (ListsAccount age account.now
        (at W.contents R.remaining O.contents peer.old output.old)
        (at W.contents R.remaining O.contents peer.new output.new)) }
{
    let asked = account_line(alloc, b"jobs ", account)?;
    let lines = ask_list(alloc, peer, asked.as_slice())?;
    let mut records = Vec::new(alloc);
    put_jobs(lines.as_slice(), account, age, &mut records)?;
    Ok(output.write_all(records.as_slice())?)
}

/// Appends the records of those jobs, told by a line each, that wait and are of the age.
fn put_jobs(
    lines: &[Vec<u8>],
    account: &Name,
    age: Age,
    records: &mut Vec<u8>,
) -> Result<(), ClientFault>
    ensures { OnOk result (InTurn (ListsJob age account.now)
        records.old.items records.new.items (map (λ line. line.items) lines.now)) }
{
    for line in lines {
        put_line(line.as_slice(), account, age, records)?;
    }
    Ok(())
}

/// Appends the record of the job that a line tells of, if it waits and is of the age.
fn put_line(line: &[u8], account: &Name, age: Age, records: &mut Vec<u8>) -> Result<(), ClientFault>
    ensures { OnOk result (ListsJob age account.now line.now
        records.old.items records.new.items) }
{
    let job = TellsJob::read(line)?;
    if !age.has(&job)? {
        return Ok(());
    }
    put_job(records, account, &job)
}

/// Appends the record of a job. What is told as `-` becomes an empty field.
fn put_job(records: &mut Vec<u8>, account: &Name, job: &TellsJob<'_>) -> Result<(), ClientFault>
    ensures { OnOk result (records.new.items
        ≡ records.old.items ++ record_text (job_fields account.now job.now)) }
{
    let name = shown_text(*records.allocator(), job.name)?;
    let fields = [
        account.bytes(),
        job.job,
        job.state,
        or_empty(job.device),
        job.made,
        or_empty(job.password),
        job.copies,
        job.impressions,
        job.documents,
        name.as_slice(),
    ];
    Ok(put_record(records, &fields)?)
}

/// Gives the word, or nothing where it is `-`.
fn or_empty(word: &[u8]) -> &[u8]
    ensures { result.now ≡ or_empty word.now }
{
    if word == b"-".as_slice() {
        return b"";
    }
    word
}
