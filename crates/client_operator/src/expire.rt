//! The command `expire`: cancels jobs that waited too long, or shows which they are.
ghost use Rattle.std.specs.Prelude.{◌≡◌, ◌↔◌, ◌++◌, IfOk, IsTrue, OnOk, codes, map, true};
ghost use Rattle.std.specs.Io.KnownBytes.{Appends};
ghost use Rattle.client_lines.specs.Asking.{IsDone};
ghost use Rattle.client_lines.specs.Replies.{whole_line};
ghost use Rattle.client_operator.specs.Expiry.{CancelsJob, Expires, ExpiresAccount, ExpiresLine, done_at, job_shown};
ghost use Rattle.client_operator.specs.Talks.{InTurn, at};

use crate::asked::{account_line, cancel_line};
use crate::bar::Bar;
use crate::job::TellsJob;
use crate::names::all_names;
use crate::printed::print_line;
use crate::waiting::Age;
use account_rules::Name;
use client_lines::{ClientFault, Peer, ask_line, ask_list, judge};
use std::alloc::{AllocError, Global};
use std::io::{BufRead, Write};

/// Which jobs expire, and whether they are only shown.
#[derive(Clone, Copy)]
pub(crate) struct Expiry {
    pub(crate) age: Age,
    pub(crate) shown_only: bool,
}

/// Cancels each job of the age that waits, of all accounts, and prints `ACCOUNT JOB` and the answer
/// to its cancellation. With `shown_only` it cancels none, and prints `ACCOUNT JOB` alone. Gives
/// whether each was canceled that was to be.
pub(crate) fn expire<R: BufRead, W: Write, O: Write, E: Write>(
    alloc: Global,
    peer: &mut Peer<R, W>,
    expiry: Expiry,
    bar: &mut Bar<E>,
    output: &mut O,
) -> Result<bool, ClientFault>
    ensures { IfOk result (λ done. Expires expiry done
        (at W.contents R.remaining O.contents peer.old output.old)
        (at W.contents R.remaining O.contents peer.new output.new)) }
{
    let names = all_names(alloc, peer)?;
    expire_each(alloc, peer, names.as_slice(), expiry, bar, output)
}

/// Cancels or shows the jobs of these accounts, and has the bar show how many accounts are done.
/// Gives whether each was canceled that was to be.
fn expire_each<R: BufRead, W: Write, O: Write, E: Write>(
    alloc: Global,
    peer: &mut Peer<R, W>,
    names: &[Name],
    expiry: Expiry,
    bar: &mut Bar<E>,
    output: &mut O,
) -> Result<bool, ClientFault>
    ensures { IfOk result (λ done. InTurn (ExpiresAccount expiry)
        (done_at (at W.contents R.remaining O.contents peer.old output.old) true)
        (done_at (at W.contents R.remaining O.contents peer.new output.new) done) names.now) }
{
    let mut all_done = true;
    for (index, name) in names.iter().enumerate() {
        all_done = expire_account(alloc, peer, name, expiry, all_done, output)?;
        bar.show(index + 1, names.len());
    }
    Ok(all_done)
}

/// Asks for the jobs of one account, and cancels or shows those of the age that wait. Gives whether
/// each was canceled that was to be, here and before (`done_before`).
fn expire_account<R: BufRead, W: Write, O: Write>(
    alloc: Global,
    peer: &mut Peer<R, W>,
    account: &Name,
    expiry: Expiry,
    done_before: bool,
    output: &mut O,
) -> Result<bool, ClientFault>
    ensures { IfOk result (λ done. ExpiresAccount expiry account.now
        (done_at (at W.contents R.remaining O.contents peer.old output.old) done_before)
        (done_at (at W.contents R.remaining O.contents peer.new output.new) done)) }
{
    let asked = account_line(alloc, b"jobs ", account)?;
    let lines = ask_list(alloc, peer, asked.as_slice())?;
    expire_lines(
        alloc,
        peer,
        account,
        lines.as_slice(),
        expiry,
        done_before,
        output,
    )
}

/// Cancels or shows those of an account's jobs, told by a line each, that wait and are of the age.
/// Gives whether each was canceled that was to be, here and before.
fn expire_lines<R: BufRead, W: Write, O: Write>(
    alloc: Global,
    peer: &mut Peer<R, W>,
    account: &Name,
    lines: &[Vec<u8>],
    expiry: Expiry,
    done_before: bool,
    output: &mut O,
) -> Result<bool, ClientFault>
    ensures { IfOk result (λ done. InTurn (ExpiresLine expiry account.now)
        (done_at (at W.contents R.remaining O.contents peer.old output.old) done_before)
        (done_at (at W.contents R.remaining O.contents peer.new output.new) done)
        (map (λ line. line.items) lines.now)) }
{
    let mut all_done = done_before;
    for line in lines {
        all_done = expire_line(
            alloc,
            peer,
            account,
            line.as_slice(),
            expiry,
            all_done,
            output,
        )?;
    }
    Ok(all_done)
}

/// Cancels or shows the job that a line tells of, if it waits and is of the age. Gives whether it
/// was canceled, if it was to be, and all before it.
fn expire_line<R: BufRead, W: Write, O: Write>(
    alloc: Global,
    peer: &mut Peer<R, W>,
    account: &Name,
    line: &[u8],
    expiry: Expiry,
    done_before: bool,
    output: &mut O,
) -> Result<bool, ClientFault>
    ensures { IfOk result (λ done. ExpiresLine expiry account.now line.now
        (done_at (at W.contents R.remaining O.contents peer.old output.old) done_before)
        (done_at (at W.contents R.remaining O.contents peer.new output.new) done)) }
{
    let job = TellsJob::read(line)?;
    if !expiry.age.has(&job)? {
        return Ok(done_before);
    }
    if expiry.shown_only {
        show_job(alloc, account, job.job, output)?;
        return Ok(done_before);
    }
    let done = cancel_job(alloc, peer, account, job.job, output)?;
    Ok(done_before && done)
}

/// Sends the job's cancel line, and prints `ACCOUNT JOB` and its answer. Gives whether that is
/// `ok`.
fn cancel_job<R: BufRead, W: Write, O: Write>(
    alloc: Global,
    peer: &mut Peer<R, W>,
    account: &Name,
    job: &[u8],
    output: &mut O,
) -> Result<bool, ClientFault>
    ensures { IfOk result (λ done. CancelsJob account.now job.now done
        (at W.contents R.remaining O.contents peer.old output.old)
        (at W.contents R.remaining O.contents peer.new output.new)) }
{
    // What is printed takes no more memory once the job is canceled.
    let shown = job_line(alloc, account, job)?;
    let asked = cancel_line(alloc, account, job)?;
    let told = ask_line(alloc, peer, asked.as_slice())?;
    print_told(shown.as_slice(), told.as_slice(), output)?;
    is_done(told.as_slice())
}

/// Prints `ACCOUNT JOB` and an answer in one line, with a space between them.
fn print_told<O: Write>(shown: &[u8], told: &[u8], output: &mut O) -> Result<(), ClientFault>
    ensures { OnOk result (Appends (O.contents output.old) (O.contents output.new)
        (whole_line (shown.now ++ codes " " ++ told.now))) }
{
    output.write_all(shown)?;
    output.write_all(b" ")?;
    print_line(told, output)
}

/// Prints `ACCOUNT JOB`.
fn show_job<O: Write>(
    alloc: Global,
    account: &Name,
    job: &[u8],
    output: &mut O,
) -> Result<(), ClientFault>
    ensures { OnOk result (Appends (O.contents output.old) (O.contents output.new)
        (whole_line (job_shown account.now job.now))) }
{
    let shown = job_line(alloc, account, job)?;
    print_line(shown.as_slice(), output)
}

/// Makes the text `ACCOUNT JOB`.
fn job_line(alloc: Global, account: &Name, job: &[u8]) -> Result<Vec<u8>, AllocError>
    ensures { IfOk result (λ line. line.items ≡ job_shown account.now job.now) }
{
    let mut line = Vec::from_slice(alloc, account.bytes())?;
    line.push(b' ')?;
    line.extend_from_slice(job)?;
    Ok(line)
}

/// Whether the answer is `ok`: `false` where the job was not canceled. Where the event failed, that
/// is the fault.
fn is_done(told: &[u8]) -> Result<bool, ClientFault>
    ensures { IfOk result (λ done. IsTrue done ↔ IsDone told.now) }
{
    match judge(told) {
        Ok(()) => Ok(true),
        Err(ClientFault::Refused) => Ok(false),
        Err(fault) => Err(fault),
    }
}
