//! One run of the program, from its words to its exit status: which command they are, and the call
//! for each.
ghost use Rattle.std.specs.Prelude.{◌≤◌, IfOk};

use crate::backing_up::run_backup;
use crate::descriptors::take_closed;
use crate::listening::listen;
use crate::serving::serve;
use crate::version::{asks_for_version, print_version};
use cli_asking::{run_errand, run_owner_errand, send};
use cli_databases::run_on;
use cli_words::{BackingUp, Errand, Fault, Listening, OwnerErrand, Sending, Serving, words_of};
use serve_sockets::moment;
use std::io::{BufWriter, Write};

/// Does what the words after the program's name ask for, over the standard streams, and answers the
/// exit status. Where that is not 0, standard error has why. `commit` is what the version tells of
/// the sources that the program is built of.
pub fn start(rt: &HostRuntime, commit: &str) -> u8
    ensures { result ≤ 5 }
{
    match begin(rt, commit) {
        Ok(status) => status,
        Err(fault) => {
            // The status tells of the fault even where its text can't be written.
            let _ = fault.report(&mut rt.stderr());
            fault.status()
        }
    }
}

/// Reads the words of the command line, and does what they ask for. Answers the exit status, or why
/// the run ended early.
fn begin(rt: &HostRuntime, commit: &str) -> Result<u8, Fault>
    ensures { IfOk result (λ status. status ≤ 5) }
{
    take_closed(rt)?;
    let alloc = rt.alloc();
    let given = words_of(rt)?;
    let words: Vec<&str> = given.iter().map(|word| word.as_str()).collect(alloc)?;
    let mut output = BufWriter::new(alloc, rt.stdout())?;
    if asks_for_version(words.as_slice()) {
        print_version(&mut output, commit)?;
        return Ok(0);
    }
    run(rt, words.as_slice(), &mut output)
}

/// Does the command that the words are: those with sockets here, and all others over one database
/// (`run_on`), which also tells of wrong words.
fn run<W: Write>(rt: &HostRuntime, words: &[&str], output: &mut W) -> Result<u8, Fault>
    ensures { IfOk result (λ status. status ≤ 5) }
{
    let alloc = rt.alloc();
    if let Some(asked) = Listening::read(alloc, words)? {
        listen(rt, &asked, output)?;
        return Ok(0);
    }
    if let Some(asked) = Serving::read(alloc, words)? {
        serve(rt, &asked, output)?;
        return Ok(0);
    }
    if let Some(asked) = Sending::read(alloc, words)? {
        send(rt, &asked, output)?;
        return Ok(0);
    }
    if let Some(asked) = Errand::read(alloc, words)? {
        run_errand(rt, moment(rt), &asked, output)?;
        return Ok(0);
    }
    if let Some(asked) = OwnerErrand::read(alloc, words)? {
        run_owner_errand(rt, moment(rt), &asked, output)?;
        return Ok(0);
    }
    if let Some(asked) = BackingUp::read(alloc, words)? {
        return run_backup(rt, &asked, output);
    }
    Ok(run_on(rt, words, moment(rt), rt.stdin(), output, &mut rt.stderr()))
}
