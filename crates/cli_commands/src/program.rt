//! One run of a command on one database, over any reader, any writers and any databases: from its
//! words to its exit status.
ghost use Rattle.std.specs.Prelude.{◌≡◌, ◌≤◌, false, IsOk, IsTrue, None, OnOk, codes, map};
ghost use Rattle.std.specs.Io.KnownBytes.{Appends};
ghost use Rattle.input_fields.specs.Streams.{MayBeLeft};
ghost use Rattle.input_lines.specs.Actions.{is_in_range};
ghost use Rattle.cli_commands.specs.Runs.{At, Runs, RunsAction, event_of_line, RunsGrants, RunsInput, RunsLines};
ghost use Rattle.cli_words.specs.Commands.{IsSaidBy};
ghost use Rattle.cli_words.specs.Commands.{is_in_range as is_command_in_range};
ghost use Rattle.cli_words.specs.Words.{placed, texts};

use crate::grants::grant_events;
use crate::input::{read_lines, read_records, read_text};
use crate::opener::Opener;
use crate::printing::{print_explained, print_grants, print_outcomes, print_text};
use crate::tables::{Begin, first_failure, outcomes_of, prepare};
use cli_words::{Command, Fault};
use input_lines::{Action, Grammar, Line, events_of};
use sqlite::{Alter, Connection};
use std::alloc::Global;
use std::io;
use std::io::{Read, Write};

/// Does what the words after the program's name ask for, and answers the exit status. `now` is the
/// clock's moment in seconds since 1970-01-01T00:00:00Z, or `None` where it has none to give. What
/// is wrong is found in this order: the words, the names among them, the clock, reading, the input,
/// the store, writing. Where the status is not 0, `errors` gets the fault's text.
///
/// `opener` is asked for the database once nothing else can be wrong, and gets it back before
/// anything is printed. In `:memory:` each run makes tables of its own. `explain` asks for none,
/// and none of its lines is wrong. Of `copy`, `listen`, `serve`, `send` and what is asked over an
/// address or of a queue it answers `Io` with nothing run, since it has one database and no
/// sockets.
pub fn run<S, F, R, W, E>(
    alloc: Global,
    words: &[&str],
    now: Option<u64>,
    opener: F,
    input: R,
    output: &mut W,
    errors: &mut E,
) -> u8
where
    S: Alter + Drop,
    F: Opener<Kept = Connection<S>> + Drop,
    R: Read + Drop,
    W: Write,
    E: Write,
    ensures status { result ≤ 5 }
    ensures runs { result ≡ 0 → (command : Command) × IsSaidBy (placed (texts words.now)) command
        × Runs S.Store (W.contents output.old) (W.contents output.new)
        now (MayBeLeft (R.remaining input) false) command }
{
    match perform(alloc, words, now, opener, input, output) {
        Ok(()) => 0,
        Err(fault) => {
            // The status tells of the fault even where its text can't be written.
            let _ = fault.report(errors);
            fault.status()
        }
    }
}

/// Reads the words as a command, and does it.
fn perform<S, F, R, W>(
    alloc: Global,
    words: &[&str],
    now: Option<u64>,
    opener: F,
    input: R,
    output: &mut W,
) -> Result<(), Fault>
where
    S: Alter + Drop,
    F: Opener<Kept = Connection<S>> + Drop,
    R: Read + Drop,
    W: Write,
    ensures { OnOk result ((command : Command) × IsSaidBy (placed (texts words.now)) command
        × Runs S.Store (W.contents output.old) (W.contents output.new)
        now (MayBeLeft (R.remaining input) false) command) }
{
    let command = Command::read(alloc, words)?;
    run_command(alloc, &command, now, opener, input, output)
}

/// Does the command. `Io` for those that need sockets or a second file, which are done elsewhere.
fn run_command<S, F, R, W>(
    alloc: Global,
    command: &Command<'_>,
    now: Option<u64>,
    opener: F,
    input: R,
    output: &mut W,
) -> Result<(), Fault>
where
    S: Alter + Drop,
    F: Opener<Kept = Connection<S>> + Drop,
    R: Read + Drop,
    W: Write,
    requires { IsTrue (is_command_in_range command.now) }
    ensures { OnOk result (Runs S.Store (W.contents output.old) (W.contents output.new)
        now (MayBeLeft (R.remaining input) false) command.now) }
{
    match command {
        Command::Help { text } => Ok(print_text(output, text.as_str())?),
        Command::Explain => explain(alloc, input, output),
        Command::Create { database } => make(alloc, opener, database, Begin::Create, output),
        Command::Migrate { database } => make(alloc, opener, database, Begin::Migrate, output),
        Command::Open { database, account } => {
            let action = Action::Open { account: *account };
            run_now(alloc, now, opener, database, action, output)
        }
        Command::Device { database, name, on } => {
            let action = Action::Device {
                name: *name,
                on: *on,
            };
            run_now(alloc, now, opener, database, action, output)
        }
        Command::Rate {
            database,
            name,
            units,
        } => {
            let action = Action::Rate {
                name: *name,
                units: *units,
            };
            run_now(alloc, now, opener, database, action, output)
        }
        Command::Script { database } => {
            run_input(alloc, Grammar::Script, opener, database, input, output)
        }
        Command::Station { database } => run_station(alloc, now, opener, database, input, output),
        Command::Grants { database } => run_grants(alloc, now, opener, database, input, output),
        Command::Copy(_)
        | Command::Backup(_)
        | Command::Listen(_)
        | Command::Serve(_)
        | Command::Send(_)
        | Command::Errand(_)
        | Command::Owner(_) => { Err(Fault::Io) }
    }
}

/// Does `explain`: prints standard input with its messages explained.
fn explain<R: Read + Drop, W: Write>(alloc: Global, input: R, output: &mut W) -> Result<(), Fault> {
    let text = read_text(alloc, input)?;
    Ok(print_explained(alloc, output, text.as_slice())?)
}

/// Does `create` or `migrate`: makes the tables, or brings them up to date, and prints `ok`.
fn make<S, F, W>(
    alloc: Global,
    opener: F,
    database: &str,
    how: Begin,
    output: &mut W,
) -> Result<(), Fault>
where
    S: Alter + Drop,
    F: Opener<Kept = Connection<S>> + Drop,
    W: Write,
    ensures { OnOk result (Appends (W.contents output.old) (W.contents output.new) (codes "ok\n")) }
{
    prepare(alloc, opener, database, how)?;
    Ok(print_text(output, "ok\n")?)
}

/// Applies one action at the clock's moment, and prints what it came to.
fn run_now<S, F, W>(
    alloc: Global,
    now: Option<u64>,
    opener: F,
    database: &str,
    action: Action,
    output: &mut W,
) -> Result<(), Fault>
where
    S: Alter + Drop,
    F: Opener<Kept = Connection<S>> + Drop,
    W: Write,
    requires { IsTrue (is_in_range action) }
    ensures { OnOk result
        (RunsAction S.Store (W.contents output.old) (W.contents output.new) now action) }
{
    let moment = now.ok_or(Fault::Io)?;
    run_lines(alloc, opener, database, &[Line { moment, action }], output)
}

/// Does `station`: applies the station's lines of standard input at the clock's moment.
fn run_station<S, F, R, W>(
    alloc: Global,
    now: Option<u64>,
    opener: F,
    database: &str,
    input: R,
    output: &mut W,
) -> Result<(), Fault>
where
    S: Alter + Drop,
    F: Opener<Kept = Connection<S>> + Drop,
    R: Read + Drop,
    W: Write,
    ensures { OnOk result (At now (λ moment. RunsInput S.Store (W.contents output.old)
        (W.contents output.new) (MayBeLeft (R.remaining input) false) (Grammar.Station moment))) }
{
    let moment = now.ok_or(Fault::Io)?;
    let grammar = Grammar::Station { moment };
    run_input(alloc, grammar, opener, database, input, output)
}

/// Applies the lines of standard input, read by the grammar.
fn run_input<S, F, R, W>(
    alloc: Global,
    grammar: Grammar,
    opener: F,
    database: &str,
    input: R,
    output: &mut W,
) -> Result<(), Fault>
where
    S: Alter + Drop,
    F: Opener<Kept = Connection<S>> + Drop,
    R: Read + Drop,
    W: Write,
    ensures { OnOk result (RunsInput S.Store (W.contents output.old) (W.contents output.new)
        (MayBeLeft (R.remaining input) false) grammar) }
{
    let lines = read_lines(alloc, input, grammar)?;
    run_lines(alloc, opener, database, lines.as_slice(), output)
}

/// Applies all lines, and then prints what each came to.
fn run_lines<S, F, W>(
    alloc: Global,
    opener: F,
    database: &str,
    lines: &[Line],
    output: &mut W,
) -> Result<(), Fault>
where
    S: Alter + Drop,
    F: Opener<Kept = Connection<S>> + Drop,
    W: Write,
    ensures { OnOk result (RunsLines S.Store (W.contents output.old) (W.contents output.new)
        (map event_of_line lines.now)) }
{
    let events = events_of(alloc, lines)?;
    let outcomes = outcomes_of(alloc, opener, database, events.as_slice())?;
    let printed = print_outcomes(output, outcomes.as_slice());
    ended(first_failure(outcomes.as_slice()), printed)
}

/// Does `grants`: applies all good records of standard input at the clock's moment, and then prints
/// what each record came to.
fn run_grants<S, F, R, W>(
    alloc: Global,
    now: Option<u64>,
    opener: F,
    database: &str,
    input: R,
    output: &mut W,
) -> Result<(), Fault>
where
    S: Alter + Drop,
    F: Opener<Kept = Connection<S>> + Drop,
    R: Read + Drop,
    W: Write,
    ensures { OnOk result (At now (RunsGrants S.Store (W.contents output.old)
        (W.contents output.new) (MayBeLeft (R.remaining input) false))) }
{
    let moment = now.ok_or(Fault::Io)?;
    let records = read_records(alloc, input)?;
    let events = grant_events(alloc, moment, records.as_slice())?;
    let outcomes = outcomes_of(alloc, opener, database, events.as_slice())?;
    let printed = print_grants(output, records.as_slice(), outcomes.as_slice());
    ended(first_failure(outcomes.as_slice()), printed)
}

/// The outcome of a run that has printed: the fault of its first failed event, if one failed, and
/// else whether it could print.
fn ended(failure: Option<Fault>, printed: io::Result<()>) -> Result<(), Fault>
    ensures answered { OnOk result (failure ≡ None) }
    ensures printed { OnOk result (IsOk printed) }
{
    match failure {
        Some(fault) => Err(fault),
        None => Ok(printed?),
    }
}
