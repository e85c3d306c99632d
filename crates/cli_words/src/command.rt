//! A command line as a value, and how its words are read: which command it is, and its words and
//! options, each within its range.
ghost use Rattle.std.specs.Prelude.{◌≡◌, ◌≤◌, ℕ, List, IfOk, IfSome, IsTrue};
ghost use Rattle.std.specs.List.{list_any};
ghost use Rattle.cli_words.specs.Addresses.{has_port_from};
ghost use Rattle.cli_words.specs.Commands.{asks_for_help, is_in_range, is_owner_task_in_range, is_task_in_range, IsSaidBy};
ghost use Rattle.cli_words.specs.Words.{placed, texts};
ghost use Rattle.input_fields.specs.Fields.{SaysNumber};

use crate::address::{Address, LAST_PORT};
use crate::backing_up::BackingUp;
use crate::copying::Copying;
use crate::errand::Errand;
use crate::fault::Fault;
use crate::listening::Listening;
use crate::owner_errand::{OwnerErrand, OwnerTask, Printing, job_name, queue_at};
use crate::parser::program;
use crate::sending::Sending;
use crate::served_door::{doors_of, hosts_behind, log_behind, needs_password};
use crate::serving::Serving;
use crate::unfit::Unfit;
use crate::words::{
    ACCOUNT, ADDRESS, BACKUP, CANCEL, COPIES, COPY, CREATE, DAYS, DAYS_AGO, DEVICE, DRY_RUN, END,
    EXPIRE, EXPLAIN, FILE, FOLDER, GRANTS, HOLD, JOB, JOB_NAME, JOBS, LISTEN, MIGRATE, MONTH, ON,
    OPEN, PAGES, PIN, PING, PRINT, QUEUE, RATE, REFUND, RELEASE, REPORT, SCRIPT, SEND, SERVE,
    STATION, UNITS, WAITING, placed_words,
};
use account_rules::{LAST_JOB, MOST_COPIES, MOST_IMPRESSIONS, MOST_PAGES, MOST_RATE, Name};
use clap::ArgMatches;
use client_operator::{MOST_DAYS, ReportMonth, Task};
use client_owner::JobAct;
use input_fields::month;
use std::alloc::Global;

/// The database that lives in memory for one run.
pub const MEMORY: &str = ":memory:";

/// The most connections of one run of `listen`.
const MOST_CONNECTIONS: u32 = 1_000_000;

/// A command line of the program. `database` is the path of a file, or `:memory:`.
#[derive(Drop)]
pub enum Command<'a> {
    /// Prints the parser's help, or the version.
    Help {
        text: String,
    },
    /// Explains the messages of standard input.
    Explain,
    /// Makes the tables of a database.
    Create {
        database: &'a str,
    },
    /// Opens an account.
    Open {
        database: &'a str,
        account: Name,
    },
    /// Brings the tables of an older database up to date.
    Migrate {
        database: &'a str,
    },
    /// Copies a database.
    Copy(Copying<'a>),
    /// Copies the database of a running process.
    Backup(BackingUp<'a>),
    /// Makes a device known, and switches it on or off.
    Device {
        database: &'a str,
        name: Name,
        on: bool,
    },
    /// Sets how many units, 1 to 100, a device counts for an impression.
    Rate {
        database: &'a str,
        name: Name,
        units: u32,
    },
    /// Takes the grants of standard input.
    Grants {
        database: &'a str,
    },
    /// Runs the station's lines of standard input.
    Station {
        database: &'a str,
    },
    /// Runs the lines of standard input, each of which has its moment.
    Script {
        database: &'a str,
    },
    /// Serves connections.
    Listen(Listening<'a>),
    /// Serves HTTP and lines.
    Serve(Serving<'a>),
    /// Sends lines or grants to what serves them.
    Send(Sending<'a>),
    /// Asks an operator's address.
    Errand(Errand<'a>),
    /// Asks the queue of an account.
    Owner(OwnerErrand<'a>),
}

/// The fault of words of which one is not UTF-8, with the parser's usage.
pub(crate) fn not_text(alloc: Global) -> Fault {
    match program(alloc) {
        Ok(mut program) => Unfit::Text.fault(&mut program),
        Err(error) => Fault::from(error),
    }
}

impl<'a> Command<'a> {
    /// Reads the words after the program's name. A command, a count of words, a number or a switch
    /// that is not in the table comes before a bad name.
    pub fn read(alloc: Global, words: &'a [&'a str]) -> Result<Command<'a>, Fault>
        ensures range { IfOk result (λ command. IsTrue (is_in_range command)) }
        ensures said { IfOk result (IsSaidBy (placed (texts words.now))) }
    {
        let mut program = program(alloc)?;
        read_by(alloc, &mut program, words)
    }
}

/// Reads the words with this parser. Where they are no command line, the parser's text is the
/// fault, unless they ask for help.
fn read_by<'a>(
    alloc: Global,
    program: &mut clap::Command<'a>,
    words: &'a [&'a str],
) -> Result<Command<'a>, Fault>
    ensures range { IfOk result (λ command. IsTrue (is_in_range command)) }
    ensures said { IfOk result (IsSaidBy (placed (texts words.now))) }
{
    match program.try_get_matches_from_mut(words) {
        Ok(matches) => of_matches(alloc, &matches, words).map_err(|unfit| unfit.fault(program)),
        Err(error) => help_of(alloc, error, words),
    }
}

/// The parser's text as the command `Help`, if the words ask for that, and else as a fault.
fn help_of<'a>(alloc: Global, told: clap::Error, words: &[&str]) -> Result<Command<'a>, Fault>
    ensures range { IfOk result (λ command. IsTrue (is_in_range command)) }
    ensures said { IfOk result (IsSaidBy (placed (texts words.now))) }
{
    let placed = placed_words(alloc, words)?;
    if told.use_stderr() || !ask_for_help(placed.as_slice()) {
        return Err(Fault::from(told));
    }
    let text = format!(in alloc; "{told}")?;
    Ok(Command::Help { text })
}

/// Whether any word asks for help, or for the version.
fn ask_for_help(words: &[&str]) -> bool
    ensures { result ≡ list_any asks_for_help (texts words.now) }
{
    match words {
        [] => false,
        [word, rest @ ..] => asks_for_help(word) || ask_for_help(rest),
    }
}

/// Whether this word asks for help, or for the version.
fn asks_for_help(word: &str) -> bool
    ensures { result ≡ asks_for_help word.now }
{
    word == "help"
        || word == "--help"
        || word == "--version"
        || word.starts_with("-h")
        || word.starts_with("-V")
}

/// The command that the parser has found, with its words read into values.
fn of_matches<'a>(
    alloc: Global,
    matches: &ArgMatches<'a>,
    words: &[&'a str],
) -> Result<Command<'a>, Unfit>
    ensures range { IfOk result (λ command. IsTrue (is_in_range command)) }
    ensures said { IfOk result (IsSaidBy (placed (texts words.now))) }
{
    match matches.subcommand() {
        Some((COPY, _)) => copy_command(alloc, words),
        Some((BACKUP, _)) => backup_command(alloc, words),
        Some((SERVE, _)) => serve_command(alloc, words),
        Some((SEND, found)) => send_command(found),
        Some((PING, found)) => errand(found, Task::Ping),
        Some((END, found)) => errand(found, Task::End),
        Some((REPORT, found)) => errand(found, report_task(found)?),
        Some((WAITING, found)) => errand(found, waiting_task(found)?),
        Some((EXPIRE, found)) => errand(found, expire_task(found)?),
        Some((REFUND, found)) => errand(found, refund_task(found)?),
        Some((command, found)) if is_of_owner(command) => owner_command(command, found),
        Some(_) => plain_command(alloc, words),
        None => Err(Unfit::Missing),
    }
}

/// Reads a command with no flags, whose words are told by their places.
fn plain_command<'a>(alloc: Global, words: &[&'a str]) -> Result<Command<'a>, Unfit>
    ensures range { IfOk result (λ command. IsTrue (is_in_range command)) }
    ensures said { IfOk result (IsSaidBy (placed (texts words.now))) }
{
    let placed = placed_words(alloc, words)?;
    let [command, words @ ..] = placed.as_slice() else {
        return Err(Unfit::Missing);
    };
    match (*command, words) {
        (EXPLAIN, []) => Ok(Command::Explain),
        (CREATE, [database]) => Ok(Command::Create { database }),
        (MIGRATE, [database]) => Ok(Command::Migrate { database }),
        (GRANTS, [database]) => Ok(Command::Grants { database }),
        (STATION, [database]) => Ok(Command::Station { database }),
        (SCRIPT, [database]) => Ok(Command::Script { database }),
        (OPEN, [database, account]) => Ok(Command::Open {
            database,
            account: name_in(account)?,
        }),
        (DEVICE, [database, name, switch]) => Ok(Command::Device {
            database,
            on: *switch == ON,
            name: name_in(name)?,
        }),
        (RATE, [database, name, units]) => Ok(Command::Rate {
            database,
            units: number_in(units, 1, MOST_RATE, Unfit::Units)?,
            name: name_in(name)?,
        }),
        (LISTEN, [database, port, count]) => Ok(Command::Listen(Listening {
            database,
            port: port_in(port)?,
            connections: number_in(count, 0, MOST_CONNECTIONS, Unfit::Count)?,
        })),
        _ => Err(Unfit::Missing),
    }
}

/// Reads the words of `copy`, which are told by their places.
fn copy_command<'a>(alloc: Global, words: &[&'a str]) -> Result<Command<'a>, Unfit>
    ensures range { IfOk result (λ command. IsTrue (is_in_range command)) }
    ensures said { IfOk result (IsSaidBy (placed (texts words.now))) }
{
    let placed = placed_words(alloc, words)?;
    let [_, database, file] = placed.as_slice() else {
        return Err(Unfit::Missing);
    };
    Ok(Command::Copy(Copying { database, file }))
}

/// Reads the words of `backup`, which are told by their places.
fn backup_command<'a>(alloc: Global, words: &[&'a str]) -> Result<Command<'a>, Unfit>
    ensures range { IfOk result (λ command. IsTrue (is_in_range command)) }
    ensures said { IfOk result (IsSaidBy (placed (texts words.now))) }
{
    let placed = placed_words(alloc, words)?;
    let [_, address, file] = placed.as_slice() else {
        return Err(Unfit::Missing);
    };
    Ok(Command::Backup(BackingUp::of(address, file)?))
}

/// Reads the words of `serve`, which are told by their places, and the options behind them.
fn serve_command<'a>(alloc: Global, words: &[&'a str]) -> Result<Command<'a>, Unfit>
    ensures range { IfOk result (λ command. IsTrue (is_in_range command)) }
    ensures said { IfOk result (IsSaidBy (placed (texts words.now))) }
{
    let placed = placed_words(alloc, words)?;
    let [_, database, doors @ ..] = placed.as_slice() else {
        return Err(Unfit::Missing);
    };
    Ok(Command::Serve(Serving {
        database,
        doors: doors_of(alloc, doors)?,
        log: log_behind(doors),
        needs_password: needs_password(doors),
        hosts: hosts_behind(doors),
    }))
}

/// Reads the words of `send`.
fn send_command<'a>(words: &ArgMatches<'a>) -> Result<Command<'a>, Unfit>
    ensures range { IfOk result (λ command. IsTrue (is_in_range command)) }
    ensures said { (given : List (List ℕ)) → IfOk result (IsSaidBy given) }
{
    Ok(Command::Send(Sending {
        address: address(words, ADDRESS, 1, Unfit::Address)?,
        grants: words.get_flag(GRANTS),
        folder: words.get_str(FOLDER),
    }))
}

/// The command that asks an operator's address for this task.
fn errand<'a>(words: &ArgMatches<'a>, task: Task) -> Result<Command<'a>, Unfit>
    requires { IsTrue (is_task_in_range task) }
    ensures range { IfOk result (λ command. IsTrue (is_in_range command)) }
    ensures said { (given : List (List ℕ)) → IfOk result (IsSaidBy given) }
{
    let address = address(words, ADDRESS, 1, Unfit::Address)?;
    Ok(Command::Errand(Errand { address, task }))
}

/// Reads what `report` asks for: a month, or the devices where none is told.
fn report_task(words: &ArgMatches<'_>) -> Result<Task, Unfit>
    ensures { IfOk result (λ task. IsTrue (is_task_in_range task)) }
{
    let Some(text) = words.get_str(MONTH) else {
        return Ok(Task::Devices);
    };
    let month = month(text.as_bytes()).ok_or(Unfit::Month)?;
    let month = ReportMonth::of(month).ok_or(Unfit::Month)?;
    Ok(Task::Report { month })
}

/// Reads what `waiting` asks for: all jobs, or only those made at least so many days ago.
fn waiting_task(words: &ArgMatches<'_>) -> Result<Task, Unfit>
    ensures { IfOk result (λ task. IsTrue (is_task_in_range task)) }
{
    match words.get_str(DAYS_AGO) {
        Some(_) => {
            let days = number(words, DAYS_AGO, 0, MOST_DAYS, Unfit::Days)?;
            Ok(Task::Waiting { days: Some(days) })
        }
        None => Ok(Task::Waiting { days: None }),
    }
}

/// Reads what `expire` asks for.
fn expire_task(words: &ArgMatches<'_>) -> Result<Task, Unfit>
    ensures { IfOk result (λ task. IsTrue (is_task_in_range task)) }
{
    let days = number(words, DAYS, 0, MOST_DAYS, Unfit::Days)?;
    let shown_only = words.get_flag(DRY_RUN);
    Ok(Task::Expire { days, shown_only })
}

/// Reads what `refund` asks for.
fn refund_task(words: &ArgMatches<'_>) -> Result<Task, Unfit>
    ensures { IfOk result (λ task. IsTrue (is_task_in_range task)) }
{
    let pages = number(words, UNITS, 0, MOST_PAGES, Unfit::Pages)?;
    let account = name(words, ACCOUNT)?;
    Ok(Task::Refund { account, pages })
}

/// Whether a command asks the queue of an account.
fn is_of_owner(command: &str) -> bool {
    matches!(command, PRINT | JOBS | CANCEL | HOLD | RELEASE)
}

/// Reads the words of a command over the queue of an account.
fn owner_command<'a>(command: &str, words: &ArgMatches<'a>) -> Result<Command<'a>, Unfit>
    ensures range { IfOk result (λ command. IsTrue (is_in_range command)) }
    ensures said { (given : List (List ℕ)) → IfOk result (IsSaidBy given) }
{
    let task = owner_task(command, words)?;
    let queue = queue_at(word(words, QUEUE)?)?;
    Ok(Command::Owner(OwnerErrand { queue, task }))
}

/// Reads what the command wants of the queue.
fn owner_task<'a>(command: &str, words: &ArgMatches<'a>) -> Result<OwnerTask<'a>, Unfit>
    ensures { IfOk result (λ task. IsTrue (is_owner_task_in_range task)) }
{
    match command {
        PRINT => print_task(words),
        JOBS => Ok(OwnerTask::Jobs),
        CANCEL => act_task(words, JobAct::Cancel),
        HOLD => act_task(words, JobAct::Hold),
        RELEASE => act_task(words, JobAct::Release),
        _ => Err(Unfit::Missing),
    }
}

/// Reads what `print` asks for.
fn print_task<'a>(words: &ArgMatches<'a>) -> Result<OwnerTask<'a>, Unfit>
    ensures { IfOk result (λ task. IsTrue (is_owner_task_in_range task)) }
{
    let file = word(words, FILE)?;
    Ok(OwnerTask::Print(Printing {
        file,
        name: job_name(words.get_str(JOB_NAME), file)?,
        copies: copies(words)?,
        pages: pages(words)?,
        has_pin: words.get_flag(PIN),
    }))
}

/// How many copies `--copies` tells, or one where it is left out.
fn copies(words: &ArgMatches<'_>) -> Result<u32, Unfit>
    ensures { IfOk result (λ copies. (1 ≤ copies) × (copies ≤ MOST_COPIES)) }
{
    match words.get_str(COPIES) {
        Some(_) => number(words, COPIES, 1, MOST_COPIES, Unfit::Copies),
        None => Ok(1),
    }
}

/// How many pages of one copy `--pages` tells, if it is there.
fn pages(words: &ArgMatches<'_>) -> Result<Option<u32>, Unfit>
    ensures { IfOk result (λ pages. IfSome pages
        (λ count. (1 ≤ count) × (count ≤ MOST_IMPRESSIONS))) }
{
    match words.get_str(PAGES) {
        Some(_) => Ok(Some(number(words, PAGES, 1, MOST_IMPRESSIONS, Unfit::Impressions)?)),
        None => Ok(None),
    }
}

/// An act on the job whose number the words have.
fn act_task<'a>(words: &ArgMatches<'a>, act: JobAct) -> Result<OwnerTask<'a>, Unfit>
    ensures { IfOk result (λ task. IsTrue (is_owner_task_in_range task)) }
{
    let job = number(words, JOB, 1, LAST_JOB, Unfit::Job)?;
    Ok(OwnerTask::Act { act, job })
}

/// The word that the parser has found under this name.
fn word<'a>(words: &ArgMatches<'a>, id: &str) -> Result<&'a str, Unfit> {
    words.get_str(id).ok_or(Unfit::Missing)
}

/// The account's or device's name in the word that the parser has found under `id`.
fn name(words: &ArgMatches<'_>, id: &str) -> Result<Name, Unfit> {
    name_in(word(words, id)?)
}

/// The account's or device's name that a word is.
fn name_in(word: &str) -> Result<Name, Unfit>
    ensures { IfOk result (λ name. name ≡ word.now) }
{
    Name::read(word.as_bytes()).ok_or(Unfit::Name)
}

/// The port, from 1 on, that a word is.
fn port_in(word: &str) -> Result<u16, Unfit>
    ensures range { IfOk result (λ port. 1 ≤ port) }
    ensures said { IfOk result (SaysNumber word.now) }
{
    let port = number_in(word, 1, LAST_PORT, Unfit::Port)?;
    Ok(port as u16)
}

/// The address in the word that the parser has found under `id`, of a port from `least` on. `unfit`
/// tells why it is none.
fn address<'a>(
    words: &ArgMatches<'a>,
    id: &str,
    least: u32,
    unfit: Unfit,
) -> Result<Address<'a>, Unfit>
    ensures { IfOk result (λ address. IsTrue (has_port_from least address)) }
{
    Address::read(word(words, id)?, least).ok_or(unfit)
}

/// The number from `least` to `most` in the word that the parser has found under `id`. `unfit`
/// tells why it is none.
fn number(
    words: &ArgMatches<'_>,
    id: &str,
    least: u32,
    most: u32,
    unfit: Unfit,
) -> Result<u32, Unfit>
    ensures { IfOk result (λ number. (least ≤ number) × (number ≤ most)) }
{
    number_in(word(words, id)?, least, most, unfit)
}

/// The number from `least` to `most` that a word is. `unfit` tells why it is none.
fn number_in(word: &str, least: u32, most: u32, unfit: Unfit) -> Result<u32, Unfit>
    ensures range { IfOk result (λ number. (least ≤ number) × (number ≤ most)) }
    ensures said { IfOk result (SaysNumber word.now) }
{
    input_fields::number(word.as_bytes(), least, most).ok_or(unfit)
}
