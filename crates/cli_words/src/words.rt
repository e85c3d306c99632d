//! The table of all commands with their words and options, as the parser and the help have them.
ghost use Rattle.std.specs.Prelude.{◌≡◌, ◌↔◌, ◌++◌, IfOk, IsTrue, OnOk, Some};
ghost use Rattle.cli_words.specs.Words.{first_word, placed, texts};

use std::alloc::{AllocError, Global};

pub const CREATE: &str = "create";

pub(crate) const OPEN: &str = "open";

pub(crate) const MIGRATE: &str = "migrate";

pub(crate) const COPY: &str = "copy";

pub(crate) const DEVICE: &str = "device";

pub(crate) const RATE: &str = "rate";

/// The command `grants`, and the option of `send` by which its input is a file of grants.
pub(crate) const GRANTS: &str = "grants";

pub(crate) const STATION: &str = "station";

pub(crate) const SCRIPT: &str = "script";

pub(crate) const EXPLAIN: &str = "explain";

pub(crate) const LISTEN: &str = "listen";

pub(crate) const SERVE: &str = "serve";

pub(crate) const SEND: &str = "send";

pub(crate) const PING: &str = "ping";

pub(crate) const END: &str = "end";

pub(crate) const BACKUP: &str = "backup";

pub(crate) const REPORT: &str = "report";

pub(crate) const WAITING: &str = "waiting";

pub(crate) const EXPIRE: &str = "expire";

pub(crate) const REFUND: &str = "refund";

pub(crate) const PRINT: &str = "print";

pub(crate) const JOBS: &str = "jobs";

pub(crate) const CANCEL: &str = "cancel";

pub(crate) const HOLD: &str = "hold";

pub(crate) const RELEASE: &str = "release";

/// The word behind which no word is a flag.
const ESCAPE: &str = "--";

pub(crate) const ON: &str = "on";

pub(crate) const SWITCHES: [&str; 2] = [ON, "off"];

const DATABASE: &str = "DB";

pub(crate) const FILE: &str = "FILE";

pub(crate) const ACCOUNT: &str = "ACCOUNT";

const NAME: &str = "NAME";

const SWITCH: &str = "SWITCH";

pub(crate) const UNITS: &str = "UNITS";

const COUNT: &str = "COUNT";

const PORT: &str = "PORT";

pub(crate) const STATIONS: &str = "STATIONS";

pub(crate) const OPERATORS: &str = "OPERATORS";

/// The option of `serve` for a further door of clients.
const CLIENTS_TOO: &str = "clients";

/// The option of `serve` for a door of browsers.
const PAGES_TOO: &str = "pages";

/// The option of `serve` for a door of operators' browsers.
const DESK_TOO: &str = "desk";

/// The option of `serve` for a further door of stations.
const STATIONS_TOO: &str = "stations";

/// The value of a station's own door, as the help shows it.
const DEVICES_AT: &str = "NAME[,NAME..]=ADDRESS";

/// The option of `serve` for a further door of operators.
const OPERATORS_TOO: &str = "operators";

const LOG: &str = "log";

const PAGES_PIN: &str = "pages-pin";

const HOST: &str = "host";

/// The value of `--host`, as the help shows it.
const HOSTS: &str = "NAME[,NAME..]";

pub(crate) const ADDRESS: &str = "ADDRESS";

pub(crate) const FOLDER: &str = "FOLDER";

pub(crate) const MONTH: &str = "YYYY-MM";

const DEVICES: &str = "devices";

pub(crate) const DAYS: &str = "DAYS";

pub(crate) const DAYS_AGO: &str = "days";

pub(crate) const DRY_RUN: &str = "dry-run";

pub(crate) const QUEUE: &str = "URI";

pub(crate) const JOB: &str = "JOB";

pub(crate) const JOB_NAME: &str = "name";

pub(crate) const COPIES: &str = "copies";

pub(crate) const PAGES: &str = "pages";

pub(crate) const PIN: &str = "pin";

const NUMBER: &str = "N";

/// The only value that `--pages-pin` has.
const REQUIRED: &str = "required";

/// A command, as the help shows it.
#[derive(Clone, Copy)]
pub(crate) struct CommandWords {
    pub(crate) name: &'static str,
    pub(crate) about: &'static str,
    /// In the order of the command line.
    pub(crate) arguments: &'static [Argument],
}

/// A word or an option of a command, as the help shows it.
#[derive(Clone, Copy)]
pub(crate) struct Argument {
    pub(crate) name: &'static str,
    pub(crate) help: Option<&'static str>,
    pub(crate) kind: Kind,
}

/// Whether an argument is a word or an option, and when it has to be there.
#[derive(Clone, Copy)]
pub(crate) enum Kind {
    /// A word that has to be there.
    Required,
    /// A word that has to be there, and is one of the switches.
    Switch,
    /// A word that has to be there where the flag is not.
    Unless(&'static str),
    /// A flag of its own name.
    Flag,
    /// A flag of its own name, with which the other argument can't be.
    FlagWithout(&'static str),
    /// A word that follows this flag.
    After(&'static str),
    /// A word that follows the flag of the argument's own name. The help calls it so.
    Named(&'static str),
    /// A word that follows the flag of the argument's own name, any number of times. The help calls
    /// it so.
    Each(&'static str),
}

const ON_DATABASE: Argument = Argument {
    name: DATABASE,
    help: Some("A file, or :memory: for this run alone"),
    kind: Kind::Required,
};

const TO_FILE: Argument = Argument {
    name: FILE,
    help: Some("The copy, FILE.part until it is whole"),
    kind: Kind::Required,
};

const TO_ROOTED_FILE: Argument = Argument {
    name: FILE,
    help: Some("The copy, FILE.part until it is whole: a path that begins with /"),
    kind: Kind::Required,
};

const OF_ACCOUNT: Argument = Argument {
    name: ACCOUNT,
    help: None,
    kind: Kind::Required,
};

const OF_DEVICE: Argument = Argument {
    name: NAME,
    help: None,
    kind: Kind::Required,
};

const ON_OR_OFF: Argument = Argument {
    name: SWITCH,
    help: None,
    kind: Kind::Switch,
};

const AT_UNITS: Argument = Argument {
    name: UNITS,
    help: Some("1 to 100"),
    kind: Kind::Required,
};

const AT_PORT: Argument = Argument {
    name: PORT,
    help: Some("1 to 65535"),
    kind: Kind::Required,
};

const AT_ANY_PORT: Argument = Argument {
    name: PORT,
    help: Some("0 to 65535, where 0 takes a free one"),
    kind: Kind::Required,
};

const SO_MANY: Argument = Argument {
    name: COUNT,
    help: Some("How many connections are served before it ends, 0 to 1000000"),
    kind: Kind::Required,
};

const FOR_STATIONS: Argument = Argument {
    name: STATIONS,
    help: Some("A port, or the path of a socket"),
    kind: Kind::Required,
};

const FOR_OPERATORS: Argument = Argument {
    name: OPERATORS,
    help: Some("A port, or the path of a socket"),
    kind: Kind::Required,
};

const MORE_CLIENTS: Argument = Argument {
    name: CLIENTS_TOO,
    help: Some("A further address of clients"),
    kind: Kind::Named(ADDRESS),
};

const FOR_PAGES: Argument = Argument {
    name: PAGES_TOO,
    help: Some("An address of browsers, for pages"),
    kind: Kind::Named(ADDRESS),
};

const FOR_DESK: Argument = Argument {
    name: DESK_TOO,
    help: Some("An address of operators' browsers, behind a proxy that names them"),
    kind: Kind::Named(ADDRESS),
};

const MORE_STATIONS: Argument = Argument {
    name: STATIONS_TOO,
    help: Some("A further address of stations"),
    kind: Kind::Named(STATIONS),
};

const MORE_OPERATORS: Argument = Argument {
    name: OPERATORS_TOO,
    help: Some("A further address of operators"),
    kind: Kind::Named(OPERATORS),
};

const ONE_STATION: Argument = Argument {
    name: STATION,
    help: Some("An address of stations, for these devices alone"),
    kind: Kind::Each(DEVICES_AT),
};

const TO_LOG: Argument = Argument {
    name: LOG,
    help: Some("A file to whose end a line an event goes"),
    kind: Kind::Named(FILE),
};

const PIN_ON_PAGES: Argument = Argument {
    name: PAGES_PIN,
    help: Some("Has the pages take no file without a PIN"),
    kind: Kind::Named(REQUIRED),
};

const BY_HOST: Argument = Argument {
    name: HOST,
    help: Some("The names by which browsers reach the pages"),
    kind: Kind::Named(HOSTS),
};

const OF_MONTH: Argument = Argument {
    name: MONTH,
    help: Some("YYYY-MM, from 2000-01 to 2099-12"),
    kind: Kind::Unless(DEVICES),
};

const OF_DEVICES: Argument = Argument {
    name: DEVICES,
    help: Some("Reports the devices"),
    kind: Kind::Flag,
};

const SINCE_DAYS: Argument = Argument {
    name: DAYS_AGO,
    help: Some("Only jobs that were made at least so many days ago, 0 to 36500"),
    kind: Kind::Named(DAYS),
};

const OLDER_DAYS: Argument = Argument {
    name: DAYS,
    help: Some("How many days ago a job was made at least, 0 to 36500"),
    kind: Kind::Required,
};

const SHOWN_ONLY: Argument = Argument {
    name: DRY_RUN,
    help: Some("Only shows the jobs"),
    kind: Kind::Flag,
};

const GIVEN_BACK: Argument = Argument {
    name: UNITS,
    help: Some("0 to 1000000000"),
    kind: Kind::Required,
};

const TO_ADDRESS: Argument = Argument {
    name: ADDRESS,
    help: Some("A port, or the path of a socket"),
    kind: Kind::Required,
};

const AS_GRANTS: Argument = Argument {
    name: GRANTS,
    help: Some("Standard input is a file of grants"),
    kind: Kind::FlagWithout(FOLDER),
};

const INTO_FOLDER: Argument = Argument {
    name: FOLDER,
    help: Some("Where documents go that are not to be printed"),
    kind: Kind::After("into"),
};

const AT_QUEUE: Argument = Argument {
    name: QUEUE,
    help: Some("ipp://HOST[:PORT]/ipp/print/ACCOUNT"),
    kind: Kind::Required,
};

const OF_FILE: Argument = Argument {
    name: FILE,
    help: Some("The document, of at most 16777216 bytes"),
    kind: Kind::Required,
};

const OF_JOB: Argument = Argument {
    name: JOB,
    help: Some("1 to 999999"),
    kind: Kind::Required,
};

const CALLED: Argument = Argument {
    name: JOB_NAME,
    help: Some("The job's name, the file's where none is told"),
    kind: Kind::Named(NAME),
};

const SO_OFTEN: Argument = Argument {
    name: COPIES,
    help: Some("How many copies, 1 to 999"),
    kind: Kind::Named(NUMBER),
};

const OF_PAGES: Argument = Argument {
    name: PAGES,
    help: Some("How many pages a copy has, as printed"),
    kind: Kind::Named(NUMBER),
};

const WITH_PIN: Argument = Argument {
    name: PIN,
    help: Some("A line of standard input is the PIN without which it is not released"),
    kind: Kind::Flag,
};

/// All commands, in the order of the help.
pub(crate) const COMMANDS: [CommandWords; 25] = [
    CommandWords {
        name: CREATE,
        about: "Makes the tables of a database",
        arguments: &[ON_DATABASE],
    },
    CommandWords {
        name: OPEN,
        about: "Opens an account",
        arguments: &[ON_DATABASE, OF_ACCOUNT],
    },
    CommandWords {
        name: MIGRATE,
        about: "Brings older tables up to date",
        arguments: &[ON_DATABASE],
    },
    CommandWords {
        name: COPY,
        about: "Copies a database that no process has open",
        arguments: &[ON_DATABASE, TO_FILE],
    },
    CommandWords {
        name: DEVICE,
        about: "Turns a device on or off",
        arguments: &[ON_DATABASE, OF_DEVICE, ON_OR_OFF],
    },
    CommandWords {
        name: RATE,
        about: "Sets a device's units per impression",
        arguments: &[ON_DATABASE, OF_DEVICE, AT_UNITS],
    },
    CommandWords {
        name: GRANTS,
        about: "Takes the grants of standard input",
        arguments: &[ON_DATABASE],
    },
    CommandWords {
        name: STATION,
        about: "Runs the lines of a station",
        arguments: &[ON_DATABASE],
    },
    CommandWords {
        name: SCRIPT,
        about: "Runs lines that have moments",
        arguments: &[ON_DATABASE],
    },
    CommandWords {
        name: LISTEN,
        about: "Serves connections on 127.0.0.1",
        arguments: &[ON_DATABASE, AT_PORT, SO_MANY],
    },
    CommandWords {
        name: SERVE,
        about: "Serves HTTP and lines on this machine",
        arguments: &[
            ON_DATABASE,
            AT_ANY_PORT,
            FOR_STATIONS,
            FOR_OPERATORS,
            MORE_CLIENTS,
            FOR_PAGES,
            FOR_DESK,
            MORE_STATIONS,
            ONE_STATION,
            MORE_OPERATORS,
            PIN_ON_PAGES,
            BY_HOST,
            TO_LOG,
        ],
    },
    CommandWords {
        name: SEND,
        about: "Sends the lines of standard input to what serves them",
        arguments: &[TO_ADDRESS, AS_GRANTS, INTO_FOLDER],
    },
    CommandWords {
        name: PING,
        about: "Asks whether a process answers",
        arguments: &[TO_ADDRESS],
    },
    CommandWords {
        name: END,
        about: "Ends a process, and waits until it has ended",
        arguments: &[TO_ADDRESS],
    },
    CommandWords {
        name: BACKUP,
        about: "Copies the database of a running process",
        arguments: &[TO_ADDRESS, TO_ROOTED_FILE],
    },
    CommandWords {
        name: REPORT,
        about: "Prints what accounts were charged, or the devices, as CSV",
        arguments: &[TO_ADDRESS, OF_MONTH, OF_DEVICES],
    },
    CommandWords {
        name: WAITING,
        about: "Prints the jobs that are held or pending, as CSV",
        arguments: &[TO_ADDRESS, SINCE_DAYS],
    },
    CommandWords {
        name: EXPIRE,
        about: "Cancels jobs that have been held or pending for long",
        arguments: &[TO_ADDRESS, OLDER_DAYS, SHOWN_ONLY],
    },
    CommandWords {
        name: REFUND,
        about: "Gives pages back to an account",
        arguments: &[TO_ADDRESS, OF_ACCOUNT, GIVEN_BACK],
    },
    CommandWords {
        name: PRINT,
        about: "Sends a document to a queue",
        arguments: &[AT_QUEUE, OF_FILE, CALLED, SO_OFTEN, OF_PAGES, WITH_PIN],
    },
    CommandWords {
        name: JOBS,
        about: "Prints the jobs of a queue that have not ended, as CSV",
        arguments: &[AT_QUEUE],
    },
    CommandWords {
        name: CANCEL,
        about: "Cancels a job of a queue",
        arguments: &[AT_QUEUE, OF_JOB],
    },
    CommandWords {
        name: HOLD,
        about: "Takes the release of a job back",
        arguments: &[AT_QUEUE, OF_JOB],
    },
    CommandWords {
        name: RELEASE,
        about: "Releases a job to any device of rate 1",
        arguments: &[AT_QUEUE, OF_JOB],
    },
    CommandWords {
        name: EXPLAIN,
        about: "Prints the IPP messages of standard input as people read them",
        arguments: &[],
    },
];

/// Whether the first word is the command.
pub fn is_command(words: &[&str], command: &str) -> bool
    ensures { IsTrue result ↔ (first_word words.now ≡ Some command.now) }
{
    match words.first() {
        Some(word) => *word == command,
        None => false,
    }
}

/// The words without the first `--`, so that each is in its place. Behind that a word that begins
/// with a dash is no flag.
pub(crate) fn placed_words<'a>(alloc: Global, words: &[&'a str]) -> Result<Vec<&'a str>, AllocError>
    ensures { IfOk result (λ found. texts found.items ≡ placed (texts words.now)) }
{
    let mut found = Vec::with_capacity(alloc, words.len())?;
    put_placed(words, &mut found)?;
    Ok(found)
}

/// Appends the words without the first `--`.
fn put_placed<'a>(words: &[&'a str], found: &mut Vec<&'a str>) -> Result<(), AllocError>
    ensures { OnOk result
        (texts found.new.items ≡ texts found.old.items ++ placed (texts words.now)) }
{
    match words {
        [] => Ok(()),
        [word, rest @ ..] if *word == ESCAPE => found.extend_from_slice(rest),
        [word, rest @ ..] => {
            found.push(*word)?;
            put_placed(rest, found)
        }
    }
}
