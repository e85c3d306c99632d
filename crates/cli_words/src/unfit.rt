//! The mistakes in a command line that the parser does not find, such as a number out of its range,
//! and the text of each.

use crate::fault::Fault;
use clap::error::ErrorKind;
use std::alloc::{AllocError, AllocFailed};

/// Why words are no command line, where the parser does not find it.
#[derive(Clone, Copy)]
pub(crate) enum Unfit {
    Missing,
    Text,
    Units,
    Port,
    Count,
    ServedPort,
    ServedAddress,
    Devices,
    Option,
    PagesPin,
    Hosts,
    Address,
    File,
    Month,
    Days,
    Pages,
    Queue,
    Job,
    JobName,
    Copies,
    Impressions,
    Name,
    Memory,
}

impl Unfit {
    /// The text that says what is wrong. `None` for a bad name, and where memory ran out: these
    /// have faults of their own.
    fn usage(self) -> Option<&'static str> {
        match self {
            Unfit::Missing => Some("a word is missing"),
            Unfit::Text => Some("a word is not UTF-8"),
            Unfit::Units => Some("UNITS is a number from 1 to 100"),
            Unfit::Port => Some("PORT is a number from 1 to 65535"),
            Unfit::Count => Some("COUNT is a number from 0 to 1000000"),
            Unfit::ServedPort => Some("PORT is a number from 0 to 65535"),
            Unfit::ServedAddress => {
                Some("STATIONS, OPERATORS and ADDRESS are ports from 0 to 65535, or paths")
            }
            Unfit::Devices => {
                Some(
                    "the value of --station is NAME=ADDRESS, or names parted by commas and =ADDRESS",
                )
            }
            Unfit::Option => Some("options stand behind the words, each with its value"),
            Unfit::PagesPin => Some("--pages-pin has the value `required`, or is left out"),
            Unfit::Hosts => Some(
                "the value of --host is the names of hosts, parted by commas, as in an address",
            ),
            Unfit::Address => Some("ADDRESS is a port from 1 to 65535, or a path"),
            Unfit::File => Some("FILE begins with / and has no space in it"),
            Unfit::Month => Some("YYYY-MM is a month from 2000-01 to 2099-12"),
            Unfit::Days => Some("DAYS is a number from 0 to 36500"),
            Unfit::Pages => Some("UNITS is a number from 0 to 1000000000"),
            Unfit::Queue => {
                Some(
                    "URI is ipp://HOST[:PORT]/ipp/print/ACCOUNT, HOST an IPv4 address or localhost",
                )
            }
            Unfit::Job => Some("JOB is a number from 1 to 999999"),
            Unfit::JobName => Some("NAME has at most 255 bytes"),
            Unfit::Copies => Some("N of --copies is a number from 1 to 999"),
            Unfit::Impressions => Some("N of --pages is a number from 1 to 2147483647"),
            Unfit::Name | Unfit::Memory => None,
        }
    }

    /// The fault, with the usage of the program where the words are no command line of it.
    pub(crate) fn fault(self, program: &mut clap::Command<'_>) -> Fault {
        let Some(text) = self.usage() else {
            return match self {
                Unfit::Memory => Fault::Memory,
                _ => Fault::Name,
            };
        };
        match program.error(ErrorKind::ValueValidation, text) {
            Ok(error) => Fault::Usage(error),
            Err(error) => Fault::from(error),
        }
    }
}

impl From<AllocError> for Unfit {
    fn from(_error: AllocError) -> Unfit {
        Unfit::Memory
    }
}

impl<T: Drop> From<AllocFailed<T>> for Unfit {
    fn from(_error: AllocFailed<T>) -> Unfit {
        Unfit::Memory
    }
}
