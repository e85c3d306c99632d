//! Why a run of the program ends with a status other than 0.
ghost use Rattle.std.specs.Prelude.{◌≡◌, ◌≤◌};
ghost use Rattle.std.specs.IoError.{error_kind};
ghost use Rattle.clap.specs.Values.{kind_of};
ghost use Rattle.cli_words.specs.Faults.{client_fault, grant_fault, io_fault, stream_fault, usage_fault};
ghost use Rattle.cli_words.specs.Statuses.{exit_status_of};
ghost use Rattle.cli_words.specs.declared.fault.Fault.TheVariants.{Memory};

use client_lines::ClientFault;
use input_fields::{GrantFault, StreamFault};
use std::alloc::AllocError;
use std::io;
use std::io::{ErrorKind, Write};
use thiserror::Error;

/// Why the program ends early. Its text is what standard error carries.
#[derive(Debug, Drop, Error)]
pub enum Fault {
    /// The words are no command line of the program. The text is the parser's, its line feed with
    /// it.
    #[error("{0}")]
    Usage(clap::Error),
    /// A word in the place of an account or a device is no name.
    #[error("ipp-room: name")]
    Name,
    /// Standard input is longer than its limit, or a line of it that was to be sent is.
    #[error("ipp-room: input")]
    Input,
    /// The document that was to be printed has over 16777216 bytes.
    #[error("ipp-room: document")]
    Document,
    /// The line that was to be a PIN is empty, has over 32 bytes or no end.
    #[error("ipp-room: pin")]
    Pin,
    /// The line or record of this number, counted from 1, is the first that is no line of its
    /// grammar.
    #[error("ipp-room: line {0}")]
    Line(usize),
    /// The database can't be opened, or an event failed there: its storage failed, its rows are
    /// damaged, or the moment is past 2099.
    #[error("ipp-room: store")]
    Store,
    /// Memory ran out.
    #[error("ipp-room: memory")]
    Memory,
    /// Nothing came of an address in time, or nothing was taken there.
    #[error("ipp-room: no answer")]
    Silent,
    /// Something that was asked over an address was refused.
    #[error("ipp-room: refused")]
    Refused,
    /// Reading or writing failed, or the clock has no moment to give.
    #[error("ipp-room: io")]
    Io,
}

impl Fault {
    /// The exit status: 1 for usage, 2 for bad input, of which nothing was run unless it was sent,
    /// 3 for the store and for memory, 4 for reading and writing, 5 for what was refused.
    pub fn status(&self) -> u8
        ensures status { result ≡ exit_status_of self.now }
        ensures least { 1 ≤ result }
        ensures most { result ≤ 5 }
    {
        match self {
            Fault::Usage(_) => 1,
            Fault::Name | Fault::Input | Fault::Document | Fault::Pin | Fault::Line(_) => 2,
            Fault::Store | Fault::Memory => 3,
            Fault::Io | Fault::Silent => 4,
            Fault::Refused => 5,
        }
    }

    /// Writes its text as a line.
    pub fn report<E: Write>(&self, errors: &mut E) -> io::Result<()> {
        match self {
            Fault::Usage(error) => write!(errors, "{error}"),
            fault => writeln!(errors, "{fault}"),
        }
    }
}

impl From<AllocError> for Fault {
    ghost from_gives = { λ _ fault. fault ≡ Memory };

    fn from(_error: AllocError) -> Fault {
        Fault::Memory
    }
}

impl From<StreamFault> for Fault {
    ghost from_gives = { λ error fault. fault ≡ stream_fault error };

    fn from(fault: StreamFault) -> Fault {
        match fault {
            StreamFault::Read => Fault::Io,
            StreamFault::Memory => Fault::Memory,
            StreamFault::TooLong => Fault::Input,
        }
    }
}

impl From<GrantFault> for Fault {
    ghost from_gives = { λ error fault. fault ≡ grant_fault error };

    fn from(fault: GrantFault) -> Fault {
        match fault {
            GrantFault::Read => Fault::Io,
            GrantFault::Memory => Fault::Memory,
            GrantFault::TooMany => Fault::Input,
        }
    }
}

impl From<ClientFault> for Fault {
    ghost from_gives = { λ error fault. fault ≡ client_fault error };

    fn from(fault: ClientFault) -> Fault {
        match fault {
            ClientFault::Io | ClientFault::Broken => Fault::Io,
            ClientFault::Silent => Fault::Silent,
            ClientFault::Failed => Fault::Store,
            ClientFault::Refused => Fault::Refused,
            ClientFault::TooLong => Fault::Input,
            ClientFault::Memory => Fault::Memory,
        }
    }
}

impl From<io::Error> for Fault {
    ghost from_gives = { λ error fault. fault ≡ io_fault (error_kind error) };

    fn from(error: io::Error) -> Fault {
        match error.kind() {
            ErrorKind::OutOfMemory => Fault::Memory,
            _ => Fault::Io,
        }
    }
}

impl From<clap::Error> for Fault {
    ghost from_gives = { λ error fault. fault ≡ usage_fault (kind_of error) error };

    fn from(error: clap::Error) -> Fault {
        match error.kind() {
            clap::error::ErrorKind::OutOfMemory => Fault::Memory,
            _ => Fault::Usage(error),
        }
    }
}
