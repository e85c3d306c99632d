//! Faults of a client: why what was to be sent was not sent to its end.

ghost use Rattle.std.specs.Prelude.{◌≡◌};
ghost use Rattle.std.specs.IoError.{error_kind};
ghost use Rattle.client_lines.specs.Faults.{grant_fault, io_fault};
ghost use Rattle.client_lines.specs.declared.fault.ClientFault.TheVariants.{Memory};

use input_fields::GrantFault;
use std::alloc::{AllocError, AllocFailed};
use std::io;
use std::io::ErrorKind;
use thiserror::Error;

/// Why what was to be sent was not sent to its end.
#[derive(Clone, Copy, Debug, PartialEq, Eq, Error)]
pub enum ClientFault {
    /// Reading or writing failed: of the input, of the connection, of what is printed or of what is
    /// kept.
    #[error("reading or writing failed")]
    Io,
    /// The connection ended before an answer was whole, or what came is no answer.
    #[error("what came is no answer")]
    Broken,
    /// The process did not take or send a byte in time.
    #[error("nothing came in time")]
    Silent,
    /// The process answered that what was asked failed.
    #[error("what was asked failed")]
    Failed,
    /// The process refused what was asked.
    #[error("what was asked was refused")]
    Refused,
    /// A line of the input is longer than any may be, or a file of grants is.
    #[error("the input is too long")]
    TooLong,
    #[error("memory ran out")]
    Memory,
}

impl From<io::Error> for ClientFault {
    ghost from_gives = { λ error fault. fault ≡ io_fault (error_kind error) };

    fn from(error: io::Error) -> ClientFault {
        match error.kind() {
            ErrorKind::OutOfMemory => ClientFault::Memory,
            ErrorKind::WouldBlock => ClientFault::Silent,
            _ => ClientFault::Io,
        }
    }
}

impl From<AllocError> for ClientFault {
    ghost from_gives = { λ _ fault. fault ≡ Memory };

    fn from(_error: AllocError) -> ClientFault {
        ClientFault::Memory
    }
}

impl<T: Drop> From<AllocFailed<T>> for ClientFault {
    ghost from_gives = { λ _ fault. fault ≡ Memory };

    fn from(_error: AllocFailed<T>) -> ClientFault {
        ClientFault::Memory
    }
}

impl From<GrantFault> for ClientFault {
    ghost from_gives = { λ error fault. fault ≡ grant_fault error };

    fn from(fault: GrantFault) -> ClientFault {
        match fault {
            GrantFault::Read => ClientFault::Io,
            GrantFault::Memory => ClientFault::Memory,
            GrantFault::TooMany => ClientFault::TooLong,
        }
    }
}
