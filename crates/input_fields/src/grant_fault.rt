//! `GrantFault`: why a file of grants could not be read.

ghost use Rattle.std.specs.Prelude.{◌≡◌};
ghost use Rattle.input_fields.specs.GrantFaults.{grant_fault_of};
ghost use Rattle.input_fields.specs.declared.grant_fault.GrantFault.TheVariants.{Memory};

use crate::StreamFault;
use std::alloc::{AllocError, AllocFailed};
use thiserror::Error;

/// Why a file of grants could not be read.
#[derive(Clone, Copy, Debug, PartialEq, Eq, Error)]
pub enum GrantFault {
    #[error("reading failed")]
    Read,
    #[error("memory ran out")]
    Memory,
    /// The file has too many records, or too many bytes.
    #[error("the file is too long")]
    TooMany,
}

impl From<StreamFault> for GrantFault {
    ghost from_gives = { λ fault e. e ≡ grant_fault_of fault };

    fn from(fault: StreamFault) -> GrantFault {
        match fault {
            StreamFault::Read => GrantFault::Read,
            StreamFault::Memory => GrantFault::Memory,
            StreamFault::TooLong => GrantFault::TooMany,
        }
    }
}

impl From<AllocError> for GrantFault {
    ghost from_gives = { λ _ e. e ≡ Memory };

    fn from(_error: AllocError) -> GrantFault {
        GrantFault::Memory
    }
}

impl<T: Drop> From<AllocFailed<T>> for GrantFault {
    ghost from_gives = { λ _ e. e ≡ Memory };

    fn from(_error: AllocFailed<T>) -> GrantFault {
        GrantFault::Memory
    }
}
