//! Why the example ends without its answers.

use room_core::CoreFault;
use room_store::{OpenFault, StoreFault};
use std::alloc::{AllocError, AllocFailed};
use std::io;
use thiserror::Error;

#[derive(Debug, Drop, Error)]
pub enum Fault {
    #[error("an account has no name")]
    Name,
    #[error("{0}")]
    Open(OpenFault),
    #[error("{0}")]
    Store(StoreFault),
    #[error("{0}")]
    Machine(CoreFault),
    #[error("memory ran out")]
    Memory,
    #[error("{0}")]
    Io(io::Error),
}

impl From<sqlite::Error> for Fault {
    fn from(error: sqlite::Error) -> Fault {
        Fault::Open(OpenFault::from(error))
    }
}

impl From<OpenFault> for Fault {
    fn from(fault: OpenFault) -> Fault {
        Fault::Open(fault)
    }
}

impl From<StoreFault> for Fault {
    fn from(fault: StoreFault) -> Fault {
        Fault::Store(fault)
    }
}

impl From<CoreFault> for Fault {
    fn from(fault: CoreFault) -> Fault {
        Fault::Machine(fault)
    }
}

impl From<AllocError> for Fault {
    fn from(_error: AllocError) -> Fault {
        Fault::Memory
    }
}

impl<T: Drop> From<AllocFailed<T>> for Fault {
    fn from(_error: AllocFailed<T>) -> Fault {
        Fault::Memory
    }
}

impl From<io::Error> for Fault {
    fn from(error: io::Error) -> Fault {
        Fault::Io(error)
    }
}
