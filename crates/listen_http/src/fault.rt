//! `WireFault`: why a connection broke off.

ghost use Rattle.std.specs.Prelude.{◌≡◌};
ghost use Rattle.listen_http.specs.declared.fault.WireFault.TheVariants.{Memory};

use std::alloc::{AllocError, AllocFailed};
use thiserror::Error;

/// Why a message was not answered, or not whole. The connection has ended then.
#[derive(Clone, Copy, Debug, PartialEq, Eq, Error)]
pub enum WireFault {
    #[error("reading failed")]
    Read,
    #[error("writing failed")]
    Write,
    #[error("memory ran out")]
    Memory,
    /// It had ended before.
    #[error("the connection has ended")]
    Ended,
}

impl From<AllocError> for WireFault {
    ghost from_gives = { λ _ e. e ≡ Memory };

    fn from(_error: AllocError) -> WireFault {
        WireFault::Memory
    }
}

impl<T: Drop> From<AllocFailed<T>> for WireFault {
    ghost from_gives = { λ _ e. e ≡ Memory };

    fn from(_error: AllocFailed<T>) -> WireFault {
        WireFault::Memory
    }
}
