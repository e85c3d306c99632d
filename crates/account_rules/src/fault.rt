//! Why a call of the rules, or of the machine on top of them, could not be answered.

ghost use Rattle.std.specs.Prelude.{◌≡◌};
ghost use Rattle.account_rules.specs.declared.fault.CoreFault.TheVariants.{Memory};

use std::alloc::{AllocError, AllocFailed};
use thiserror::Error;

/// Why a call of the rules could not be answered.
#[derive(Clone, Copy, Debug, PartialEq, Eq, Error)]
pub enum CoreFault {
    #[error("memory ran out")]
    Memory,
    #[error("the moment is past the year 2099")]
    Moment,
}

impl From<AllocError> for CoreFault {
    ghost from_gives = { λ _ e. e ≡ Memory };

    fn from(_error: AllocError) -> CoreFault {
        CoreFault::Memory
    }
}

impl<T: Drop> From<AllocFailed<T>> for CoreFault {
    ghost from_gives = { λ _ e. e ≡ Memory };

    fn from(_error: AllocFailed<T>) -> CoreFault {
        CoreFault::Memory
    }
}
