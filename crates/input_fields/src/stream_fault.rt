//! `StreamFault`: why an input could not be read whole.

ghost use Rattle.std.specs.Prelude.{◌≡◌};
ghost use Rattle.input_fields.specs.declared.stream_fault.StreamFault.TheVariants.{Memory};

use std::alloc::AllocError;
use thiserror::Error;

/// Why an input could not be read whole.
#[derive(Clone, Copy, Debug, PartialEq, Eq, Error)]
pub enum StreamFault {
    #[error("reading failed")]
    Read,
    #[error("memory ran out")]
    Memory,
    #[error("the input is too long")]
    TooLong,
}

impl From<AllocError> for StreamFault {
    ghost from_gives = { λ _ e. e ≡ Memory };

    fn from(_error: AllocError) -> StreamFault {
        StreamFault::Memory
    }
}
