//! `RunFault`: why `run_events` answers nothing.

use std::alloc::AllocError;
use thiserror::Error;

/// Why a list of events was not run. Nothing is changed then.
#[derive(Clone, Copy, Debug, PartialEq, Eq, Error)]
pub enum RunFault {
    /// There is no memory for the outcomes.
    #[error("memory ran out")]
    Memory,
}

impl From<AllocError> for RunFault {
    fn from(_error: AllocError) -> RunFault {
        RunFault::Memory
    }
}
