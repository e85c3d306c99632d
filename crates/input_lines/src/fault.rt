//! `LineFault`: why an input of lines could not be read.

use thiserror::Error;

/// Why an input of lines could not be read.
#[derive(Clone, Copy, Debug, PartialEq, Error)]
pub enum LineFault {
    /// The line of this number, counted from 1, is the first that is no line of its grammar.
    #[error("line {0}")]
    Line(usize),
    /// Memory ran out.
    #[error("memory ran out")]
    Memory,
}
