//! The faults of statements on the tables, and of opening a database.

ghost use Rattle.std.specs.Prelude.{◌≡◌};
ghost use Rattle.rows_tables.specs.declared.fault.TableFault.TheVariants as of_table;
ghost use Rattle.rows_tables.specs.Faults.{put_fault, statement_fault, opening_fault, value_fault};

use sqlite::{Constraint, Error, ErrorCode};
use std::alloc::{AllocError, AllocFailed};
use thiserror::Error as ErrorTrait;

/// Why a statement on the tables failed. Where the connection is open, nothing is changed then.
#[derive(Clone, Copy, Debug, PartialEq, Eq, ErrorTrait)]
pub enum TableFault {
    /// It was refused, or the disk failed.
    #[error("the storage failed")]
    Storage,
    #[error("memory ran out")]
    Memory,
    /// Rows that were read are broken: no account or device can have them (they are not sound). Of
    /// a call that inserts a row it tells that the key is taken.
    #[error("the rows are damaged")]
    Damaged,
}

/// Why a store could not be made, opened or migrated. Nothing is changed then.
#[derive(Clone, Copy, Debug, PartialEq, Eq, ErrorTrait)]
pub enum OpenFault {
    /// It is no database of this program.
    #[error("this is no database of this program")]
    NotOurs,
    /// It is of this version.
    #[error("the database has version {0}")]
    WrongVersion(i64),
    /// A statement was refused, or the disk failed.
    #[error("the storage failed")]
    Storage,
    #[error("memory ran out")]
    Memory,
}

impl From<Error> for TableFault {
    ghost from_gives = { λ error fault. fault ≡ statement_fault error };

    fn from(error: Error) -> TableFault {
        match error {
            Error::SqliteFailure(ErrorCode::OutOfMemory) => TableFault::Memory,
            _ => TableFault::Storage,
        }
    }
}

impl From<AllocError> for TableFault {
    ghost from_gives = { λ _ fault. fault ≡ of_table.Memory };

    fn from(_error: AllocError) -> TableFault {
        TableFault::Memory
    }
}

impl<T: Drop> From<AllocFailed<T>> for TableFault {
    ghost from_gives = { λ _ fault. fault ≡ of_table.Memory };

    fn from(_error: AllocFailed<T>) -> TableFault {
        TableFault::Memory
    }
}

// No error tells `NotOurs` or `WrongVersion`: what was read does.
impl From<Error> for OpenFault {
    ghost from_gives = { λ error fault. fault ≡ opening_fault error };

    fn from(error: Error) -> OpenFault {
        match error {
            Error::SqliteFailure(ErrorCode::OutOfMemory) => OpenFault::Memory,
            _ => OpenFault::Storage,
        }
    }
}

impl TableFault {
    /// The fault of an INSERT that failed: `Damaged` where a row of its key is there already.
    pub fn of_put(error: Error) -> TableFault
        ensures { result ≡ put_fault error }
    {
        match error {
            Error::SqliteFailure(ErrorCode::OutOfMemory) => TableFault::Memory,
            Error::SqliteFailure(ErrorCode::ConstraintViolation(Constraint::Unique)) => {
                TableFault::Damaged
            }
            _ => TableFault::Storage,
        }
    }

    /// The fault of a column that could not be read: `Damaged` where it holds a value of another
    /// kind.
    pub fn of_value(error: Error) -> TableFault
        ensures { result ≡ value_fault error }
    {
        match error {
            Error::SqliteFailure(ErrorCode::OutOfMemory) => TableFault::Memory,
            _ => TableFault::Damaged,
        }
    }
}
