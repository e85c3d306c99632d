//! `StoreFault`: why a call on the store failed.

ghost use Rattle.std.specs.Prelude.{◌≡◌};
ghost use Rattle.store_rounds.specs.Faults.{store_fault};

use rows_tables::TableFault;
use thiserror::Error as ErrorTrait;

/// Why a call on the store failed. Where the connection is open, nothing is changed then.
#[derive(Clone, Copy, Debug, PartialEq, Eq, ErrorTrait)]
pub enum StoreFault {
    /// A statement was refused, or the disk failed.
    #[error("the storage failed")]
    Storage,
    #[error("memory ran out")]
    Memory,
    /// The moment is past the year 2099.
    #[error("the moment is past the year 2099")]
    Moment,
    /// Rows that were read are broken: no account or device can have them (they are not sound). Or
    /// a row that was to be inserted is there already.
    #[error("the rows are damaged")]
    Damaged,
}

impl From<TableFault> for StoreFault {
    ghost from_gives = { λ fault told. told ≡ store_fault fault };

    fn from(fault: TableFault) -> StoreFault {
        match fault {
            TableFault::Storage => StoreFault::Storage,
            TableFault::Memory => StoreFault::Memory,
            TableFault::Damaged => StoreFault::Damaged,
        }
    }
}
