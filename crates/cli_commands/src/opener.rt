//! The trait by which a command opens and closes its database, in memory or in a file.

use room_store::OpenFault;

/// Opens the database that a command line names, and closes it at the end of the run.
pub trait Opener {
    /// A connection, in no transaction.
    type Kept: Drop;

    /// Opens a connection to the database of this name.
    fn open(&mut self, database: &str) -> Result<Self::Kept, OpenFault>;

    /// Takes back the connection. What was answered is kept whether this succeeds or not.
    fn close(&mut self, kept: Self::Kept);
}
