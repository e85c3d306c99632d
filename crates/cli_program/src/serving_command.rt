//! The trait of the commands that serve others over a store, in memory or in a file: `listen` and
//! `serve`.

use cli_words::Fault;
use room_store::Store;
use sqlite::{Alter, Connection};
use std::io::Write;

/// A command that has the store for as long as it serves.
pub trait ServingCommand {
    /// Serves until the command has done what was asked, or something fails. Writes what the
    /// command tells of itself, and hands the store's connection back.
    fn serve<S: Alter + Drop, W: Write>(
        &mut self,
        rt: &HostRuntime,
        store: Store<S>,
        output: &mut W,
    ) -> (Connection<S>, Result<(), Fault>);
}
