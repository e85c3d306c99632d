//! The program `ipp-room` as one call, from its words to its exit status. `listen` and `serve` are
//! here, and the connection of `backup` to a process; `cli_asking` has what else asks one,
//! `cli_commands` the commands on a database, and `cli_databases` which database that is.
#![tactic(auto)]

mod backing_up;
mod database;
mod descriptors;
mod listening;
mod program;
mod serving;
mod serving_command;
mod version;

pub use listening::listen;
pub use program::start;
pub use serving::serve;
