//! The commands on one database, from `create` to `script`, over any reader, any writer and any
//! databases.
#![tactic(auto)]

mod fault;
mod grants;
mod input;
mod opener;
mod printing;
mod program;
mod tables;

pub use fault::{open_fault, opened};
pub use opener::Opener;
pub use printing::print_text;
pub use program::run;
pub use tables::{Begin, store_of};
