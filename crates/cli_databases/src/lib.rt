//! The databases of this machine, in memory and in files, a run of the program over one, and the
//! two commands that make a second file: `copy` and `backup`.
#![tactic(auto)]

mod backing_up;
mod copy_files;
mod copying;
mod database;
mod file;
mod placing;

pub use backing_up::back_up;
pub use copy_files::CopyFiles;
pub use database::{InFile, InMemory, run_on};
