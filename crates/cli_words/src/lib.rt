//! The words of the command line: its commands and their options, what each asks for, and the help.
//! Also why a command ends early, and with which exit status.
//!
//! - The parser: `words` (the table of commands), `parser`, `command`, `arguments`, `unfit`.
//! - What one command asks for: `backing_up`, `copying`, `errand`, `listening`, `owner_errand`,
//!   `sending`, `serving`, with `served_door`, `served_word`, `visitors` and `address`.
//! - How it ends: `fault`.
#![tactic(auto)]

mod address;
mod arguments;
mod backing_up;
mod command;
mod copying;
mod errand;
mod fault;
mod listening;
mod owner_errand;
mod parser;
mod sending;
mod served_door;
mod served_word;
mod serving;
mod unfit;
mod visitors;
mod words;

pub use address::Address;
pub use arguments::words_of;
pub use backing_up::BackingUp;
pub use command::{Command, MEMORY};
pub use copying::Copying;
pub use errand::Errand;
pub use fault::Fault;
pub use listening::Listening;
pub use owner_errand::{OwnerErrand, OwnerTask, Printing};
pub use parser::VERSION;
pub use sending::Sending;
pub use served_door::ServedDoor;
pub use serving::Serving;
pub use visitors::Visitors;
pub use words::{CREATE, is_command};
