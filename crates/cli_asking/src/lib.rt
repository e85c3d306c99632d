//! The commands that ask a running process, over a connection that each opens: `send` (`sending`),
//! what asks an operator's address, as `report` (`errands`), and what asks a queue, as `print`
//! (`owner`). They open no database. For `backup`, a reader that waits longer (`patient`).
#![tactic(auto)]

mod connected;
mod errands;
mod folder;
mod owner;
mod patient;
mod sending;

pub use connected::{BUFFER, at_path, at_port};
pub use errands::run_errand;
pub use owner::run_owner_errand;
pub use patient::Patient;
pub use sending::send;
