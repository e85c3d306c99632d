//! The lines that scripts, stations and operators write: parsers from a line's text to the event,
//! question or backup that it asks for, and what the program prints of answers.
#![tactic(auto)]

mod action;
mod backup;
mod fault;
mod fields;
mod line;
mod lines;
mod owner_request;
mod printing;
mod questions;

pub use action::Action;
pub use backup::{BackupLine, read_backup};
pub use fault::LineFault;
pub use line::{Line, events_of};
pub use lines::Grammar;
pub use owner_request::{OwnerAct, OwnerRequest, queue_uri};
pub use printing::print_answer;
pub use questions::{read_question, read_station_question};
