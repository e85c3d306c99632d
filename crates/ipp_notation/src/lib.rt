//! IPP messages as people read them: the command `explain` prints each message of a line in this
//! notation, a part on each line.
#![tactic(auto)]

mod digits;
mod front;
mod group_tag;
mod line;
mod lines;
mod meaning;
mod numbers;
mod operation;
mod parts;
mod status;
mod syntaxes;
mod value_tag;

pub use lines::explain;
