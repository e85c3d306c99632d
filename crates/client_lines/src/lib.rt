//! The client of a server process: it sends lines and grants over a connection, one after another,
//! and prints the answers. It opens no connection and no file.
#![tactic(auto)]

mod answer;
mod asked;
mod asking;
mod bytes;
mod documents;
mod fault;
mod grants;
mod hex_lines;
mod input;
mod keeper;
mod line;
mod lines;
mod month;
mod outcome;
mod peer;
mod sent;
mod words;

pub use answer::is_text;
pub use asking::{ask_line, ask_list, judge};
pub use fault::ClientFault;
pub use grants::{grant_text, send_grants};
pub use hex_lines::HexLines;
pub use keeper::Keeper;
pub use lines::send_lines;
pub use month::month_text;
pub use outcome::{Outcome, Worst};
pub use peer::Peer;
pub use words::{after_word, first_word};
