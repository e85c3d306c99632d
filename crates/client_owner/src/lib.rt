//! The owner's client of a queue: asks over HTTP to print a document, which jobs there are, and to
//! cancel, hold or release one; and prints the answers. It opens no connection and no file.
#![tactic(auto)]

mod acts;
mod answers;
mod asked;
mod attributes;
mod documents;
mod exchange;
mod head;
mod jobs;
mod new_job;
mod pin;
mod printed;
mod put;
mod queue;
mod requests;

pub use acts::JobAct;
pub use asked::{Asked, perform};
pub use documents::format_of;
pub use new_job::NewJob;
pub use pin::read_pin;
pub use queue::Queue;
pub use requests::request_text;
