//! The log of events: a line for each, which tells when and by which door it came, what was asked
//! of the rooms, and what it came to.
#![tactic(auto)]

mod digits;
mod door;
mod event_log;
mod file;
mod ipp;
mod laws;
mod line;
mod outcome;
mod refusal;
mod request_job;
mod waiting;

pub use door::Door;
pub use event_log::EventLog;
pub use file::LogFile;
pub use laws::passwords_do_not_show;
pub use line::put_line;
pub use refusal::LineRefusal;
pub use waiting::{MOST_WAITING, Waiting};
