//! What one event does to the shared tables of all accounts: it is read, decided by the rules of
//! `account_machine`, written and answered, in a round or in a transaction of its own. Each file
//! has one operation or kind of events. Their parameter `connection` is the store's
//! (`store_rounds::Rounds`).
//!
//! An event that fails has changed nothing, as far as the connection is still open; the next may be
//! tried.
#![tactic(auto)]

mod applying;
mod devices;
mod events;
mod granting;
mod job_requests;
mod law;
mod lines;
mod listing;
mod making;
mod opening;
mod printer;
mod quota;
mod request;
mod requests;
mod responses;
mod sending;
mod standing;
mod stations;

pub use applying::{apply, apply_in_own_transaction};
pub use law::sound_rows_are_readable;
pub use lines::{refusal_line, success_line};
pub use stations::parts;
