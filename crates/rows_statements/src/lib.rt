//! The SQL of the store: one function for each statement on the rows of the tables, and the changes
//! that events make of them, each in one savepoint: whole or not at all. Outside a round that is a
//! transaction; the changes of a round share its commit. What reads takes a `Reads`: a connection,
//! or `Rounds` of `store_rounds`, which has one and keeps some of what was read.
//!
//! An `Error` is the SQLite library's: storage or memory failed. `TableFault::Damaged` of a
//! function that reads tells that rows are broken, in that they have values that no account or
//! device can have; of one that inserts a row, that the row's key is taken.
#![tactic(auto)]

mod account_names;
mod accounts;
mod device_changes;
mod device_list;
mod devices;
mod documents;
mod grant_list;
mod granting;
mod grants;
mod job_changes;
mod jobs;
mod law;
mod new_document;
mod opening;
mod queues;
mod rates;
mod reads;
mod rounds;
mod summaries;
mod tallies;
mod unfinished;
mod walking;

pub use account_names::next_accounts;
pub use accounts::{find_account, set_account, set_next_job};
pub use device_changes::{rate_device, switch_device};
pub use device_list::list_devices;
pub use devices::{find_device, is_device_on, set_device};
pub use documents::{add_document, find_documents, remove_documents};
pub use grant_list::list_grants;
pub use granting::add_grant;
pub use grants::{find_grant, granted_to, set_grant};
pub use job_changes::{end_job, make_job, restand_job};
pub use jobs::{add_job, find_job, set_standing};
pub use law::{names_stay, sound_rows_are_read};
pub use new_document::NewDocument;
pub use opening::open_account;
pub use queues::{ended_jobs, unfinished_jobs};
pub use rates::{find_rate, set_rate};
pub use reads::Reads;
pub use rounds::{begin_round, commit_round};
pub use rows_tables::TableFault;
pub use summaries::summarize;
pub use tallies::tally_jobs;
pub use unfinished::{count_unfinished, tally_unfinished};
pub use walking::{Gather, walk};
