//! The check that an operator's `check` question asks for: whether all rows of one account are in
//! order, table by table.
#![tactic(auto)]

mod account;
mod documents;
mod grants;
mod jobs;
mod keys;
mod law;

pub use account::check_account;
pub use law::checked_rows_are_sound;
