//! What one account adds to the print room's overview page: its quota, its unfinished jobs and its
//! charges by day, read from its rows alone.
#![tactic(auto)]

mod charges;
mod law;
mod reading;

pub use law::sound_rows_are_surveyed;
pub use reading::survey;
