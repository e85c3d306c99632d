//! What all accounts come to, for the print room's page: what one account comes to (a survey), what
//! surveys come to together (an overview), and the page that shows it. No storage: who reads the
//! accounts adds them, one after another.
#![tactic(auto)]

mod days;
mod line;
mod oldest;
mod overview;
mod page;
mod survey;

pub use days::{MOST_DAYS, place_of_day};
pub use overview::{MOST_ACCOUNTS, Overview};
pub use survey::Survey;
