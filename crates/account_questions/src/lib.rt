//! Questions: what is asked and changes nothing, and what is answered, by an account's room, the
//! devices and the names of accounts. A question is no event: it changes no room, and no journal has
//! it.
#![tactic(auto)]

mod job_line;
mod lists;
mod pages;
mod question;
mod station;
mod text;

pub use account_state::Summary;
pub use lists::{accounts_lines, devices_lines, grants_lines, jobs_lines};
pub use page_pages::{Act, Form, Outcome};
pub use pages::{MOST_SHOWN, desk_page, devices_page, owner_page, statement_page};
pub use question::{About, Question};
pub use station::{printed_by, waiting_at};
pub use text::{check_line, quota_line, statement_line};
