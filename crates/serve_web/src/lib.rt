//! What a browser asks over HTTP: the pages of accounts and of the print room, acts on jobs and
//! files that are to be printed, each of which is one message of IPP. A form that another site may
//! have sent does nothing, and a Host that is not answered is told nothing.
#![tactic(auto)]

mod answer;
mod asked;
mod digits;
mod fields;
mod host;
mod laws;
mod message;
mod outcome;
mod outcome_query;
mod pages;
mod place;
mod query;
mod questions;
mod refusal;
mod replaced;
mod turn;
mod word;

pub use answer::{lose, put_sheet, refuse, shared, show};
pub use asked::{Asked, Months, form_refusal, query_of};
pub use fields::put_page_fields;
pub use host::is_answered;
pub use laws::{
    foreign_forms_do_nothing, other_hosts_are_refused, pages_are_by_path,
    without_origin_nothing_is_applied,
};
pub use query::statement_asked;
pub use questions::{kind_of, month_then, question_of};
pub use refusal::status_of;
pub use turn::drive_browser;
