//! The operator's client of a server process: what each command (`ping`, `end`, `report`,
//! `waiting`, `expire`, `refund`, backups) asks over a connection, and what it prints. It opens no
//! connection.
#![tactic(auto)]

mod asked;
mod backup;
mod bar;
mod csv;
mod days_ago;
mod devices;
mod end;
mod expire;
mod grant;
mod job;
mod names;
mod ping;
mod printed;
mod refund;
mod report;
mod report_month;
mod shown;
mod statement;
mod task;
mod waiting;
mod words;

pub use backup::back_up;
pub use bar::Bar;
pub use csv::put_record;
pub use days_ago::MOST_DAYS;
pub use report_month::ReportMonth;
pub use shown::shown_text;
pub use task::{Task, perform};
