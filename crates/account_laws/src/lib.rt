//! Laws: what holds of an account over its whole life, proved of what its machine does. Each is a
//! function without a body, whose contract is the law; "you" is the account's owner. Nobody calls
//! them at run time: docs/PROMISES.md lists them, and how they reach the files and the server.
#![tactic(auto)]

mod answers;
mod laws;
mod operators;
mod printing;
mod questions;
mod quota_account;
mod refusals;
mod replies;
mod requests;
mod verdicts;

pub use answers::{operators_are_answered, stations_are_answered};
pub use laws::{
    asks_lie_within, leaves_as_told, limits_are_these, months_are_the_calendars,
    nothing_else_is_kept, rooms_stay,
};
pub use operators::{devices_are_set_by_their_lines, months_are_granted_once};
pub use printing::{
    done_stays, handed_again, handed_as_sent, handed_by_leave, handed_once, its_own_job_only,
    passwords_stay_secret,
};
pub use questions::{pages_tell_the_life, questions_tell_the_life, releases_are_offered};
pub use quota_account::{
    accounts_balance, months_join, releases_owe_nothing, settlements_charge, statements_add_up,
};
pub use refusals::{refusals_are_coded, refusals_mean, refusals_send_back, requests_are_done};
pub use replies::answers_are_spelled;
pub use requests::{
    asks_are_spelled, jobs_are_counted, jobs_stay, messages_are_in_bytes, requests_are_answered,
};
pub use verdicts::replies_tell_verdicts;
