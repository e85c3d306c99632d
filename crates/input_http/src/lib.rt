//! Rules of requests over HTTP/1.1. `listen` and `serve` share which account a request of IPP is for,
//! why one is refused, how long its parts may be, and the texts of answers. `serve` alone asks
//! what a browser tells of a site (`origin`).
#![tactic(auto)]

mod answer;
mod digits;
mod limits;
mod origin;
mod refusal;
mod targets;
mod words;

pub use answer::{last_answer_head, put, put_answer_head, refusal_text};
pub use digits::{are_digits, number_of};
pub use limits::{BODY_LIMIT, HEAD_LIMIT, TRAILERS_LIMIT};
pub use origin::{is_foreign, is_of_browser};
pub use refusal::Refusal;
pub use targets::{account_of, is_ipp_type, is_post};
pub use words::{before, without_margin};
