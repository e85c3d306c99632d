//! `Verdict`: what an event came to, as a value beside the bytes of its reply, for the log.

use crate::event::Reply;
use account_rules::Refusal;

/// What an event came to. The job is the one that a request made, or else the one for which it
/// asked; `None` where it made or asked for none, where its fields were refused before that was
/// known, and of a line.
#[derive(Clone, Copy)]
pub enum Verdict {
    /// It was done, with the status code of a success (RFC 8011 section B.1.2). Of a line that is
    /// successful-ok.
    Done { status: u16, job: Option<u32> },
    /// It was refused, and nothing changed. Of a line the status is client-error-not-possible, of a
    /// body with fewer than 8 bytes client-error-bad-request.
    Refused { refusal: Refusal, job: Option<u32> },
}

/// What is answered to an event, and what it came to.
#[derive(Drop)]
pub struct Answered {
    pub reply: Reply,
    pub verdict: Verdict,
}
