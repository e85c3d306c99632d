//! A survey: what one account comes to for the print room's page.

use crate::days::MOST_DAYS;
use account_rules::Job;
use account_state::Summary;
use ipp_coding::List;

/// What the rows of an account come to for the print room's page, in one month.
#[derive(Drop)]
pub struct Survey {
    /// Units that were granted up to the month.
    pub granted: u64,
    /// What its jobs come to, and what of it in the month.
    pub summary: Summary,
    /// The units that those jobs were charged that ended on each day of the month.
    pub days: [u64; MOST_DAYS],
    /// Its jobs that have not ended, by number.
    pub unfinished: List<Job>,
}
