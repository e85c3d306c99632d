//! One account of the print room as a machine, by its definitions: what it answers to each event, and
//! how it changes. Of code, the events and the replies, and the decisions of the machine on values
//! that were looked up. No storage.
#![tactic(auto)]

mod event;
mod fitting;
mod laws;
mod making;
mod moving;
mod queue;
mod quota;
mod respond;
mod verdict;

pub use account_asks::{Ask, AskFault, Operation, Which, new_job, read_ask};
pub use account_replies::{
    Part, Place, PrinterNow, Success, check_accepting, check_grant, check_on, done, handed,
    internal_error, known_device, left_after, line, printer_now, put_job, put_line, put_printer,
    put_reply, put_success, refused, success, with_job, with_printer,
};
pub use account_rules::{
    Account, CoreFault, Device, Document, FIRST_MONTH, Format, Grant, Job, JobState, LAST_JOB,
    LAST_MOMENT, LAST_MONTH, MOST_IMPRESSIONS, MOST_PAGES, MOST_RATE, Moment, Name, Refusal,
    Standing, Word, add_document, cancel, hold, left, month_of, release_at_station,
    release_by_owner, set_device, set_rate, settle, start, within_quota,
};
pub use account_state::Tally;
pub use event::{Event, Reply};
pub use fitting::fits;
pub use laws::shown_are_served;
pub use making::{has_data, job_made};
pub use moving::{by_word, released, released_at};
pub use queue::jobs_told;
pub use quota::left_with;
pub use respond::{asked_at, made_names, no_job, wanted_names};
pub use verdict::{Answered, Verdict};
