//! Decides whether a queue takes a job, and what its printer is doing, from numbers that were
//! looked up.

ghost use Rattle.std.specs.Prelude.{◌≡◌, ◌≤◌};
ghost use Rattle.account_replies.specs.Queues.{is_accepting, accepting_refusal, printer_state, printer_now};
ghost use Rattle.account_rules.specs.Limits.{most_unfinished};
ghost use Rattle.account_replies.specs.Limits.{IsPrinter};

use crate::{IDLE, PROCESSING, PrinterNow, STOPPED};
use account_rules::{LAST_JOB, MOST_UNFINISHED, Refusal, Word};

/// Whether the account takes a job: it has fewer than 100 unfinished ones, and the number of its
/// next job is one that a job may have.
pub fn is_accepting(unfinished: u32, next_job: u32) -> bool
    ensures { result ≡ is_accepting unfinished next_job }
{
    unfinished < MOST_UNFINISHED && next_job <= LAST_JOB
}

/// Refuses a job as `NotAccepting` where the account takes none.
pub fn check_accepting(unfinished: u32, next_job: u32) -> Result<(), Refusal>
    ensures { result ≡ accepting_refusal unfinished next_job }
{
    if !is_accepting(unfinished, next_job) {
        return Err(Refusal {
            status: 0x0506,
            word: Word::NotAccepting,
        });
    }
    Ok(())
}

/// The printer-state: processing where a job of the account is processing, else stopped where no
/// device is on, else idle.
fn printer_state(is_processing: bool, is_device_on: bool) -> u32
    ensures { result ≡ printer_state is_processing is_device_on }
{
    match (is_processing, is_device_on) {
        (true, _) => PROCESSING,
        (false, false) => STOPPED,
        (false, true) => IDLE,
    }
}

/// What the account's printer shows of its state: by how many jobs are `unfinished`, at most 100,
/// which number the next one gets, and whether a job is printed and some device is on.
pub fn printer_now(
    unfinished: u32,
    next_job: u32,
    is_processing: bool,
    is_device_on: bool,
) -> PrinterNow
    requires { unfinished ≤ most_unfinished }
    ensures printer { result ≡ printer_now unfinished next_job is_processing is_device_on }
    ensures limits { IsPrinter result }
{
    PrinterNow {
        state: printer_state(is_processing, is_device_on),
        accepting: is_accepting(unfinished, next_job),
        queued: unfinished,
    }
}
