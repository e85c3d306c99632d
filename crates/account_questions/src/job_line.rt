//! Writes the line of text that tells all about a job, as stations and operators are told it.

ghost use Rattle.std.specs.Prelude.{◌≡◌, ◌++◌, IfOk, OnOk, string_bytes};
ghost use Rattle.percent_encoding.specs.Percent.{percent_encode};
ghost use Rattle.account_questions.specs.JobLines.{counts_text, device_text, escaped, job_text, moment_text, password_text, place_text, state_text, times_text};

use account_rules::{Job, JobState, Name, Standing};
use percent_encoding::{AsciiSet, CONTROLS, ascii_set, percent_encode};
use std::alloc::{AllocError, Global};

/// What is told as `%` and two digits in a job's name, beside bytes outside ASCII.
const ESCAPED: AsciiSet = ascii_set!(CONTROLS.add(b' ').add(b'%'));

/// Appends the line that tells a job, without its end.
pub(crate) fn put_job(out: &mut Vec<u8>, job: &Job) -> Result<(), AllocError>
    ensures { OnOk result (out.new.items ≡ out.old.items ++ job_text job.now) }
{
    put_place(out, job)?;
    put_times(out, &job.standing)?;
    out.push(b' ')?;
    put_password(out, job.password.as_slice())?;
    put_counts(out, &job.standing)?;
    out.push(b' ')?;
    put_name(out, job.name.as_slice())
}

/// Appends `job`, the job's number, its state, and its device or `-`, with a blank behind the
/// state.
#[tactic(auto, unfolding(crate::specs::JobLines::place_text))]
fn put_place(out: &mut Vec<u8>, job: &Job) -> Result<(), AllocError>
    ensures { OnOk result (out.new.items ≡ out.old.items ++ place_text job.now) }
{
    let number = job.job;
    let state = state_text(job.standing.state, job.standing.stopping);
    let text = format!(in *out.allocator(); "job {number} {state} ")?;
    out.extend_from_slice(text.as_bytes())?;
    out.extend_from_slice(device_text(&job.standing.device))
}

/// The word for the state in a line. A job that is processing and was canceled is `stopping`.
fn state_text(state: JobState, stopping: bool) -> &'static str
    ensures { result.now ≡ state_text state stopping }
{
    match state {
        JobState::Held => "held",
        JobState::Pending => "pending",
        JobState::Processing if stopping => "stopping",
        JobState::Processing => "processing",
        JobState::Canceled => "canceled",
        JobState::Aborted => "aborted",
        JobState::Completed => "completed",
    }
}

/// The name of the device, and `-` for none.
fn device_text(device: &Option<Name>) -> &[u8]
    ensures { result.now ≡ device_text device.now }
{
    match device {
        Some(name) => name.bytes(),
        None => b"-",
    }
}

/// Appends the moments at which the job was made, started and ended, a blank before each.
#[tactic(auto, unfolding(crate::specs::JobLines::times_text))]
fn put_times(out: &mut Vec<u8>, standing: &Standing) -> Result<(), AllocError>
    ensures { OnOk result (out.new.items ≡ out.old.items ++ times_text standing.now) }
{
    let created = standing.created;
    let started = moment_text(*out.allocator(), standing.started)?;
    let ended = moment_text(*out.allocator(), standing.ended)?;
    let text = format!(in *out.allocator(); " {created} {started} {ended}")?;
    out.extend_from_slice(text.as_bytes())
}

/// The moment in seconds since 1970, and `-` where it has not come.
fn moment_text(alloc: Global, at: Option<u64>) -> Result<String, AllocError>
    ensures { IfOk result (λ text. string_bytes text ≡ moment_text at) }
{
    match at {
        Some(at) => format!(in alloc; "{at}"),
        None => String::from_str(alloc, "-"),
    }
}

/// Appends `password` where the job has one, else `-`. The password itself is never told.
fn put_password(out: &mut Vec<u8>, password: &[u8]) -> Result<(), AllocError>
    ensures { OnOk result (out.new.items ≡ out.old.items ++ password_text password.now) }
{
    if password.is_empty() {
        return out.extend_from_slice(b"-");
    }
    out.extend_from_slice(b"password")
}

/// Appends copies, impressions, units reserved, units charged and documents, a blank before each.
#[tactic(auto, unfolding(crate::specs::JobLines::counts_text))]
fn put_counts(out: &mut Vec<u8>, standing: &Standing) -> Result<(), AllocError>
    ensures { OnOk result (out.new.items ≡ out.old.items ++ counts_text standing.now) }
{
    let Standing {
        copies,
        impressions,
        reserved,
        charged,
        documents,
        ..
    } = *standing;
    let text = format!(in *out.allocator();
        " {copies} {impressions} {reserved} {charged} {documents}"
    )?;
    out.extend_from_slice(text.as_bytes())
}

/// Appends the job's name, with `%` and two digits for blanks, `%`, control bytes and bytes outside
/// ASCII.
fn put_name(out: &mut Vec<u8>, name: &[u8]) -> Result<(), AllocError>
    ensures { OnOk result (out.new.items ≡ out.old.items ++ percent_encode escaped name.now) }
{
    let mut text = String::new(*out.allocator());
    percent_encode(name, ESCAPED).append_to(&mut text)?;
    out.extend_from_slice(text.as_bytes())
}
