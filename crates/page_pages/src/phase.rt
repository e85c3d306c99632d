//! The phase of a job: how it stands, as its owner is told, with a word, a sentence and a sign.

ghost use Rattle.std.specs.Prelude.{◌≡◌};
ghost use Rattle.page_pages.specs.Phases.{held_phase, phase_of, sentence, sign, word};

use crate::texts::{
    CANCELED, FAILED, HELD, IS_INCOMPLETE, IS_LOCKED, IS_PRINTING, IS_READY, IS_RELEASED,
    IS_STOPPING, IS_UNCOUNTED, NOTHING, PRINTED, PRINTING, RELEASED, STOPPING,
};
use account_rules::{Job, JobState, Standing, is_incomplete};

/// How a job stands. The first four are of one that is held.
#[derive(Clone, Copy)]
pub enum Phase {
    /// Documents are still to come, or it has none.
    Incomplete,
    /// Its password has to be given at a device.
    Locked,
    /// Its impressions are not known, and have to be given at a device.
    Uncounted,
    /// Its owner may release it.
    Ready,
    Released,
    Printing,
    /// It was canceled while it was printed.
    Stopping,
    Printed,
    Canceled,
    Failed,
}

/// Gives the phase of a job, by its state and by what it still lacks.
pub fn phase_of(job: &Job) -> Phase
    ensures { result ≡ phase_of job.now }
{
    match job.standing.state {
        JobState::Held => held_phase(&job.standing, job.password.as_slice()),
        JobState::Pending => Phase::Released,
        JobState::Processing if job.standing.stopping => Phase::Stopping,
        JobState::Processing => Phase::Printing,
        JobState::Canceled => Phase::Canceled,
        JobState::Aborted => Phase::Failed,
        JobState::Completed => Phase::Printed,
    }
}

/// Gives the phase of a job that is held: what keeps its owner from releasing it, if anything.
fn held_phase(standing: &Standing, password: &[u8]) -> Phase
    ensures { result ≡ held_phase standing.now password.now }
{
    if is_incomplete(standing) {
        return Phase::Incomplete;
    }
    if !password.is_empty() {
        return Phase::Locked;
    }
    if standing.impressions == 0 {
        return Phase::Uncounted;
    }
    Phase::Ready
}

/// Gives the word of the phase, for a job's row.
pub(crate) fn word(phase: Phase) -> &'static str
    ensures { result.now ≡ word phase }
{
    match phase {
        Phase::Incomplete | Phase::Locked | Phase::Uncounted | Phase::Ready => HELD,
        Phase::Released => RELEASED,
        Phase::Printing => PRINTING,
        Phase::Stopping => STOPPING,
        Phase::Printed => PRINTED,
        Phase::Canceled => CANCELED,
        Phase::Failed => FAILED,
    }
}

/// Gives the sentence that explains the phase. A job that has ended needs none.
pub(crate) fn sentence(phase: Phase) -> &'static str
    ensures { result.now ≡ sentence phase }
{
    match phase {
        Phase::Incomplete => IS_INCOMPLETE,
        Phase::Locked => IS_LOCKED,
        Phase::Uncounted => IS_UNCOUNTED,
        Phase::Ready => IS_READY,
        Phase::Released => IS_RELEASED,
        Phase::Printing => IS_PRINTING,
        Phase::Stopping => IS_STOPPING,
        Phase::Printed | Phase::Canceled | Phase::Failed => NOTHING,
    }
}

/// Gives the name of the phase's sign (`SIGNS`).
pub(crate) fn sign(phase: Phase) -> &'static str
    ensures { result.now ≡ sign phase }
{
    match phase {
        Phase::Incomplete => "open",
        Phase::Locked => "lock",
        Phase::Uncounted | Phase::Ready => "held",
        Phase::Released => "released",
        Phase::Printing => "printing",
        Phase::Stopping => "stopping",
        Phase::Printed => "done",
        Phase::Canceled => "canceled",
        Phase::Failed => "failed",
    }
}
