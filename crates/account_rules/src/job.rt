//! A job, its state and its documents.

ghost use Rattle.std.specs.Prelude.{◌≡◌, ◌≢◌, ◌≤◌, IfSome, None};
ghost use Rattle.account_rules.specs.JobStates.{is_processing, is_released, is_unfinished, state_number};
ghost use Rattle.account_rules.specs.Limits.{greatest_integer};
ghost use Rattle.account_rules.specs.Standings.{IsStanding};
ghost use Rattle.account_rules.specs.NewJobs.{fresh, CanMake};
ghost use Rattle.account_rules.specs.declared.job.JobState.{JobState as JobStateValue};

use crate::format::Format;
use crate::moment::Moment;
use crate::name::Name;
use ipp_coding::List;

/// The state of a job (RFC 8011 section 5.3.7).
#[derive(Clone, Copy, PartialEq, Eq)]
pub enum JobState {
    /// pending-held: it waits to be released.
    Held,
    /// It was released, and waits for a device.
    Pending,
    Processing,
    Canceled,
    Aborted,
    Completed,
}

impl JobState {
    /// The state's value of the enum job-state, which responses and rows have.
    pub fn number(self) -> u32
        ensures number { result ≡ state_number self }
        ensures integer { result ≤ greatest_integer }
    {
        match self {
            JobState::Pending => 3,
            JobState::Held => 4,
            JobState::Processing => 5,
            JobState::Canceled => 7,
            JobState::Aborted => 8,
            JobState::Completed => 9,
        }
    }

    /// The state with that number, as rows have it. None for any other number.
    pub fn of_number(number: u64) -> Option<JobState>
        ensures some { IfSome result (λ state. number ≡ state_number state) }
        ensures none { result ≡ None → (state : JobStateValue) → number ≢ state_number state }
    {
        match number {
            3 => Some(JobState::Pending),
            4 => Some(JobState::Held),
            5 => Some(JobState::Processing),
            7 => Some(JobState::Canceled),
            8 => Some(JobState::Aborted),
            9 => Some(JobState::Completed),
            _ => None,
        }
    }

    /// Whether a job in the state has not ended.
    pub fn is_unfinished(self) -> bool
        ensures { result ≡ is_unfinished self }
    {
        match self {
            JobState::Held | JobState::Pending | JobState::Processing => true,
            JobState::Canceled | JobState::Aborted | JobState::Completed => false,
        }
    }

    /// Whether a device is printing a job in the state.
    pub fn is_processing(self) -> bool
        ensures { result ≡ is_processing self }
    {
        matches!(self, JobState::Processing)
    }

    /// Whether a job in the state holds what a release took of the quota.
    pub fn is_released(self) -> bool
        ensures { result ≡ is_released self }
    {
        match self {
            JobState::Pending | JobState::Processing => true,
            JobState::Held | JobState::Canceled | JobState::Aborted | JobState::Completed => false,
        }
    }
}

/// All of a job but its number, its texts and its documents.
#[derive(Clone, Copy, PartialEq, Eq)]
pub struct Standing {
    pub state: JobState,
    /// Whether it still takes documents.
    pub is_open: bool,
    /// Whether it was canceled while it was processing.
    pub stopping: bool,
    /// 1 to 999.
    pub copies: u32,
    /// Impressions of one copy, up to 2147483647; 0 where unknown.
    pub impressions: u32,
    /// Units of the quota that its release took.
    pub reserved: u64,
    /// Units of the quota that were charged when it ended.
    pub charged: u64,
    /// How many documents it was given, up to 8.
    pub documents: u32,
    /// Units that an impression counts, 1 to 100.
    pub rate: u32,
    /// The device that it is bound to.
    pub device: Option<Name>,
    /// Moments, in seconds since 1970-01-01T00:00:00Z.
    pub created: u64,
    pub started: Option<u64>,
    pub ended: Option<u64>,
}

/// A job. Its texts are kept as bytes.
#[derive(Drop)]
pub struct Job {
    /// Its number in its account, 1 to 999999.
    pub job: u32,
    pub name: List<u8>,
    /// Empty where it has none.
    pub password: List<u8>,
    pub standing: Standing,
}

/// A document of a job.
#[derive(Drop)]
pub struct Document {
    pub job: u32,
    /// Its number in its job, 1 to 8.
    pub number: u32,
    pub format: Format,
    pub bytes: List<u8>,
}

/// The standing of a new job, as Print-Job (closed, with its one document) or Create-Job (open)
/// makes it at the moment `now`: held, with the copies and the impressions of one copy that the
/// request gives, 0 where these are unknown.
pub fn fresh(is_print_job: bool, copies: u32, impressions: u32, now: Moment) -> Standing
    ensures made { result ≡ fresh is_print_job copies impressions now }
    // What a request may give makes a standing within the ranges.
    ensures standing { CanMake copies impressions → IsStanding result }
{
    Standing {
        state: JobState::Held,
        is_open: !is_print_job,
        stopping: false,
        copies,
        impressions,
        reserved: 0,
        charged: 0,
        documents: if is_print_job { 1 } else { 0 },
        rate: 1,
        device: None,
        created: now.seconds(),
        started: None,
        ended: None,
    }
}
