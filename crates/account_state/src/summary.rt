//! `Summary`: what a statement tells of an account's jobs, and of them in one month.

/// What the jobs of an account come to, and what of it in one month.
#[derive(Clone, Copy, PartialEq, Eq)]
pub struct Summary {
    /// Units of the quota that jobs reserve.
    pub reserved: u64,
    /// Units that jobs were charged.
    pub charged: u64,
    /// Units that those were charged that ended in the month.
    pub charged_then: u64,
    /// Units of these beyond what the jobs' releases let them cost: devices had counted more.
    pub beyond_then: u64,
    /// How many jobs are held.
    pub held: u64,
    /// How many wait for a device.
    pub pending: u64,
    /// How many a device prints.
    pub processing: u64,
    /// How many ended in the month.
    pub ended_then: u64,
}
