//! The acts of an owner on a job: cancel, hold, release.
ghost use Rattle.std.specs.Prelude.{◌≡◌};
ghost use Rattle.client_owner.specs.Requests.{act_id};

/// What an owner does to a job, each an operation of IPP.
#[derive(Clone, Copy, PartialEq, Eq)]
pub enum JobAct {
    /// Cancel-Job.
    Cancel,
    /// Hold-Job.
    Hold,
    /// Release-Job.
    Release,
}

impl JobAct {
    /// Gives its operation-id (RFC 8011 section 5.4.15).
    pub(crate) fn operation_id(self) -> u16
        ensures { result ≡ act_id self }
    {
        match self {
            JobAct::Cancel => 0x0008,
            JobAct::Hold => 0x000c,
            JobAct::Release => 0x000d,
        }
    }
}
