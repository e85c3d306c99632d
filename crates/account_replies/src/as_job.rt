//! Lets a response list jobs that it owns or borrows, through one trait.

ghost use Rattle.std.specs.Prelude.{◌≡◌};
ghost use Rattle.account_rules.specs.declared.job.Job.{Job};

use account_rules::Job;

/// A job, or a reference to one: what a reply lists is a slice of either.
pub trait AsJob {
    ghost job: { Self → Job };

    /// The job itself.
    fn as_job(&self) -> &Job
        ensures { result.now ≡ job self.now };
}

impl AsJob for Job {
    ghost job = { λ job. job };

    fn as_job(&self) -> &Job {
        self
    }
}

impl AsJob for &Job {
    ghost job = { λ lent. lent.now };

    fn as_job(&self) -> &Job {
        self
    }
}
