//! Finds, adds and changes jobs in the list that a room in memory keeps, and counts over them. The
//! server keeps accounts in tables, and does not use this.

ghost use Rattle.std.specs.Prelude.{◌≡◌, ◌++◌, ◌∷◌, [], ◌==◌, map, find, option_copied, IsTrue, OnOk, OnErr};
ghost use Rattle.std.specs.Option.{option_to_list};
ghost use Rattle.account_rules.specs.Limits.{may_be_job};
ghost use Rattle.room_core.specs.ProofRestanding.{restood_job};
ghost use Rattle.account_state.specs.Tallies.{tally_of, is_in_bounds};

use crate::documents;
use account_rules::{Document, Job, Standing};
use account_state::Tally;
use ipp_coding::List;
use std::alloc::AllocError;

/// The job with the number.
pub(crate) fn find_job(jobs: &[Job], number: u32) -> Option<&Job>
    requires { IsTrue (may_be_job number) }
    ensures { option_copied result ≡ find (λ job. job.job == number) jobs.now }
{
    jobs.iter().find(|job| job.job == number)
}

/// Adds the job and its document, if there is one: both or neither.
pub(crate) fn push_job(
    jobs: &mut List<Job>,
    documents: &mut List<Document>,
    job: Job,
    document: Option<Document>,
) -> Result<(), AllocError>
    ensures job { OnOk result (jobs.new ≡ jobs.old ++ job ∷ []) }
    ensures document { OnOk result (documents.new ≡ documents.old ++ option_to_list document) }
    ensures jobs_unchanged { OnErr result (jobs.new ≡ jobs.old) }
    ensures documents_unchanged { OnErr result (documents.new ≡ documents.old) }
{
    jobs.items.push(job)?;
    let pushed = documents::push_document(documents, document);
    if pushed.is_err() {
        jobs.items.pop();
    }
    pushed
}

/// Gives the job with the number another standing.
pub(crate) fn restand(jobs: &mut List<Job>, number: u32, standing: &Standing)
    ensures { jobs.new ≡ map (restood_job number standing.now) jobs.old }
{
    restand_each(&mut jobs.items, number, standing);
}

/// Gives each job of the list with the number the standing, of which there is one at most.
fn restand_each(jobs: &mut [Job], number: u32, standing: &Standing)
    ensures { jobs.new ≡ map (restood_job number standing.now) jobs.old }
{
    for job in jobs.iter_mut() {
        restand_numbered(job, number, standing);
    }
}

/// Gives the job the standing, if it has the number.
fn restand_numbered(job: &mut Job, number: u32, standing: &Standing)
    ensures { job.new ≡ restood_job number standing.now job.old }
{
    if job.job == number {
        job.standing = *standing;
    }
}

/// Counts over all the jobs: how many are unfinished, and the units that they take.
pub(crate) fn tally_of(jobs: &[Job]) -> Tally
    requires { IsTrue (is_in_bounds (tally_of jobs.now)) }
    ensures { result ≡ tally_of jobs.now }
{
    let mut tally = Tally::new();
    for job in jobs {
        let standing = &job.standing;
        tally = tally
            .with(standing.state, standing.reserved, standing.charged)
            .unwrap();
    }
    tally
}
