//! Writing what an event made of a job's standing.

ghost use Rattle.std.specs.Prelude.{◌≡◌, Err};
ghost use Rattle.store_events.specs.Prelude.{IfOurTables, IsStanding, Keeps};
ghost use Rattle.store_events.specs.ProofKnown.{StandsJob};
ghost use Rattle.rows_tables.specs.Calls.{ChangesWhole};

use account_machine::{Job, Name, Standing};
use rows_tables::TableFault;
use sqlite::Alter;
use store_rounds::{Rounds, end_job, restand_job};

/// Gives a job that is there its next standing. A job that ends loses its documents.
pub(crate) fn stand<S: Alter>(
    connection: &mut Rounds<S>,
    account: Name,
    job: &Job,
    standing: &Standing,
) -> Result<(), TableFault>
    requires before { IsStanding job.now.standing }
    requires in_range { IsStanding standing.now }
    requires kept { Keeps job.now.standing standing.now }
    ensures stands { ChangesWhole S.Store connection.old connection.new result
        (StandsJob account job.now standing.now) }
    ensures undamaged { IfOurTables S.Store connection.old connection.new
        (λ db. result ≡ Err TableFault.Damaged → ⊥) }
{
    if standing.state.is_unfinished() {
        return restand_job(connection, account, job.job, standing, None);
    }
    Ok(end_job(connection, account, job.job, standing)?)
}
