//! The look-up of a job by a number that a client sent, which may be any.

ghost use Rattle.std.specs.Prelude.{◌≡◌, Err, IfOk, IfSome};
ghost use Rattle.store_rounds.specs.Prelude.{HasJobRow, HoldsRoom, IfOurTables, IsNumbered, LooksUp, RoomValue};
ghost use Rattle.std.specs.FinMap.{get};
ghost use Rattle.store_rounds.specs.Reading.{JobIsReadable};

use account_rules::{Job, Name, may_be_job};
use rows_statements::find_job;
use rows_tables::TableFault;
use sqlite::{Alter, Connection};

/// Reads the account's job of this number. `None` where there is none; of a number that no job can
/// have the tables are not asked. `Damaged` where its row is broken.
pub(crate) fn look_up<S: Alter>(
    connection: &mut Connection<S>,
    account: Name,
    number: u32,
) -> Result<Option<Job>, TableFault>
    ensures found { IfOurTables S.Store connection.old connection.new
        (λ db. (room : RoomValue) → HoldsRoom db account room →
        IfOk result (λ found. found ≡ get room.jobs number)) }
    ensures is_there { IfOurTables S.Store connection.old connection.new
        (λ db. IfOk result (λ found. IfSome found (λ job. HasJobRow account job db))) }
    ensures in_range { IfOk result
        (λ found. IfSome found (λ job. (job.job ≡ number) × IsNumbered job)) }
    ensures damaged { IfOurTables S.Store connection.old connection.new
        (λ db. result ≡ Err TableFault.Damaged → JobIsReadable account number db → ⊥) }
    ensures looks { LooksUp S.Store connection.old connection.new result }
{
    if !may_be_job(number) {
        return Ok(None);
    }
    find_job(connection, account, number)
}
