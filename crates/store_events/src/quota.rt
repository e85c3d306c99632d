//! The quota at a release: what an account has left, and whether a release may reserve what it asks
//! for.

ghost use Rattle.std.specs.Prelude.{◌≡◌, ◌≤◌, pos, ◌≤ℤ◌, false, Err, IfOk, Ok, OnOk};
ghost use Rattle.store_events.specs.Prelude.{HoldsRoom, IfOurTables, LooksUp, RoomValue};
ghost use Rattle.account_rules.specs.JobStates.{is_released};
ghost use Rattle.account_rules.specs.Limits.{most_units};
ghost use Rattle.account_rules.specs.Months.{month_at};
ghost use Rattle.account_rules.specs.Quota.{left_of, least_left, most_left};
ghost use Rattle.account_rules.specs.StateLaws.{kept_to_quota};
ghost use Rattle.account_state.specs.Sums.{granted_to, left_in};
ghost use Rattle.rows_statements.specs.SoundRows.{grant_rows, CanBeAdded};
ghost use Rattle.store_events.specs.Reading.{QuotaIsReadable};
ghost use Rattle.rows_tables.specs.Calls.{ReadsStore};

use account_machine::{JobState, Moment, Name, Refusal, Standing, month_of, within_quota};
use account_rules::left;
use rows_statements::granted_to;
use rows_tables::TableFault;
use sqlite::Alter;
use store_rounds::{Rounds, Sums, sum_up};

/// How many units the account has left at the moment `now`: what was granted, less what its jobs
/// reserve and were charged. It may be below 0.
pub(crate) fn left_now<S: Alter>(
    connection: &mut Rounds<S>,
    account: Name,
    now: Moment,
) -> Result<i64, TableFault>
    ensures left { IfOurTables S.Store connection.old connection.new
        (λ db. (room : RoomValue) → HoldsRoom db account room →
        IfOk result (λ left. left ≡ left_in room now)) }
    ensures low { IfOk result (λ left. least_left ≤ℤ left) }
    ensures high { IfOk result (λ left. left ≤ℤ most_left) }
    ensures damaged { IfOurTables S.Store connection.old connection.new
        (λ db. result ≡ Err TableFault.Damaged → QuotaIsReadable account now db → ⊥) }
    ensures looks { LooksUp S.Store connection.old connection.new result }
{
    let sums = sum_up(connection, account)?;
    let granted = granted_now(connection, account, now)?;
    Ok(left_of(granted, sums))
}

/// What the account was granted for all months up to that of the moment `now`, in units.
fn granted_now<S: Alter>(
    connection: &mut Rounds<S>,
    account: Name,
    now: Moment,
) -> Result<u64, TableFault>
    ensures granted { IfOurTables S.Store connection.old connection.new
        (λ db. (room : RoomValue) → HoldsRoom db account room →
        IfOk result (λ granted. granted ≡ granted_to room (month_at now))) }
    ensures bound { IfOk result (λ granted. granted ≤ most_units) }
    ensures damaged { IfOurTables S.Store connection.old connection.new
        (λ db. result ≡ Err TableFault.Damaged
        → CanBeAdded account (month_at now) (grant_rows db account) → ⊥) }
    ensures reads { ReadsStore S.Store connection.old connection.new result }
{
    granted_to(connection, account, month_of(now))
}

/// What is left of `granted` units, less the sums of the jobs.
fn left_of(granted: u64, sums: Sums) -> i64
    requires granted { granted ≤ most_units }
    requires reserved { sums.reserved ≤ most_units }
    requires charged { sums.charged ≤ most_units }
    ensures left { result ≡ left_of (pos granted) (pos sums.reserved) (pos sums.charged) }
    ensures low { least_left ≤ℤ result }
    ensures high { result ≤ℤ most_left }
{
    left(granted as i64, sums.reserved as i64, sums.charged as i64)
}

/// Refuses a release of which more would be reserved than is left at the moment `now`. `asked` is
/// what the rules made of the release without the quota. A refusal stays; so does the standing of a
/// job that was released `before`, for which enough is reserved. Only else what is left is read.
pub(crate) fn keep_to_quota<S: Alter>(
    connection: &mut Rounds<S>,
    account: Name,
    now: Moment,
    before: JobState,
    asked: Result<Standing, Refusal>,
) -> Result<Result<Standing, Refusal>, TableFault>
    ensures kept { IfOurTables S.Store connection.old connection.new
        (λ db. (room : RoomValue) → HoldsRoom db account room →
        IfOk result (λ decided. decided ≡ kept_to_quota before (left_in room now) asked)) }
    ensures same { IfOk result (λ decided. IfOk decided (λ released. asked ≡ Ok released)) }
    ensures damaged { IfOurTables S.Store connection.old connection.new
        (λ db. result ≡ Err TableFault.Damaged
        → OnOk asked (is_released before ≡ false → QuotaIsReadable account now db) → ⊥) }
    ensures looks { LooksUp S.Store connection.old connection.new result }
{
    let released = match asked {
        Ok(released) => released,
        Err(refusal) => return Ok(Err(refusal)),
    };
    if before.is_released() {
        return Ok(Ok(released));
    }
    let left = left_now(connection, account, now)?;
    Ok(within_quota(released, left))
}
