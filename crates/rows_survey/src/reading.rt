//! `survey`: what the overview reads of one account.

ghost use Rattle.std.specs.Prelude.{◌≡◌, Err, IfOk};
ghost use Rattle.page_overview.specs.Surveys.{IsInBounds, IsSurvey};
ghost use Rattle.account_state.specs.Rooms.{RoomValue};
ghost use Rattle.rows_survey.specs.Reading.{SurveyIsReadable};
ghost use Rattle.rows_tables.specs.Accounts.{HoldsRoom};
ghost use Rattle.rows_tables.specs.Calls.{IfOurTables, ReadsStore};

use crate::charges::charges_of;
use account_rules::Name;
use page_overview::Survey;
use rows_statements::{Reads, granted_to, summarize, unfinished_jobs};
use rows_tables::TableFault;
use std::alloc::Global;

/// Reads for the overview of a month what the account was granted, what its jobs come to, what was
/// charged on each day, and its unfinished jobs. `Damaged` where a row is broken, or a sum is more
/// than an account can have.
pub fn survey<R: Reads>(
    alloc: Global,
    connection: &mut R,
    account: Name,
    month: u32,
) -> Result<Survey, TableFault>
    ensures told { IfOurTables R.S.Store (R.held connection.old) (R.held connection.new)
        (λ db. (room : RoomValue)
        → HoldsRoom db account room → IfOk result (IsSurvey month room)) }
    ensures bounds { IfOk result IsInBounds }
    ensures damaged { IfOurTables R.S.Store (R.held connection.old) (R.held connection.new)
        (λ db. result ≡ Err TableFault.Damaged → SurveyIsReadable account month db → ⊥) }
    ensures reads { ReadsStore R.S.Store (R.held connection.old) (R.held connection.new) result }
{
    let summary = summarize(connection, account, month)?;
    let granted = granted_to(connection, account, month)?;
    let days = charges_of(connection, account, month)?;
    let unfinished = unfinished_jobs(alloc, connection, account, None)?;
    Ok(Survey {
        granted,
        summary,
        days,
        unfinished,
    })
}
