//! The event of an operator's grant: decides whether the grant may be made, makes it and answers.

ghost use Rattle.store_events.specs.Prelude.{DoesStep};
ghost use Rattle.account_machine.specs.Grants.{granted};
ghost use Rattle.account_state.specs.RoomRules.{IsGrant};
ghost use Rattle.store_events.specs.Reading.{GrantIsReadable};

use crate::lines::{done_by, refused_by};
use account_machine::{Answered, Name, Success, check_grant};
use rows_statements::find_grant;
use rows_tables::TableFault;
use sqlite::Alter;
use std::alloc::Global;
use store_rounds::{Rounds, add_grant};

/// Grants the account, which is open, pages to be used in the month or later, and answers `ok`.
/// Where the month has a grant already, it answers `same` (of the same pages) or `conflict`, and
/// changes nothing.
pub fn grant<S: Alter>(
    alloc: Global,
    connection: &mut Rounds<S>,
    account: Name,
    month: u32,
    pages: u32,
) -> Result<Answered, TableFault>
    requires grant { IsGrant month pages }
    ensures served { DoesStep S.Store connection.old connection.new account
        (GrantIsReadable account month) (λ room devices. granted room month pages) result }
{
    let held = find_grant(connection, account, month)?;
    if let Err(word) = check_grant(held, pages) {
        return refused_by(alloc, word);
    }
    let answered = done_by(alloc, Success::Ok)?;
    add_grant(connection, account, month, pages)?;
    Ok(answered)
}
