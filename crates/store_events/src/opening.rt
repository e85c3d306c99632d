//! The event that opens an account: refuses it where the account is open, opens it and answers.

ghost use Rattle.store_events.specs.Prelude.{DoesAnswer, WasOpen, answered};
ghost use Rattle.account_machine.specs.Events.{OfAccount, Open};
ghost use Rattle.store_events.specs.Reading.{IsReadable};

use crate::lines::{done_by, refused_by};
use account_machine::{Answered, Moment, Name, Success, Word};
use rows_tables::TableFault;
use sqlite::Alter;
use std::alloc::Global;
use store_rounds::{Rounds, find_account, open_account};

/// Opens the account at the moment `now` and answers `ok`, or `exists` where it is open already.
pub fn open<S: Alter>(
    alloc: Global,
    connection: &mut Rounds<S>,
    account: Name,
    now: Moment,
) -> Result<Answered, TableFault>
    ensures served { DoesAnswer S.Store connection.old connection.new account
        (IsReadable now (OfAccount account Open))
        (λ room devices. answered room devices now (OfAccount account Open)) result }
    ensures asks { WasOpen S.Store connection.old connection.new result }
{
    if find_account(connection, account)?.is_some() {
        return refused_by(alloc, Word::Exists);
    }
    let answered = done_by(alloc, Success::Ok)?;
    open_account(connection, account, now)?;
    Ok(answered)
}
