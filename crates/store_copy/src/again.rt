//! Beginning an account of the copy anew, after the source has changed it while it was half copied.

ghost use Rattle.std.specs.Prelude.{IfOk};
ghost use Rattle.store_copy.specs.Slices.{ForgetsAccount, StartsAgain};
ghost use Rattle.rows_tables.specs.Calls.{Changes, ChangesWhole, KeepsConnection, WritesInSavepoint};
ghost use Rattle.sqlite.specs.Held.{state};

use crate::removals::{remove_account, remove_documents, remove_grants, remove_jobs};
use crate::slices::Progress;
use account_rules::Name;
use sqlite::{Alter, Connection, Error, Savepoint};

/// Deletes from the copy the account that is half copied, so that it begins anew, and answers how
/// far the copy has come then. Where no account is half copied it does nothing.
pub fn start_again<T: Alter>(
    copy: &mut Connection<T>,
    progress: &Progress,
) -> Result<Progress, Error>
    ensures again { Changes T.Store copy.old copy.new result (λ before after.
        IfOk result (λ to. StartsAgain progress.now to before after)) }
    ensures copy { KeepsConnection (state T.Store copy.old) (state T.Store copy.new) }
{
    match progress {
        Progress::Within { account, .. } => {
            forget_account(copy, *account)?;
            Ok(Progress::Anew(*account))
        }
        _ => Ok(*progress),
    }
}

/// Deletes all rows of the account from the copy, in one savepoint.
fn forget_account<T: Alter>(copy: &mut Connection<T>, account: Name) -> Result<(), Error>
    ensures forgets { ChangesWhole T.Store copy.old copy.new result (ForgetsAccount account) }
{
    let mut savepoint = copy.savepoint()?;
    forget_rows(&mut savepoint, account)?;
    savepoint.commit()
}

/// Deletes all rows of the account from the copy, inside a savepoint.
fn forget_rows<T: Alter>(savepoint: &mut Savepoint<'_, T>, account: Name) -> Result<(), Error>
    ensures forgets { Changes T.Store savepoint.old.conn.now savepoint.new.conn.now result
        (ForgetsAccount account) }
    ensures inside { WritesInSavepoint savepoint.old savepoint.new result }
{
    remove_documents(savepoint, account)?;
    remove_jobs(savepoint, account)?;
    remove_grants(savepoint, account)?;
    remove_account(savepoint, account)
}
