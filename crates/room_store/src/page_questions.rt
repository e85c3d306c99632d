//! Questions that are answered by web pages: of an account its owner's page, its statement of a month
//! or a year, and that of the desk; and the desk's page of devices. `questions` has asked before whether
//! the account is open.

ghost use Rattle.std.specs.Prelude.{◌≡◌, map, Some, None, Err, IfOk};
ghost use Rattle.std.specs.FinMap.{entries, values};
ghost use Rattle.account_asks.specs.declared.ask.Which.TheVariants.{NotCompleted, Completed};
ghost use Rattle.account_questions.specs.Pages.{most_shown};
ghost use Rattle.account_machine.specs.declared.event.Reply.TheVariants as reply;
ghost use Rattle.account_questions.specs.declared.question.About.TheVariants as about;
ghost use Rattle.account_state.specs.Grants.{grant_of};
ghost use Rattle.account_state.specs.Queues.{first_jobs, completed, not_completed};
ghost use Rattle.room_store.specs.Prelude.{HoldsRoom, IfOurTables, LooksUp, RoomValue, WasOpen};
ghost use Rattle.room_store.specs.Questions.{DeskPageIsReadable, GrantsAreReadable, OwnerPageIsReadable, StatementPageIsReadable, TellsAbout};
ghost use Rattle.page_pages.specs.DeskDevices.{devices_page};
ghost use Rattle.account_rules.specs.Devices.{Devices};
ghost use Rattle.rows_statements.specs.SoundRows.{CanBeListed};
ghost use Rattle.rows_tables.specs.Devices.{HoldsDevices};
ghost use Rattle.store_events.specs.Reading.{JobsAreReadable};

use crate::about_account::read_quota;
use account_machine::{Job, Name, Reply};
use account_questions::{MOST_SHOWN, desk_page, devices_page, owner_page, statement_page};
use account_rules::Grant;
use ipp_coding::List;
use page_pages::{DeskAccount, Form, Outcome, Owner, Statement};
use rows_statements::{ended_jobs, list_devices, list_grants, unfinished_jobs};
use rows_tables::TableFault;
use sqlite::Alter;
use std::alloc::Global;
use store_rounds::Rounds;

/// Answers with the page of the account's owner.
pub(crate) fn tell_owner_page<S: Alter>(
    alloc: Global,
    connection: &mut Rounds<S>,
    account: Name,
    month: u32,
    outcome: Option<Outcome>,
    stays: bool,
    needs_password: bool,
) -> Result<Reply, TableFault>
    ensures told { TellsAbout S.Store connection.old connection.new account
        (about.OwnerPage month outcome stays needs_password) result }
    ensures damaged { IfOurTables S.Store connection.old connection.new
        (λ db. result ≡ Err TableFault.Damaged → OwnerPageIsReadable account month db → ⊥) }
    ensures looks { LooksUp S.Store connection.old connection.new result }
{
    let quota = read_quota(connection, account, month)?;
    let (waiting, ended) = read_jobs(alloc, connection, account)?;
    let devices = list_devices(alloc, connection)?;
    let owner = Owner {
        account,
        month,
        granted: quota.granted,
        reserved: quota.reserved,
        charged: quota.charged,
        waiting,
        ended,
        devices,
        outcome,
        stays,
        needs_password,
    };
    Ok(Reply::Line(owner_page(alloc, &owner)?))
}

/// Reads the jobs for the owner's page and that of the desk: all that have not ended, and the last
/// `MOST_SHOWN` that have.
fn read_jobs<S: Alter>(
    alloc: Global,
    connection: &mut Rounds<S>,
    account: Name,
) -> Result<(List<Job>, List<Job>), TableFault>
    ensures told { IfOurTables S.Store connection.old connection.new (λ db.
        (room : RoomValue) → HoldsRoom db account room → IfOk result (λ jobs.
        (jobs.0 ≡ not_completed (values room.jobs))
        × (jobs.1 ≡ first_jobs (Some most_shown) (completed (values room.jobs))))) }
    ensures damaged { IfOurTables S.Store connection.old connection.new (λ db.
        result ≡ Err TableFault.Damaged → JobsAreReadable account NotCompleted None db
        → JobsAreReadable account Completed (Some most_shown) db → ⊥) }
    ensures looks { LooksUp S.Store connection.old connection.new result }
{
    let waiting = unfinished_jobs(alloc, connection, account, None)?;
    let ended = ended_jobs(alloc, connection, account, Some(MOST_SHOWN))?;
    Ok((waiting, ended))
}

/// Answers with the statement of a month or a year. `drawn_up` is the moment that it tells as its
/// own.
pub(crate) fn tell_statement_page<S: Alter>(
    alloc: Global,
    connection: &mut Rounds<S>,
    account: Name,
    first: u32,
    last: u32,
    form: Form,
    drawn_up: u64,
) -> Result<Reply, TableFault>
    ensures told { TellsAbout S.Store connection.old connection.new account
        (about.StatementPage first last form drawn_up) result }
    ensures damaged { IfOurTables S.Store connection.old connection.new
        (λ db. result ≡ Err TableFault.Damaged → StatementPageIsReadable account last db → ⊥) }
    ensures looks { LooksUp S.Store connection.old connection.new result }
{
    let quota = read_quota(connection, account, last)?;
    let (grants, ended) = read_movements(alloc, connection, account)?;
    let statement = Statement {
        account,
        first,
        last,
        form,
        drawn_up,
        granted: quota.granted,
        reserved: quota.reserved,
        charged: quota.charged,
        grants,
        ended,
    };
    Ok(Reply::Line(statement_page(alloc, &statement)?))
}

/// Reads what moved the account's units: all its grants, and all its jobs that have ended.
fn read_movements<S: Alter>(
    alloc: Global,
    connection: &mut Rounds<S>,
    account: Name,
) -> Result<(List<Grant>, List<Job>), TableFault>
    ensures told { IfOurTables S.Store connection.old connection.new (λ db.
        (room : RoomValue) → HoldsRoom db account room → IfOk result (λ moved.
        (moved.0 ≡ map grant_of (entries room.grants))
        × (moved.1 ≡ completed (values room.jobs)))) }
    ensures damaged { IfOurTables S.Store connection.old connection.new (λ db.
        result ≡ Err TableFault.Damaged → GrantsAreReadable account db
        → JobsAreReadable account Completed None db → ⊥) }
    ensures looks { LooksUp S.Store connection.old connection.new result }
{
    let grants = list_grants(alloc, connection, account)?;
    let ended = ended_jobs(alloc, connection, account, None)?;
    Ok((grants, ended))
}

/// Answers with the desk's page of the account.
pub(crate) fn tell_desk_page<S: Alter>(
    alloc: Global,
    connection: &mut Rounds<S>,
    account: Name,
    month: u32,
) -> Result<Reply, TableFault>
    ensures told { TellsAbout S.Store connection.old connection.new account
        (about.DeskPage month) result }
    ensures damaged { IfOurTables S.Store connection.old connection.new
        (λ db. result ≡ Err TableFault.Damaged → DeskPageIsReadable account month db → ⊥) }
    ensures looks { LooksUp S.Store connection.old connection.new result }
{
    let quota = read_quota(connection, account, month)?;
    let (waiting, ended) = read_jobs(alloc, connection, account)?;
    let grants = list_grants(alloc, connection, account)?;
    let shown = DeskAccount {
        account,
        month,
        granted: quota.granted,
        reserved: quota.reserved,
        charged: quota.charged,
        waiting,
        ended,
        grants,
    };
    Ok(Reply::Line(desk_page(alloc, &shown)?))
}

/// Answers with the desk's page of all devices.
pub(crate) fn tell_devices_page<S: Alter>(
    alloc: Global,
    connection: &mut Rounds<S>,
) -> Result<Reply, TableFault>
    ensures told { IfOurTables S.Store connection.old connection.new (λ db. IfOk result (λ told.
        (devices : Devices) → HoldsDevices db devices
        → told ≡ reply.Line (devices_page (values devices)))) }
    ensures damaged { IfOurTables S.Store connection.old connection.new
        (λ db. result ≡ Err TableFault.Damaged → CanBeListed db → ⊥) }
    ensures looks { LooksUp S.Store connection.old connection.new result }
    ensures asks { WasOpen S.Store connection.old connection.new result }
{
    let devices = list_devices(alloc, connection)?;
    Ok(Reply::Line(devices_page(alloc, devices.as_slice())?))
}
