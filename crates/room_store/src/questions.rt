//! The dispatch of questions, which change nothing: which function answers which question.
//! Questions about an open account are answered in the other files, all others here.

ghost use Rattle.std.specs.Prelude.{◌≡◌, ℕ, List, Option, Err, IfOk, codes};
ghost use Rattle.std.specs.FinMap.{values};
ghost use Rattle.account_machine.specs.declared.event.Reply.TheVariants as reply;
ghost use Rattle.account_questions.specs.Lists.{accounts_text, devices_text};
ghost use Rattle.account_state.specs.Names.{next_names};
ghost use Rattle.account_questions.specs.Questions.{NeedsDevices, answer_to};
ghost use Rattle.account_questions.specs.declared.question.Question.TheVariants as question;
ghost use Rattle.account_rules.specs.Devices.{Devices};
ghost use Rattle.rows_statements.specs.SoundRows.{AreNamed, CanBeListed};
ghost use Rattle.room_store.specs.Questions.{AboutIsReadable, AccountIsAnswerable, IsAbout, OpenNames, QuestionIsReadable, TellsAbout, TellsOfAnyRows, TellsWhetherSound};
ghost use Rattle.room_store.specs.Prelude.{IfOurTables, LooksUp, RoomValue, WasOpen};
ghost use Rattle.rows_tables.specs.Accounts.{Holds};
ghost use Rattle.rows_tables.specs.Devices.{HoldsDevices};

use crate::about_account::{tell_ended, tell_grants, tell_left, tell_statement, tell_unfinished};
use crate::page_questions::{
    tell_desk_page, tell_devices_page, tell_owner_page, tell_statement_page,
};
use crate::station_questions::{tell_again, tell_waiting};
use account_machine::{Name, Reply, Success, Word};
use account_questions::{About, Question, accounts_lines, check_line, devices_lines};
use rows_checks::check_account;
use rows_statements::{list_devices, next_accounts};
use rows_tables::TableFault;
use sqlite::Alter;
use std::alloc::Global;
use store_events::{refusal_line, success_line};
use store_rounds::{Rounds, find_account, knock};

/// Answers a question, by the function for its kind.
pub(crate) fn answer_question<S: Alter>(
    alloc: Global,
    connection: &mut Rounds<S>,
    asked: Question,
) -> Result<Reply, TableFault>
    ensures told { IfOurTables S.Store connection.old connection.new (λ db. IfOk result (λ told.
        (room : Option RoomValue) (devices : Devices) (names : List (List ℕ))
        → IsAbout asked room devices names db → told ≡ answer_to asked room devices names)) }
    ensures checked { IfOurTables S.Store connection.old connection.new
        (λ db. IfOk result (TellsOfAnyRows asked db)) }
    ensures damaged { IfOurTables S.Store connection.old connection.new
        (λ db. result ≡ Err TableFault.Damaged → QuestionIsReadable asked db → ⊥) }
    ensures looks { LooksUp S.Store connection.old connection.new result }
    ensures asks { WasOpen S.Store connection.old connection.new result }
{
    match asked {
        Question::Ping | Question::End => tell_ok(alloc, connection),
        Question::Devices => tell_devices(alloc, connection),
        Question::DevicesPage => tell_devices_page(alloc, connection),
        Question::Accounts { behind } => tell_accounts(alloc, connection, behind),
        Question::Check { account } => tell_check(alloc, connection, account),
        Question::Account { account, about } => tell_account(alloc, connection, account, about),
    }
}

/// Answers `ok` where the tables can be read.
fn tell_ok<S: Alter>(alloc: Global, connection: &mut Rounds<S>) -> Result<Reply, TableFault>
    ensures told { IfOk result (λ told. told ≡ reply.Line (codes "ok")) }
    ensures damaged { result ≡ Err TableFault.Damaged → ⊥ }
    ensures looks { LooksUp S.Store connection.old connection.new result }
    ensures asks { WasOpen S.Store connection.old connection.new result }
{
    knock(connection)?;
    success_line(alloc, Success::Ok)
}

/// Answers all devices, one in a line.
fn tell_devices<S: Alter>(alloc: Global, connection: &mut Rounds<S>) -> Result<Reply, TableFault>
    ensures told { IfOurTables S.Store connection.old connection.new (λ db. IfOk result (λ told.
        (devices : Devices) → HoldsDevices db devices
        → told ≡ reply.Line (devices_text (values devices)))) }
    ensures damaged { IfOurTables S.Store connection.old connection.new
        (λ db. result ≡ Err TableFault.Damaged → CanBeListed db → ⊥) }
    ensures looks { LooksUp S.Store connection.old connection.new result }
    ensures asks { WasOpen S.Store connection.old connection.new result }
{
    let devices = list_devices(alloc, connection)?;
    Ok(Reply::Line(devices_lines(alloc, devices.as_slice())?))
}

/// Answers the next page of names of accounts, one in a line.
fn tell_accounts<S: Alter>(
    alloc: Global,
    connection: &mut Rounds<S>,
    behind: Option<Name>,
) -> Result<Reply, TableFault>
    ensures told { IfOurTables S.Store connection.old connection.new (λ db. IfOk result (λ told.
        (names : List (List ℕ)) → OpenNames db names
        → told ≡ reply.Line (accounts_text (next_names behind names)))) }
    ensures damaged { IfOurTables S.Store connection.old connection.new
        (λ db. result ≡ Err TableFault.Damaged → AreNamed db → ⊥) }
    ensures looks { LooksUp S.Store connection.old connection.new result }
    ensures asks { WasOpen S.Store connection.old connection.new result }
{
    let names = next_accounts(alloc, connection, behind)?;
    Ok(Reply::Line(accounts_lines(alloc, names.as_slice())?))
}

/// Answers whether the rows of the account are sound. `Storage` also where a transaction is under
/// way, which a read that fails would undo.
fn tell_check<S: Alter>(
    alloc: Global,
    connection: &mut Rounds<S>,
    account: Name,
) -> Result<Reply, TableFault>
    ensures told { IfOurTables S.Store connection.old connection.new (λ db. IfOk result (λ told.
        (room : Option RoomValue) (devices : Devices) (names : List (List ℕ)) → Holds db account room
        → told ≡ answer_to (question.Check account) room devices names)) }
    ensures checked { IfOurTables S.Store connection.old connection.new
        (λ db. IfOk result (TellsWhetherSound account db)) }
    ensures damaged { result ≡ Err TableFault.Damaged → ⊥ }
    ensures looks { LooksUp S.Store connection.old connection.new result }
    ensures asks { WasOpen S.Store connection.old connection.new result }
{
    // A read that fails would undo the transaction.
    if connection.is_under_way() {
        return Err(TableFault::Storage);
    }
    match check_account(alloc, connection, account) {
        Ok(true) => Ok(Reply::Line(check_line(alloc, true)?)),
        Ok(false) => refusal_line(alloc, Word::NoAccount),
        Err(TableFault::Damaged) => {
            knock(connection)?;
            Ok(Reply::Line(check_line(alloc, false)?))
        }
        Err(fault) => Err(fault),
    }
}

/// Answers a question about an account, or refuses it where the account is not open.
fn tell_account<S: Alter>(
    alloc: Global,
    connection: &mut Rounds<S>,
    account: Name,
    about: About,
) -> Result<Reply, TableFault>
    ensures told { IfOurTables S.Store connection.old connection.new (λ db. IfOk result (λ told.
        (room : Option RoomValue) (devices : Devices) → Holds db account room
        → (NeedsDevices about → HoldsDevices db devices) → (names : List (List ℕ))
        → told ≡ answer_to (question.Account account about) room devices names)) }
    ensures damaged { IfOurTables S.Store connection.old connection.new
        (λ db. result ≡ Err TableFault.Damaged → AccountIsAnswerable account about db → ⊥) }
    ensures looks { LooksUp S.Store connection.old connection.new result }
    ensures asks { WasOpen S.Store connection.old connection.new result }
{
    match find_account(connection, account)? {
        Some(_) => tell_about(alloc, connection, account, about),
        None => refusal_line(alloc, Word::NoAccount),
    }
}

/// Answers a question about an account that is open, by the function for its kind.
fn tell_about<S: Alter>(
    alloc: Global,
    connection: &mut Rounds<S>,
    account: Name,
    about: About,
) -> Result<Reply, TableFault>
    ensures told { TellsAbout S.Store connection.old connection.new account about result }
    ensures damaged { IfOurTables S.Store connection.old connection.new
        (λ db. result ≡ Err TableFault.Damaged → AboutIsReadable account db about → ⊥) }
    ensures looks { LooksUp S.Store connection.old connection.new result }
{
    match about {
        About::Left { month } => tell_left(alloc, connection, account, month),
        About::Statement { month } => tell_statement(alloc, connection, account, month),
        About::Jobs => tell_unfinished(alloc, connection, account),
        About::Ended { most } => tell_ended(alloc, connection, account, most),
        About::Grants => tell_grants(alloc, connection, account),
        About::Waiting { device } => tell_waiting(alloc, connection, account, device),
        About::Again { device, job } => tell_again(alloc, connection, account, device, job),
        About::OwnerPage {
            month,
            outcome,
            stays,
            needs_password,
        } => tell_owner_page(
            alloc,
            connection,
            account,
            month,
            outcome,
            stays,
            needs_password,
        ),
        About::StatementPage {
            first,
            last,
            form,
            drawn_up,
        } => tell_statement_page(alloc, connection, account, first, last, form, drawn_up),
        About::DeskPage { month } => tell_desk_page(alloc, connection, account, month),
    }
}
