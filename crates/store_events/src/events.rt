//! The dispatch of events: which function answers which event.

ghost use Rattle.std.specs.Prelude.{◌≡◌, ◌↔◌, false, Ok, IsTrue};
ghost use Rattle.sqlite.specs.Held.{state};
ghost use Rattle.store_events.specs.Answers.{short_answered};
ghost use Rattle.store_events.specs.Prelude.{DoesAnswer, DoesStep, WasOpen, answered};
ghost use Rattle.account_machine.specs.Events.{plain_event};
ghost use Rattle.account_machine.specs.Fits.{fits};
ghost use Rattle.account_machine.specs.Machine.{answered_open};
ghost use Rattle.store_events.specs.Events.{IsLine, IsShort};
ghost use Rattle.store_events.specs.Reading.{IsReadableOf, IsReadableOpen};
ghost use Rattle.store_events.specs.Serving.{DoesEvent};
ghost use Rattle.store_rounds.specs.Shut.{LeavesIfShut};
ghost use Rattle.rows_tables.specs.Crashes.{IsOnDisk};

use crate::devices::{rate, switch};
use crate::granting::grant;
use crate::lines::refused_by;
use crate::opening::open;
use crate::requests::answer_request;
use crate::stations::{Station, release_at, settle, start};
use account_machine::{Answered, Event, Moment, Name, Word};
use ipp_coding::HEADER_LENGTH;
use rows_tables::TableFault;
use sqlite::Alter;
use std::alloc::Global;
use store_rounds::{Rounds, find_account, ready};

/// Answers the event at the moment `now`, by the function for its kind. It changes the rows of the
/// event's account, or of its device, and no others.
pub(crate) fn answer_event<S: Alter>(
    alloc: Global,
    connection: &mut Rounds<S>,
    now: Moment,
    e: &Event<'_>,
) -> Result<Answered, TableFault>
    requires fits { IsTrue (fits (plain_event e.now)) }
    ensures served { DoesEvent S.Store connection.old connection.new now
        (plain_event e.entry.now) result }
    ensures short { IsShort (plain_event e.entry.now) → result ≡ Ok short_answered }
    ensures untouched { IsShort (plain_event e.entry.now) → connection.new ≡ connection.old }
    ensures asks { (IsShort (plain_event e.entry.now) → ⊥) →
        WasOpen S.Store connection.old connection.new result }
{
    match *e {
        Event::Open { account } => open(alloc, connection, account, now),
        Event::Ipp { account, body } => answer_request(alloc, connection, account, now, body),
        Event::Release { account, .. } => find_account_and_answer(
            alloc, connection, account, now, e,
        ),
        Event::Start { account, .. } => find_account_and_answer(alloc, connection, account, now, e),
        Event::Settle { account, .. } => find_account_and_answer(
            alloc, connection, account, now, e,
        ),
        Event::Grant { account, .. } => find_account_and_answer(alloc, connection, account, now, e),
        Event::Device { name, on } => switch(alloc, connection, name, on),
        Event::Rate { name, units } => rate(alloc, connection, name, units),
    }
}

/// Answers the event as `answer_if_usable` does. For the proof it asks whether a transaction is under
/// way: the clauses of that say that where none is, what is seen is what a crash leaves.
pub(crate) fn answer_and_note_committed<S: Alter>(
    alloc: Global,
    connection: &mut Rounds<S>,
    now: Moment,
    e: &Event<'_>,
) -> Result<Answered, TableFault>
    requires fits { IsTrue (fits (plain_event e.now)) }
    ensures served { DoesEvent S.Store connection.old connection.new now
        (plain_event e.entry.now) result }
    ensures short { IsShort (plain_event e.entry.now) → result ≡ Ok short_answered }
    ensures asks { (IsShort (plain_event e.entry.now) → ⊥) →
        WasOpen S.Store connection.old connection.new result }
    ensures shut { LeavesIfShut (state S.Store connection.old) (state S.Store connection.new) }
    ensures on_disk { (state S.Store connection.new).in_transaction ≡ false
        → IsOnDisk (state S.Store connection.new) }
{
    let told = answer_if_usable(alloc, connection, now, e);
    let _shares = connection.is_under_way();
    told
}

/// Answers the event as `answer_event` does, once the connection is found usable. A connection that
/// is shut is asked nothing more, so that what a crash would find there stays.
fn answer_if_usable<S: Alter>(
    alloc: Global,
    connection: &mut Rounds<S>,
    now: Moment,
    e: &Event<'_>,
) -> Result<Answered, TableFault>
    requires fits { IsTrue (fits (plain_event e.now)) }
    ensures served { DoesEvent S.Store connection.old connection.new now
        (plain_event e.entry.now) result }
    ensures short { IsShort (plain_event e.entry.now) → result ≡ Ok short_answered }
    ensures asks { (IsShort (plain_event e.entry.now) → ⊥) →
        WasOpen S.Store connection.old connection.new result }
    ensures shut { LeavesIfShut (state S.Store connection.old) (state S.Store connection.new) }
{
    if is_short(e) {
        return answer_event(alloc, connection, now, e);
    }
    ready(alloc, connection)?;
    answer_event(alloc, connection, now, e)
}

/// Whether the event is an IPP message of less than 8 bytes, which is its header. Such a message is
/// answered without looking anything up.
pub(crate) fn is_short(e: &Event<'_>) -> bool
    ensures { IsTrue result ↔ IsShort (plain_event e.now) }
{
    match *e {
        Event::Ipp { body, .. } => body.len() < HEADER_LENGTH,
        _ => false,
    }
}

/// Answers an event of a station, or a grant; the account may not be open.
fn find_account_and_answer<S: Alter>(
    alloc: Global,
    connection: &mut Rounds<S>,
    account: Name,
    now: Moment,
    e: &Event<'_>,
) -> Result<Answered, TableFault>
    requires fits { IsTrue (fits (plain_event e.now)) }
    requires line { IsLine (plain_event e.now) }
    ensures served { DoesAnswer S.Store connection.old connection.new account
        (IsReadableOf account now (plain_event e.entry.now))
        (λ room devices. answered room devices now (plain_event e.entry.now)) result }
    ensures asks { WasOpen S.Store connection.old connection.new result }
{
    match find_account(connection, account)? {
        Some(_) => answer_account_line(alloc, connection, account, now, e),
        None => refused_by(alloc, Word::NoAccount),
    }
}

/// Answers an event of a station, or a grant, of an account that is open.
fn answer_account_line<S: Alter>(
    alloc: Global,
    connection: &mut Rounds<S>,
    account: Name,
    now: Moment,
    e: &Event<'_>,
) -> Result<Answered, TableFault>
    requires fits { IsTrue (fits (plain_event e.now)) }
    requires line { IsLine (plain_event e.now) }
    ensures served { DoesStep S.Store connection.old connection.new account
        (IsReadableOpen account now (plain_event e.entry.now))
        (λ room devices. answered_open room devices now (plain_event e.entry.now)) result }
{
    match *e {
        Event::Release {
            device,
            job,
            password,
            impressions,
            ..
        } => {
            let at = Station { device, now };
            release_at(alloc, connection, account, &at, job, password, impressions)
        }
        Event::Start { device, job, .. } => {
            start(alloc, connection, account, &Station { device, now }, job)
        }
        Event::Settle {
            device,
            job,
            impressions,
            failed,
            ..
        } => {
            let at = Station { device, now };
            settle(alloc, connection, account, &at, job, impressions, failed)
        }
        Event::Grant { month, pages, .. } => grant(alloc, connection, account, month, pages),
        Event::Open { .. } | Event::Ipp { .. } | Event::Device { .. } | Event::Rate { .. } => {
            unreachable!()
        }
    }
}
