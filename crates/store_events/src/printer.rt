//! The operations on the printer that an account is: Validate-Job and Get-Printer-Attributes.
//! Get-Jobs is in `listing`.

ghost use Rattle.store_events.specs.Answers.{of_response};
ghost use Rattle.store_events.specs.Prelude.{DoesAsRoom, HasAccountRow, IfOurTables, StaysOpen, plain_ask};
ghost use Rattle.account_machine.specs.NewJobs.{validated};
ghost use Rattle.account_machine.specs.Printers.{printer_shown};
ghost use Rattle.store_events.specs.Reading.{DevicesAreReadable, QueueIsReadable, QueueIsShort};

use crate::request::Request;
use crate::responses::{printer_shown, request_done, request_refused};
use account_machine::{Answered, check_accepting, printer_now};
use rows_statements::{is_device_on, tally_unfinished};
use rows_tables::TableFault;
use sqlite::Alter;
use std::alloc::Global;
use store_rounds::{Rounds, count_unfinished};

/// Validate-Job: answers whether the account's queue would take the job, and makes none.
pub fn validate<S: Alter>(
    alloc: Global,
    connection: &mut Rounds<S>,
    request: &Request<'_>,
) -> Result<Answered, TableFault>
    ensures connection { StaysOpen S.Store connection.old connection.new result }
    ensures served { let it = request.entry.now in
        IfOurTables S.Store connection.old connection.new (HasAccountRow it.account it.row) →
        DoesAsRoom S.Store connection.old connection.new it.account (QueueIsShort it.account)
        (λ room devices. of_response (validated room (plain_ask it.ask)))
        (λ room devices. room) result }
{
    let unfinished = count_unfinished(connection, request.account)?;
    match check_accepting(unfinished, request.row.next_job) {
        Ok(()) => request_done(alloc, &request.ask),
        Err(refusal) => request_refused(alloc, &request.ask, refusal),
    }
}

/// Get-Printer-Attributes: answers the printer's attributes that were asked for, as they are now.
pub fn show<S: Alter>(
    alloc: Global,
    connection: &mut Rounds<S>,
    request: &Request<'_>,
) -> Result<Answered, TableFault>
    ensures connection { StaysOpen S.Store connection.old connection.new result }
    ensures served { let it = request.entry.now in
        IfOurTables S.Store connection.old connection.new (HasAccountRow it.account it.row) →
        DoesAsRoom S.Store connection.old connection.new it.account
        (λ db. QueueIsReadable it.account db × DevicesAreReadable db)
        (λ room devices.
        of_response (printer_shown room devices it.account it.now (plain_ask it.ask)))
        (λ room devices. room) result }
{
    let tally = tally_unfinished(connection, request.account)?;
    let on = is_device_on(connection)?;
    let next_job = request.row.next_job;
    let printer = printer_now(tally.unfinished, next_job, tally.is_processing, on);
    printer_shown(alloc, &request.ask, &request.place(), printer)
}
