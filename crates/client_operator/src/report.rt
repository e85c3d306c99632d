//! The command `report`: prints a CSV record for each account, of what it has and of one month.
ghost use Rattle.std.specs.Prelude.{◌≤◌, OnOk};
ghost use Rattle.std.specs.Io.KnownBytes.{Appends};
ghost use Rattle.client_operator.specs.Csv.{record_text};
ghost use Rattle.client_operator.specs.Reports.{ReportsAccount, report_fields, report_head};
ghost use Rattle.client_operator.specs.Tables.{PrintsTable};
ghost use Rattle.client_operator.specs.Talks.{InTurn, at};

use crate::asked::{account_line, statement_line};
use crate::bar::Bar;
use crate::grant::refunded;
use crate::names::all_names;
use crate::printed::print_record;
use crate::report_month::ReportMonth;
use crate::statement::Statement;
use account_rules::Name;
use client_lines::{ClientFault, Peer, ask_line, ask_list, judge};
use std::alloc::Global;
use std::io::{BufRead, Write};

/// Prints a record for each account: what it has, and what of it in the month. `bar` shows how many
/// are done.
pub(crate) fn report<R: BufRead, W: Write, O: Write, E: Write>(
    alloc: Global,
    peer: &mut Peer<R, W>,
    month: ReportMonth,
    bar: &mut Bar<E>,
    output: &mut O,
) -> Result<(), ClientFault>
    ensures { OnOk result (PrintsTable report_head (ReportsAccount month.month)
        (at W.contents R.remaining O.contents peer.old output.old)
        (at W.contents R.remaining O.contents peer.new output.new)) }
{
    let names = all_names(alloc, peer)?;
    print_head(alloc, output)?;
    report_each(alloc, peer, names.as_slice(), month, bar, output)?;
    Ok(output.flush()?)
}

/// Prints the names of the columns.
fn print_head<O: Write>(alloc: Global, output: &mut O) -> Result<(), ClientFault>
    ensures { OnOk result (Appends (O.contents output.old) (O.contents output.new)
        (record_text report_head)) }
{
    let fields: [&[u8]; 9] = [
        b"account",
        b"granted",
        b"refunded",
        b"reserved",
        b"charged",
        b"charged_in_month",
        b"jobs_in_month",
        b"left",
        b"beyond_in_month",
    ];
    print_record(alloc, &fields, output)
}

/// Prints the records of these accounts, and has the bar show how many are done.
fn report_each<R: BufRead, W: Write, O: Write, E: Write>(
    alloc: Global,
    peer: &mut Peer<R, W>,
    names: &[Name],
    month: ReportMonth,
    bar: &mut Bar<E>,
    output: &mut O,
) -> Result<(), ClientFault>
    ensures { OnOk result (InTurn (ReportsAccount month.month)
        (at W.contents R.remaining O.contents peer.old output.old)
        (at W.contents R.remaining O.contents peer.new output.new) names.now) }
{
    for (index, name) in names.iter().enumerate() {
        report_account(alloc, peer, name, month, output)?;
        bar.show(index + 1, names.len());
    }
    Ok(())
}

/// Asks for the account's statement and its grants, and prints its record.
fn report_account<R: BufRead, W: Write, O: Write>(
    alloc: Global,
    peer: &mut Peer<R, W>,
    account: &Name,
    month: ReportMonth,
    output: &mut O,
) -> Result<(), ClientFault>
    ensures { OnOk result (ReportsAccount month.month account.now
        (at W.contents R.remaining O.contents peer.old output.old)
        (at W.contents R.remaining O.contents peer.new output.new)) }
{
    let asked = statement_line(alloc, account, month.month)?;
    let told = ask_line(alloc, peer, asked.as_slice())?;
    judge(told.as_slice())?;
    let statement = Statement::read(told.as_slice())?;
    let asked = account_line(alloc, b"grants ", account)?;
    let grants = ask_list(alloc, peer, asked.as_slice())?;
    let refunded = refunded(grants.as_slice())?;
    print_account(alloc, account, &statement, refunded, output)
}

/// Prints the account's record. Pages given back are told by themselves, and not with those
/// granted. `Broken` where more was given back than was granted at all.
fn print_account<O: Write>(
    alloc: Global,
    account: &Name,
    statement: &Statement<'_>,
    refunded: u64,
    output: &mut O,
) -> Result<(), ClientFault>
    ensures { OnOk result ((refunded ≤ statement.now.granted)
        × Appends (O.contents output.old) (O.contents output.new)
        (record_text (report_fields account.now statement.now refunded))) }
{
    let granted = statement
        .granted
        .checked_sub(refunded)
        .ok_or(ClientFault::Broken)?;
    let granted = format!(in alloc; "{granted}")?;
    let refunded = format!(in alloc; "{refunded}")?;
    let fields = [
        account.bytes(),
        granted.as_bytes(),
        refunded.as_bytes(),
        statement.reserved,
        statement.charged,
        statement.charged_then,
        statement.ended_then,
        statement.left,
        statement.beyond_then,
    ];
    print_record(alloc, &fields, output)
}
