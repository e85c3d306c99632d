//! The tasks of an operator's commands, each done over a connection to a server process.
ghost use Rattle.std.specs.Prelude.{IfOk};
ghost use Rattle.client_operator.specs.Talks.{at};
ghost use Rattle.client_operator.specs.Tasks.{Performs};

use crate::bar::Bar;
use crate::devices::report_devices;
use crate::end::end;
use crate::expire::{Expiry, expire};
use crate::ping::ping;
use crate::refund::refund;
use crate::report::report;
use crate::report_month::ReportMonth;
use crate::waiting::{Age, list_waiting};
use account_rules::Name;
use client_lines::{ClientFault, Peer};
use std::alloc::Global;
use std::io::{BufRead, Write};

/// What an operator wants done, as a command says it.
#[derive(Clone, Copy)]
pub enum Task {
    /// `ping`: to hear whether the server process answers.
    Ping,
    /// `end`: that the server process ends, once what it told has gone.
    End,
    /// `report`: a record for each account, with what it was charged in the month.
    Report { month: ReportMonth },
    /// `report --devices`: a record for each device.
    Devices,
    /// `waiting`: a record for each job that waits: all, or those made at least so many days ago.
    Waiting { days: Option<u32> },
    /// `expire`: the jobs that wait and were made at least so many days ago are canceled, or only
    /// shown.
    Expire { days: u32, shown_only: bool },
    /// `refund`: so many pages are given back to an account.
    Refund { account: Name, pages: u32 },
}

/// Does the task at the moment now (seconds since 1970-01-01T00:00:00Z), and prints what it comes
/// to. `bar` shows the operator how many accounts are done, for the tasks that go through all. A
/// line is sent once the one before it was answered. Gives `false` only where a job was not
/// canceled that was to be.
pub fn perform<R: BufRead, W: Write, O: Write, E: Write>(
    alloc: Global,
    peer: &mut Peer<R, W>,
    task: &Task,
    now: u64,
    bar: &mut Bar<E>,
    output: &mut O,
) -> Result<bool, ClientFault>
    ensures { IfOk result (λ done. Performs task.now now done
        (at W.contents R.remaining O.contents peer.old output.old)
        (at W.contents R.remaining O.contents peer.new output.new)) }
{
    match task {
        Task::Ping => {
            ping(alloc, peer, output)?;
            Ok(true)
        }
        Task::End => {
            end(alloc, peer, output)?;
            Ok(true)
        }
        Task::Report { month } => {
            report(alloc, peer, *month, bar, output)?;
            Ok(true)
        }
        Task::Devices => {
            report_devices(alloc, peer, output)?;
            Ok(true)
        }
        Task::Waiting { days } => {
            let age = Age { days: *days, now };
            list_waiting(alloc, peer, age, bar, output)?;
            Ok(true)
        }
        Task::Expire { days, shown_only } => {
            let days = Some(*days);
            let expiry = Expiry {
                age: Age { days, now },
                shown_only: *shown_only,
            };
            expire(alloc, peer, expiry, bar, output)
        }
        Task::Refund { account, pages } => {
            refund(alloc, peer, account, *pages, output)?;
            Ok(true)
        }
    }
}
