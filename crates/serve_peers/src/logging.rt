//! The calls of the journal on the log of events. Where no log is kept, each does nothing.
ghost use Rattle.std.specs.Prelude.{◌≡◌};
ghost use Rattle.serve_peers.specs.Logging.{Becomes, DraftsOne, KeepsLines, LogsOne, SettlesDrafts};

use crate::entry::Entry;
use account_machine::Answered;
use serve_log::{Door, EventLog, LineRefusal};
use std::fs::{File, Files};
use store_rounds::StoreFault;

/// Writes the line of an entry that was applied by itself.
pub(crate) fn note(log: &mut Option<EventLog>, entry: &Entry, told: &Result<Answered, StoreFault>)
    ensures { Becomes (LogsOne (entry.now, told.now)) log.old log.new }
{
    if let Some(log) = log {
        log.note(entry.moment(), entry.door(), &entry.event(), told);
    }
}

/// Keeps the line of an entry that was applied in the round that is under way, until that is
/// settled.
pub(crate) fn draft(log: &mut Option<EventLog>, entry: &Entry, told: &Result<Answered, StoreFault>)
    ensures { Becomes (DraftsOne (entry.now, told.now)) log.old log.new }
{
    if let Some(log) = log {
        log.draft(entry.moment(), entry.door(), &entry.event(), told);
    }
}

/// Writes that a settlement charged so many units beyond what its job had reserved.
pub(crate) fn tell_beyond(log: &mut Option<EventLog>, entry: &Entry, units: u64)
    ensures { log.new ≡ log.old }
{
    if let Some(log) = log {
        log.tell_beyond(entry.moment(), &entry.event(), units);
    }
}

/// Ends the round: its lines are written if its commit succeeded (`kept`), and dropped if not.
pub(crate) fn settle(log: &mut Option<EventLog>, kept: bool)
    ensures { Becomes (SettlesDrafts kept) log.old log.new }
{
    if let Some(log) = log {
        log.settle(kept);
    }
}

/// Tries once more to write the lines that the log's file has not taken.
pub(crate) fn push_out(log: &mut Option<EventLog>)
    ensures { Becomes KeepsLines log.old log.new }
{
    if let Some(log) = log {
        log.push_out();
    }
}

/// Writes that a door refused a line, and why.
pub(crate) fn refuse_line(log: &mut Option<EventLog>, moment: u64, door: Door, why: LineRefusal)
    ensures { log.new ≡ log.old }
{
    if let Some(log) = log {
        log.refuse_line(moment, door, why);
    }
}

/// Writes that a request for this path was refused with this status of HTTP.
pub(crate) fn refuse_request(log: &mut Option<EventLog>, moment: u64, status: u16, path: &[u8])
    ensures { log.new ≡ log.old }
{
    if let Some(log) = log {
        log.refuse_request(moment, status, path);
    }
}

/// Has the log open its file anew where that was moved away, as `EventLog::look` does.
pub(crate) fn look<R: Files<File = File>>(
    log: &mut Option<EventLog>,
    files: &R,
    moment: Option<u64>,
)
    ensures { log.new ≡ log.old }
{
    if let Some(log) = log {
        log.look(files, moment);
    }
}
