//! The fault with which a command ends, for each fault of its lines, of its database and of an
//! event.
ghost use Rattle.std.specs.Prelude.{◌≡◌, IfErr};
ghost use Rattle.cli_commands.specs.Faults.{event_fault, line_fault, open_fault};
ghost use Rattle.cli_words.specs.Statuses.{exit_status_of};

use cli_words::Fault;
use input_lines::LineFault;
use room_store::OpenFault;
use store_rounds::StoreFault;

/// The command's fault where a line is none of its grammar: the line's number; or `Memory`.
pub(crate) fn line_fault(fault: LineFault) -> Fault
    ensures { result ≡ line_fault fault }
{
    match fault {
        LineFault::Line(number) => Fault::Line(number),
        LineFault::Memory => Fault::Memory,
    }
}

/// What was opened, or the command's fault where it was not.
pub fn opened<T: Drop>(done: Result<T, OpenFault>) -> Result<T, Fault>
    ensures status { IfErr result (λ fault. exit_status_of fault ≡ 3) }
{
    match done {
        Ok(opened) => Ok(opened),
        Err(fault) => Err(open_fault(fault)),
    }
}

/// The command's fault where a database was not opened: `Memory` where memory ran out, else
/// `Store`.
pub fn open_fault(fault: OpenFault) -> Fault
    ensures fault { result ≡ open_fault fault }
    ensures status { exit_status_of result ≡ 3 }
{
    match fault {
        OpenFault::Memory => Fault::Memory,
        OpenFault::NotOurs | OpenFault::WrongVersion(_) | OpenFault::Storage => Fault::Store,
    }
}

/// The command's fault where an event failed: `Memory` where memory ran out, else `Store`.
pub(crate) fn event_fault(fault: StoreFault) -> Fault
    ensures { result ≡ event_fault fault }
{
    match fault {
        StoreFault::Memory => Fault::Memory,
        StoreFault::Storage | StoreFault::Moment | StoreFault::Damaged => Fault::Store,
    }
}
