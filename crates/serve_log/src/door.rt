//! The doors by which events come in, as the log names them.
ghost use Rattle.std.specs.Prelude.{◌≡◌, ◌++◌, OnOk, codes};
ghost use Rattle.serve_log.specs.LogLines.{door_word};

use account_rules::Name;
use std::alloc::AllocError;

/// The door by which an event came in.
#[derive(Clone, Copy, PartialEq, Eq)]
pub enum Door {
    /// IPP over HTTP.
    Clients,
    /// Lines of stations.
    Stations,
    /// Lines of operators.
    Operators,
    /// Forms of the operator of this name, at the desk.
    Desk(Name),
}

/// Appends the word of a door in a line of the log. That of the desk has the operator's name in it.
pub(crate) fn put_door(output: &mut Vec<u8>, door: Door) -> Result<(), AllocError>
    ensures { OnOk result (output.new.items ≡ output.old.items ++ door_word door) }
{
    match door {
        Door::Clients => output.extend_from_slice(b"clients"),
        Door::Stations => output.extend_from_slice(b"stations"),
        Door::Operators => output.extend_from_slice(b"operators"),
        Door::Desk(operator) => put_desk(output, operator.bytes()),
    }
}

/// Appends the word of the desk, where an operator of this name acts.
fn put_desk(output: &mut Vec<u8>, operator: &[u8]) -> Result<(), AllocError>
    ensures { OnOk result
        (output.new.items ≡ output.old.items ++ (codes "desk:" ++ operator.now)) }
{
    output.extend_from_slice(b"desk:")?;
    output.extend_from_slice(operator)
}
