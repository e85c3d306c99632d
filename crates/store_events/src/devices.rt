//! The events of devices: turning one on or off, and setting its rate.

ghost use Rattle.store_events.specs.Prelude.{WasOpen};
ghost use Rattle.account_machine.specs.DeviceEvents.{rated_answer, switched_answer};
ghost use Rattle.account_rules.specs.Limits.{IsRate};
ghost use Rattle.store_events.specs.Reading.{DeviceIsReadable};
ghost use Rattle.store_events.specs.Serving.{DoesAsDevices};

use crate::lines::{done_by, refused_by};
use account_machine::{Answered, Name, Success, known_device};
use rows_statements::find_device;
use rows_tables::TableFault;
use sqlite::Alter;
use std::alloc::Global;
use store_rounds::{Rounds, rate_device, switch_device};

/// Switches the device on or off, and answers `ok`. A device that is new is added, with rate 1.
pub fn switch<S: Alter>(
    alloc: Global,
    connection: &mut Rounds<S>,
    name: Name,
    on: bool,
) -> Result<Answered, TableFault>
    ensures served { DoesAsDevices S.Store connection.old connection.new (DeviceIsReadable name)
        (λ devices. switched_answer devices name on) result }
    ensures asks { WasOpen S.Store connection.old connection.new result }
{
    let is_new = find_device(connection, name)?.is_none();
    let answered = done_by(alloc, Success::Ok)?;
    switch_device(connection, name, on, is_new)?;
    Ok(answered)
}

/// Sets the units that an impression counts on the device from now on, and answers `ok`; a device
/// that is not known is refused.
pub fn rate<S: Alter>(
    alloc: Global,
    connection: &mut Rounds<S>,
    name: Name,
    units: u32,
) -> Result<Answered, TableFault>
    requires units { IsRate units }
    ensures served { DoesAsDevices S.Store connection.old connection.new (DeviceIsReadable name)
        (λ devices. rated_answer devices name units) result }
    ensures asks { WasOpen S.Store connection.old connection.new result }
{
    if let Err(word) = known_device(find_device(connection, name)?) {
        return refused_by(alloc, word);
    }
    let answered = done_by(alloc, Success::Ok)?;
    rate_device(connection, name, units)?;
    Ok(answered)
}
