//! The list of devices: finds a device by its name, switches it on or off, sets its rate. The first
//! record of a name counts.

ghost use Rattle.std.specs.Prelude.{◌≡◌, ◌+◌, false, if◌then◌else◌, option_copied, position, vec_len, IsTrue, OnOk, OnErr, IsOkUnless};
ghost use Rattle.std.specs.FinMap.{contains_key, get};
ghost use Rattle.account_rules.specs.Limits.{IsRate};
ghost use Rattle.account_rules.specs.Devices.{device_map, is_of_name, switched, rated};

use crate::fault::CoreFault;
use crate::name::Name;

/// A device that prints released jobs.
#[derive(Clone, Copy, PartialEq, Eq)]
pub struct Device {
    pub name: Name,
    /// Whether it takes jobs now.
    pub on: bool,
    /// The units that an impression counts on it, 1 to 100.
    pub rate: u32,
}

/// Sets whether the device with the name takes jobs. A new one is added, at rate 1; one that is
/// known keeps its rate and gets no second record. Every other device is as before. It can fail for
/// lack of memory alone, and then changes nothing.
pub fn set_device(devices: &mut Vec<Device>, name: Name, on: bool) -> Result<(), CoreFault>
    ensures switched { OnOk result
        (device_map devices.new.items ≡ switched (device_map devices.old.items) name on) }
    ensures length { OnOk result (vec_len devices.new ≡
        (if contains_key (device_map devices.old.items) name
        then vec_len devices.old else vec_len devices.old + 1)) }
    ensures fault { IsOkUnless result CoreFault.Memory }
    ensures err { OnErr result (devices.new.items ≡ devices.old.items) }
{
    match place_of(devices.as_slice(), name) {
        Some(place) => devices[place].on = on,
        None => devices.push(Device { name, on, rate: 1 })?,
    }
    Ok(())
}

/// Sets the units that an impression counts on the device with the name, 1 to 100. Every other
/// device is as before. Where the name is unknown, it answers false and changes nothing. It takes
/// no memory.
pub fn set_rate(devices: &mut [Device], name: Name, units: u32) -> bool
    requires { IsRate units }
    ensures known { result ≡ contains_key (device_map devices.old) name }
    ensures rated { IsTrue result →
        device_map devices.new ≡ rated (device_map devices.old) name units }
    ensures unknown { result ≡ false → devices.new ≡ devices.old }
{
    match place_of(devices, name) {
        Some(place) => {
            devices[place].rate = units;
            true
        }
        None => false,
    }
}

/// The device with the name.
pub fn find_device(devices: &[Device], name: Name) -> Option<&Device>
    ensures { option_copied result ≡ get (device_map devices.now) name }
{
    devices.iter().find(|device| is_of_name(device, name))
}

/// Where the first record of the name stands.
fn place_of(devices: &[Device], name: Name) -> Option<usize>
    ensures { result ≡ position (is_of_name name) devices.now }
{
    devices.iter().position(|device| is_of_name(device, name))
}

/// Whether the record is of the device with the name.
fn is_of_name(device: &Device, name: Name) -> bool
    ensures { result ≡ is_of_name name device.now }
{
    device.name.bytes() == name.bytes()
}
