//! Which devices a bound door takes lines for: the device that a line names, looked up in the
//! door's list of names.
ghost use Rattle.std.specs.Prelude.{◌≡◌, option_map};
ghost use Rattle.serve_peers.specs.OwnDevices.{device_of, is_named, lists};

/// The second field of a line. In a station's line it names the device.
pub(crate) fn device_of(line: &[u8]) -> Option<&[u8]>
    ensures { option_map (λ field. field.now) result ≡ device_of line.now }
{
    line.split(|byte| *byte == b' ').nth(1)
}

/// Whether there is a device, and it is one of the names.
pub(crate) fn is_named(names: &[u8], device: Option<&[u8]>) -> bool
    ensures { result ≡ is_named names.now (option_map (λ field. field.now) device.entry) }
{
    match device {
        Some(device) => lists(names, device),
        None => false,
    }
}

/// Whether the device is one of the names, which commas part.
fn lists(names: &[u8], device: &[u8]) -> bool
    ensures { result ≡ lists names.now device.now }
{
    names.split(|byte| *byte == b',').any(|name| name == device)
}
