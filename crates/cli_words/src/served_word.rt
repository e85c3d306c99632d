//! The parts of the word for a door: its address, and before that, for a bound door, the names of
//! its devices, as `NAME,NAME=ADDRESS`.
ghost use Rattle.std.specs.Prelude.{◌≡◌, IfOk};
ghost use Rattle.cli_words.specs.ServedWords.{SaysPlace, are_devices, is_device};
ghost use Rattle.cli_words.specs.Visitors.{names_devices};

use crate::unfit::Unfit;
use crate::visitors::Visitors;
use account_rules::Name;

/// The two parts of the word for a door.
#[derive(Clone, Copy)]
pub(crate) struct ServedWord<'a> {
    /// The names of devices, parted by commas; empty where the door is for all.
    pub(crate) devices: &'a str,
    pub(crate) address: &'a str,
}

impl<'a> ServedWord<'a> {
    /// Parts the word for a door of these visitors. It is refused where a bound door's names are
    /// none.
    pub(crate) fn read(visitors: Visitors, word: &'a str) -> Result<ServedWord<'a>, Unfit>
        ensures { IfOk result (λ read. SaysPlace
            (names_devices visitors) word.now read.devices.now read.address.now) }
    {
        if !visitors.names_devices() {
            return Ok(ServedWord {
                devices: "",
                address: word,
            });
        }
        match word.split_once('=') {
            Some((devices, address)) if are_devices(devices.as_bytes()) => {
                Ok(ServedWord { devices, address })
            }
            _ => Err(Unfit::Devices),
        }
    }
}

/// Whether a text is names of devices, at least one, which commas part.
fn are_devices(text: &[u8]) -> bool
    ensures { result ≡ are_devices text.now }
{
    text.split(|byte| *byte == b',').all(|name| is_device(name))
}

/// Whether a text is the name of a device.
fn is_device(name: &[u8]) -> bool
    ensures { result ≡ is_device name.now }
{
    Name::read(name).is_some()
}
