//! The doors that the words of `serve` name, each with who comes in and where; and its other
//! options.
ghost use Rattle.std.specs.Prelude.{◌≡◌, ◌++◌, IfOk, IsTrue, List, OnOk, is_some, option_map};
ghost use Rattle.std.specs.List.{list_all};
ghost use Rattle.cli_words.specs.Addresses.{is_all_digits};
ghost use Rattle.cli_words.specs.Visitors.{AreDoors, AreOptions, IsDoorOf, are_hosts, host_option, is_host, is_host_byte, is_no_door, is_required, log_option, pin_option, value_among, value_behind};
ghost use Rattle.cli_words.specs.Words.{texts};
ghost use Rattle.cli_words.specs.declared.served_door.ServedDoor.{ServedDoor as PlainDoor};
ghost use Rattle.cli_words.specs.declared.visitors.Visitors.TheVariants.{Clients};

use crate::address::Address;
use crate::served_word::ServedWord;
use crate::unfit::Unfit;
use crate::visitors::Visitors;
use std::alloc::Global;

/// The word behind which the file of the log stands.
const LOG: &str = "--log";

/// The word behind which `required` stands, where the pages are to take no file without a PIN.
const PAGES_PIN: &str = "--pages-pin";

/// The word behind which the names of the Hosts stand that the pages answer.
const HOST: &str = "--host";

/// The bytes beside letters and digits that a host has in an address, with its port.
const HOST_MARKS: &[u8] = b"-._:[]";

/// A door that the words of `serve` name: who comes in there, and at which address. A port of 0 is
/// a free one. `cli_program` opens it.
#[derive(Clone, Copy)]
pub struct ServedDoor<'a> {
    pub visitors: Visitors,
    /// The names of the devices that a station's own door is for, parted by commas.
    pub devices: &'a str,
    pub address: Address<'a>,
}

impl<'a> ServedDoor<'a> {
    /// Reads a door from its word: an address, behind the names of devices if it is a bound door.
    fn read(visitors: Visitors, word: &'a str) -> Result<ServedDoor<'a>, Unfit>
        ensures { IfOk result (IsDoorOf visitors word.now) }
    {
        let read = ServedWord::read(visitors, word)?;
        match Address::read(read.address, 0) {
            Some(address) => Ok(ServedDoor {
                visitors,
                devices: read.devices,
                address,
            }),
            None => Err(Unfit::ServedAddress),
        }
    }

    /// Reads the door of clients from its word, a port.
    fn at_port(word: &'a str) -> Result<ServedDoor<'a>, Unfit>
        ensures door { IfOk result (IsDoorOf Clients word.now) }
        ensures port { IfOk result (λ _. IsTrue (is_all_digits word.now)) }
    {
        match Address::read(word, 0) {
            Some(address @ Address::Port(_)) => {
                let visitors = Visitors::Clients;
                Ok(ServedDoor {
                    visitors,
                    devices: "",
                    address,
                })
            }
            Some(Address::Path(_)) | None => Err(Unfit::ServedPort),
        }
    }
}

/// Reads the doors from the words behind the database: three by their places, and further ones by
/// options.
pub(crate) fn doors_of<'a>(alloc: Global, words: &[&'a str]) -> Result<Vec<ServedDoor<'a>>, Unfit>
    ensures { IfOk result (λ doors. AreDoors (texts words.now) doors.items) }
{
    let [port, stations, operators, options @ ..] = words else {
        return Err(Unfit::Missing);
    };
    let mut doors = Vec::new(alloc);
    doors.push(ServedDoor::at_port(port)?)?;
    doors.push(ServedDoor::read(Visitors::Stations, stations)?)?;
    doors.push(ServedDoor::read(Visitors::Operators, operators)?)?;
    put_options(options, &mut doors)?;
    Ok(doors)
}

/// The file of the log, if an option says one behind the three addresses.
pub(crate) fn log_behind<'a>(words: &[&'a str]) -> Option<&'a str>
    ensures { option_map (λ path. path.now) result ≡ value_behind log_option (texts words.now) }
{
    value_behind(LOG, words)
}

/// Whether an option says that the pages take no file without a PIN.
pub(crate) fn needs_password(words: &[&str]) -> bool
    ensures { result ≡ is_some (value_behind pin_option (texts words.now)) }
{
    value_behind(PAGES_PIN, words).is_some()
}

/// The names of the Hosts that the pages answer, parted by commas, if an option says them.
pub(crate) fn hosts_behind<'a>(words: &[&'a str]) -> Option<&'a str>
    ensures { option_map (λ names. names.now) result ≡ value_behind host_option (texts words.now) }
{
    value_behind(HOST, words)
}

/// The value of the first option of that name behind the three addresses.
fn value_behind<'a>(option: &str, words: &[&'a str]) -> Option<&'a str>
    ensures { option_map (λ value. value.now) result ≡ value_behind option.now (texts words.now) }
{
    match words {
        [_, _, _, options @ ..] => value_among(option, options),
        _ => None,
    }
}

/// The value of the first option of that name among these options, each of which has a value.
fn value_among<'a>(option: &str, options: &[&'a str]) -> Option<&'a str>
    ensures { option_map (λ value. value.now) result ≡ value_among option.now (texts options.now) }
{
    match options {
        [name, value, ..] if *name == option => Some(*value),
        [_, _, rest @ ..] => value_among(option, rest),
        _ => None,
    }
}

/// Whether an option names the file of the log, that a PIN is required, or Hosts, and no door.
fn is_no_door(name: &str, value: &str) -> bool
    ensures { result ≡ is_no_door name.now value.now }
{
    name == LOG
        || (name == PAGES_PIN && is_required(value))
        || (name == HOST && are_hosts(value.as_bytes()))
}

/// Whether this is the only value that `--pages-pin` has.
fn is_required(value: &str) -> bool
    ensures { result ≡ is_required value.now }
{
    value == "required"
}

/// Whether these are names of hosts, at least one, which commas part.
fn are_hosts(value: &[u8]) -> bool
    ensures { result ≡ are_hosts value.now }
{
    value.split(|byte| *byte == b',').all(|name| is_host(name))
}

/// Whether a text may be a host in an address, with a port or without.
fn is_host(name: &[u8]) -> bool
    ensures { result ≡ is_host name.now }
{
    !name.is_empty() && are_host_bytes(name)
}

/// Whether all bytes may stand in a host.
fn are_host_bytes(name: &[u8]) -> bool
    ensures { result ≡ list_all is_host_byte name.now }
{
    name.iter().all(|byte| is_host_byte(*byte))
}

/// Whether the byte may stand in a host: a letter, a digit or one of the marks.
fn is_host_byte(byte: u8) -> bool
    ensures { result ≡ is_host_byte byte }
{
    byte.is_ascii_alphanumeric() || HOST_MARKS.contains(&byte)
}

/// Reads the options, and adds the doors that they name to those that are there.
fn put_options<'a>(options: &[&'a str], doors: &mut Vec<ServedDoor<'a>>) -> Result<(), Unfit>
    ensures { OnOk result ((further : List PlainDoor)
        × (doors.new.items ≡ doors.old.items ++ further) × AreOptions (texts options.now) further) }
{
    let Some((name, behind)) = options.split_first() else {
        return Ok(());
    };
    let Some((value, rest)) = behind.split_first() else {
        return Err(Unfit::Option);
    };
    if is_no_door(name, value) {
        return put_options(rest, doors);
    }
    if *name == PAGES_PIN {
        return Err(Unfit::PagesPin);
    }
    if *name == HOST {
        return Err(Unfit::Hosts);
    }
    let visitors = Visitors::of_option(name).ok_or(Unfit::Option)?;
    let door = ServedDoor::read(visitors, value)?;
    doors.push(door)?;
    put_options(rest, doors)
}
