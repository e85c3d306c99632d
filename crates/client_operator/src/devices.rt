//! The command `report --devices`: prints a CSV record for each device.
ghost use Rattle.std.specs.Prelude.{◌≡◌, ◌++◌, List, OnOk, map};
ghost use Rattle.std.specs.List.{flat_map};
ghost use Rattle.client_operator.specs.Devices.{Device, ReportsDevices, device_text, device_told};
ghost use Rattle.client_operator.specs.Talks.{at};

use crate::csv::put_record;
use crate::printed::print_text;
use crate::words::Words;
use client_lines::{ClientFault, Peer, ask_list};
use std::alloc::Global;
use std::io::{BufRead, Write};

/// Prints a record for each device: its name, whether it is on, and how many units an impression
/// costs there.
pub(crate) fn report_devices<R: BufRead, W: Write, O: Write>(
    alloc: Global,
    peer: &mut Peer<R, W>,
    output: &mut O,
) -> Result<(), ClientFault>
    ensures { OnOk result (ReportsDevices
        (at W.contents R.remaining O.contents peer.old output.old)
        (at W.contents R.remaining O.contents peer.new output.new)) }
{
    let lines = ask_list(alloc, peer, b"devices")?;
    let mut records = Vec::new(alloc);
    put_record(&mut records, &[b"device", b"switch", b"rate"])?;
    put_devices(lines.as_slice(), &mut records)?;
    print_text(records.as_slice(), output)
}

/// Appends the records of the devices that the lines tell of.
fn put_devices(lines: &[Vec<u8>], records: &mut Vec<u8>) -> Result<(), ClientFault>
    ensures { OnOk result ((devices : List Device)
        × (map (λ line. line.items) lines.now ≡ map device_told devices)
        × (records.new.items ≡ records.old.items ++ flat_map device_text devices)) }
{
    for line in lines {
        put_device(line.as_slice(), records)?;
    }
    Ok(())
}

/// Appends the record of a line `device NAME on RATE` or `device NAME off RATE`.
fn put_device(line: &[u8], records: &mut Vec<u8>) -> Result<(), ClientFault>
    ensures { OnOk result ((device : Device) × (line.now ≡ device_told device)
        × (records.new.items ≡ records.old.items ++ device_text device)) }
{
    let mut words = Words::of(line);
    words.skip(b"device")?;
    let name = words.take()?;
    let switch = words.take()?;
    Ok(put_record(records, &[name, switch, words.last()])?)
}
