//! The card of devices, and what a page costs on each: on the owner's and the print room's page.

ghost use Rattle.std.specs.Prelude.{◌≡◌, ◌++◌, OnOk, flat_map};
ghost use Rattle.std.specs.List.{list_any};
ghost use Rattle.page_pages.specs.Devices.{device_item, all_devices, device_row, is_on, list_if_any, look_of, on_sign, on_word, words_of_none};
ghost use Rattle.page_pages.specs.Frames.{card, remark};
ghost use Rattle.page_markup.specs.Parts.{html};

use crate::frame::{put_card, put_remark};
use crate::markup::{END_OF_CARD, END_OF_LIST, LIST_OF_DEVICES};
use crate::texts::{DEVICES, NO_DEVICES, OFF, ON, UNITS_A_PAGE};
use account_rules::Device;
use page_markup::{Piece, put_all};
use std::alloc::AllocError;

fn is_any_on(devices: &[Device]) -> bool
    ensures { result ≡ list_any is_on devices.now }
{
    devices.iter().any(|device| device.on)
}

/// Appends that no device is on, if none is.
fn put_words_of_none(out: &mut Vec<u8>, devices: &[Device]) -> Result<(), AllocError>
    ensures { OnOk result (out.new.items ≡ out.old.items ++ words_of_none devices.now) }
{
    if is_any_on(devices) {
        return Ok(());
    }
    put_remark(out, NO_DEVICES)
}

/// Appends the card of all devices, on or off.
#[tactic(auto, using(std::proofs::Common::append_assoc), unfolding(crate::specs::Devices::all_devices))]
pub(crate) fn put_all_devices(out: &mut Vec<u8>, devices: &[Device]) -> Result<(), AllocError>
    ensures { OnOk result (out.new.items ≡ out.old.items ++ all_devices devices.now) }
{
    put_card(out, "devices", DEVICES)?;
    put_words_of_none(out, devices)?;
    put_list_if_any(out, devices)?;
    out.extend_from_slice(END_OF_CARD.as_bytes())
}

/// Appends the list of all devices, if there are any.
#[tactic(auto, using(std::proofs::Common::append_assoc))]
fn put_list_if_any(out: &mut Vec<u8>, devices: &[Device]) -> Result<(), AllocError>
    ensures { OnOk result (out.new.items ≡ out.old.items ++ list_if_any devices.now) }
{
    if devices.is_empty() {
        return Ok(());
    }
    out.extend_from_slice(LIST_OF_DEVICES.as_bytes())?;
    put_each(out, devices)?;
    out.extend_from_slice(END_OF_LIST.as_bytes())
}

/// Appends an item for each device.
fn put_each(out: &mut Vec<u8>, devices: &[Device]) -> Result<(), AllocError>
    ensures { OnOk result (out.new.items ≡ out.old.items ++ flat_map device_row devices.now) }
{
    for device in devices {
        put_device_row(out, device)?;
    }
    Ok(())
}

/// Appends the item of a device.
#[tactic(auto, unfolding(crate::specs::Devices::device_row))]
fn put_device_row(out: &mut Vec<u8>, device: &Device) -> Result<(), AllocError>
    ensures { OnOk result (out.new.items ≡ out.old.items ++ device_row device.now) }
{
    put_device_item(
        out,
        look_of(device.on),
        device.name.bytes(),
        on_sign(device.on),
        on_word(device.on),
        device.rate,
    )
}

/// Gives the class of a device's item: one that is off has a dashed border.
fn look_of(on: bool) -> &'static str
    ensures { result.now ≡ look_of on }
{
    if on { "" } else { " class=\"off\"" }
}

/// Gives the name of the sign that tells whether a device is on.
pub(crate) fn on_sign(on: bool) -> &'static str
    ensures { result.now ≡ on_sign on }
{
    if on { "on" } else { "off" }
}

/// Gives the word that tells whether a device is on.
pub(crate) fn on_word(on: bool) -> &'static str
    ensures { result.now ≡ on_word on }
{
    if on { ON } else { OFF }
}

/// Appends the item of a device: its name, whether it is on, and how many units a page costs there.
fn put_device_item<'a>(
    out: &mut Vec<u8>,
    look: &'a str,
    name: &'a [u8],
    symbol: &'a str,
    state: &'a str,
    rate: u32,
) -> Result<(), AllocError>
    ensures { OnOk result
        (out.new.items ≡ out.old.items
        ++ html (device_item look.now name.now symbol.now state.now rate)) }
{
    put_all(
        out,
        &[
            Piece::Mark("<li"),
            Piece::Mark(look),
            Piece::Mark("><b>"),
            Piece::Text(name),
            Piece::Mark("</b><span class=\"state\">"),
            Piece::Mark("<svg class=\"sign\" aria-hidden=\"true\"><use href=\"#"),
            Piece::Mark(symbol),
            Piece::Mark("\"/></svg>"),
            Piece::Mark(state),
            Piece::Mark("</span>\n<span>"),
            Piece::Mark(UNITS_A_PAGE),
            Piece::Mark(": "),
            Piece::Number(rate as u64),
            Piece::Mark("</span></li>\n"),
        ],
    )
}
