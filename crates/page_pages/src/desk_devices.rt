//! The desk's page of devices: how each stands, with the forms that turn it on or off and set what
//! a page costs there.

ghost use Rattle.std.specs.Prelude.{◌≡◌, ◌++◌, OnOk, flat_map};
ghost use Rattle.page_pages.specs.DeskDevices.{desk_columns, desk_device, desk_row, devices_head, devices_page, devices_start, devices_table, devices_title, other_label, other_state, rate_form, switch_form, table_of_devices};
ghost use Rattle.page_pages.specs.DeskForms.{desk_links, device_form};
ghost use Rattle.page_pages.specs.Devices.{on_sign, on_word};
ghost use Rattle.page_pages.specs.Frames.{card, document, foot, remark, top};
ghost use Rattle.page_markup.specs.Parts.{html};

use crate::desk_form::{put_desk_links, put_device_form};
use crate::devices::{on_sign, on_word};
use crate::frame::{put_card, put_document, put_foot, put_remark, put_top};
use crate::markup::{DESK_SCRIPTS, END_OF_CARD, END_OF_PAGE, END_OF_TABLE, LINE_FORM, RATE_FIELD};
use crate::texts::{
    ACTS, ALL_DEVICES, DESK, DEVICE, DEVICES, NO_KNOWN_DEVICES, SET, SET_RATE, STATE, TURN_OFF,
    TURN_ON, UNITS_A_PAGE,
};
use account_rules::Device;
use page_markup::{Piece, put_all};
use std::alloc::AllocError;

/// Appends the page of all devices, by name.
#[tactic(auto, using(std::proofs::Common::append_assoc), unfolding(crate::specs::DeskDevices::devices_page))]
pub fn put_devices_page(out: &mut Vec<u8>, devices: &[Device]) -> Result<(), AllocError>
    ensures { OnOk result (out.new.items ≡ out.old.items ++ devices_page devices.now) }
{
    put_devices_start(out)?;
    put_devices_card(out, devices)?;
    put_device_form(out)?;
    put_foot(out)?;
    out.extend_from_slice(END_OF_PAGE.as_bytes())
}

/// Appends the start of the page, with its heading.
#[tactic(auto, using(std::proofs::Common::append_assoc), unfolding(crate::specs::DeskDevices::devices_start))]
fn put_devices_start(out: &mut Vec<u8>) -> Result<(), AllocError>
    ensures { OnOk result (out.new.items ≡ out.old.items ++ devices_start) }
{
    put_devices_head(out)?;
    put_top(out, DESK)?;
    put_desk_links(out)?;
    put_devices_title(out)
}

/// Appends the title, and the scripts.
#[tactic(auto, using(std::proofs::Common::append_assoc), unfolding(crate::specs::DeskDevices::devices_head))]
fn put_devices_head(out: &mut Vec<u8>) -> Result<(), AllocError>
    ensures { OnOk result (out.new.items ≡ out.old.items ++ devices_head) }
{
    put_document(out, DEVICES.as_bytes())?;
    out.extend_from_slice(DESK_SCRIPTS.as_bytes())
}

/// Appends the card of the devices.
#[tactic(auto, using(std::proofs::Common::append_assoc), unfolding(crate::specs::DeskDevices::devices_table))]
fn put_devices_card(out: &mut Vec<u8>, devices: &[Device]) -> Result<(), AllocError>
    ensures { OnOk result (out.new.items ≡ out.old.items ++ devices_table devices.now) }
{
    put_card(out, "devices", ALL_DEVICES)?;
    put_table_of_devices(out, devices)?;
    out.extend_from_slice(END_OF_CARD.as_bytes())
}

/// Appends the table of the devices, or that none is known.
fn put_table_of_devices(out: &mut Vec<u8>, devices: &[Device]) -> Result<(), AllocError>
    ensures { OnOk result (out.new.items ≡ out.old.items ++ table_of_devices devices.now) }
{
    if devices.is_empty() {
        return put_remark(out, NO_KNOWN_DEVICES);
    }
    put_table(out, devices)
}

/// Appends the table, with a row for each device.
#[tactic(auto, using(std::proofs::Common::append_assoc))]
fn put_table(out: &mut Vec<u8>, devices: &[Device]) -> Result<(), AllocError>
    ensures { OnOk result (out.new.items ≡ out.old.items ++ (html desk_columns
        ++ (flat_map desk_row devices.now ++ END_OF_TABLE.now))) }
{
    put_desk_columns(out)?;
    put_desk_rows(out, devices)?;
    out.extend_from_slice(END_OF_TABLE.as_bytes())
}

/// Appends a row for each device.
fn put_desk_rows(out: &mut Vec<u8>, devices: &[Device]) -> Result<(), AllocError>
    ensures { OnOk result (out.new.items ≡ out.old.items ++ flat_map desk_row devices.now) }
{
    for device in devices {
        put_desk_row(out, device)?;
    }
    Ok(())
}

/// Appends the row of a device: how it stands, and its forms.
#[tactic(auto, using(std::proofs::Common::append_assoc), unfolding(crate::specs::DeskDevices::desk_row))]
fn put_desk_row(out: &mut Vec<u8>, device: &Device) -> Result<(), AllocError>
    ensures { OnOk result (out.new.items ≡ out.old.items ++ desk_row device.now) }
{
    let name = device.name.bytes();
    put_desk_device(
        out,
        name,
        on_sign(device.on),
        on_word(device.on),
        device.rate,
    )?;
    put_rate_form(out, name, device.rate)?;
    put_switch_form(out, name, other_state(device.on), other_label(device.on))
}

/// Gives the word of the line that turns a device the other way.
fn other_state(on: bool) -> &'static str
    ensures { result.now ≡ other_state on }
{
    if on { "off" } else { "on" }
}

/// Gives the words of the button that turns a device the other way.
fn other_label(on: bool) -> &'static str
    ensures { result.now ≡ other_label on }
{
    if on { TURN_OFF } else { TURN_ON }
}

/// Appends the heading of the page.
fn put_devices_title(out: &mut Vec<u8>) -> Result<(), AllocError>
    ensures { OnOk result (out.new.items ≡ out.old.items ++ html devices_title) }
{
    put_all(
        out,
        &[
            Piece::Mark("<div class=\"title\"><h1>"),
            Piece::Mark(DEVICES),
            Piece::Mark("</h1></div>\n"),
        ],
    )
}

/// Appends the start of the table of devices, with the heads of its columns.
fn put_desk_columns(out: &mut Vec<u8>) -> Result<(), AllocError>
    ensures { OnOk result (out.new.items ≡ out.old.items ++ html desk_columns) }
{
    put_all(
        out,
        &[
            Piece::Mark("<table class=\"jobs dense\">\n<thead><tr><th scope=\"col\">"),
            Piece::Mark(DEVICE),
            Piece::Mark("</th><th scope=\"col\">"),
            Piece::Mark(STATE),
            Piece::Mark("</th><th scope=\"col\" class=\"count\">"),
            Piece::Mark(UNITS_A_PAGE),
            Piece::Mark("</th><th scope=\"col\"><span class=\"unseen\">"),
            Piece::Mark(ACTS),
            Piece::Mark("</span></th></tr></thead>\n<tbody>\n"),
        ],
    )
}

/// Appends how a device stands: its name, whether it is on, and how many units a page costs there.
fn put_desk_device<'a>(
    out: &mut Vec<u8>,
    name: &'a [u8],
    symbol: &'a str,
    state: &'a str,
    rate: u32,
) -> Result<(), AllocError>
    ensures { OnOk result
        (out.new.items ≡ out.old.items ++ html (desk_device name.now symbol.now state.now rate)) }
{
    put_all(
        out,
        &[
            Piece::Mark("<tr><th scope=\"row\">"),
            Piece::Text(name),
            Piece::Mark("</th><td><span class=\"state\"><svg class=\"sign\" "),
            Piece::Mark("aria-hidden=\"true\"><use href=\"#"),
            Piece::Mark(symbol),
            Piece::Mark("\"/></svg>"),
            Piece::Mark(state),
            Piece::Mark("</span></td><td class=\"count\" data-label=\""),
            Piece::Mark(UNITS_A_PAGE),
            Piece::Mark("\">"),
            Piece::Number(rate as u64),
            Piece::Mark("</td>"),
        ],
    )
}

/// Appends the form that sets what a page costs on a device.
fn put_rate_form(out: &mut Vec<u8>, name: &[u8], rate: u32) -> Result<(), AllocError>
    ensures { OnOk result (out.new.items ≡ out.old.items ++ html (rate_form name.now rate)) }
{
    put_all(
        out,
        &[
            Piece::Mark("<td class=\"acts\"><div>"),
            Piece::Mark(LINE_FORM),
            Piece::Mark("><input type=\"hidden\" name=\"act\" value=\"rate\"><input "),
            Piece::Mark("type=\"hidden\" name=\"name\" value=\""),
            Piece::Text(name),
            Piece::Mark("\"><input class=\"few\" name=\"units\" value=\""),
            Piece::Number(rate as u64),
            Piece::Mark("\""),
            Piece::Mark(RATE_FIELD),
            Piece::Mark(" aria-label=\""),
            Piece::Mark(UNITS_A_PAGE),
            Piece::Mark(" "),
            Piece::Text(name),
            Piece::Mark("\"><button aria-label=\""),
            Piece::Mark(SET_RATE),
            Piece::Mark(" "),
            Piece::Text(name),
            Piece::Mark("\">"),
            Piece::Mark(SET),
            Piece::Mark("</button></form>\n"),
        ],
    )
}

/// Appends the form that turns a device on or off.
fn put_switch_form<'a>(
    out: &mut Vec<u8>,
    name: &'a [u8],
    turned: &'a str,
    label: &'a str,
) -> Result<(), AllocError>
    ensures { OnOk result
        (out.new.items ≡ out.old.items ++ html (switch_form name.now turned.now label.now)) }
{
    put_all(
        out,
        &[
            Piece::Mark(LINE_FORM),
            Piece::Mark("><input type=\"hidden\" name=\"act\" value=\"device\"><input "),
            Piece::Mark("type=\"hidden\" name=\"name\" value=\""),
            Piece::Text(name),
            Piece::Mark("\"><button name=\"state\" value=\""),
            Piece::Mark(turned),
            Piece::Mark("\" aria-label=\""),
            Piece::Mark(label),
            Piece::Mark(" "),
            Piece::Text(name),
            Piece::Mark("\">"),
            Piece::Mark(label),
            Piece::Mark("</button></form></div></td></tr>\n"),
        ],
    )
}
