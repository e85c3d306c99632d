//! The desk's first page: what the print room's page lists, and the forms that open accounts and
//! grant by a file.

ghost use Rattle.std.specs.Prelude.{◌≡◌, ◌++◌, OnOk};
ghost use Rattle.page_pages.specs.Accounts.{accounts_card};
ghost use Rattle.page_pages.specs.Begun.{begun_card};
ghost use Rattle.page_pages.specs.DeskForms.{desk_links, file_form, open_form};
ghost use Rattle.page_pages.specs.DeskRooms.{desk_document, desk_forms, desk_lists, desk_page, desk_start};
ghost use Rattle.page_pages.specs.Frames.{document, foot, top};
ghost use Rattle.page_pages.specs.Longest.{longest_card};
ghost use Rattle.page_markup.specs.Parts.{html};
ghost use Rattle.page_pages.specs.Rooms.{front_text, reload_if, room_head};

use crate::accounts::put_accounts_card;
use crate::begun::put_begun_card;
use crate::desk_form::{put_desk_links, put_file_form, put_open_form};
use crate::frame::{put_document, put_foot, put_top};
use crate::longest::put_longest_card;
use crate::markup::{DESK_SCRIPTS, END_OF_PAGE, END_OF_PAIR, PAIR};
use crate::room::{Room, front_text, put_reload_if, put_room_head};
use crate::texts::DESK;
use std::alloc::AllocError;

/// Appends the desk's first page.
#[tactic(auto, using(std::proofs::Common::append_assoc), unfolding(crate::specs::DeskRooms::desk_page))]
pub fn put_desk_page(out: &mut Vec<u8>, room: &Room<'_>) -> Result<(), AllocError>
    ensures { OnOk result (out.new.items ≡ out.old.items ++ desk_page room.now) }
{
    put_desk_start(out, room)?;
    put_room_head(out, room)?;
    put_desk_forms(out)?;
    put_desk_lists(out, room)?;
    put_foot(out)?;
    out.extend_from_slice(END_OF_PAGE.as_bytes())
}

/// Appends the start of the page, up to the ways to other pages.
#[tactic(auto, using(std::proofs::Common::append_assoc), unfolding(crate::specs::DeskRooms::desk_start))]
fn put_desk_start(out: &mut Vec<u8>, room: &Room<'_>) -> Result<(), AllocError>
    ensures { OnOk result (out.new.items ≡ out.old.items ++ desk_start room.now) }
{
    put_desk_document(out, room)?;
    out.extend_from_slice(DESK_SCRIPTS.as_bytes())?;
    put_top(out, DESK)?;
    put_desk_links(out)
}

/// Appends the title. The page loads itself anew as the print room's does.
#[tactic(auto, using(std::proofs::Common::append_assoc), unfolding(crate::specs::DeskRooms::desk_document))]
fn put_desk_document(out: &mut Vec<u8>, room: &Room<'_>) -> Result<(), AllocError>
    ensures { OnOk result (out.new.items ≡ out.old.items ++ desk_document room.now) }
{
    put_document(out, DESK.as_bytes())?;
    put_reload_if(out, room.gathers || room.as_of.is_none())
}

/// Appends the forms that open an account and grant by a file, side by side.
#[tactic(auto, using(std::proofs::Common::append_assoc), unfolding(crate::specs::DeskRooms::desk_forms))]
fn put_desk_forms(out: &mut Vec<u8>) -> Result<(), AllocError>
    ensures { OnOk result (out.new.items ≡ out.old.items ++ desk_forms) }
{
    out.extend_from_slice(PAIR.as_bytes())?;
    put_open_form(out)?;
    put_file_form(out)?;
    out.extend_from_slice(END_OF_PAIR.as_bytes())
}

/// Appends the lists: the accounts, and below them the jobs that devices began and those that have
/// waited longest.
#[tactic(auto, using(std::proofs::Common::append_assoc), unfolding(crate::specs::DeskRooms::desk_lists))]
fn put_desk_lists(out: &mut Vec<u8>, room: &Room<'_>) -> Result<(), AllocError>
    ensures { OnOk result (out.new.items ≡ out.old.items ++ desk_lists room.now) }
{
    put_accounts_card(out, front_text(&room.front), room.accounts, room.behind)?;
    out.extend_from_slice(PAIR.as_bytes())?;
    put_begun_card(out, room.begun)?;
    put_longest_card(out, room.longest)?;
    out.extend_from_slice(END_OF_PAIR.as_bytes())
}
