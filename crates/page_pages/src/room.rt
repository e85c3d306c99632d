//! The print room's page, for operators: sums, a chart of the month, and lists over all accounts.

ghost use Rattle.std.specs.Prelude.{◌≡◌, ◌++◌, OnOk};
ghost use Rattle.page_pages.specs.Accounts.{accounts_card};
ghost use Rattle.page_pages.specs.Begun.{begun_card};
ghost use Rattle.page_pages.specs.Charts.{chart};
ghost use Rattle.page_pages.specs.Devices.{all_devices};
ghost use Rattle.page_pages.specs.Frames.{document, foot, reload_soon, remark, top};
ghost use Rattle.page_pages.specs.Longest.{longest_card};
ghost use Rattle.page_markup.specs.Parts.{html};
ghost use Rattle.page_pages.specs.Rooms.{as_of, as_of_text, find_form, front_text, reload_if, remark_if, room_document, room_head, room_lists, room_page, room_start, room_sums, room_title, tiles, title_start};

use crate::accounts::{AccountLine, put_accounts_card};
use crate::begun::{BegunLine, put_begun_card};
use crate::chart::{DayLine, put_chart};
use crate::devices::put_all_devices;
use crate::frame::{put_document, put_foot, put_reload_soon, put_remark, put_top};
use crate::longest::{LongestLine, put_longest_card};
use crate::markup::{END_OF_PAGE, END_OF_PAIR, PAIR, SCRIPT};
use crate::texts::{
    ACCOUNTS_OPEN, AS_OF, FIND, FIND_LABEL, HAS_MORE, IS_GATHERED, JOBS_WAITING, NOT_SETTLED,
    NOT_YET, OPERATORS, PRINT_ROOM, SKIPS, UNITS_BEYOND, UNITS_THIS_MONTH,
};
use account_rules::{Device, Name};
use page_markup::{Piece, put_all};
use std::alloc::AllocError;

/// What the print room's page shows. What spans accounts was gathered from `as_of` on.
#[derive(Drop)]
pub struct Room<'a> {
    /// In seconds since 1970-01-01T00:00:00Z, if something was gathered yet.
    pub as_of: Option<u64>,
    /// Whether all of it is being gathered anew. Then the page loads itself again, as it does where
    /// nothing was gathered yet.
    pub gathers: bool,
    /// Whether accounts were left out whose rows are damaged.
    pub skips: bool,
    /// Whether more accounts are open than were gathered.
    pub has_more: bool,
    pub month: u32,
    /// How many accounts are open, of those that were gathered, as all that follows.
    pub open: u64,
    /// How many jobs of all accounts have not ended.
    pub waiting: u64,
    /// How many jobs of all accounts a device began and has not settled.
    pub unsettled: u64,
    /// Units that all accounts were charged in the month.
    pub charged: u64,
    /// Units of these beyond what the jobs' releases let them cost.
    pub beyond: u64,
    /// The units of each day of the month.
    pub days: &'a [DayLine],
    /// The jobs that a device began and has not settled, the oldest first.
    pub begun: &'a [BegunLine],
    /// The jobs that have waited longest.
    pub longest: &'a [LongestLine],
    /// All devices, by name.
    pub devices: &'a [Device],
    /// What the names of the listed accounts begin with, if not all are listed.
    pub front: Option<Name>,
    /// The accounts that this page lists, by name.
    pub accounts: &'a [AccountLine],
    /// The last account of this list, if more come behind it: there the next list begins.
    pub behind: Option<Name>,
}

/// Appends the print room's page.
#[tactic(auto, using(std::proofs::Common::append_assoc), unfolding(crate::specs::Rooms::room_page))]
pub fn put_room_page(out: &mut Vec<u8>, room: &Room<'_>) -> Result<(), AllocError>
    ensures { OnOk result (out.new.items ≡ out.old.items ++ room_page room.now) }
{
    put_room_start(out, room)?;
    put_room_head(out, room)?;
    put_room_sums(out, room)?;
    put_room_lists(out, room)?;
    put_foot(out)?;
    out.extend_from_slice(END_OF_PAGE.as_bytes())
}

/// Appends the start of the page, up to its banner.
#[tactic(auto, using(std::proofs::Common::append_assoc), unfolding(crate::specs::Rooms::room_start))]
fn put_room_start(out: &mut Vec<u8>, room: &Room<'_>) -> Result<(), AllocError>
    ensures { OnOk result (out.new.items ≡ out.old.items ++ room_start room.now) }
{
    put_room_document(out, room)?;
    out.extend_from_slice(SCRIPT.as_bytes())?;
    put_top(out, OPERATORS)
}

/// Appends the title. The page loads itself anew in 2 seconds while accounts are being gathered, or
/// where nothing was gathered yet.
#[tactic(auto, using(std::proofs::Common::append_assoc), unfolding(crate::specs::Rooms::room_document))]
fn put_room_document(out: &mut Vec<u8>, room: &Room<'_>) -> Result<(), AllocError>
    ensures { OnOk result (out.new.items ≡ out.old.items ++ room_document room.now) }
{
    put_document(out, OPERATORS.as_bytes())?;
    put_reload_if(out, room.gathers || room.as_of.is_none())
}

/// Appends the element that has a browser load the page anew, if it is to.
pub(crate) fn put_reload_if(out: &mut Vec<u8>, reloads: bool) -> Result<(), AllocError>
    ensures { OnOk result (out.new.items ≡ out.old.items ++ reload_if reloads) }
{
    if !reloads {
        return Ok(());
    }
    put_reload_soon(out)
}

/// Appends the heading, and the remarks that hold: accounts are being gathered, some were left out,
/// there are more.
#[tactic(auto, using(std::proofs::Common::append_assoc), unfolding(crate::specs::Rooms::room_head))]
pub(crate) fn put_room_head(out: &mut Vec<u8>, room: &Room<'_>) -> Result<(), AllocError>
    ensures { OnOk result (out.new.items ≡ out.old.items ++ room_head room.now) }
{
    put_room_title(out, room.as_of, front_text(&room.front))?;
    put_remark_if(out, room.gathers, IS_GATHERED)?;
    put_remark_if(out, room.skips, SKIPS)?;
    put_remark_if(out, room.has_more, HAS_MORE)
}

/// Appends a sentence, if it holds.
fn put_remark_if(out: &mut Vec<u8>, holds: bool, said: &str) -> Result<(), AllocError>
    ensures { OnOk result (out.new.items ≡ out.old.items ++ remark_if holds said.now) }
{
    if !holds {
        return Ok(());
    }
    put_remark(out, said)
}

/// Appends the sums over all accounts, and the chart of the month's days.
#[tactic(auto, using(std::proofs::Common::append_assoc), unfolding(crate::specs::Rooms::room_sums))]
fn put_room_sums(out: &mut Vec<u8>, room: &Room<'_>) -> Result<(), AllocError>
    ensures { OnOk result (out.new.items ≡ out.old.items ++ room_sums room.now) }
{
    put_tiles(
        out,
        room.open,
        room.waiting,
        room.unsettled,
        room.charged,
        room.beyond,
    )?;
    put_chart(out, room.month, room.days)
}

/// Appends the lists: side by side the jobs that devices began and the jobs that have waited
/// longest, below them all devices, and last a list of accounts with a link to the next (`behind`).
#[tactic(auto, using(std::proofs::Common::append_assoc), unfolding(crate::specs::Rooms::room_lists))]
fn put_room_lists(out: &mut Vec<u8>, room: &Room<'_>) -> Result<(), AllocError>
    ensures { OnOk result (out.new.items ≡ out.old.items ++ room_lists room.now) }
{
    out.extend_from_slice(PAIR.as_bytes())?;
    put_begun_card(out, room.begun)?;
    put_longest_card(out, room.longest)?;
    out.extend_from_slice(END_OF_PAIR.as_bytes())?;
    put_all_devices(out, room.devices)?;
    put_accounts_card(out, front_text(&room.front), room.accounts, room.behind)
}

/// Gives what the names of the listed accounts begin with: nothing, where all are listed.
pub(crate) fn front_text(front: &Option<Name>) -> &[u8]
    ensures { result.now ≡ front_text front.now }
{
    match front {
        Some(name) => name.bytes(),
        None => b"",
    }
}

/// Appends the heading, from which moment the numbers are, and the form to find an account.
#[tactic(auto, using(std::proofs::Common::append_assoc), unfolding(crate::specs::Rooms::room_title))]
fn put_room_title(out: &mut Vec<u8>, at: Option<u64>, front: &[u8]) -> Result<(), AllocError>
    ensures { OnOk result (out.new.items ≡ out.old.items ++ room_title at front.now) }
{
    put_title_start(out)?;
    put_as_of_text(out, at)?;
    put_find_form(out, front)
}

/// Appends the start of the heading.
fn put_title_start(out: &mut Vec<u8>) -> Result<(), AllocError>
    ensures { OnOk result (out.new.items ≡ out.old.items ++ html title_start) }
{
    put_all(
        out,
        &[
            Piece::Mark("<div class=\"title\"><div><h1>"),
            Piece::Mark(PRINT_ROOM),
            Piece::Mark("</h1>\n<p class=\"quiet\">"),
        ],
    )
}

/// Appends from which moment the numbers are, or that nothing was counted yet.
fn put_as_of_text(out: &mut Vec<u8>, at: Option<u64>) -> Result<(), AllocError>
    ensures { OnOk result (out.new.items ≡ out.old.items ++ as_of_text at) }
{
    match at {
        Some(at) => put_as_of(out, at),
        None => out.extend_from_slice(NOT_YET.as_bytes()),
    }
}

/// Appends from which moment the numbers are.
fn put_as_of(out: &mut Vec<u8>, at: u64) -> Result<(), AllocError>
    ensures { OnOk result (out.new.items ≡ out.old.items ++ html (as_of at)) }
{
    put_all(
        out,
        &[Piece::Mark(AS_OF), Piece::Moment(at), Piece::Mark(" UTC")],
    )
}

/// Appends the end of the heading, and the form to find accounts by what their names begin with.
fn put_find_form(out: &mut Vec<u8>, front: &[u8]) -> Result<(), AllocError>
    ensures { OnOk result (out.new.items ≡ out.old.items ++ html (find_form front.now)) }
{
    put_all(
        out,
        &[
            Piece::Mark("</p></div>\n"),
            Piece::Mark(
                "<form class=\"find\" method=\"get\" action=\"/#accounts\" role=\"search\"><div>",
            ),
            Piece::Mark("<label for=\"front\">"),
            Piece::Mark(FIND_LABEL),
            Piece::Mark("</label><input id=\"front\" name=\"front\" maxlength=\"32\" "),
            Piece::Mark(
                "autocapitalize=\"none\" autocomplete=\"off\" spellcheck=\"false\" value=\"",
            ),
            Piece::Text(front),
            Piece::Mark("\"></div><button class=\"first\">"),
            Piece::Mark(FIND),
            Piece::Mark("</button></form></div>\n"),
        ],
    )
}

/// Appends the sums over all accounts: accounts open, jobs waiting, jobs begun and not settled,
/// units charged this month, and units of these beyond what was released.
fn put_tiles(
    out: &mut Vec<u8>,
    accounts: u64,
    waiting: u64,
    begun: u64,
    charged: u64,
    beyond: u64,
) -> Result<(), AllocError>
    ensures { OnOk result (out.new.items
        ≡ out.old.items ++ html (tiles accounts waiting begun charged beyond)) }
{
    put_all(
        out,
        &[
            Piece::Mark("<section class=\"card\"><dl class=\"tiles\">\n<div><dt>"),
            Piece::Mark(ACCOUNTS_OPEN),
            Piece::Mark("</dt><dd>"),
            Piece::Number(accounts),
            Piece::Mark("</dd></div>\n<div><dt>"),
            Piece::Mark(JOBS_WAITING),
            Piece::Mark("</dt><dd>"),
            Piece::Number(waiting),
            Piece::Mark("</dd></div>\n<div><dt>"),
            Piece::Mark(NOT_SETTLED),
            Piece::Mark("</dt><dd>"),
            Piece::Number(begun),
            Piece::Mark("</dd></div>\n<div><dt>"),
            Piece::Mark(UNITS_THIS_MONTH),
            Piece::Mark("</dt><dd>"),
            Piece::Number(charged),
            Piece::Mark("</dd></div>\n<div><dt>"),
            Piece::Mark(UNITS_BEYOND),
            Piece::Mark("</dt><dd>"),
            Piece::Number(beyond),
            Piece::Mark("</dd></div>\n</dl></section>\n"),
        ],
    )
}
