//! The print room's page of an overview, and that of the desk: which days and which accounts they list.

ghost use Rattle.std.specs.Prelude.{◌≡◌, ◌++◌, ◌≤◌, ℕ, length, List, IfOk, OnOk};
ghost use Rattle.page_overview.specs.Pages.{begins_so, comes_behind, days_in, found, is_listed, next_behind, numbered, IsDesk, IsPage, Lists};
ghost use Rattle.page_pages.specs.DeskRooms.{desk_page};
ghost use Rattle.page_pages.specs.Rooms.{room_page};
ghost use Rattle.page_pages.specs.declared.room.Room.{Room as RoomRecord};

use crate::overview::Overview;
use account_rules::{LAST_MONTH, Name};
use jiff_core::civil::days_in_month;
use page_pages::{AccountLine, DayLine, Room, put_desk_page, put_room_page};
use std::alloc::{AllocError, Global};

/// The most accounts that one page lists.
const MOST_LISTED: usize = 100;

impl Overview {
    /// Appends the print room's page. It lists at most 100 of the accounts: those whose names begin
    /// with `front` and come behind the name `behind`, where these are given. `gathers`: all
    /// accounts are being gathered anew.
    pub fn put_page(
        &self,
        out: &mut Vec<u8>,
        gathers: bool,
        front: Option<Name>,
        behind: Option<Name>,
    ) -> Result<(), AllocError>
        ensures { OnOk result ((page : List ℕ) × IsPage self.now gathers front behind page
            × (out.new.items ≡ out.old.items ++ page)) }
    {
        let alloc = *out.allocator();
        let days = day_lines(alloc, &self.days[..days_in(self.month)])?;
        let mut accounts = find(alloc, self.accounts.as_slice(), &front, &behind)?;
        let next = next_behind(accounts.as_slice());
        accounts.truncate(MOST_LISTED);
        self.put_listed(
            out,
            gathers,
            front,
            days.as_slice(),
            accounts.as_slice(),
            next,
        )
    }

    /// Appends the desk's first page. It lists accounts as the print room's page does.
    pub fn put_desk(
        &self,
        out: &mut Vec<u8>,
        gathers: bool,
        front: Option<Name>,
        behind: Option<Name>,
    ) -> Result<(), AllocError>
        ensures { OnOk result ((page : List ℕ) × IsDesk self.now gathers front behind page
            × (out.new.items ≡ out.old.items ++ page)) }
    {
        let alloc = *out.allocator();
        let days = day_lines(alloc, &self.days[..days_in(self.month)])?;
        let mut accounts = find(alloc, self.accounts.as_slice(), &front, &behind)?;
        let next = next_behind(accounts.as_slice());
        accounts.truncate(MOST_LISTED);
        self.put_desk_listed(
            out,
            gathers,
            front,
            days.as_slice(),
            accounts.as_slice(),
            next,
        )
    }

    /// Appends the page with these days and these accounts. `behind` is the last of them, if more
    /// come behind it.
    fn put_listed(
        &self,
        out: &mut Vec<u8>,
        gathers: bool,
        front: Option<Name>,
        days: &[DayLine],
        accounts: &[AccountLine],
        behind: Option<Name>,
    ) -> Result<(), AllocError>
        ensures { OnOk result ((room : RoomRecord)
            × Lists self.now gathers front days.now accounts.now behind room
            × (out.new.items ≡ out.old.items ++ room_page room)) }
    {
        let room = self.room(gathers, front, days, accounts, behind);
        put_room_page(out, &room)
    }

    /// Appends the desk's first page with these days and these accounts, as `put_listed`.
    fn put_desk_listed(
        &self,
        out: &mut Vec<u8>,
        gathers: bool,
        front: Option<Name>,
        days: &[DayLine],
        accounts: &[AccountLine],
        behind: Option<Name>,
    ) -> Result<(), AllocError>
        ensures { OnOk result ((room : RoomRecord)
            × Lists self.now gathers front days.now accounts.now behind room
            × (out.new.items ≡ out.old.items ++ desk_page room)) }
    {
        let room = self.room(gathers, front, days, accounts, behind);
        put_desk_page(out, &room)
    }

    /// What the page shows, with these days and these accounts.
    fn room<'a>(
        &'a self,
        gathers: bool,
        front: Option<Name>,
        days: &'a [DayLine],
        accounts: &'a [AccountLine],
        behind: Option<Name>,
    ) -> Room<'a>
        ensures { Lists self.now gathers front days.now accounts.now behind result }
    {
        Room {
            as_of: self.as_of,
            gathers,
            skips: self.skips,
            has_more: self.has_more,
            month: self.month,
            open: self.accounts.len() as u64,
            waiting: self.waiting,
            unsettled: self.unsettled,
            charged: self.charged,
            beyond: self.beyond,
            days,
            begun: self.begun.as_slice(),
            longest: self.longest.as_slice(),
            devices: self.devices.as_slice(),
            front,
            accounts,
            behind,
        }
    }
}

/// Gives how many days a month has. One past the last that the rules know has as many as that.
fn days_in(month: u32) -> usize
    ensures days { result ≡ days_in month }
    ensures high { result ≤ 31 }
{
    let known = month.min(LAST_MONTH);
    days_in_month((known / 12) as i16, (known % 12 + 1) as u8) as usize
}

/// Gives the units of each day with the day's number, from 1.
fn day_lines(alloc: Global, units: &[u64]) -> Result<Vec<DayLine>, AllocError>
    requires { length units.now ≤ 31 }
    ensures { IfOk result (λ lines. lines.items ≡ numbered 1 units.now) }
{
    let mut lines = Vec::new(alloc);
    let mut day = 1u32;
    for of_day in units {
        lines.push(DayLine {
            day,
            units: *of_day,
        })?;
        day += 1;
    }
    Ok(lines)
}

/// Finds the first 100 of the accounts that are asked for, and one more where there are more.
fn find(
    alloc: Global,
    lines: &[AccountLine],
    front: &Option<Name>,
    behind: &Option<Name>,
) -> Result<Vec<AccountLine>, AllocError>
    ensures { IfOk result (λ they. they.items ≡ found front.now behind.now lines.now) }
{
    lines
        .iter()
        .filter(|line| is_listed(front, behind, line))
        .take(MOST_LISTED + 1)
        .copied()
        .collect(alloc)
}

/// Whether the account is one of those that are asked for.
fn is_listed(front: &Option<Name>, behind: &Option<Name>, line: &AccountLine) -> bool
    ensures { result ≡ is_listed front.now behind.now line.now }
{
    begins_so(front, line.account) && comes_behind(behind, line.account)
}

/// Whether the account's name begins with `front`, if that is given.
fn begins_so(front: &Option<Name>, account: Name) -> bool
    ensures { result ≡ begins_so front.now account }
{
    match front {
        Some(front) => account.bytes().starts_with(front.bytes()),
        None => true,
    }
}

/// Whether the account's name comes behind this one, if one is given.
fn comes_behind(behind: &Option<Name>, account: Name) -> bool
    ensures { result ≡ comes_behind behind.now account }
{
    match behind {
        Some(name) => name.bytes().cmp(account.bytes()).is_lt(),
        None => true,
    }
}

/// Gives the last account that is listed, where more were found.
fn next_behind(lines: &[AccountLine]) -> Option<Name>
    ensures { result ≡ next_behind lines.now }
{
    if lines.len() <= MOST_LISTED {
        return None;
    }
    Some(lines[MOST_LISTED - 1].account)
}
