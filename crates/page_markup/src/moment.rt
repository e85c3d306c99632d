//! Moments and months as a page shows them, in UTC: in words for readers, and as programs read
//! them.

ghost use Rattle.std.specs.Prelude.{◌≡◌, ◌++◌, ◌<◌, ◌≤◌, min, OnOk, IfOk, string_bytes};
ghost use Rattle.account_rules.specs.Limits.{last_moment};
ghost use Rattle.page_markup.specs.Moments.{clock_text, day_in_month, known_text, machine_text, moment_text, month_name, month_text, month_words, readers_text, short_month_name, time_text};

use crate::texts::{
    APR, APRIL, AUG, AUGUST, DEC, DECEMBER, FEB, FEBRUARY, JAN, JANUARY, JUL, JULY, JUN, JUNE, MAR,
    MARCH, MAY, NOV, NOVEMBER, OCT, OCTOBER, SEP, SEPTEMBER,
};
use account_rules::{LAST_MOMENT, Moment, month_of};
use jiff_core::civil::Date;
use std::alloc::{AllocError, Global};

const TIME_START: &str = "<time datetime=\"";

const TIME_MIDDLE: &str = "\">";

const TIME_END: &str = "</time>";

/// Appends a moment (seconds since 1970-01-01T00:00:00Z) as an element `<time>`, which readers and
/// programs read. A moment past the last that the rules know goes out as that last one.
pub(crate) fn put_moment(out: &mut Vec<u8>, at: u64) -> Result<(), AllocError>
    ensures { OnOk result (out.new.items ≡ out.old.items ++ moment_text at) }
{
    put_known(out, known(at))
}

/// Gives the moment, or the last that the rules know where it lies past that.
pub fn known(at: u64) -> Moment
    ensures { result ≡ min at last_moment }
{
    Moment::new(at.min(LAST_MOMENT)).unwrap()
}

/// Appends the element `<time>` of a moment that the rules know.
#[tactic(auto, using(std::proofs::Common::append_assoc), unfolding(crate::specs::Moments::known_text))]
fn put_known(out: &mut Vec<u8>, now: Moment) -> Result<(), AllocError>
    ensures { OnOk result (out.new.items ≡ out.old.items ++ known_text now) }
{
    out.extend_from_slice(TIME_START.as_bytes())?;
    put_machine(out, now)?;
    out.extend_from_slice(TIME_MIDDLE.as_bytes())?;
    put_readers(out, now)?;
    out.extend_from_slice(TIME_END.as_bytes())
}

/// Appends a moment for programs, as `2026-11-30T20:12Z`.
#[tactic(auto, using(std::proofs::Common::append_assoc), unfolding(crate::specs::Moments::machine_text))]
fn put_machine(out: &mut Vec<u8>, now: Moment) -> Result<(), AllocError>
    ensures { OnOk result (out.new.items ≡ out.old.items ++ machine_text now) }
{
    let day = day_in_month(now);
    let tens = day / 10;
    let ones = day % 10;
    let clock = clock_text(*out.allocator(), now)?;
    put_month_number(out, month_of(now))?;
    let text = format!(in *out.allocator(); "-{tens}{ones}T{clock}Z")?;
    out.extend_from_slice(text.as_bytes())
}

/// Appends a moment for readers, as `30 Nov 2026, 20:12`.
#[tactic(auto, using(std::proofs::Common::append_assoc), unfolding(crate::specs::Moments::readers_text))]
fn put_readers(out: &mut Vec<u8>, now: Moment) -> Result<(), AllocError>
    ensures { OnOk result (out.new.items ≡ out.old.items ++ readers_text now) }
{
    let day = day_in_month(now);
    let month = month_of(now);
    let name = short_month_name(month % 12);
    let year = month / 12;
    let clock = clock_text(*out.allocator(), now)?;
    let text = format!(in *out.allocator(); "{day} {name} {year}, {clock}")?;
    out.extend_from_slice(text.as_bytes())
}

/// Gives the hour and the minute of a moment, as `20:12`.
#[tactic(auto, unfolding(crate::specs::Moments::clock_text))]
fn clock_text(alloc: Global, now: Moment) -> Result<String, AllocError>
    ensures { IfOk result (λ text. string_bytes text ≡ clock_text now) }
{
    let seconds = now.seconds();
    time_text(alloc, seconds % 86_400 / 3600, seconds % 3600 / 60)
}

/// Gives an hour and a minute with two digits each, as `20:12`.
fn time_text(alloc: Global, hour: u64, minute: u64) -> Result<String, AllocError>
    ensures { IfOk result (λ text. string_bytes text ≡ time_text hour minute) }
{
    let hour_tens = hour / 10;
    let hour_ones = hour % 10;
    let minute_tens = minute / 10;
    let minute_ones = minute % 10;
    format!(in alloc; "{hour_tens}{hour_ones}:{minute_tens}{minute_ones}")
}

/// Gives the day of a moment in its month, 1 to 31.
pub fn day_in_month(now: Moment) -> u8
    ensures { result ≡ day_in_month now }
{
    let day = now.seconds() / 86_400;
    let date = Date::from_unix_epoch_day(day as i64).unwrap();
    date.day
}

/// Appends a month as `November 2026`. Its number is twelve times the year, and 0 for January to 11
/// for December.
#[tactic(auto, unfolding(crate::specs::Moments::month_words))]
pub(crate) fn put_month(out: &mut Vec<u8>, month: u32) -> Result<(), AllocError>
    ensures { OnOk result (out.new.items ≡ out.old.items ++ month_words month) }
{
    let name = month_name(month % 12);
    let year = month / 12;
    let text = format!(in *out.allocator(); "{name} {year}")?;
    out.extend_from_slice(text.as_bytes())
}

/// Appends a month of that number as `2026-11`.
pub fn put_month_number(out: &mut Vec<u8>, month: u32) -> Result<(), AllocError>
    ensures { OnOk result (out.new.items ≡ out.old.items ++ month_text month) }
{
    let year = month / 12;
    let tens = (month % 12 + 1) / 10;
    let ones = (month % 12 + 1) % 10;
    let text = format!(in *out.allocator(); "{year}-{tens}{ones}")?;
    out.extend_from_slice(text.as_bytes())
}

/// Gives the English name of the month at a place in its year: 0 is January, 11 is December.
#[tactic(auto, unfolding(crate::specs::Moments::month_name))]
fn month_name(place: u32) -> &'static str
    ensures { result.now ≡ month_name place }
{
    match place {
        0 => JANUARY,
        1 => FEBRUARY,
        2 => MARCH,
        3 => APRIL,
        4 => MAY,
        5 => JUNE,
        6 => JULY,
        7 => AUGUST,
        8 => SEPTEMBER,
        9 => OCTOBER,
        10 => NOVEMBER,
        _ => DECEMBER,
    }
}

/// Gives the three letters of the month at a place in its year: 0 is Jan, 11 is Dec.
#[tactic(auto, unfolding(crate::specs::Moments::short_month_name))]
fn short_month_name(place: u32) -> &'static str
    ensures { result.now ≡ short_month_name place }
{
    match place {
        0 => JAN,
        1 => FEB,
        2 => MAR,
        3 => APR,
        4 => MAY,
        5 => JUN,
        6 => JUL,
        7 => AUG,
        8 => SEP,
        9 => OCT,
        10 => NOV,
        _ => DEC,
    }
}
