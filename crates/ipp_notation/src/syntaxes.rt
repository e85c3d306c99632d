//! The values of several numbers, as they are printed: a date, a resolution, a range (RFC 8010
//! section 3.9).

use std::fmt;

/// A moment and how far it is from UTC: the DateAndTime of RFC 2579.
#[derive(Clone, Copy)]
pub(crate) struct DateTime {
    year: u16,
    month: u8,
    day: u8,
    hour: u8,
    minute: u8,
    second: u8,
    tenth: u8,
    sign: char,
    hours: u8,
    minutes: u8,
}

impl DateTime {
    /// Reads eleven bytes, the ninth of which is `+` or `-`. Whether there is such a moment is not
    /// looked at.
    pub(crate) fn read(bytes: &[u8]) -> Option<DateTime> {
        match bytes {
            [
                high,
                low,
                month,
                day,
                hour,
                minute,
                second,
                tenth,
                sign @ (b'+' | b'-'),
                hours,
                minutes,
            ] => Some(DateTime {
                year: u16::from_be_bytes([*high, *low]),
                month: *month,
                day: *day,
                hour: *hour,
                minute: *minute,
                second: *second,
                tenth: *tenth,
                sign: char::from(*sign),
                hours: *hours,
                minutes: *minutes,
            }),
            _ => None,
        }
    }
}

impl fmt::Display for DateTime {
    fn fmt<W: fmt::Write>(&self, f: &mut fmt::Formatter<W>) -> fmt::Result {
        let DateTime {
            year,
            month,
            day,
            hour,
            minute,
            second,
            tenth,
            sign,
            hours,
            minutes,
        } = self;
        write!(f, "{year:04}-{month:02}-{day:02} ")?;
        write!(f, "{hour:02}:{minute:02}:{second:02}.{tenth} ")?;
        write!(f, "{sign}{hours:02}:{minutes:02}")
    }
}

/// How many dots stand on a length, across the feed and along it.
#[derive(Clone, Copy)]
pub(crate) struct Resolution {
    across: i32,
    along: i32,
    units: u8,
}

impl Resolution {
    /// Reads nine bytes: two numbers, and the units.
    pub(crate) fn read(bytes: &[u8]) -> Option<Resolution> {
        let [a, b, c, d, e, f, g, h, units] = bytes else {
            return None;
        };
        Some(Resolution {
            across: i32::from_be_bytes([*a, *b, *c, *d]),
            along: i32::from_be_bytes([*e, *f, *g, *h]),
            units: *units,
        })
    }
}

/// Prints the units by their names in RFC 8011 section 5.1.16, and others by their number.
impl fmt::Display for Resolution {
    fn fmt<W: fmt::Write>(&self, f: &mut fmt::Formatter<W>) -> fmt::Result {
        let Resolution {
            across,
            along,
            units,
        } = self;
        write!(f, "{across}x{along}")?;
        match units {
            3 => f.write_str(" dots per inch"),
            4 => f.write_str(" dots per centimeter"),
            _ => write!(f, " dots of units {units}"),
        }
    }
}

/// The numbers from one to another.
#[derive(Clone, Copy)]
pub(crate) struct Range {
    lower: i32,
    upper: i32,
}

impl Range {
    /// Reads eight bytes: two numbers.
    pub(crate) fn read(bytes: &[u8]) -> Option<Range> {
        let [a, b, c, d, e, f, g, h] = bytes else {
            return None;
        };
        Some(Range {
            lower: i32::from_be_bytes([*a, *b, *c, *d]),
            upper: i32::from_be_bytes([*e, *f, *g, *h]),
        })
    }
}

impl fmt::Display for Range {
    fn fmt<W: fmt::Write>(&self, f: &mut fmt::Formatter<W>) -> fmt::Result {
        let Range { lower, upper } = self;
        write!(f, "{lower} to {upper}")
    }
}
