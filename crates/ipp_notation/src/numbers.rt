//! The names of the numbers of enums, by their attribute.

use crate::operation::Operation;

/// The name of a number of the attribute, where the attribute says what its numbers are: job-state
/// (RFC 8011 section 5.3.7), orientation-requested (section 5.2.10), print-quality (section
/// 5.2.13), printer-state (section 5.4.11) and operations-supported (section 5.4.15).
pub(crate) fn number_name(attribute: &[u8], number: i32) -> Option<&'static str> {
    match attribute {
        b"job-state" => job_state(number),
        b"orientation-requested" => orientation(number),
        b"print-quality" => quality(number),
        b"printer-state" => printer_state(number),
        b"operations-supported" => Operation(u16::try_from(number).ok()?).name(),
        _ => None,
    }
}

fn job_state(number: i32) -> Option<&'static str> {
    match number {
        3 => Some("pending"),
        4 => Some("pending-held"),
        5 => Some("processing"),
        6 => Some("processing-stopped"),
        7 => Some("canceled"),
        8 => Some("aborted"),
        9 => Some("completed"),
        _ => None,
    }
}

fn orientation(number: i32) -> Option<&'static str> {
    match number {
        3 => Some("portrait"),
        4 => Some("landscape"),
        5 => Some("reverse-landscape"),
        6 => Some("reverse-portrait"),
        _ => None,
    }
}

fn quality(number: i32) -> Option<&'static str> {
    match number {
        3 => Some("draft"),
        4 => Some("normal"),
        5 => Some("high"),
        _ => None,
    }
}

fn printer_state(number: i32) -> Option<&'static str> {
    match number {
        3 => Some("idle"),
        4 => Some("processing"),
        5 => Some("stopped"),
        _ => None,
    }
}
