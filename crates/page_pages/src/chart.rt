//! The chart of the print room's page: units of each day of a month, as bars and as a table.

ghost use Rattle.std.specs.Prelude.{◌≡◌, ◌++◌, OnOk, flat_map};
ghost use Rattle.page_pages.specs.Charts.{bar_of_day, chart_middle, chart_start, row_of_day, bar_item, chart, day_item, highest};
ghost use Rattle.page_markup.specs.Parts.{html};

use crate::balance::permille;
use crate::markup::END_OF_CHART;
use crate::texts::{AS_TABLE, CHART, DAY, HIGHEST, UNITS_IN_MONTH, UNITS_OF_DAY};
use page_markup::{Piece, put_all};
use std::alloc::AllocError;

/// What all accounts were charged on a day.
#[derive(Clone, Copy)]
pub struct DayLine {
    /// The place of the day in its month, from 1.
    pub day: u32,
    pub units: u64,
}

/// Appends the card of a month: a bar and a row for each of its days.
#[tactic(auto, using(std::proofs::Common::append_assoc), unfolding(crate::specs::Charts::chart))]
pub(crate) fn put_chart(out: &mut Vec<u8>, month: u32, days: &[DayLine]) -> Result<(), AllocError>
    ensures { OnOk result (out.new.items ≡ out.old.items ++ chart month days.now) }
{
    let highest = highest(days);
    let last = days.len() as u64;
    put_chart_start(out, month, highest, last)?;
    put_bars(out, highest, days)?;
    put_chart_middle(out, last)?;
    put_days(out, days)?;
    out.extend_from_slice(END_OF_CHART.as_bytes())
}

/// Gives the most units of any day, by which the bars are scaled.
fn highest(days: &[DayLine]) -> u64
    ensures { result ≡ highest days.now }
{
    let mut most = 0;
    for day in days {
        most = most.max(day.units);
    }
    most
}

/// Appends a bar for each day.
fn put_bars(out: &mut Vec<u8>, highest: u64, days: &[DayLine]) -> Result<(), AllocError>
    ensures { OnOk result
        (out.new.items ≡ out.old.items ++ flat_map (bar_item highest) days.now) }
{
    for day in days {
        put_bar_item(out, highest, day)?;
    }
    Ok(())
}

/// Appends the bar of a day, as high in thousandths as its units are of the highest.
fn put_bar_item(out: &mut Vec<u8>, highest: u64, day: &DayLine) -> Result<(), AllocError>
    ensures { OnOk result (out.new.items ≡ out.old.items ++ bar_item highest day.now) }
{
    let height = permille(day.units, highest);
    put_bar_of_day(
        out,
        day.day.saturating_sub(1) as u64,
        1000u64.saturating_sub(height),
        height,
    )
}

/// Appends a row for each day.
fn put_days(out: &mut Vec<u8>, days: &[DayLine]) -> Result<(), AllocError>
    ensures { OnOk result (out.new.items ≡ out.old.items ++ flat_map day_item days.now) }
{
    for day in days {
        put_row_of_day(out, day.day, day.units)?;
    }
    Ok(())
}

/// Appends the start of the card, and of the drawing. `last` is how many days it is wide.
fn put_chart_start(out: &mut Vec<u8>, month: u32, highest: u64, last: u64) -> Result<(), AllocError>
    ensures { OnOk result (out.new.items ≡ out.old.items ++ html (chart_start month highest last)) }
{
    put_all(
        out,
        &[
            Piece::Mark("<section class=\"card\" aria-labelledby=\"month\">\n<header><h2 "),
            Piece::Mark("id=\"month\">"),
            Piece::Mark(UNITS_IN_MONTH),
            Piece::Month(month),
            Piece::Mark("</h2><span class=\"quiet\">"),
            Piece::Mark(HIGHEST),
            Piece::Mark(": "),
            Piece::Number(highest),
            Piece::Mark("</span></header>\n<figure class=\"chart\">\n<svg viewBox=\"0 0 "),
            Piece::Number(last),
            Piece::Mark(" 1000\" preserveAspectRatio=\"none\" role=\"img\" aria-label=\""),
            Piece::Mark(CHART),
            Piece::Mark("\">\n"),
        ],
    )
}

/// Appends a bar. It stands `left` days from the left, and `top_of` and `height` are in thousandths
/// of the drawing.
fn put_bar_of_day(out: &mut Vec<u8>, left: u64, top_of: u64, height: u64) -> Result<(), AllocError>
    ensures { OnOk result (out.new.items ≡ out.old.items ++ html (bar_of_day left top_of height)) }
{
    put_all(
        out,
        &[
            Piece::Mark("<rect class=\"charged\" x=\""),
            Piece::Number(left),
            Piece::Mark(".15\" y=\""),
            Piece::Number(top_of),
            Piece::Mark("\" width=\".7\" height=\""),
            Piece::Number(height),
            Piece::Mark("\"/>\n"),
        ],
    )
}

/// Appends the end of the drawing, the days below it, and the start of the table.
fn put_chart_middle(out: &mut Vec<u8>, last: u64) -> Result<(), AllocError>
    ensures { OnOk result (out.new.items ≡ out.old.items ++ html (chart_middle last)) }
{
    put_all(
        out,
        &[
            Piece::Mark("</svg>\n<figcaption class=\"quiet\" aria-hidden=\"true\"><span>1</span>"),
            Piece::Mark("<span>"),
            Piece::Number(last),
            Piece::Mark("</span></figcaption>\n</figure>\n<details>\n<summary>"),
            Piece::Mark(AS_TABLE),
            Piece::Mark("</summary>\n<div class=\"days\"><table class=\"dense\">\n<thead><tr>"),
            Piece::Mark("<th scope=\"col\">"),
            Piece::Mark(DAY),
            Piece::Mark("</th><th scope=\"col\" class=\"count\">"),
            Piece::Mark(UNITS_OF_DAY),
            Piece::Mark("</th></tr></thead>\n<tbody>\n"),
        ],
    )
}

/// Appends the row of a day and its units.
fn put_row_of_day(out: &mut Vec<u8>, day: u32, units: u64) -> Result<(), AllocError>
    ensures { OnOk result (out.new.items ≡ out.old.items ++ html (row_of_day day units)) }
{
    put_all(
        out,
        &[
            Piece::Mark("<tr><th scope=\"row\">"),
            Piece::Number(day as u64),
            Piece::Mark("</th><td class=\"count\">"),
            Piece::Number(units),
            Piece::Mark("</td></tr>\n"),
        ],
    )
}
