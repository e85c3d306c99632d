//! Writes answers of one line: a quota, a statement, whether rows are sound.

ghost use Rattle.std.specs.Prelude.{◌≡◌, ◌≤◌, IfOk, string_bytes};
ghost use Rattle.account_questions.specs.Questions.{check_text};
ghost use Rattle.account_questions.specs.Quotas.{month_text, quota_text, statement_text};
ghost use Rattle.account_rules.specs.Limits.{most_units};

use account_rules::left;
use account_state::Summary;
use ipp_coding::List;
use std::alloc::{AllocError, Global};

/// Writes the line that tells a quota, without its end: what was granted, what jobs reserve, what
/// they were charged, and what that leaves, all in units.
pub fn quota_line(
    alloc: Global,
    granted: u64,
    reserved: u64,
    charged: u64,
) -> Result<List<u8>, AllocError>
    requires granted { granted ≤ most_units }
    requires reserved { reserved ≤ most_units }
    requires charged { charged ≤ most_units }
    ensures text { IfOk result (λ line. line ≡ quota_text granted reserved charged) }
{
    let text = quota_text(alloc, granted, reserved, charged)?;
    Ok(List {
        items: text.into_bytes(),
    })
}

/// Writes the text of that line: the sums, and what they leave.
fn quota_text(
    alloc: Global,
    granted: u64,
    reserved: u64,
    charged: u64,
) -> Result<String, AllocError>
    requires granted { granted ≤ most_units }
    requires reserved { reserved ≤ most_units }
    requires charged { charged ≤ most_units }
    ensures text { IfOk result (λ text. string_bytes text ≡ quota_text granted reserved charged) }
{
    let left = left(granted as i64, reserved as i64, charged as i64);
    format!(in alloc; "ok granted {granted} reserved {reserved} charged {charged} left {left}")
}

/// Writes the line of a statement, without its end: the quota with what was granted up to the
/// month, and what the summary tells of the month and of now.
pub fn statement_line(alloc: Global, granted: u64, summary: Summary) -> Result<List<u8>, AllocError>
    requires granted { granted ≤ most_units }
    requires reserved { summary.reserved ≤ most_units }
    requires charged { summary.charged ≤ most_units }
    ensures text { IfOk result (λ line. line ≡ statement_text granted summary) }
{
    let quota = quota_text(alloc, granted, summary.reserved, summary.charged)?;
    let month = month_text(alloc, summary)?;
    let text = format!(in alloc; "{quota} {month}")?;
    Ok(List {
        items: text.into_bytes(),
    })
}

/// Writes what follows the quota in a statement: what was charged in the month, how many jobs stand
/// in which state, how many ended, and the units beyond their reservations.
fn month_text(alloc: Global, summary: Summary) -> Result<String, AllocError>
    ensures { IfOk result (λ text. string_bytes text ≡ month_text summary) }
{
    let Summary {
        reserved: _,
        charged: _,
        charged_then,
        beyond_then,
        held,
        pending,
        processing,
        ended_then,
    } = summary;
    format!(in alloc;
        "month {charged_then} held {held} pending {pending} processing {processing} ended {ended_then} beyond {beyond_then}"
    )
}

/// Writes `sound` or `damaged`, which tells of an account's rows, without the end of the line.
pub fn check_line(alloc: Global, are_sound: bool) -> Result<List<u8>, AllocError>
    ensures text { IfOk result (λ line. line ≡ check_text are_sound) }
{
    let text = if are_sound { "sound" } else { "damaged" };
    Ok(List {
        items: String::from_str(alloc, text)?.into_bytes(),
    })
}
