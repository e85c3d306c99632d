//! What a run prints on standard output: texts, explained messages, and what its events came to.
ghost use Rattle.std.specs.Prelude.{◌≡◌, IfOk, OnOk, drop};
ghost use Rattle.std.specs.Io.KnownBytes.{Appends};
ghost use Rattle.std.specs.List.{flat_map};
ghost use Rattle.cli_commands.specs.Outcomes.{left_by, next_lines, outcome_lines, record_text, records_text};

use input_fields::GrantLine;
use input_lines::print_answer;
use room_serve::Outcome;
use std::alloc::Global;
use std::io;
use std::io::Write;

/// Prints a text as it is.
pub fn print_text<W: Write>(output: &mut W, text: &str) -> io::Result<()>
    ensures { OnOk result (Appends (W.contents output.old) (W.contents output.new) text.now) }
{
    output.write_all(text.as_bytes())?;
    output.flush()
}

/// Prints the lines of a text. A line with a message of IPP gets the message's parts, as people read
/// them, in the place of its digits. It has no clause: what it prints is only tested.
pub fn print_explained<W: Write>(alloc: Global, output: &mut W, text: &[u8]) -> io::Result<()> {
    ipp_notation::explain(alloc, text, output)?;
    output.flush()
}

/// Prints what each event came to.
pub fn print_outcomes<W: Write>(output: &mut W, outcomes: &[Outcome]) -> io::Result<()>
    ensures { OnOk result (Appends (W.contents output.old) (W.contents output.new)
        (flat_map outcome_lines outcomes.now)) }
{
    for outcome in outcomes {
        print_answer(output, outcome.reply())?;
    }
    output.flush()
}

/// Prints for each record its number from 1, and `bad` or what its grant came to. The outcomes are
/// those of the good records, in order.
pub fn print_grants<W: Write>(
    output: &mut W,
    records: &[GrantLine],
    outcomes: &[Outcome],
) -> io::Result<()>
    ensures { OnOk result (Appends (W.contents output.old) (W.contents output.new)
        (records_text 1 records.now outcomes.now)) }
{
    let mut left = outcomes;
    for (index, record) in records.iter().enumerate() {
        left = print_record(output, index + 1, record, left)?;
    }
    output.flush()
}

/// Prints one record: its number, and `bad` or the first of the outcomes. Answers the outcomes that
/// are left for the records behind it.
fn print_record<'a, W: Write>(
    output: &mut W,
    number: usize,
    said: &GrantLine,
    outcomes: &'a [Outcome],
) -> io::Result<&'a [Outcome]>
    ensures text { OnOk result (Appends (W.contents output.old) (W.contents output.new)
        (record_text number said.now outcomes.now)) }
    ensures left { IfOk result (λ left. left.now ≡ left_by said.now outcomes.now) }
{
    match said {
        GrantLine::Good { .. } => {
            write!(output, "{number} ")?;
            print_next(output, outcomes)
        }
        GrantLine::Bad(_) => {
            writeln!(output, "{number} bad")?;
            Ok(outcomes)
        }
    }
}

/// Prints the first of the outcomes, and answers those behind it.
fn print_next<'a, W: Write>(output: &mut W, outcomes: &'a [Outcome]) -> io::Result<&'a [Outcome]>
    ensures text { OnOk result (Appends (W.contents output.old) (W.contents output.new)
        (next_lines outcomes.now)) }
    ensures left { IfOk result (λ left. left.now ≡ drop 1 outcomes.now) }
{
    match outcomes {
        [] => {
            print_answer(output, None)?;
            Ok(outcomes)
        }
        [outcome, rest @ ..] => {
            print_answer(output, outcome.reply())?;
            Ok(rest)
        }
    }
}
