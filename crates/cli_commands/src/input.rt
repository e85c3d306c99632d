//! How a command reads all of standard input: as lines, as a text, or as records of grants.
ghost use Rattle.std.specs.Prelude.{◌≡◌, ◌≤◌, ◌<◌, ℕ, List, false, true, IfOk, IsErrOf, All, length};
ghost use Rattle.cli_commands.specs.Runs.{AreGiven, AreRecords};
ghost use Rattle.input_fields.specs.GrantFiles.{is_too_large};
ghost use Rattle.input_fields.specs.GrantLines.{IsInRange};
ghost use Rattle.input_fields.specs.Streams.{MayBeLeft};

use crate::fault::line_fault;
use cli_words::Fault;
use input_fields::{Counted, GrantLine, MOST_BYTES, read_grants, read_whole};
use input_lines::{Grammar, Line};
use std::alloc::Global;
use std::io::Read;

/// Reads all lines of the input. The first that is none of the grammar is the fault.
pub fn read_lines<R: Read + Drop>(
    alloc: Global,
    input: R,
    grammar: Grammar,
) -> Result<Vec<Line>, Fault>
    ensures said { IfOk result
        (λ lines. AreGiven (MayBeLeft (R.remaining input) false) grammar lines.items) }
{
    let text = read_text(alloc, input)?;
    grammar
        .read(alloc, text.as_slice())
        .map_err(|fault| line_fault(fault))
}

/// Reads all of the input, at most `MOST_BYTES`, whatever lines it has.
pub fn read_text<R: Read + Drop>(alloc: Global, input: R) -> Result<Vec<u8>, Fault>
    ensures all { IfOk result (λ text. MayBeLeft (R.remaining input) false text.items) }
    ensures short { IfOk result (λ text. length text.items ≤ MOST_BYTES) }
    ensures long { IsErrOf result Fault.Input → (text : List ℕ)
        × MayBeLeft (R.remaining input) false text × (MOST_BYTES < length text) }
{
    Ok(read_whole(alloc, &mut Counted::new(input), MOST_BYTES)?)
}

/// Reads the records of a file of grants, good and bad.
pub fn read_records<R: Read + Drop>(alloc: Global, input: R) -> Result<Vec<GrantLine>, Fault>
    ensures said { IfOk result
        (λ records. AreRecords (MayBeLeft (R.remaining input) false) records.items) }
    ensures ranges { IfOk result (λ lines. All IsInRange lines.items) }
    ensures many { IsErrOf result Fault.Input → (file : List ℕ)
        × MayBeLeft (R.remaining input) false file × (is_too_large file ≡ true) }
{
    Ok(read_grants(alloc, &mut Counted::new(input))?)
}
