//! `read_grants`: reads a file of grants, which is CSV without a header.

ghost use Rattle.std.specs.Prelude.{◌≡◌, ◌+◌, ◌-◌, ◌^◌, ◌<◌, ◌≤◌, ℕ, List, All, IfOk, IfErr, IsErrOf, OnOk, length, true, false};
ghost use Rattle.csv.specs.Reading.{error_kind, is_flexible};
ghost use Rattle.input_fields.specs.Streams.{IsSpent, Yields};
ghost use Rattle.input_fields.specs.GrantFaults.{IsNoLength, read_faults};
ghost use Rattle.input_fields.specs.GrantFiles.{is_too_large, longest_file, most_records, records_of};
ghost use Rattle.input_fields.specs.GrantLines.{IsInRange, grant_lines};

use crate::grant_fault::GrantFault;
use crate::grant_line::{GrantLine, grant_line};
use crate::{Source, read_whole};
use csv::{ByteRecord, Error, ErrorKind, ReaderBuilder};
use std::alloc::Global;

/// The most records that a file may have.
const MOST_RECORDS: usize = 100_000;

/// The most bytes that an input may have, a file of grants or lines: 64 MiB.
pub const MOST_BYTES: usize = 67_108_864;

/// Reads all records of a file of grants, in order. No record is a header, and each may have any
/// number of fields. Where there are too many records or bytes it is `TooMany`, whatever they say.
///
/// The file is read whole first. Of one that is too long, no byte behind the first too many is
/// read.
pub fn read_grants<R: Source>(alloc: Global, reader: &mut R) -> Result<Vec<GrantLine>, GrantFault>
    requires { R.failures reader.old < 2 ^ 64 - 1 }
    ensures lines { IfOk result (λ lines. (bytes : List ℕ) × R.left reader.old bytes
        × (is_too_large bytes ≡ false) × (lines.items ≡ grant_lines (records_of bytes))) }
    ensures many { IsErrOf result GrantFault.TooMany
        → (bytes : List ℕ) × R.left reader.old bytes × (is_too_large bytes ≡ true) }
    ensures ranges { IfOk result (λ lines. All IsInRange lines.items) }
    ensures end { OnOk result (IsSpent (R.left reader.new)) }
    ensures takes { (bytes : List ℕ) × (length bytes ≤ longest_file + 1)
        × Yields (R.left reader.old) (R.left reader.new) bytes }
    ensures count { R.failures reader.new ≡ R.failures reader.old + read_faults result }
{
    let bytes = read_whole(alloc, reader, MOST_BYTES)?;
    lines_of(alloc, bytes.as_slice())
}

/// Reads all records of a file that is in memory.
fn lines_of(alloc: Global, text: &[u8]) -> Result<Vec<GrantLine>, GrantFault>
    ensures lines { IfOk result (λ lines. lines.items ≡ grant_lines (records_of text.now)) }
    ensures ranges { IfOk result (λ lines. All IsInRange lines.items) }
    ensures few { OnOk result (length (records_of text.now) ≤ most_records) }
    ensures many { IsErrOf result GrantFault.TooMany → most_records < length (records_of text.now) }
    ensures read { read_faults result ≡ 0 }
{
    let mut reader = ReaderBuilder::new()
        .has_headers(false)
        .flexible(true)
        .from_reader(alloc, text);
    let mut row = ByteRecord::new(alloc);
    let mut lines = Vec::new(alloc);
    loop {
        let found = match reader.read_byte_record(&mut row) {
            Ok(found) => found,
            Err(error) => return Err(fault_of(error)),
        };
        if !found {
            return Ok(lines);
        }
        if lines.len() == MOST_RECORDS {
            return Err(GrantFault::TooMany);
        }
        let number = lines.len() as u32 + 1;
        lines.push(grant_line(number, &row))?;
    }
}

/// The fault for an error of the CSV reader. Over bytes in memory, with records of any number of
/// fields, it has one error: memory ran out.
fn fault_of(error: Error) -> GrantFault
    requires { IsNoLength (error_kind error) }
    ensures { result ≡ GrantFault.Memory }
{
    match error.into_kind() {
        ErrorKind::OutOfMemory | ErrorKind::Io(_) => GrantFault::Memory,
        ErrorKind::UnequalLengths { .. }
        | ErrorKind::Utf8 { .. }
        | ErrorKind::Serialize(_)
        | ErrorKind::Deserialize { .. } => unreachable!(),
    }
}
