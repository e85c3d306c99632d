//! Conversions between the values of the program and those of columns. A function named after a
//! value makes the parameter of a statement; `.._at` reads the column at a place, counted from 0 in
//! the row of a query.

ghost use Rattle.std.specs.Prelude.{Bool, ◌≡◌, ◌≢◌, ℕ, ◌<◌, ◌^◌, pos, List, Option, Err, IfOk, IfErr, IfSome, IsTrue};
ghost use Rattle.sqlite_value.specs.Value.{owned};
ghost use Rattle.sqlite_value.specs.declared.value.Value.TheVariants.{Blob, Int, Text};
ghost use Rattle.account_rules.specs.JobStates.{state_number};
ghost use Rattle.account_rules.specs.Formats.{media_type};
ghost use Rattle.rows_tables.specs.Cells.{device_name, device_text, flag, moment, moment_number, number};
ghost use Rattle.sqlite_value.specs.Order.{column};
ghost use Rattle.account_rules.specs.Limits.{IsMoment};
ghost use Rattle.account_rules.specs.declared.format.Format.{Format as FormatValue};
ghost use Rattle.account_rules.specs.declared.job.JobState.{JobState as JobStateValue};
ghost use Rattle.account_rules.specs.Names.{IsNameOrNone, is_name};

use crate::fault::TableFault;
use account_rules::{Format, JobState, Name};
use ipp_coding::List as Bytes;
use sqlite::Row;
use sqlite_value::value::ValueRef;

/// A number as a parameter of a statement.
pub fn number<'a>(n: u64) -> ValueRef<'a>
    requires { n < 2 ^ 63 }
    ensures { owned result ≡ Int (pos n) }
{
    ValueRef::Int(n as i64)
}

/// Reads a number from a column. `Damaged` where the column has anything else.
pub fn number_at(row: &Row, at: usize) -> Result<u64, TableFault>
    ensures read { IfOk result (λ n. column row.now at ≡ Int (pos n)) }
    ensures damaged { result ≡ Err TableFault.Damaged → (n : ℕ) → column row.now at ≢ Int (pos n) }
{
    match row.get(at) {
        Ok(n) => Ok(n),
        Err(error) => Err(TableFault::of_value(error)),
    }
}

/// A format as a parameter of a statement: its media type.
pub fn format_text(format: Format) -> ValueRef<'static>
    ensures { owned result ≡ Text (media_type format) }
{
    ValueRef::Text(format.media_type().as_bytes())
}

/// Reads a format from a column that has its media type. `Damaged` where the column has anything
/// else.
pub fn format_at(row: &Row, at: usize) -> Result<Format, TableFault>
    ensures read { IfOk result (λ format. column row.now at ≡ Text (media_type format)) }
    ensures damaged { result ≡ Err TableFault.Damaged
        → (format : FormatValue) → column row.now at ≢ Text (media_type format) }
{
    match row.get_ref(at) {
        Ok(ValueRef::Text(bytes)) => format_of(bytes),
        _ => Err(TableFault::Damaged),
    }
}

/// The format of a media type. `Damaged` where it is none that jobs can have.
fn format_of(bytes: &[u8]) -> Result<Format, TableFault>
    ensures read { IfOk result (λ format. bytes.now ≡ media_type format) }
    ensures damaged { IfErr result
        (λ fault. (format : FormatValue) → bytes.now ≢ media_type format) }
{
    Format::of_media_type(bytes).ok_or(TableFault::Damaged)
}

/// A flag as a parameter of a statement: 1 for true, 0 for false.
pub fn flag<'a>(on: bool) -> ValueRef<'a>
    ensures { owned result ≡ flag on }
{
    ValueRef::Int(if on { 1 } else { 0 })
}

/// Reads a flag from a column. `Damaged` where the column has anything but 0 and 1.
pub fn flag_at(row: &Row, at: usize) -> Result<bool, TableFault>
    ensures read { IfOk result (λ on. column row.now at ≡ flag on) }
    ensures damaged { result ≡ Err TableFault.Damaged → (on : Bool) → column row.now at ≢ flag on }
{
    match number_at(row, at)? {
        0 => Ok(false),
        1 => Ok(true),
        _ => Err(TableFault::Damaged),
    }
}

/// A job's state as a parameter of a statement: its number in RFC 8011.
pub fn number_of_state<'a>(state: JobState) -> ValueRef<'a>
    ensures { owned result ≡ number (state_number state) }
{
    ValueRef::Int(state.number() as i64)
}

/// A moment in seconds as a parameter of a statement, or -1 for none.
pub fn moment<'a>(at: Option<u64>) -> ValueRef<'a>
    requires { IfSome at IsMoment }
    ensures { owned result ≡ moment at }
{
    match at {
        None => ValueRef::Int(-1),
        Some(at) => ValueRef::Int(at as i64),
    }
}

/// The name of a device as a parameter of a statement, or the empty text for none.
pub fn device_text(device: &Option<Name>) -> ValueRef<'_>
    ensures { owned result ≡ device_text device.now }
{
    match device {
        None => ValueRef::Text(&[]),
        Some(name) => ValueRef::Text(name.bytes()),
    }
}

/// Reads a number below 2^32 from a column. `Damaged` where the column has anything else.
pub fn short_at(row: &Row, at: usize) -> Result<u32, TableFault>
    ensures read { IfOk result (λ n. column row.now at ≡ number n) }
    ensures damaged { result ≡ Err TableFault.Damaged → (n : ℕ) → n < 2 ^ 32
        → column row.now at ≢ number n }
{
    let n = number_at(row, at)?;
    if n > u32::MAX as u64 {
        return Err(TableFault::Damaged);
    }
    Ok(n as u32)
}

/// Reads a job's state from a column that has its number. `Damaged` where the column has anything
/// else.
pub fn state_at(row: &Row, at: usize) -> Result<JobState, TableFault>
    ensures read { IfOk result (λ found. column row.now at ≡ number (state_number found)) }
    ensures damaged { result ≡ Err TableFault.Damaged
        → (found : JobStateValue) → column row.now at ≢ number (state_number found) }
{
    JobState::of_number(number_at(row, at)?).ok_or(TableFault::Damaged)
}

/// Reads a moment in seconds from a column; -1 is `None`. `Damaged` where the column has anything
/// else.
pub fn moment_at(row: &Row, at: usize) -> Result<Option<u64>, TableFault>
    ensures read { IfOk result (λ found. column row.now at ≡ moment found) }
    ensures damaged { result ≡ Err TableFault.Damaged
        → (found : Option ℕ) → column row.now at ≢ moment found }
{
    match row.get_ref(at) {
        Ok(ValueRef::Int(n)) => moment_of(n),
        _ => Err(TableFault::Damaged),
    }
}

/// The moment that a column's integer stands for: -1 is `None`. `Damaged` where it is below -1.
fn moment_of(n: i64) -> Result<Option<u64>, TableFault>
    ensures read { IfOk result (λ found. n ≡ moment_number found) }
    ensures damaged { IfErr result (λ fault. (found : Option ℕ) → n ≢ moment_number found) }
{
    if n < -1 {
        return Err(TableFault::Damaged);
    }
    if n < 0 { Ok(None) } else { Ok(Some(n as u64)) }
}

/// Reads the name of a device from a column; the empty text is `None`. `Damaged` where the column
/// has anything else.
pub fn device_at(row: &Row, at: usize) -> Result<Option<Name>, TableFault>
    ensures read { IfOk result (λ found. column row.now at ≡ device_text found) }
    ensures named { IfOk result IsNameOrNone }
    ensures damaged { result ≡ Err TableFault.Damaged
        → (found : Option (List ℕ)) → IsNameOrNone found → column row.now at ≢ device_text found }
{
    match row.get_ref(at) {
        Ok(ValueRef::Text(bytes)) => device_of(bytes),
        _ => Err(TableFault::Damaged),
    }
}

/// The device that a column's text names; the empty text is `None`. `Damaged` where it is no name.
fn device_of(bytes: &[u8]) -> Result<Option<Name>, TableFault>
    ensures read { IfOk result (λ found. bytes.now ≡ device_name found) }
    ensures named { IfOk result IsNameOrNone }
    ensures damaged { IfErr result
        (λ fault. (found : Option (List ℕ)) → IsNameOrNone found → bytes.now ≢ device_name found) }
{
    if bytes.is_empty() {
        return Ok(None);
    }
    match Name::read(bytes) {
        Some(name) => Ok(Some(name)),
        None => Err(TableFault::Damaged),
    }
}

/// Reads a name from a column. `Damaged` where the column has anything else.
pub fn name_at(row: &Row, at: usize) -> Result<Name, TableFault>
    ensures read { IfOk result (λ name. column row.now at ≡ Text name) }
    ensures damaged { result ≡ Err TableFault.Damaged
        → (name : List ℕ) → IsTrue (is_name name) → column row.now at ≢ Text name }
{
    match row.get_ref(at) {
        Ok(ValueRef::Text(bytes)) => name_of(bytes),
        _ => Err(TableFault::Damaged),
    }
}

/// The name that a column's text is. `Damaged` where it is no name.
fn name_of(bytes: &[u8]) -> Result<Name, TableFault>
    ensures read { IfOk result (λ name. bytes.now ≡ name) }
    ensures damaged { IfErr result
        (λ fault. (name : List ℕ) → IsTrue (is_name name) → bytes.now ≢ name) }
{
    Name::read(bytes).ok_or(TableFault::Damaged)
}

/// Copies the blob from a column. `Damaged` where the column has anything else.
pub fn bytes_at(row: &Row, at: usize) -> Result<Bytes<u8>, TableFault>
    ensures read { IfOk result (λ bytes. column row.now at ≡ Blob bytes) }
    ensures damaged { result ≡ Err TableFault.Damaged
        → (bytes : List ℕ) → column row.now at ≢ Blob bytes }
{
    match row.get(at) {
        Ok(items) => Ok(Bytes { items }),
        Err(error) => Err(TableFault::of_value(error)),
    }
}
