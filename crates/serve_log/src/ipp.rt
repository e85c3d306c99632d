//! Writes what a line of the log tells in words of IPP: the operation, the job, and the status.
ghost use Rattle.std.specs.Prelude.{◌≡◌, ◌<◌, ◌≤◌, ◌++◌, OnOk, length};
ghost use Rattle.serve_log.specs.IppWords.{code_of, code_text, hex_digit, job_field, operation_field, operation_text, success_word};

use crate::digits::put_number;
use std::alloc::AllocError;

/// Appends the operation that a request asks for: its name, or its operation-id as `0x000a` where
/// this server has no such operation, or `-` where the request ends before it.
pub(crate) fn put_operation(output: &mut Vec<u8>, body: &[u8]) -> Result<(), AllocError>
    ensures { OnOk result (output.new.items ≡ output.old.items ++ operation_field body.now) }
{
    if body.len() < 4 {
        return output.extend_from_slice(b"-");
    }
    put_operation_text(output, code_of(body))
}

/// Appends the name of an operation-id, or the id as `0x000a`.
fn put_operation_text(output: &mut Vec<u8>, code: u16) -> Result<(), AllocError>
    ensures { OnOk result (output.new.items ≡ output.old.items ++ operation_text code) }
{
    match code {
        0x0002 => output.extend_from_slice(b"Print-Job"),
        0x0004 => output.extend_from_slice(b"Validate-Job"),
        0x0005 => output.extend_from_slice(b"Create-Job"),
        0x0006 => output.extend_from_slice(b"Send-Document"),
        0x0008 => output.extend_from_slice(b"Cancel-Job"),
        0x0009 => output.extend_from_slice(b"Get-Job-Attributes"),
        0x000a => output.extend_from_slice(b"Get-Jobs"),
        0x000b => output.extend_from_slice(b"Get-Printer-Attributes"),
        0x000c => output.extend_from_slice(b"Hold-Job"),
        0x000d => output.extend_from_slice(b"Release-Job"),
        _ => put_code(output, code),
    }
}

/// Appends the number of a job, or `-` where there is none.
pub(crate) fn put_job(output: &mut Vec<u8>, job: Option<u32>) -> Result<(), AllocError>
    ensures { OnOk result (output.new.items ≡ output.old.items ++ job_field job) }
{
    match job {
        Some(job) => put_number(output, u64::from(job)),
        None => output.extend_from_slice(b"-"),
    }
}

/// Reads the operation-id of a request: its third and fourth byte.
fn code_of(body: &[u8]) -> u16
    requires { 4 ≤ length body.now }
    ensures { result ≡ code_of body.now }
{
    u16::from(body[2]) * 256 + u16::from(body[3])
}

/// Appends a code of two bytes as `0x000a`.
pub(crate) fn put_code(output: &mut Vec<u8>, code: u16) -> Result<(), AllocError>
    ensures { OnOk result (output.new.items ≡ output.old.items ++ code_text code) }
{
    output.extend_from_slice(b"0x")?;
    output.push(hex_digit((code / 4096 % 16) as u8))?;
    output.push(hex_digit((code / 256 % 16) as u8))?;
    output.push(hex_digit((code / 16 % 16) as u8))?;
    output.push(hex_digit((code % 16) as u8))?;
    Ok(())
}

/// Gives the hexadecimal digit of a number below 16, in small letters.
fn hex_digit(digit: u8) -> u8
    requires { digit < 16 }
    ensures { result ≡ hex_digit digit }
{
    if digit < 10 { 48 + digit } else { 87 + digit }
}

/// Gives the keyword of a status-code of success, which the line of a request shows.
pub(crate) fn success_word(code: u16) -> &'static [u8]
    ensures { result.now ≡ success_word code }
{
    match code {
        0 => b"successful-ok",
        1 => b"successful-ok-ignored-or-substituted-attributes",
        2 => b"successful-ok-conflicting-attributes",
        _ => b"successful",
    }
}
