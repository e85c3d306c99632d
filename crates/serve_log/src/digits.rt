//! Writes numbers into a line of the log.
ghost use Rattle.std.specs.Prelude.{◌≡◌, ◌++◌, OnOk};
ghost use Rattle.std.specs.Fmt.{decimal};
ghost use Rattle.serve_log.specs.LogLines.{four_digits, two_digits};

use itoa::Buffer;
use std::alloc::AllocError;

/// Appends a number in decimal.
pub(crate) fn put_number(output: &mut Vec<u8>, number: u64) -> Result<(), AllocError>
    ensures { OnOk result (output.new.items ≡ output.old.items ++ decimal number) }
{
    let mut buffer = Buffer::new();
    output.extend_from_slice(buffer.format(number).as_bytes())
}

/// Appends the last four digits of a number, as for a year.
pub(crate) fn put_four_digits(output: &mut Vec<u8>, number: u32) -> Result<(), AllocError>
    ensures { OnOk result (output.new.items ≡ output.old.items ++ four_digits number) }
{
    put_two_digits(output, number / 100)?;
    put_two_digits(output, number)
}

/// Appends the last two digits of a number, as for a month.
pub(crate) fn put_two_digits(output: &mut Vec<u8>, number: u32) -> Result<(), AllocError>
    ensures { OnOk result (output.new.items ≡ output.old.items ++ two_digits number) }
{
    output.push(b'0' + (number / 10 % 10) as u8)?;
    output.push(b'0' + (number % 10) as u8)?;
    Ok(())
}
