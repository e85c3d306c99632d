//! Bytes printed as hexadecimal digits, two for each.

use std::fmt;

/// Prints each byte as two digits.
#[derive(Clone, Copy)]
pub(crate) struct Digits<'a>(pub &'a [u8]);

impl fmt::Display for Digits<'_> {
    fn fmt<W: fmt::Write>(&self, f: &mut fmt::Formatter<W>) -> fmt::Result {
        for byte in self.0 {
            write!(f, "{byte:02x}")?;
        }
        Ok(())
    }
}
