//! What an operation-id is called.

use std::fmt;

/// The operation-id of a request.
#[derive(Clone, Copy, PartialEq, Eq)]
pub struct Operation(pub u16);

impl Operation {
    /// The name of the operation, for those of RFC 8011 section 5.4.15.
    pub fn name(self) -> Option<&'static str> {
        match self.0 {
            0x0002 => Some("Print-Job"),
            0x0003 => Some("Print-URI"),
            0x0004 => Some("Validate-Job"),
            0x0005 => Some("Create-Job"),
            0x0006 => Some("Send-Document"),
            0x0007 => Some("Send-URI"),
            0x0008 => Some("Cancel-Job"),
            0x0009 => Some("Get-Job-Attributes"),
            0x000a => Some("Get-Jobs"),
            0x000b => Some("Get-Printer-Attributes"),
            0x000c => Some("Hold-Job"),
            0x000d => Some("Release-Job"),
            0x000e => Some("Restart-Job"),
            0x0010 => Some("Pause-Printer"),
            0x0011 => Some("Resume-Printer"),
            0x0012 => Some("Purge-Jobs"),
            _ => None,
        }
    }
}

/// The name, or `operation` and the number in four hexadecimal digits.
impl fmt::Display for Operation {
    fn fmt<W: fmt::Write>(&self, f: &mut fmt::Formatter<W>) -> fmt::Result {
        let id = self.0;
        match self.name() {
            Some(name) => f.write_str(name),
            None => write!(f, "operation {id:04x}"),
        }
    }
}
