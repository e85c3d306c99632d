//! What a tag of an attribute group is called.

use std::fmt;

/// The tag that begins an attribute group.
#[derive(Clone, Copy, PartialEq, Eq)]
pub struct GroupTag(pub u8);

impl GroupTag {
    /// Whose attributes the group has, for the tags of RFC 8010 section 3.5.1.
    pub fn name(self) -> Option<&'static str> {
        match self.0 {
            0x01 => Some("operation"),
            0x02 => Some("job"),
            0x04 => Some("printer"),
            0x05 => Some("unsupported"),
            _ => None,
        }
    }
}

/// Whose attributes the group has, and `attributes`; of another tag the tag in hexadecimal.
impl fmt::Display for GroupTag {
    fn fmt<W: fmt::Write>(&self, f: &mut fmt::Formatter<W>) -> fmt::Result {
        let tag = self.0;
        match self.name() {
            Some(name) => write!(f, "{name} attributes"),
            None => write!(f, "attributes of tag {tag:02x}"),
        }
    }
}
