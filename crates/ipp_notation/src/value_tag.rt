//! What a tag of a value is called, and the tags that the notation looks at.

use std::fmt;

pub(crate) const INTEGER: u8 = 0x21;

pub(crate) const BOOLEAN: u8 = 0x22;

pub(crate) const ENUM: u8 = 0x23;

pub(crate) const DATE_TIME: u8 = 0x31;

pub(crate) const RESOLUTION: u8 = 0x32;

pub(crate) const RANGE_OF_INTEGER: u8 = 0x33;

pub(crate) const BEG_COLLECTION: u8 = 0x34;

pub(crate) const TEXT_WITH_LANGUAGE: u8 = 0x35;

pub(crate) const NAME_WITH_LANGUAGE: u8 = 0x36;

pub(crate) const END_COLLECTION: u8 = 0x37;

/// The tag of a value, which tells its syntax.
#[derive(Clone, Copy, PartialEq, Eq)]
pub struct ValueTag(pub u8);

impl ValueTag {
    /// The name of the tag, for those of RFC 8010 section 3.5.2.
    pub fn name(self) -> Option<&'static str> {
        match self.0 {
            0x10 => Some("unsupported"),
            0x12 => Some("unknown"),
            0x13 => Some("no-value"),
            0x21 => Some("integer"),
            0x22 => Some("boolean"),
            0x23 => Some("enum"),
            0x30 => Some("octetString"),
            0x31 => Some("dateTime"),
            0x32 => Some("resolution"),
            0x33 => Some("rangeOfInteger"),
            0x34 => Some("begCollection"),
            0x35 => Some("textWithLanguage"),
            0x36 => Some("nameWithLanguage"),
            0x37 => Some("endCollection"),
            0x41 => Some("textWithoutLanguage"),
            0x42 => Some("nameWithoutLanguage"),
            0x44 => Some("keyword"),
            0x45 => Some("uri"),
            0x46 => Some("uriScheme"),
            0x47 => Some("charset"),
            0x48 => Some("naturalLanguage"),
            0x49 => Some("mimeMediaType"),
            0x4a => Some("memberAttrName"),
            _ => None,
        }
    }
}

/// The name, or `tag` and the tag in hexadecimal.
impl fmt::Display for ValueTag {
    fn fmt<W: fmt::Write>(&self, f: &mut fmt::Formatter<W>) -> fmt::Result {
        let tag = self.0;
        match self.name() {
            Some(name) => f.write_str(name),
            None => write!(f, "tag {tag:02x}"),
        }
    }
}
