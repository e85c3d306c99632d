//! Document formats, and how each is found by its media type.

ghost use Rattle.std.specs.Prelude.{◌≡◌, ◌≢◌, IfSome, None, bytes_eq, find, option_copied};
ghost use Rattle.account_rules.specs.Formats.{format_named, formats, names_format, media_type};
ghost use Rattle.account_rules.specs.declared.format.Format.{Format as FormatValue};

/// A document format (RFC 8011 section 5.4.22).
#[derive(Clone, Copy, PartialEq, Eq)]
pub enum Format {
    OctetStream,
    Pdf,
    PostScript,
    Jpeg,
    PwgRaster,
    Urf,
    Plain,
}

/// All formats, in which the functions below look.
const FORMATS: [Format; 7] = [
    Format::OctetStream,
    Format::Pdf,
    Format::PostScript,
    Format::Jpeg,
    Format::PwgRaster,
    Format::Urf,
    Format::Plain,
];

impl Format {
    /// Its media type, in small letters.
    pub fn media_type(self) -> &'static str
        ensures { result.now ≡ media_type self }
    {
        match self {
            Format::OctetStream => "application/octet-stream",
            Format::Pdf => "application/pdf",
            Format::PostScript => "application/postscript",
            Format::Jpeg => "image/jpeg",
            Format::PwgRaster => "image/pwg-raster",
            Format::Urf => "image/urf",
            Format::Plain => "text/plain",
        }
    }

    /// Finds the format by the media type that a request names, letters without case.
    pub fn named(text: &[u8]) -> Option<Format>
        ensures { result ≡ format_named text.now }
    {
        first_named(text).copied()
    }

    /// Finds the format by exactly the bytes that `media_type` gives. It is for the column where
    /// the store keeps them: any other spelling there is damage.
    pub fn of_media_type(text: &[u8]) -> Option<Format>
        ensures some { IfSome result (λ format. text.now ≡ media_type format) }
        ensures none { result ≡ None → (format : FormatValue) → text.now ≢ media_type format }
    {
        first_spelled(text).copied()
    }
}

/// Finds the first format that the text names, letters without case.
fn first_named(text: &[u8]) -> Option<&'static Format>
    ensures { option_copied result ≡ format_named text.now }
{
    FORMATS.iter().find(|format| names_format(text, format))
}

/// Whether the text is the format's media type, letters without case.
fn names_format(text: &[u8], format: &Format) -> bool
    ensures { result ≡ names_format text.now format.now }
{
    text.eq_ignore_ascii_case(format.media_type().as_bytes())
}

/// Finds the first format whose media type is the text, byte for byte.
fn first_spelled(text: &[u8]) -> Option<&'static Format>
    ensures { option_copied result
        ≡ find (λ format. bytes_eq text.now (media_type format)) formats }
{
    FORMATS.iter().find(|format| is_spelled(format, text))
}

/// Whether the text is the format's media type, byte for byte.
fn is_spelled(format: &Format, text: &[u8]) -> bool
    ensures { result ≡ bytes_eq text.now (media_type format.now) }
{
    text == format.media_type().as_bytes()
}
