//! The format of a document, told by its first bytes.
ghost use Rattle.std.specs.Prelude.{◌≡◌};
ghost use Rattle.client_owner.specs.Documents.{format_of};

use account_rules::Format;

/// Tells the format of a document by its first bytes. What is none of the known ones is an octet
/// stream.
pub fn format_of(document: &[u8]) -> Format
    ensures { result ≡ format_of document.now }
{
    if document.starts_with(b"%PDF-") {
        Format::Pdf
    } else if document.starts_with(b"%!") {
        Format::PostScript
    } else if document.starts_with(b"\xff\xd8\xff") {
        Format::Jpeg
    } else if document.starts_with(b"RaS2") {
        Format::PwgRaster
    } else if document.starts_with(b"UNIRAST\0") {
        Format::Urf
    } else {
        Format::OctetStream
    }
}
