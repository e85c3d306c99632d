//! Shows the printer in a response: which attributes it has, in which order, and the value of each.

ghost use Rattle.std.specs.Prelude.{◌≡◌, IfErr, OnErr, map, take, length};
ghost use Rattle.std.specs.List.{flat_map};
ghost use Rattle.ipp_coding.specs.Plain.{plain_value};
ghost use Rattle.ipp_coding.specs.Spelling.{attribute_spelling, group_spelling, Fits, IsValue};
ghost use Rattle.account_replies.specs.ProofAppends.{Appends};
ghost use Rattle.account_replies.specs.Attributes.{attribute_of, value_with, range};
ghost use Rattle.account_replies.specs.Limits.{IsAttributeName, IsPlace, IsPrinter};
ghost use Rattle.account_rules.specs.Formats.{media_type};
ghost use Rattle.account_replies.specs.Places.{plain_place};
ghost use Rattle.account_replies.specs.PrinterAttributes.{operation_values, version_values, format_values, printer_group, printer_state_reason};
ghost use Rattle.account_replies.specs.ProofPrinterPlaces.{printer_row};
ghost use Rattle.account_replies.specs.Tables.{asked_names, row_attribute};
ghost use Rattle.account_replies.specs.ProofRowTexts.{row_text};

use crate::attribute::{
    begin_group, put_boolean, put_number, put_printer_uri, put_single, put_values,
};
use crate::place::Place;
use crate::selection::is_wanted;
use account_rules::{CoreFault, Format, LONGEST_PASSWORD, MOST_COPIES};
use ipp_coding::Value;
use ipp_coding::tags::{
    self, CHARSET, ENUM, INTEGER, KEYWORD, MIME_MEDIA_TYPE, NAME_WITHOUT_LANGUAGE,
    NATURAL_LANGUAGE, RANGE_OF_INTEGER,
};
use std::alloc::AllocError;

/// The printer-state of a printer that is idle (RFC 8011 section 5.4.11).
pub const IDLE: u32 = 3;

/// The printer-state of a printer that is printing a job.
pub const PROCESSING: u32 = 4;

/// The printer-state of a printer that prints nothing, as no device is on.
pub const STOPPED: u32 = 5;

/// What a printer is doing.
#[derive(Clone, Copy, PartialEq, Eq)]
pub struct PrinterNow {
    /// The printer-state: `IDLE`, `PROCESSING` or `STOPPED`.
    pub state: u32,
    /// Whether it takes jobs.
    pub accepting: bool,
    /// How many jobs have not ended.
    pub queued: u32,
}

/// An attribute that a printer shows.
#[derive(Clone, Copy)]
pub(crate) enum PrinterAttribute {
    Uri,
    Authentication,
    Security,
    Name,
    State,
    StateReasons,
    Versions,
    Operations,
    CharsetConfigured,
    CharsetSupported,
    LanguageConfigured,
    LanguageGenerated,
    FormatDefault,
    Formats,
    Accepting,
    Queued,
    PdlOverride,
    UpTime,
    Compression,
    MultipleDocuments,
    Password,
    PasswordEncryption,
    CopiesDefault,
    CopiesSupported,
    HoldUntilDefault,
    HoldUntil,
}

/// All attributes of the printer, in the order in which they are shown.
const PRINTER_ATTRIBUTES: [PrinterAttribute; 26] = [
    PrinterAttribute::Uri,
    PrinterAttribute::Authentication,
    PrinterAttribute::Security,
    PrinterAttribute::Name,
    PrinterAttribute::State,
    PrinterAttribute::StateReasons,
    PrinterAttribute::Versions,
    PrinterAttribute::Operations,
    PrinterAttribute::CharsetConfigured,
    PrinterAttribute::CharsetSupported,
    PrinterAttribute::LanguageConfigured,
    PrinterAttribute::LanguageGenerated,
    PrinterAttribute::FormatDefault,
    PrinterAttribute::Formats,
    PrinterAttribute::Accepting,
    PrinterAttribute::Queued,
    PrinterAttribute::PdlOverride,
    PrinterAttribute::UpTime,
    PrinterAttribute::Compression,
    PrinterAttribute::MultipleDocuments,
    PrinterAttribute::Password,
    PrinterAttribute::PasswordEncryption,
    PrinterAttribute::CopiesDefault,
    PrinterAttribute::CopiesSupported,
    PrinterAttribute::HoldUntilDefault,
    PrinterAttribute::HoldUntil,
];

impl PrinterAttribute {
    /// The attribute's name in a message.
    #[tactic(auto, unfolding(crate::specs::PrinterAttributes::printer_attributes))]
    fn name(self) -> &'static [u8]
        ensures row { result.now ≡ (printer_row self).name }
        ensures name { IsAttributeName result.now }
    {
        match self {
            PrinterAttribute::Uri => b"printer-uri-supported",
            PrinterAttribute::Authentication => b"uri-authentication-supported",
            PrinterAttribute::Security => b"uri-security-supported",
            PrinterAttribute::Name => b"printer-name",
            PrinterAttribute::State => b"printer-state",
            PrinterAttribute::StateReasons => b"printer-state-reasons",
            PrinterAttribute::Versions => b"ipp-versions-supported",
            PrinterAttribute::Operations => b"operations-supported",
            PrinterAttribute::CharsetConfigured => b"charset-configured",
            PrinterAttribute::CharsetSupported => b"charset-supported",
            PrinterAttribute::LanguageConfigured => b"natural-language-configured",
            PrinterAttribute::LanguageGenerated => b"generated-natural-language-supported",
            PrinterAttribute::FormatDefault => b"document-format-default",
            PrinterAttribute::Formats => b"document-format-supported",
            PrinterAttribute::Accepting => b"printer-is-accepting-jobs",
            PrinterAttribute::Queued => b"queued-job-count",
            PrinterAttribute::PdlOverride => b"pdl-override-supported",
            PrinterAttribute::UpTime => b"printer-up-time",
            PrinterAttribute::Compression => b"compression-supported",
            PrinterAttribute::MultipleDocuments => b"multiple-document-jobs-supported",
            PrinterAttribute::Password => b"job-password-supported",
            PrinterAttribute::PasswordEncryption => b"job-password-encryption-supported",
            PrinterAttribute::CopiesDefault => b"copies-default",
            PrinterAttribute::CopiesSupported => b"copies-supported",
            PrinterAttribute::HoldUntilDefault => b"job-hold-until-default",
            PrinterAttribute::HoldUntil => b"job-hold-until-supported",
        }
    }

    /// The keyword in `requested-attributes` that asks for it together with others: job-template or
    /// printer-description.
    #[tactic(auto, unfolding(crate::specs::PrinterAttributes::printer_attributes))]
    fn group(self) -> &'static [u8]
        ensures { result.now ≡ (printer_row self).group }
    {
        match self {
            PrinterAttribute::CopiesDefault
            | PrinterAttribute::CopiesSupported
            | PrinterAttribute::HoldUntilDefault
            | PrinterAttribute::HoldUntil => b"job-template",
            _ => b"printer-description",
        }
    }
}

/// Appends the group of the printer, with the attributes that are wanted. `Memory` is its only
/// fault, and then nothing is appended.
pub fn put_printer(
    out: &mut Vec<u8>,
    at: &Place<'_>,
    now: PrinterNow,
    wanted: Option<&[&[u8]]>,
) -> Result<(), CoreFault>
    requires place { IsPlace (plain_place at.now) }
    requires printer { IsPrinter now }
    ensures appended { Appends result out.old.items out.new.items
        (group_spelling (printer_group (plain_place at.entry.now) now (asked_names wanted.entry))) }
    ensures memory { IfErr result (λ fault. fault ≡ CoreFault.Memory) }
    ensures unchanged { OnErr result (out.new.items ≡ out.old.items) }
{
    let start = out.len();
    let answer = append_printer(out, at, now, wanted);
    if answer.is_err() {
        out.truncate(start);
    }
    Ok(answer?)
}

/// Appends the group of the printer, with the attributes that are wanted. Where memory runs out a
/// part of it is left, which the caller takes back or drops.
pub(crate) fn append_printer(
    out: &mut Vec<u8>,
    at: &Place<'_>,
    now: PrinterNow,
    wanted: Option<&[&[u8]]>,
) -> Result<(), AllocError>
    requires place { IsPlace (plain_place at.now) }
    requires printer { IsPrinter now }
    ensures appended { Appends result out.old.items out.new.items
        (group_spelling (printer_group (plain_place at.entry.now) now (asked_names wanted.entry))) }
    ensures front { take (length out.old.items) out.new.items ≡ out.old.items }
{
    begin_group(out, tags::PRINTER_ATTRIBUTES)?;
    put_printer_attributes(out, at, now, wanted, &PRINTER_ATTRIBUTES)?;
    Ok(())
}

/// Appends those of the attributes that are wanted, one by one.
fn put_printer_attributes(
    out: &mut Vec<u8>,
    at: &Place<'_>,
    now: PrinterNow,
    wanted: Option<&[&[u8]]>,
    attributes: &[PrinterAttribute],
) -> Result<(), AllocError>
    requires place { IsPlace (plain_place at.now) }
    requires printer { IsPrinter now }
    ensures appended { Appends result out.old.items out.new.items
        (flat_map
        (row_text (asked_names wanted.entry) (plain_place at.entry.now) now)
        (map printer_row attributes.now)) }
    ensures front { take (length out.old.items) out.new.items ≡ out.old.items }
{
    for attribute in attributes {
        put_where_wanted(out, at, now, wanted, *attribute)?;
    }
    Ok(())
}

/// Appends the attribute, if it is wanted.
fn put_where_wanted(
    out: &mut Vec<u8>,
    at: &Place<'_>,
    now: PrinterNow,
    wanted: Option<&[&[u8]]>,
    attribute: PrinterAttribute,
) -> Result<(), AllocError>
    requires place { IsPlace (plain_place at.now) }
    requires printer { IsPrinter now }
    ensures appended { Appends result out.old.items out.new.items
        (row_text
        (asked_names wanted.entry)
        (plain_place at.entry.now)
        now
        (printer_row attribute)) }
    ensures front { take (length out.old.items) out.new.items ≡ out.old.items }
{
    if !is_wanted(wanted, attribute.name(), attribute.group()) {
        return Ok(());
    }
    put_printer_attribute(out, at, now, attribute)
}

/// Appends one attribute of the printer with its value.
#[tactic(auto, unfolding(crate::specs::PrinterAttributes::printer_attributes))]
fn put_printer_attribute(
    out: &mut Vec<u8>,
    at: &Place<'_>,
    now: PrinterNow,
    attribute: PrinterAttribute,
) -> Result<(), AllocError>
    requires place { IsPlace (plain_place at.now) }
    requires printer { IsPrinter now }
    ensures appended { Appends result out.old.items out.new.items
        (attribute_spelling
        (row_attribute (plain_place at.entry.now) now (printer_row attribute))) }
    ensures front { take (length out.old.items) out.new.items ≡ out.old.items }
{
    let name = attribute.name();
    match attribute {
        PrinterAttribute::Uri => put_printer_uri(out, name, at),
        PrinterAttribute::Authentication => put_single(out, KEYWORD, name, b"none"),
        PrinterAttribute::Security => put_single(out, KEYWORD, name, b"none"),
        PrinterAttribute::Name => put_single(out, NAME_WITHOUT_LANGUAGE, name, at.name.bytes()),
        PrinterAttribute::State => put_number(out, ENUM, name, now.state),
        PrinterAttribute::StateReasons => put_single(out, KEYWORD, name, state_reason(now.state)),
        PrinterAttribute::Versions => put_versions(out, name),
        PrinterAttribute::Operations => put_operations(out, name),
        PrinterAttribute::CharsetConfigured => put_single(out, CHARSET, name, b"utf-8"),
        PrinterAttribute::CharsetSupported => put_single(out, CHARSET, name, b"utf-8"),
        PrinterAttribute::LanguageConfigured => put_single(out, NATURAL_LANGUAGE, name, b"en"),
        PrinterAttribute::LanguageGenerated => put_single(out, NATURAL_LANGUAGE, name, b"en"),
        PrinterAttribute::FormatDefault => put_single(
            out,
            MIME_MEDIA_TYPE,
            name,
            Format::OctetStream.media_type().as_bytes(),
        ),
        PrinterAttribute::Formats => put_formats(out, name),
        PrinterAttribute::Accepting => put_boolean(out, name, now.accepting),
        PrinterAttribute::Queued => put_number(out, INTEGER, name, now.queued),
        PrinterAttribute::PdlOverride => put_single(out, KEYWORD, name, b"not-attempted"),
        PrinterAttribute::UpTime => put_number(out, INTEGER, name, at.up(at.now)),
        PrinterAttribute::Compression => put_single(out, KEYWORD, name, b"none"),
        PrinterAttribute::MultipleDocuments => put_boolean(out, name, true),
        PrinterAttribute::Password => put_number(out, INTEGER, name, LONGEST_PASSWORD as u32),
        PrinterAttribute::PasswordEncryption => put_single(out, KEYWORD, name, b"none"),
        PrinterAttribute::CopiesDefault => put_number(out, INTEGER, name, 1),
        PrinterAttribute::CopiesSupported => put_range(out, name, 1, MOST_COPIES),
        PrinterAttribute::HoldUntilDefault => put_single(out, KEYWORD, name, b"indefinite"),
        PrinterAttribute::HoldUntil => put_single(out, KEYWORD, name, b"indefinite"),
    }
}

/// The printer-state-reasons of a printer in the state: one keyword.
fn state_reason(state: u32) -> &'static [u8]
    ensures reason { result.now ≡ printer_state_reason state }
    ensures fits { Fits result.now }
{
    if state == STOPPED { b"other" } else { b"none" }
}

/// Appends an attribute of one range of integers.
fn put_range(out: &mut Vec<u8>, name: &[u8], low: u32, high: u32) -> Result<(), AllocError>
    requires name { IsAttributeName name.now }
    ensures appended { Appends result out.old.items out.new.items
        (attribute_spelling (attribute_of name.now (range low high))) }
    ensures unchanged { OnErr result (out.new.items ≡ out.old.items) }
{
    let [low_0, low_1, low_2, low_3] = low.to_be_bytes();
    let [high_0, high_1, high_2, high_3] = high.to_be_bytes();
    put_single(
        out,
        RANGE_OF_INTEGER,
        name,
        &[low_0, low_1, low_2, low_3, high_0, high_1, high_2, high_3],
    )
}

/// Appends the versions of IPP that are spoken, as keywords.
fn put_versions(out: &mut Vec<u8>, name: &[u8]) -> Result<(), AllocError>
    requires { IsAttributeName name.now }
    ensures appended { Appends result out.old.items out.new.items
        (attribute_spelling (attribute_of name.now version_values)) }
    ensures front { take (length out.old.items) out.new.items ≡ out.old.items }
{
    let oldest = Value {
        tag: KEYWORD,
        bytes: b"1.1",
    };
    let newest = Value {
        tag: KEYWORD,
        bytes: b"2.0",
    };
    put_values(out, name, &[oldest, newest])
}

/// Appends the operation-ids of the operations that are served, as enums of four bytes.
fn put_operations(out: &mut Vec<u8>, name: &[u8]) -> Result<(), AllocError>
    requires { IsAttributeName name.now }
    ensures appended { Appends result out.old.items out.new.items
        (attribute_spelling (attribute_of name.now operation_values)) }
    ensures front { take (length out.old.items) out.new.items ≡ out.old.items }
{
    let values = [
        Value {
            tag: ENUM,
            bytes: b"\x00\x00\x00\x02",
        },
        Value {
            tag: ENUM,
            bytes: b"\x00\x00\x00\x04",
        },
        Value {
            tag: ENUM,
            bytes: b"\x00\x00\x00\x05",
        },
        Value {
            tag: ENUM,
            bytes: b"\x00\x00\x00\x06",
        },
        Value {
            tag: ENUM,
            bytes: b"\x00\x00\x00\x08",
        },
        Value {
            tag: ENUM,
            bytes: b"\x00\x00\x00\x09",
        },
        Value {
            tag: ENUM,
            bytes: b"\x00\x00\x00\x0a",
        },
        Value {
            tag: ENUM,
            bytes: b"\x00\x00\x00\x0b",
        },
        Value {
            tag: ENUM,
            bytes: b"\x00\x00\x00\x0c",
        },
        Value {
            tag: ENUM,
            bytes: b"\x00\x00\x00\x0d",
        },
    ];
    put_values(out, name, &values)
}

/// Appends the media types of all document formats.
fn put_formats(out: &mut Vec<u8>, name: &[u8]) -> Result<(), AllocError>
    requires { IsAttributeName name.now }
    ensures appended { Appends result out.old.items out.new.items
        (attribute_spelling (attribute_of name.now format_values)) }
    ensures front { take (length out.old.items) out.new.items ≡ out.old.items }
{
    let values = [
        format_value(Format::OctetStream),
        format_value(Format::Pdf),
        format_value(Format::PostScript),
        format_value(Format::Jpeg),
        format_value(Format::PwgRaster),
        format_value(Format::Urf),
        format_value(Format::Plain),
    ];
    put_values(out, name, &values)
}

/// The media type of the format as a value.
fn format_value(format: Format) -> Value<'static>
    ensures plain { plain_value result ≡ value_with 0x49 (media_type format) }
    ensures value { IsValue (plain_value result) }
{
    Value {
        tag: MIME_MEDIA_TYPE,
        bytes: format.media_type().as_bytes(),
    }
}
