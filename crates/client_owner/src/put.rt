//! Writes the parts of an IPP request as bytes: header, groups and attributes.
ghost use Rattle.std.specs.Prelude.{◌≡◌, ◌++◌, ◌∷◌, [], OnOk, codes, map};
ghost use Rattle.std.specs.List.{flat_map};
ghost use Rattle.ipp_coding.specs.Spelling.{further_spelling, header_spelling};
ghost use Rattle.ipp_coding.specs.Tags.{end_tag};
ghost use Rattle.client_operator.specs.Csv.{texts};
ghost use Rattle.account_replies.specs.Attributes.{attribute_of, attribute_with, number_bytes, value_with};
ghost use Rattle.client_owner.specs.ProofSpelled.{attributes_text, first_attributes};
ghost use Rattle.client_owner.specs.Requests.{request_header};

use client_lines::ClientFault;
use ipp_coding::tags::{CHARSET, INTEGER, KEYWORD, NATURAL_LANGUAGE, OPERATION_ATTRIBUTES, URI};
use ipp_coding::{Header, PutFault, put_attribute, put_end, put_group, put_header, put_more};

/// Appends the header of a request, and its first attributes: charset, language and the queue's
/// URI.
pub(crate) fn put_front(out: &mut Vec<u8>, operation: u16, uri: &[u8]) -> Result<(), ClientFault>
    ensures { OnOk result (out.new.items ≡ out.old.items
        ++ (header_spelling (request_header operation)
        ++ 0x01 ∷ attributes_text (first_attributes uri.now))) }
{
    begin_request(out, operation)?;
    begin_group(out, OPERATION_ATTRIBUTES)?;
    put_single(out, CHARSET, b"attributes-charset", b"utf-8")?;
    put_single(out, NATURAL_LANGUAGE, b"attributes-natural-language", b"en")?;
    put_single(out, URI, b"printer-uri", uri)
}

/// Appends the header of a request for an operation.
fn begin_request(out: &mut Vec<u8>, operation: u16) -> Result<(), ClientFault>
    ensures { OnOk result
        (out.new.items ≡ out.old.items ++ header_spelling (request_header operation)) }
{
    put_header(out, request_header(operation)).map_err(|fault| not_put(fault))
}

/// Makes the header of a request for an operation: IPP 1.1, request-id 1.
fn request_header(operation: u16) -> Header
    ensures { result ≡ request_header operation }
{
    Header {
        major: 1,
        minor: 1,
        code: operation,
        request_id: 1,
    }
}

/// Appends the tag that begins a group of attributes.
pub(crate) fn begin_group(out: &mut Vec<u8>, tag: u8) -> Result<(), ClientFault>
    ensures { OnOk result (out.new.items ≡ out.old.items ++ tag ∷ []) }
{
    put_group(out, tag).map_err(|fault| not_put(fault))
}

/// Appends an attribute of one value, with the tag of its syntax.
#[tactic(auto, using(crate::proofs::Spelled::single_text))]
pub(crate) fn put_single(
    out: &mut Vec<u8>,
    tag: u8,
    name: &[u8],
    value: &[u8],
) -> Result<(), ClientFault>
    ensures { OnOk result (out.new.items
        ≡ out.old.items ++ attributes_text (attribute_with name.now tag value.now ∷ [])) }
{
    put_attribute(out, tag, name, value).map_err(|fault| not_put(fault))
}

/// Appends an attribute whose one value is an integer.
pub(crate) fn put_integer(out: &mut Vec<u8>, name: &[u8], number: u32) -> Result<(), ClientFault>
    ensures { OnOk result (out.new.items ≡ out.old.items
        ++ attributes_text (attribute_with name.now 0x21 (number_bytes number) ∷ [])) }
{
    put_single(out, INTEGER, name, &number.to_be_bytes())
}

/// Appends an attribute whose values are keywords: the first, and those behind it.
pub(crate) fn put_keywords(
    out: &mut Vec<u8>,
    name: &[u8],
    first: &[u8],
    further: &[&[u8]],
) -> Result<(), ClientFault>
    ensures { OnOk result (out.new.items ≡ out.old.items ++ attributes_text
        (attribute_of name.now (map (value_with 0x44) (first.now ∷ texts further.now)) ∷ [])) }
{
    put_attribute(out, KEYWORD, name, first).map_err(|fault| not_put(fault))?;
    put_further(out, further)
}

/// Appends the further values of an attribute of keywords.
fn put_further(out: &mut Vec<u8>, further: &[&[u8]]) -> Result<(), ClientFault>
    ensures { OnOk result (out.new.items
        ≡ out.old.items ++ flat_map further_spelling (map (value_with 0x44) (texts further.now))) }
{
    for value in further {
        put_more(out, KEYWORD, value).map_err(|fault| not_put(fault))?;
    }
    Ok(())
}

/// Appends the tag that ends the groups, and the document behind it.
pub(crate) fn end_groups(out: &mut Vec<u8>, document: &[u8]) -> Result<(), ClientFault>
    ensures { OnOk result (out.new.items ≡ out.old.items ++ end_tag ∷ document.now) }
{
    put_end(out).map_err(|fault| not_put(fault))?;
    Ok(out.extend_from_slice(document)?)
}

/// Tells why a part of a request was not put: memory, or else a value that is too long. All names
/// and tags are right here.
fn not_put(fault: PutFault) -> ClientFault {
    match fault {
        PutFault::Memory => ClientFault::Memory,
        PutFault::TooLong | PutFault::EmptyName | PutFault::BadTag => ClientFault::TooLong,
    }
}
