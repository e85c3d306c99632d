//! The beginning that all responses share: header, operation group, attributes that are not
//! supported. And the whole response where an event could not be applied.

ghost use Rattle.std.specs.Prelude.{◌≡◌, Some, IfErr, OnErr, map, option_map, take, length};
ghost use Rattle.std.specs.List.{flat_map, AllByRecursion};
ghost use Rattle.ipp_coding.specs.Plain.{plain_attribute};
ghost use Rattle.ipp_coding.specs.Spelling.{attribute_spelling, group_spelling, header_spelling, IsAttribute};
ghost use Rattle.account_replies.specs.ProofAppends.{Appends};
ghost use Rattle.account_replies.specs.Replies.{reply_header, reply_text, status_message, operation_group, unsupported_groups, internal_error_text};
ghost use Rattle.account_replies.specs.Words.{word_text};

use crate::attribute::{begin_group, put_attributes, put_single, want_of_memory};
use crate::station_line::append_line;
use account_rules::{CoreFault, Word};
use ipp_coding::tags::{
    CHARSET, NATURAL_LANGUAGE, OPERATION_ATTRIBUTES, TEXT_WITHOUT_LANGUAGE, UNSUPPORTED_ATTRIBUTES,
};
use ipp_coding::{Attribute, HEADER_LENGTH, Header, put_header};
use std::alloc::AllocError;

/// Appends the reply to the request that has the header `h`, up to the groups of jobs or of the
/// printer: no end tag. `Memory` is its only fault, and then nothing is appended.
pub fn put_reply(
    out: &mut Vec<u8>,
    h: Header,
    status: u16,
    word: Option<Word>,
    unsupported: &[Attribute<'_>],
) -> Result<(), CoreFault>
    requires { AllByRecursion IsAttribute (map plain_attribute unsupported.now) }
    ensures appended { Appends result out.old.items out.new.items
        (reply_text h status (option_map word_text word) (map plain_attribute unsupported.now)) }
    ensures memory { IfErr result (λ fault. fault ≡ CoreFault.Memory) }
    ensures unchanged { OnErr result (out.new.items ≡ out.old.items) }
{
    let start = out.len();
    let answer = append_reply(out, h, status, word, unsupported);
    if answer.is_err() {
        out.truncate(start);
    }
    Ok(answer?)
}

/// Appends the reply to the request up to the groups of jobs or of the printer. Where memory runs
/// out a part of it is left, which the caller takes back or drops.
pub(crate) fn append_reply(
    out: &mut Vec<u8>,
    h: Header,
    status: u16,
    word: Option<Word>,
    unsupported: &[Attribute<'_>],
) -> Result<(), AllocError>
    requires { AllByRecursion IsAttribute (map plain_attribute unsupported.now) }
    ensures appended { Appends result out.old.items out.new.items
        (reply_text h status (option_map word_text word) (map plain_attribute unsupported.now)) }
    ensures front { take (length out.old.items) out.new.items ≡ out.old.items }
{
    put_reply_header(out, h, status)?;
    put_operation_group(out, word)?;
    put_unsupported(out, unsupported)
}

/// Appends the header of the reply to a request of this header, or nothing where memory ran out.
fn put_reply_header(out: &mut Vec<u8>, request: Header, status: u16) -> Result<(), AllocError>
    ensures appended { Appends result out.old.items out.new.items
        (header_spelling (reply_header request status)) }
    ensures unchanged { OnErr result (out.new.items ≡ out.old.items) }
{
    let header = reply_header(request, status);
    put_header(out, header).map_err(|fault| want_of_memory(fault))
}

/// The header of the reply: version 1.1 to a request of version 0.x or 1.x, else 2.0.
fn reply_header(request: Header, status: u16) -> Header
    ensures { result ≡ reply_header request status }
{
    let (major, minor) = if request.major == 0 || request.major == 1 {
        (1, 1)
    } else {
        (2, 0)
    };
    Header {
        major,
        minor,
        code: status,
        request_id: request.request_id,
    }
}

/// Appends the operation group: charset, natural language, and for a refusal its word.
fn put_operation_group(out: &mut Vec<u8>, word: Option<Word>) -> Result<(), AllocError>
    ensures appended { Appends result out.old.items out.new.items
        (group_spelling (operation_group (option_map word_text word))) }
    ensures front { take (length out.old.items) out.new.items ≡ out.old.items }
{
    begin_group(out, OPERATION_ATTRIBUTES)?;
    put_single(out, CHARSET, b"attributes-charset", b"utf-8")?;
    put_single(out, NATURAL_LANGUAGE, b"attributes-natural-language", b"en")?;
    put_status_message(out, word)?;
    Ok(())
}

/// Appends the status-message of a refusal, the word that tells why; nothing where there is no
/// word.
fn put_status_message(out: &mut Vec<u8>, word: Option<Word>) -> Result<(), AllocError>
    ensures appended { Appends result out.old.items out.new.items
        (flat_map attribute_spelling (status_message (option_map word_text word))) }
    ensures unchanged { OnErr result (out.new.items ≡ out.old.items) }
{
    if let Some(word) = word {
        let mut text = Vec::new(*out.allocator());
        append_line(&mut text, word)?;
        put_single(out, TEXT_WITHOUT_LANGUAGE, b"status-message", &text)?;
    }
    Ok(())
}

/// Appends the group of the attributes that are not supported; nothing where there are none.
fn put_unsupported(out: &mut Vec<u8>, unsupported: &[Attribute<'_>]) -> Result<(), AllocError>
    requires { AllByRecursion IsAttribute (map plain_attribute unsupported.now) }
    ensures appended { Appends result out.old.items out.new.items
        (flat_map group_spelling (unsupported_groups (map plain_attribute unsupported.now))) }
    ensures front { take (length out.old.items) out.new.items ≡ out.old.items }
{
    if unsupported.is_empty() {
        return Ok(());
    }
    begin_group(out, UNSUPPORTED_ATTRIBUTES)?;
    put_attributes(out, unsupported)
}

/// All bytes behind the header of `internal_error`: an operation group with the status-message
/// internal-error, and the end tag.
const INTERNAL_ERROR: &[u8; 97] = b"\x01\
    \x47\x00\x12attributes-charset\x00\x05utf-8\
    \x48\x00\x1battributes-natural-language\x00\x02en\
    \x41\x00\x0estatus-message\x00\x0einternal-error\x03";

/// Writes the whole response to the request that has the header `h` where its event could not be
/// applied: server-error-internal-error. It takes no memory.
pub fn internal_error(h: Header) -> [u8; 105]
    ensures { result ≡ internal_error_text h }
{
    let header = reply_header(h, 0x0500);
    let [code_high, code_low] = header.code.to_be_bytes();
    let [id_0, id_1, id_2, id_3] = header.request_id.to_be_bytes();
    let mut text = [0; 105];
    text[..HEADER_LENGTH].copy_from_slice(&[
        header.major,
        header.minor,
        code_high,
        code_low,
        id_0,
        id_1,
        id_2,
        id_3,
    ]);
    text[HEADER_LENGTH..].copy_from_slice(INTERNAL_ERROR);
    text
}
