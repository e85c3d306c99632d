//! `OwnerRequest`: an operator's `cancel` or `hold` of a job, as the IPP message that the account's
//! owner could send.
ghost use Rattle.std.specs.Prelude.{◌≡◌, ◌≤◌, ◌<◌, ◌++◌, ◌∷◌, [], IfOk, OnOk, codes, length};
ghost use Rattle.ipp_coding.specs.Spelling.{Fits, first_spelling, header_spelling};
ghost use Rattle.ipp_coding.specs.Tags.{end_tag, first_value_tag};
ghost use Rattle.account_replies.specs.Attributes.{value_with};
ghost use Rattle.input_lines.specs.OwnerRequests.{operation_id, queue_uri, request_header, request_text};

use account_machine::Name;
use account_replies::want_of_memory;
use account_rules::QUEUES;
use ipp_coding::tags::{CHARSET, INTEGER, NATURAL_LANGUAGE, OPERATION_ATTRIBUTES, URI};
use ipp_coding::{Header, put_attribute, put_end, put_group, put_header};
use std::alloc::{AllocError, Global};

/// What an operator may do to a job for its owner.
#[derive(Clone, Copy, PartialEq, Eq)]
pub enum OwnerAct {
    /// Cancel-Job.
    Cancel,
    /// Hold-Job.
    Hold,
}

impl OwnerAct {
    /// The operation-id of its request (RFC 8011).
    fn operation_id(self) -> u16
        ensures { result ≡ operation_id self }
    {
        match self {
            OwnerAct::Cancel => 0x0008,
            OwnerAct::Hold => 0x000c,
        }
    }

    /// The header of the message that asks for it.
    fn header(self) -> Header
        ensures { result ≡ request_header self }
    {
        Header {
            major: 1,
            minor: 1,
            code: self.operation_id(),
            request_id: 1,
        }
    }
}

/// An operator's request about a job, with the IPP message that the account's owner could send.
#[derive(Drop)]
pub struct OwnerRequest {
    pub act: OwnerAct,
    pub account: Name,
    pub job: u32,
    pub body: Vec<u8>,
    ghost spelled: { body.items ≡ request_text act account job },
}

impl OwnerRequest {
    /// Makes the request, and its message.
    pub(crate) fn new(
        alloc: Global,
        act: OwnerAct,
        account: Name,
        job: u32,
    ) -> Result<OwnerRequest, AllocError>
        ensures act { IfOk result (λ request. request.act ≡ act) }
        ensures account { IfOk result (λ request. request.account ≡ account) }
        ensures job { IfOk result (λ request. request.job ≡ job) }
    {
        let body = request_text(alloc, act, account, job)?;
        Ok(OwnerRequest {
            act,
            account,
            job,
            body,
        })
    }
}

/// The bytes of the IPP message.
fn request_text(
    alloc: Global,
    act: OwnerAct,
    account: Name,
    job: u32,
) -> Result<Vec<u8>, AllocError>
    ensures { IfOk result (λ text. text.items ≡ request_text act account job) }
{
    let uri = queue_uri(alloc, account)?;
    let mut text = Vec::new(alloc);
    put_front(&mut text, act)?;
    put_single(&mut text, URI, b"printer-uri", &uri)?;
    put_single(&mut text, INTEGER, b"job-id", &job.to_be_bytes())?;
    end_groups(&mut text)?;
    Ok(text)
}

/// The printer-uri of an account's queue, for messages that the program makes itself. Its host is
/// not looked at.
pub fn queue_uri(alloc: Global, account: Name) -> Result<Vec<u8>, AllocError>
    ensures uri { IfOk result (λ uri. uri.items ≡ queue_uri account) }
    ensures short { IfOk result (λ uri. length uri.items ≤ 58) }
{
    let mut uri = Vec::new(alloc);
    uri.extend_from_slice(b"ipp://localhost")?;
    uri.extend_from_slice(QUEUES)?;
    uri.extend_from_slice(account.bytes())?;
    Ok(uri)
}

/// Writes the header, and the first group with its charset and its language.
fn put_front(out: &mut Vec<u8>, act: OwnerAct) -> Result<(), AllocError>
    ensures { OnOk result (out.new.items ≡ out.old.items ++ header_spelling (request_header act)
        ++ 0x01 ∷ (first_spelling (codes "attributes-charset") (value_with 0x47 (codes "utf-8"))
        ++ first_spelling (codes "attributes-natural-language") (value_with 0x48 (codes "en")))) }
{
    put_header(out, act.header()).map_err(|fault| want_of_memory(fault))?;
    put_group(out, OPERATION_ATTRIBUTES).map_err(|fault| want_of_memory(fault))?;
    put_single(out, CHARSET, b"attributes-charset", b"utf-8")?;
    put_single(out, NATURAL_LANGUAGE, b"attributes-natural-language", b"en")
}

/// Writes an attribute with one value.
fn put_single(out: &mut Vec<u8>, tag: u8, name: &[u8], value: &[u8]) -> Result<(), AllocError>
    requires named { 0 < length name.now }
    requires name { Fits name.now }
    requires tag { first_value_tag ≤ tag }
    requires value { Fits value.now }
    ensures { OnOk result (out.new.items
        ≡ out.old.items ++ first_spelling name.now (value_with tag value.now)) }
{
    put_attribute(out, tag, name, value).map_err(|fault| want_of_memory(fault))
}

/// Writes the tag that ends the message's groups.
fn end_groups(out: &mut Vec<u8>) -> Result<(), AllocError>
    ensures { OnOk result (out.new.items ≡ out.old.items ++ end_tag ∷ []) }
{
    put_end(out).map_err(|fault| want_of_memory(fault))
}
