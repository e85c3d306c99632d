//! `read_ask`: reads the bytes of a request as what it asks, by checks 1 to 18 in their order.

ghost use Rattle.std.specs.Prelude.{◌≡◌, ◌≤◌, length, map, IfOk, IfErr};
ghost use Rattle.std.specs.List.{AllByRecursion};
ghost use Rattle.ipp_coding.specs.Limits.{header_length};
ghost use Rattle.ipp_coding.specs.Plain.{plain_attribute, plain_group, plain_message};
ghost use Rattle.ipp_coding.specs.Spelling.{IsGroup};
ghost use Rattle.account_asks.specs.declared.ask.AskFault.TheVariants.{Memory};
ghost use Rattle.account_asks.specs.Fields.{wanted};
ghost use Rattle.account_asks.specs.ProofPlainParts.{plain_target, plain_fields};
ghost use Rattle.account_asks.specs.Asks.{ask_of, asked, assembled, plain_ask, AsksAs, IsAsk, CanBeSpelled};
ghost use Rattle.account_asks.specs.ProofAskParts.{IsBare};
ghost use Rattle.account_asks.specs.CheckOrder.{header_checks, message_checks};
ghost use Rattle.account_asks.specs.Operations.{operation_of};
ghost use Rattle.account_asks.specs.Refusals.{checked};
ghost use Rattle.account_asks.specs.ProofTelling.{told};

use crate::ask::{Ask, AskFault};
use crate::operation::Operation;
use crate::parts::Parts;
use crate::template::{Templates, no_attributes};
use crate::{checks, fields};
use account_rules::{Name, Refusal};
use ipp_coding::{Header, Message, ReadFault, header_in, read_message};
use std::alloc::Global;

/// What the request asks of the account's queue, or the first check that it fails. The checks are
/// made in their order, and nothing is looked at for one once an earlier one failed.
///
/// `Memory` where there was no memory to read the message, to list the job template attributes that
/// are not supported, or to list the names that are wanted.
pub fn read_ask<'a>(alloc: Global, body: &'a [u8], account: Name) -> Result<Ask<'a>, AskFault<'a>>
    requires { header_length ≤ length body.now }
    ensures asked { AsksAs result (ask_of account body.now) }
    // Each field lies within its limits.
    ensures fields { IfOk result (λ ask. IsAsk (plain_ask ask)) }
    // What is handed on of the request can be spelled in an answer.
    ensures spelled { IfErr result CanBeSpelled }
{
    let header = header_in(body);
    let operation = match served(header) {
        Ok(operation) => operation,
        Err(refusal) => return Err(refused(alloc, refusal)),
    };
    match read_message(alloc, body) {
        Ok(message) => ask_in(alloc, header, operation, &message, account),
        Err(ReadFault::Malformed) => Err(refused(alloc, checks::malformed())),
        Err(ReadFault::Memory) => Err(AskFault::Memory),
    }
}

/// Makes checks 1 and 2: the version and the operation are served. Hands on the operation.
fn served(header: Header) -> Result<Operation, Refusal>
    ensures { told (λ x. x) result ≡ checked (header_checks header) (operation_of header) }
{
    checks::version(header)?;
    checks::operation(header)
}

/// Makes checks 4 to 18 of a message that was read, and gives what it asks or the first check that
/// fails.
fn ask_in<'a>(
    alloc: Global,
    header: Header,
    operation: Operation,
    message: &Message<'a>,
    account: Name,
) -> Result<Ask<'a>, AskFault<'a>>
    requires { AllByRecursion IsGroup (map plain_group message.now.groups) }
    ensures asked { AsksAs result
        (checked
        (message_checks account operation (plain_message message.now))
        (asked account header operation (plain_message message.now))) }
    ensures fields { IfOk result (λ ask. IsAsk (plain_ask ask)) }
    ensures spelled { IfErr result CanBeSpelled }
{
    let parts = match Parts::read(operation, message, account) {
        Ok(parts) => parts,
        Err(refusal) => return Err(refused(alloc, refusal)),
    };
    let templates = Templates::read(alloc, operation, message)?;
    let unsupported = templates.unsupported.as_slice();
    match checks::template_and_document(
        operation,
        parts.fields.insists,
        unsupported,
        message.payload,
    ) {
        Ok(()) => ask_with(alloc, header, operation, message, parts, templates),
        Err(refusal) => Err(AskFault::Refused {
            refusal,
            unsupported: templates.unsupported,
        }),
    }
}

/// Puts together what is asked, once every check has passed.
fn ask_with<'a>(
    alloc: Global,
    header: Header,
    operation: Operation,
    message: &Message<'a>,
    parts: Parts<'_, 'a>,
    templates: Templates<'a>,
) -> Result<Ask<'a>, AskFault<'a>>
    ensures asked { IfOk result
        (λ ask. plain_ask ask
        ≡ assembled
        header
        operation
        (plain_target parts.entry.target)
        (plain_fields parts.entry.fields)
        (wanted operation (map plain_attribute parts.entry.attributes.now))
        templates.entry.copies
        (map plain_attribute templates.entry.unsupported)
        message.now.payload.now) }
    ensures memory { IfErr result (λ fault. fault ≡ Memory) }
{
    Ok(Ask {
        header,
        operation,
        base: parts.target.base,
        job: parts.target.job,
        name: parts.fields.name,
        password: parts.fields.password,
        copies: templates.copies,
        impressions: parts.fields.impressions,
        format: parts.fields.format,
        last: parts.fields.last,
        which: parts.fields.which,
        limit: parts.fields.limit,
        wanted: fields::wanted(alloc, operation, parts.attributes)?,
        unsupported: templates.unsupported,
        payload: message.payload,
    })
}

/// Refuses with no attributes beside the refusal, as for checks 1 to 16.
fn refused<'a>(alloc: Global, refusal: Refusal) -> AskFault<'a>
    ensures { IsBare result refusal }
{
    AskFault::Refused {
        refusal,
        unsupported: no_attributes(alloc),
    }
}
