//! The checks 1 to 18 of a request, one function for each, in their order. One that passes hands on
//! what it looked at, for those that follow; one that fails gives the refusal that is answered.

ghost use Rattle.std.specs.Prelude.{◌≡◌, ◌<◌, ◌≤◌, List, [], true, IfOk, Some, None, if◌then◌else◌, length, map, option_map, unwrap_or};
ghost use Rattle.ipp_coding.specs.Plain.{PlainAttribute, plain_attribute, plain_message};
ghost use Rattle.account_rules.specs.Limits.{longest_job_name, longest_password, longest_document, last_next_job, longest_uri};
ghost use Rattle.account_rules.specs.declared.format.Format.TheVariants.{OctetStream};
ghost use Rattle.account_asks.specs.declared.ask.Which.TheVariants.{NotCompleted};
ghost use Rattle.account_asks.specs.CheckOrder.{document_checks};
ghost use Rattle.account_asks.specs.Checks as checks;
ghost use Rattle.account_asks.specs.Fields.{document_format, which_jobs, password, job_name};
ghost use Rattle.account_asks.specs.Operations.{operation_of, hands_in_document};
ghost use Rattle.account_asks.specs.ProofPlainParts.{plain_named, plain_target};
ghost use Rattle.account_asks.specs.Refusals.{checked, refusal_of};
ghost use Rattle.account_asks.specs.ProofTelling.{told_with, ChecksWithAttributes, ChecksAndGives, Checks};
ghost use Rattle.account_asks.specs.Requests.{operation_attributes};
ghost use Rattle.account_asks.specs.Targets.{target_in, uri_of, at_job, reached};
ghost use Rattle.account_asks.specs.ProofPlainParts.{HasNumber};

use crate::ask::Which;
use crate::field::{Field, any_is_wrong};
use crate::operation::Operation;
use crate::target::{Target, TargetUri};
use crate::{fields, request};
use account_rules::{
    Format, LONGEST_DOCUMENT, LONGEST_JOB_NAME, LONGEST_PASSWORD, LONGEST_URI, Name, Refusal, Word,
};
use ipp_coding::{Attribute, Header, Message};

/// 1: the major version is 1 or 2.
pub(crate) fn version(header: Header) -> Result<(), Refusal>
    ensures { Checks result (checks.version_check header) }
{
    if header.major == 1 || header.major == 2 {
        Ok(())
    } else {
        Err(Refusal {
            status: 0x0503,
            word: Word::Version,
        })
    }
}

/// 2: the operation is one of the profile.
pub(crate) fn operation(header: Header) -> Result<Operation, Refusal>
    ensures { ChecksAndGives result (λ x. x) (checks.operation_check header) (operation_of header) }
{
    Operation::with_id(header.code).ok_or(Refusal {
        status: 0x0501,
        word: Word::Operation,
    })
}

/// 3: why a body is refused that no message spells.
pub(crate) fn malformed() -> Refusal
    ensures { record { refusal = result; unsupported = [] }
        ≡ refusal_of (checks.malformed_check None) }
{
    Refusal {
        status: 0x0400,
        word: Word::Malformed,
    }
}

/// 4: the message begins with an operation group, and this with a charset and a natural language.
/// Hands on the attributes of the group.
pub(crate) fn charset_and_language<'m, 'a>(
    message: &'m Message<'a>,
) -> Result<&'m [Attribute<'a>], Refusal>
    ensures { ChecksAndGives result (λ attributes. map plain_attribute attributes.now)
        (checks.charset_and_language_check (operation_attributes (plain_message message.now)))
        (operation_attributes (plain_message message.now)) }
{
    match opened(message) {
        Some(attributes) => Ok(attributes),
        None => Err(Refusal {
            status: 0x0400,
            word: Word::CharsetAndLanguage,
        }),
    }
}

/// 5: the charset is `utf-8`, letters without case.
pub(crate) fn charset(attributes: &[Attribute<'_>]) -> Result<(), Refusal>
    ensures { Checks result (checks.charset_check (map plain_attribute attributes.now)) }
{
    match request::charset_first(attributes) {
        Some(charset) if charset.eq_ignore_ascii_case(b"utf-8") => Ok(()),
        _ => Err(Refusal {
            status: 0x040d,
            word: Word::Charset,
        }),
    }
}

/// 6: there is a target. Hands it on.
pub(crate) fn target<'a>(
    operation: Operation,
    attributes: &[Attribute<'a>],
) -> Result<TargetUri<'a>, Refusal>
    ensures told { ChecksAndGives result plain_named
        (checks.target_check (target_in operation (map plain_attribute attributes.now)))
        (checks.named_target operation (map plain_attribute attributes.now)) }
    ensures number { IfOk result (λ target. HasNumber (plain_named target)) }
{
    match TargetUri::read(operation, attributes) {
        Some(target) => Ok(target),
        None => Err(Refusal {
            status: 0x0400,
            word: Word::Target,
        }),
    }
}

/// 7: the target's URI is no longer than a URI may be.
pub(crate) fn target_length(target: TargetUri<'_>) -> Result<(), Refusal>
    ensures told { Checks result (checks.target_length_check (plain_named target.entry)) }
    ensures length { IfOk result (λ x. length (uri_of (plain_named target.entry)) ≤ longest_uri) }
{
    if target.uri().len() > LONGEST_URI {
        return Err(Refusal {
            status: 0x0409,
            word: Word::TargetTooLong,
        });
    }
    Ok(())
}

/// 8: the target leads to the account's queue. Hands on where in it.
pub(crate) fn queue<'a>(target: TargetUri<'a>, account: Name) -> Result<Target<'a>, Refusal>
    requires { HasNumber (plain_named target) }
    ensures told { ChecksAndGives result plain_target
        (checks.queue_check (reached account (plain_named target.entry)))
        (unwrap_or (reached account (plain_named target.entry)) (at_job [] 0)) }
    ensures base { IfOk result
        (λ reached. length reached.base.now ≤ length (uri_of (plain_named target.entry))) }
    ensures job { IfOk result (λ reached. reached.job < last_next_job) }
{
    match target.reach(account) {
        Some(target) => Ok(target),
        None => Err(Refusal {
            status: 0x0406,
            word: Word::NotThisQueue,
        }),
    }
}

/// 9: each attribute that the operation reads is of its syntax.
pub(crate) fn syntax(operation: Operation, attributes: &[Attribute<'_>]) -> Result<(), Refusal>
    ensures { Checks result
        (checks.syntax_check operation (map plain_attribute attributes.now)) }
{
    if any_is_wrong(operation, attributes) {
        return Err(Refusal {
            status: 0x0400,
            word: Word::Syntax,
        });
    }
    Ok(())
}

/// 10: nothing is compressed.
pub(crate) fn compression(operation: Operation, attributes: &[Attribute<'_>]) -> Result<(), Refusal>
    ensures { Checks result
        (checks.compression_check operation (map plain_attribute attributes.now)) }
{
    if fields::is_none_if_said(Field::Compression.bytes(operation, attributes)) {
        Ok(())
    } else {
        Err(Refusal {
            status: 0x040f,
            word: Word::Compression,
        })
    }
}

/// 11: the format of the document is known. Hands it on.
pub(crate) fn document_format(
    operation: Operation,
    attributes: &[Attribute<'_>],
) -> Result<Format, Refusal>
    ensures { ChecksAndGives result (λ x. x)
        (checks.document_format_check operation (map plain_attribute attributes.now))
        (unwrap_or (document_format operation (map plain_attribute attributes.now)) OctetStream) }
{
    fields::document_format(operation, attributes).ok_or(Refusal {
        status: 0x040a,
        word: Word::DocumentFormat,
    })
}

/// 12: which-jobs asks for jobs that have ended or for those that have not. Hands on which.
pub(crate) fn which_jobs(
    operation: Operation,
    attributes: &[Attribute<'_>],
) -> Result<Which, Refusal>
    ensures { ChecksAndGives result (λ x. x)
        (checks.which_jobs_check operation (map plain_attribute attributes.now))
        (unwrap_or (which_jobs operation (map plain_attribute attributes.now)) NotCompleted) }
{
    fields::which_jobs(operation, attributes).ok_or(Refusal {
        status: 0x040b,
        word: Word::WhichJobs,
    })
}

/// 13: where there is a password, its encryption is told.
pub(crate) fn password_encryption_missing(
    operation: Operation,
    attributes: &[Attribute<'_>],
) -> Result<(), Refusal>
    ensures { Checks result
        (checks.password_encryption_missing_check operation (map plain_attribute attributes.now)) }
{
    let encryption = Field::PasswordEncryption.bytes(operation, attributes);
    if !fields::password(operation, attributes).is_empty() && encryption.is_none() {
        return Err(Refusal {
            status: 0x0400,
            word: Word::PasswordEncryptionMissing,
        });
    }
    Ok(())
}

/// 14: no password is encrypted.
pub(crate) fn password_encryption(
    operation: Operation,
    attributes: &[Attribute<'_>],
) -> Result<(), Refusal>
    ensures { Checks result
        (checks.password_encryption_check operation (map plain_attribute attributes.now)) }
{
    if fields::is_none_if_said(Field::PasswordEncryption.bytes(operation, attributes)) {
        Ok(())
    } else {
        Err(Refusal {
            status: 0x040b,
            word: Word::PasswordEncryption,
        })
    }
}

/// 15: the password is short enough. Hands it on.
pub(crate) fn password_length<'a>(
    operation: Operation,
    attributes: &[Attribute<'a>],
) -> Result<&'a [u8], Refusal>
    ensures told { ChecksAndGives result (λ password. password.now)
        (checks.password_length_check operation (map plain_attribute attributes.now))
        (password operation (map plain_attribute attributes.now)) }
    ensures length { IfOk result (λ password. length password.now ≤ longest_password) }
{
    let password = fields::password(operation, attributes);
    if password.len() > LONGEST_PASSWORD {
        return Err(Refusal {
            status: 0x0409,
            word: Word::PasswordTooLong,
        });
    }
    Ok(password)
}

/// 16: the name of the job is short enough. Hands it on.
pub(crate) fn job_name_length<'a>(
    operation: Operation,
    attributes: &[Attribute<'a>],
) -> Result<&'a [u8], Refusal>
    ensures told { ChecksAndGives result (λ name. name.now)
        (checks.job_name_length_check operation (map plain_attribute attributes.now))
        (job_name operation (map plain_attribute attributes.now)) }
    ensures length { IfOk result (λ name. length name.now ≤ longest_job_name) }
{
    let name = fields::job_name(operation, attributes);
    if name.len() > LONGEST_JOB_NAME {
        return Err(Refusal {
            status: 0x0409,
            word: Word::JobNameTooLong,
        });
    }
    Ok(name)
}

/// 17: what the requester insists on (ipp-attribute-fidelity) is all supported.
fn template(insists: bool, unsupported: &[Attribute<'_>]) -> Result<(), Refusal>
    ensures { ChecksWithAttributes (map plain_attribute unsupported.now) result
        (checks.template_check insists (map plain_attribute unsupported.now)) }
{
    if insists && !unsupported.is_empty() {
        return Err(Refusal {
            status: 0x040b,
            word: Word::Template,
        });
    }
    Ok(())
}

/// 18: the document is short enough.
fn document_length(operation: Operation, payload: &[u8]) -> Result<(), Refusal>
    ensures fits { IfOk result
        (λ x. hands_in_document operation ≡ true → length payload.now ≤ longest_document) }
    ensures told { (unsupported : List PlainAttribute) → ChecksWithAttributes unsupported result
        (checks.document_check operation unsupported payload.now) }
{
    if operation.hands_in_document() && payload.len() > LONGEST_DOCUMENT {
        return Err(Refusal {
            status: 0x0408,
            word: Word::DocumentTooLarge,
        });
    }
    Ok(())
}

/// Makes checks 17 and 18, once it is known which job template attributes are not supported.
#[tactic(auto, unfolding(crate::specs::CheckOrder::document_checks))]
pub(crate) fn template_and_document(
    operation: Operation,
    insists: bool,
    unsupported: &[Attribute<'_>],
    payload: &[u8],
) -> Result<(), Refusal>
    ensures told { told_with (map plain_attribute unsupported.now) result
        ≡ checked
        (document_checks operation insists (map plain_attribute unsupported.now) payload.now)
        tt }
    ensures fits { IfOk result
        (λ x. hands_in_document operation ≡ true → length payload.now ≤ longest_document) }
{
    template(insists, unsupported)?;
    document_length(operation, payload)
}

/// The attributes of the first group, where that is the operation group and begins with a charset
/// and a natural language.
fn opened<'m, 'a>(message: &'m Message<'a>) -> Option<&'m [Attribute<'a>]>
    ensures { option_map (λ attributes. map plain_attribute attributes.now) result
        ≡ (if checks.begins_well (operation_attributes (plain_message message.now))
        then Some (operation_attributes (plain_message message.now))
        else None) }
{
    let attributes = request::operation_group(message.groups.as_slice())?;
    request::charset_first(attributes)?;
    request::language_second(attributes)?;
    Some(attributes)
}
