//! `Fields`: what the operation attributes of a request say, each as a value of its type.
//! `field.rt` has how each is named and found.

ghost use Rattle.std.specs.Prelude.{◌≡◌, ◌==◌, ◌<◌, ◌≤◌, IfOk, IfErr, IfSome, Some, length, map, option_map, position};
ghost use Rattle.ipp_coding.specs.Plain.{plain_value, plain_attribute};
ghost use Rattle.account_rules.specs.Limits.{longest_job_name, longest_password, most_impressions};
ghost use Rattle.account_asks.specs.declared.ask.AskFault.TheVariants.{Memory};
ghost use Rattle.account_asks.specs.CheckOrder.{field_checks};
ghost use Rattle.account_asks.specs.Fields as said;
ghost use Rattle.account_asks.specs.ProofPlainParts.{plain_fields, plain_names};
ghost use Rattle.account_asks.specs.Refusals.{checked};
ghost use Rattle.account_asks.specs.ProofTelling.{told};

use crate::ask::{AskFault, Which};
use crate::checks;
use crate::field::Field;
use crate::operation::Operation;
use crate::syntax::{count_of, name_of, positive_of};
use account_rules::{Format, Refusal};
use ipp_coding::{Attribute, List, Value, bool_of};
use std::alloc::Global;

/// What the operation attributes say that the operation reads, and for those that are absent or not
/// read the values that stand for that.
#[derive(Clone, Copy)]
pub(crate) struct Fields<'a> {
    /// Whether all template attributes have to be supported: ipp-attribute-fidelity.
    pub(crate) insists: bool,
    pub(crate) name: &'a [u8],
    pub(crate) password: &'a [u8],
    pub(crate) impressions: u32,
    pub(crate) format: Format,
    pub(crate) last: bool,
    pub(crate) which: Which,
    pub(crate) limit: Option<u32>,
}

impl<'a> Fields<'a> {
    /// Makes checks 9 to 16, and gives what the attributes say or the first check that they fail.
    #[tactic(auto, unfolding(crate::specs::CheckOrder::field_checks, crate::specs::Fields::fields_of))]
    pub(crate) fn read(
        operation: Operation,
        attributes: &[Attribute<'a>],
    ) -> Result<Fields<'a>, Refusal>
        ensures told { told plain_fields result
            ≡ checked
            (field_checks operation (map plain_attribute attributes.now))
            (said.fields_of operation (map plain_attribute attributes.now)) }
        ensures name { IfOk result (λ fields. length fields.name.now ≤ longest_job_name) }
        ensures password { IfOk result (λ fields. length fields.password.now ≤ longest_password) }
        ensures impressions { IfOk result (λ fields. fields.impressions ≤ most_impressions) }
        ensures limit { IfOk result (λ fields. IfSome fields.limit (λ limit. 1 ≤ limit)) }
    {
        checks::syntax(operation, attributes)?;
        checks::compression(operation, attributes)?;
        let format = checks::document_format(operation, attributes)?;
        let which = checks::which_jobs(operation, attributes)?;
        checks::password_encryption_missing(operation, attributes)?;
        checks::password_encryption(operation, attributes)?;
        let password = checks::password_length(operation, attributes)?;
        let name = checks::job_name_length(operation, attributes)?;
        Ok(Fields {
            insists: fidelity(operation, attributes),
            name,
            password,
            impressions: impressions(operation, attributes),
            format,
            last: last_document(operation, attributes),
            which,
            limit: limit(operation, attributes),
        })
    }
}

/// The job's name, `untitled` where the request gives none or an empty one.
#[tactic(auto, unfolding(crate::specs::Fields::job_name))]
pub(crate) fn job_name<'a>(operation: Operation, attributes: &[Attribute<'a>]) -> &'a [u8]
    ensures { result.now ≡ said.job_name operation (map plain_attribute attributes.now) }
{
    given_name(operation, attributes).unwrap_or(b"untitled")
}

/// The job's name, where the request gives one that is not empty.
fn given_name<'a>(operation: Operation, attributes: &[Attribute<'a>]) -> Option<&'a [u8]>
    ensures { option_map (λ name. name.now) result
        ≡ said.given_name operation (map plain_attribute attributes.now) }
{
    let value = Field::JobName.value(operation, attributes)?;
    unless_empty(name_of(value)?)
}

/// The text, and None where it is empty.
fn unless_empty(text: &[u8]) -> Option<&[u8]>
    ensures { option_map (λ name. name.now) result ≡ said.unless_empty text.now }
{
    match text {
        [] => None,
        _ => Some(text),
    }
}

/// The job's password, empty where the request gives none.
#[tactic(auto, unfolding(crate::specs::Fields::password))]
pub(crate) fn password<'a>(operation: Operation, attributes: &[Attribute<'a>]) -> &'a [u8]
    ensures { result.now ≡ said.password operation (map plain_attribute attributes.now) }
{
    Field::Password.bytes(operation, attributes).unwrap_or(b"")
}

/// Whether the requester insists that all is supported (ipp-attribute-fidelity); false where not
/// said.
#[tactic(auto, unfolding(crate::specs::Fields::fidelity))]
fn fidelity(operation: Operation, attributes: &[Attribute<'_>]) -> bool
    ensures { result ≡ said.fidelity operation (map plain_attribute attributes.now) }
{
    match Field::Fidelity.value(operation, attributes) {
        Some(value) => bool_of(value).unwrap_or(false),
        None => false,
    }
}

/// Whether the document is the job's last (last-document); false for an operation that does not
/// read it.
#[tactic(auto, unfolding(crate::specs::Fields::last_document))]
fn last_document(operation: Operation, attributes: &[Attribute<'_>]) -> bool
    ensures { result ≡ said.last_document operation (map plain_attribute attributes.now) }
{
    match Field::LastDocument.value(operation, attributes) {
        Some(value) => bool_of(value).unwrap_or(false),
        None => false,
    }
}

/// The impressions of one copy (job-impressions), 0 where the request does not say.
#[tactic(auto, unfolding(crate::specs::Fields::impressions))]
fn impressions(operation: Operation, attributes: &[Attribute<'_>]) -> u32
    ensures impressions { result ≡ said.impressions operation (map plain_attribute attributes.now) }
    ensures within { result ≤ most_impressions }
{
    match Field::Impressions.value(operation, attributes) {
        Some(value) => count_of(value).unwrap_or(0),
        None => 0,
    }
}

/// How many jobs are wanted at most (limit), 1 or more. None where the request does not say.
#[tactic(auto, unfolding(crate::specs::Fields::limit))]
fn limit(operation: Operation, attributes: &[Attribute<'_>]) -> Option<u32>
    ensures limit { result ≡ said.limit operation (map plain_attribute attributes.now) }
    ensures within { IfSome result (λ limit. 1 ≤ limit) }
{
    positive_of(Field::Limit.value(operation, attributes)?)
}

/// Whether the keyword is `none`, or is not said. Compression and the encryption of passwords have
/// to be so.
pub(crate) fn is_none_if_said(keyword: Option<&[u8]>) -> bool
    ensures { result ≡ said.is_none_if_said (option_map (λ k. k.now) keyword.entry) }
{
    match keyword {
        Some(keyword) => keyword == b"none".as_slice(),
        None => true,
    }
}

/// The format of the document (document-format), octet-stream where the request does not say. None
/// where the format is not known.
#[tactic(auto, unfolding(crate::specs::Fields::document_format))]
pub(crate) fn document_format(operation: Operation, attributes: &[Attribute<'_>]) -> Option<Format>
    ensures { result ≡ said.document_format operation (map plain_attribute attributes.now) }
{
    match Field::DocumentFormat.bytes(operation, attributes) {
        Some(text) => Format::named(without_parameters(text)),
        None => Some(Format::OctetStream),
    }
}

/// A media type without its parameters: up to the first `;`.
fn without_parameters(text: &[u8]) -> &[u8]
    ensures { result.now ≡ said.without_parameters text.now }
{
    match first_semicolon(text) {
        Some(end) => &text[..end],
        None => text,
    }
}

fn first_semicolon(text: &[u8]) -> Option<usize>
    ensures place { result ≡ position (λ c. c == 59) text.now }
    ensures within { IfSome result (λ end. end < length text.now) }
{
    text.iter().position(|byte| *byte == b';')
}

/// The jobs that Get-Jobs asks for (which-jobs), the unfinished ones where the request does not
/// say. None where the keyword is another.
#[tactic(auto, unfolding(crate::specs::Fields::which_jobs))]
pub(crate) fn which_jobs(operation: Operation, attributes: &[Attribute<'_>]) -> Option<Which>
    ensures { result ≡ said.which_jobs operation (map plain_attribute attributes.now) }
{
    match Field::WhichJobs.bytes(operation, attributes) {
        Some(keyword) => which_named(keyword),
        None => Some(Which::NotCompleted),
    }
}

/// The jobs that the keyword asks for. None where it is another.
fn which_named(keyword: &[u8]) -> Option<Which>
    ensures { result ≡ said.which_named (Some keyword.now) }
{
    if keyword == b"completed".as_slice() {
        Some(Which::Completed)
    } else if keyword == b"not-completed".as_slice() {
        Some(Which::NotCompleted)
    } else {
        None
    }
}

/// Lists the names in requested-attributes. None where the request does not say.
#[tactic(auto, unfolding(crate::specs::Fields::wanted))]
pub(crate) fn wanted<'a>(
    alloc: Global,
    operation: Operation,
    attributes: &[Attribute<'a>],
) -> Result<Option<List<&'a [u8]>>, AskFault<'a>>
    ensures wanted { IfOk result
        (λ wanted. option_map plain_names wanted
        ≡ said.wanted operation (map plain_attribute attributes.now)) }
    ensures memory { IfErr result (λ fault. fault ≡ Memory) }
{
    match Field::RequestedAttributes.values(operation, attributes) {
        Some(values) => Ok(Some(names_of(alloc, values)?)),
        None => Ok(None),
    }
}

/// Lists the bytes of the values, which are names of attributes or of groups of attributes.
fn names_of<'a>(alloc: Global, values: &[Value<'a>]) -> Result<List<&'a [u8]>, AskFault<'a>>
    ensures names { IfOk result (λ names. names ≡ map (λ value. value.bytes) values.now) }
    ensures memory { IfErr result (λ fault. fault ≡ Memory) }
{
    let items = values.iter().map(|value| value.bytes).collect(alloc)?;
    Ok(List { items })
}
