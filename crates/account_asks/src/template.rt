//! Reads the job template attributes of a request: the copies, and which attributes are not
//! supported.

ghost use Rattle.std.specs.Prelude.{◌≡◌, ◌≤◌, ◌||◌, not, IfOk, IfErr, IfSome, [], ◌∷◌, map, option_map, unwrap_or};
ghost use Rattle.ipp_coding.specs.Plain.{plain_value, plain_attribute, plain_message};
ghost use Rattle.account_rules.specs.Limits.{most_copies};
ghost use Rattle.account_asks.specs.declared.ask.AskFault.TheVariants.{Memory};
ghost use Rattle.account_asks.specs.Requests.{lone_value};
ghost use Rattle.account_asks.specs.Templates.{template_attributes, up_to_most, copies_said, copies, is_indefinite, holds_for_good, is_supported, is_known, unsupported_values, returned, unsupported};

use crate::ask::AskFault;
use crate::firsts::firsts_in;
use crate::operation::Operation;
use crate::request::{is_named, job_group, named};
use crate::syntax::{lone_value, positive_of};
use account_rules::MOST_COPIES;
use ipp_coding::tags::{KEYWORD, NAME_WITHOUT_LANGUAGE, UNSUPPORTED};
use ipp_coding::{Attribute, List, Message, Value};
use std::alloc::Global;

/// What the job template attributes of a request say.
#[derive(Drop)]
pub(crate) struct Templates<'a> {
    /// 1 to 999.
    pub(crate) copies: u32,
    /// Those that are not supported, as they are answered.
    pub(crate) unsupported: List<Attribute<'a>>,
}

impl<'a> Templates<'a> {
    /// Reads the attributes of the job group, where the operation makes a job. Else there is one
    /// copy, and nothing that is not supported.
    pub(crate) fn read(
        alloc: Global,
        operation: Operation,
        message: &Message<'a>,
    ) -> Result<Templates<'a>, AskFault<'a>>
        ensures copies { IfOk result
            (λ t. t.copies ≡ copies (template_attributes operation (plain_message message.now))) }
        ensures within { IfOk result (λ t. (1 ≤ t.copies) × (t.copies ≤ most_copies)) }
        ensures unsupported { IfOk result
            (λ t. map plain_attribute t.unsupported
            ≡ unsupported (template_attributes operation (plain_message message.now))) }
        ensures memory { IfErr result (λ fault. fault ≡ Memory) }
    {
        match template_attributes(operation, message) {
            Some(attributes) => Templates::of(alloc, attributes),
            None => Ok(Templates {
                copies: 1,
                unsupported: no_attributes(alloc),
            }),
        }
    }

    /// Reads the attributes of a job group.
    fn of(alloc: Global, attributes: &[Attribute<'a>]) -> Result<Templates<'a>, AskFault<'a>>
        ensures copies { IfOk result (λ t. t.copies ≡ copies (map plain_attribute attributes.now)) }
        ensures within { IfOk result (λ t. (1 ≤ t.copies) × (t.copies ≤ most_copies)) }
        ensures unsupported { IfOk result
            (λ t. map plain_attribute t.unsupported
            ≡ unsupported (map plain_attribute attributes.now)) }
        ensures memory { IfErr result (λ fault. fault ≡ Memory) }
    {
        Ok(Templates {
            copies: copies_in(attributes),
            unsupported: unsupported_in(alloc, attributes)?,
        })
    }
}

/// The empty list of attributes, which takes no memory.
pub(crate) fn no_attributes<'a>(alloc: Global) -> List<Attribute<'a>>
    ensures { result ≡ [] }
{
    List {
        items: Vec::new(alloc),
    }
}

/// The attributes of the job group, where the operation makes a job.
#[tactic(auto, unfolding(crate::specs::Templates::template_attributes))]
fn template_attributes<'m, 'a>(
    operation: Operation,
    message: &'m Message<'a>,
) -> Option<&'m [Attribute<'a>]>
    ensures { unwrap_or (option_map (λ attributes. map plain_attribute attributes.now) result) []
        ≡ template_attributes operation (plain_message message.now) }
{
    if operation.makes_job() {
        job_group(message.groups.as_slice())
    } else {
        None
    }
}

/// The copies that the attributes ask for; 1 where they do not say, or not well.
#[tactic(auto, unfolding(crate::specs::Templates::copies))]
fn copies_in(attributes: &[Attribute<'_>]) -> u32
    ensures copies { result ≡ copies (map plain_attribute attributes.now) }
    ensures within { (1 ≤ result) × (result ≤ most_copies) }
{
    match named(attributes, b"copies") {
        Some(attribute) => copies_of(attribute).unwrap_or(1),
        None => 1,
    }
}

/// The copies that the attribute asks for, 1 to 999. None where its value is not one integer of
/// these.
fn copies_of(attribute: &Attribute<'_>) -> Option<u32>
    ensures copies { result ≡ copies_said (plain_attribute attribute.now) }
    ensures within { IfSome result (λ copies. (1 ≤ copies) × (copies ≤ most_copies)) }
{
    let value = lone_value(attribute.values.as_slice())?;
    up_to_most(positive_of(value)?)
}

/// The number of copies, where a job may have so many.
fn up_to_most(copies: u32) -> Option<u32>
    ensures { result ≡ up_to_most copies }
{
    if copies <= MOST_COPIES {
        Some(copies)
    } else {
        None
    }
}

/// Lists the attributes that are not supported as they are answered, in their order, each name
/// once.
fn unsupported_in<'a>(
    alloc: Global,
    attributes: &[Attribute<'a>],
) -> Result<List<Attribute<'a>>, AskFault<'a>>
    ensures unsupported { IfOk result
        (λ list. map plain_attribute list ≡ unsupported (map plain_attribute attributes.now)) }
    ensures memory { IfErr result (λ fault. fault ≡ Memory) }
{
    let firsts = firsts_in(alloc, attributes)?;
    let mut items = Vec::new(alloc);
    for (place, attribute) in attributes.iter().enumerate() {
        // Of a name that comes again, the first counts.
        if firsts[place] && !is_supported(attribute) {
            items.push(returned(alloc, attribute)?)?;
        }
    }
    Ok(List { items })
}

/// Whether the attribute asks for what is done: 1 to 999 copies, or job-hold-until `indefinite`.
fn is_supported(attribute: &Attribute<'_>) -> bool
    ensures { result ≡ is_supported (plain_attribute attribute.now) }
{
    if is_named(attribute, b"copies") {
        copies_of(attribute).is_some()
    } else if is_named(attribute, b"job-hold-until") {
        holds_for_good(attribute)
    } else {
        false
    }
}

/// Whether the attribute has the one value `indefinite`.
fn holds_for_good(attribute: &Attribute<'_>) -> bool
    ensures { result ≡ holds_for_good (lone_value (map plain_value attribute.now.values)) }
{
    match lone_value(attribute.values.as_slice()) {
        Some(value) => is_indefinite(value),
        None => false,
    }
}

/// Whether the value is the keyword or the name `indefinite`.
fn is_indefinite(value: Value<'_>) -> bool
    ensures { result ≡ is_indefinite (plain_value value.entry) }
{
    (value.tag == KEYWORD || value.tag == NAME_WITHOUT_LANGUAGE)
        && value.bytes == b"indefinite".as_slice()
}

/// The attribute as it is answered as not supported: with its values where the attribute is known,
/// so that only these are not supported, else with the out-of-band value unsupported.
fn returned<'a>(alloc: Global, attribute: &Attribute<'a>) -> Result<Attribute<'a>, AskFault<'a>>
    ensures returned { IfOk result
        (λ a. plain_attribute a ≡ returned (plain_attribute attribute.now)) }
    ensures memory { IfErr result (λ fault. fault ≡ Memory) }
{
    let mut items = Vec::with_capacity(alloc, 1)?;
    if is_known(attribute) {
        items.extend_from_slice(attribute.values.as_slice())?;
    } else {
        items.push(Value {
            tag: UNSUPPORTED,
            bytes: b"",
        })?;
    }
    Ok(Attribute {
        name: attribute.name,
        values: List { items },
    })
}

/// Whether it is copies or job-hold-until. No other job template attribute is known.
fn is_known(attribute: &Attribute<'_>) -> bool
    ensures { result ≡ is_known (plain_attribute attribute.now) }
{
    is_named(attribute, b"copies") || is_named(attribute, b"job-hold-until")
}
