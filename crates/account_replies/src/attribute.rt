//! Appends single attributes to a response, by the syntax of their values. Where memory runs out a
//! part of one may be left; the callers take it back.

ghost use Rattle.std.specs.Prelude.{◌≡◌, [], ◌∷◌, ◌≤◌, None, OnErr, map, take, length};
ghost use Rattle.std.specs.List.{flat_map, AllByRecursion};
ghost use Rattle.ipp_coding.specs.Plain.{plain_value, plain_attribute};
ghost use Rattle.ipp_coding.specs.Spelling.{attribute_spelling, further_spelling, AreValues, Fits, IsAttribute, IsValue};
ghost use Rattle.ipp_coding.specs.Writing.{group_refusal};
ghost use Rattle.account_rules.specs.Limits.{greatest_integer};
ghost use Rattle.account_replies.specs.ProofAppends.{Appends};
ghost use Rattle.account_replies.specs.Attributes.{attribute_of, attribute_with, boolean_bytes, number_bytes};
ghost use Rattle.account_replies.specs.Limits.{IsAttributeName, IsPlace};
ghost use Rattle.account_replies.specs.Places.{plain_place, printer_uri};
ghost use Rattle.account_replies.specs.Times.{moment_values};

use crate::place::Place;
use ipp_coding::tags::{BOOLEAN, INTEGER, NO_VALUE, URI};
use ipp_coding::{Attribute, PutFault, Value, put_attribute, put_group, put_more};
use std::alloc::AllocError;

/// Makes lack of memory of a fault that can be nothing else: that of writing a part that fits.
pub fn want_of_memory(fault: PutFault) -> AllocError
    requires { fault ≡ PutFault.Memory }
{
    match fault {
        PutFault::Memory => AllocError,
        PutFault::TooLong | PutFault::EmptyName | PutFault::BadTag => unreachable!(),
    }
}

/// Appends the tag that begins a group.
pub(crate) fn begin_group(out: &mut Vec<u8>, tag: u8) -> Result<(), AllocError>
    requires { group_refusal tag ≡ None }
    ensures appended { Appends result out.old.items out.new.items (tag ∷ []) }
    ensures unchanged { OnErr result (out.new.items ≡ out.old.items) }
{
    put_group(out, tag).map_err(|fault| want_of_memory(fault))
}

/// Appends an attribute of one value.
pub(crate) fn put_single(
    out: &mut Vec<u8>,
    tag: u8,
    name: &[u8],
    value: &[u8],
) -> Result<(), AllocError>
    requires name { IsAttributeName name.now }
    requires tag { 0x10 ≤ tag }
    requires value { Fits value.now }
    ensures appended { Appends result out.old.items out.new.items
        (attribute_spelling (attribute_with name.now tag value.now)) }
    ensures unchanged { OnErr result (out.new.items ≡ out.old.items) }
{
    put_attribute(out, tag, name, value).map_err(|fault| want_of_memory(fault))
}

/// Appends an attribute of one integer or enum.
pub(crate) fn put_number(
    out: &mut Vec<u8>,
    tag: u8,
    name: &[u8],
    value: u32,
) -> Result<(), AllocError>
    requires name { IsAttributeName name.now }
    requires tag { 0x10 ≤ tag }
    requires value { value ≤ greatest_integer }
    ensures appended { Appends result out.old.items out.new.items
        (attribute_spelling (attribute_with name.now tag (number_bytes value))) }
    ensures unchanged { OnErr result (out.new.items ≡ out.old.items) }
{
    put_single(out, tag, name, &value.to_be_bytes())
}

/// Appends an attribute of one boolean.
pub(crate) fn put_boolean(out: &mut Vec<u8>, name: &[u8], value: bool) -> Result<(), AllocError>
    requires { IsAttributeName name.now }
    ensures appended { Appends result out.old.items out.new.items
        (attribute_spelling (attribute_with name.now 0x22 (boolean_bytes value))) }
    ensures unchanged { OnErr result (out.new.items ≡ out.old.items) }
{
    if value {
        return put_single(out, BOOLEAN, name, b"\x01");
    }
    put_single(out, BOOLEAN, name, b"\x00")
}

/// Appends an attribute that tells a moment in seconds as the printer counts them, with no-value
/// where the moment has not come.
pub(crate) fn put_moment(
    out: &mut Vec<u8>,
    name: &[u8],
    at: &Place<'_>,
    moment: Option<u64>,
) -> Result<(), AllocError>
    requires { IsAttributeName name.now }
    ensures appended { Appends result out.old.items out.new.items
        (attribute_spelling
        (attribute_of name.now (moment_values (plain_place at.entry.now) moment))) }
    ensures unchanged { OnErr result (out.new.items ≡ out.old.items) }
{
    match moment {
        None => put_single(out, NO_VALUE, name, b""),
        Some(moment) => put_number(out, INTEGER, name, at.up(moment)),
    }
}

/// Appends an attribute of one URI, that of the account's queue.
pub(crate) fn put_printer_uri(
    out: &mut Vec<u8>,
    name: &[u8],
    at: &Place<'_>,
) -> Result<(), AllocError>
    requires name { IsAttributeName name.now }
    requires place { IsPlace (plain_place at.now) }
    ensures appended { Appends result out.old.items out.new.items
        (attribute_spelling
        (attribute_with name.now 0x45 (printer_uri (plain_place at.entry.now)))) }
    ensures unchanged { OnErr result (out.new.items ≡ out.old.items) }
{
    let uri = at.printer_uri(*out.allocator())?;
    put_single(out, URI, name, &uri)
}

/// Appends attributes, each with its values.
pub(crate) fn put_attributes(
    out: &mut Vec<u8>,
    attributes: &[Attribute<'_>],
) -> Result<(), AllocError>
    requires { AllByRecursion IsAttribute (map plain_attribute attributes.now) }
    ensures appended { Appends result out.old.items out.new.items
        (flat_map attribute_spelling (map plain_attribute attributes.now)) }
    ensures front { take (length out.old.items) out.new.items ≡ out.old.items }
{
    for attribute in attributes {
        put_values(out, attribute.name, attribute.values.as_slice())?;
    }
    Ok(())
}

/// Appends an attribute with its values, of which there is at least one.
pub(crate) fn put_values(
    out: &mut Vec<u8>,
    name: &[u8],
    values: &[Value<'_>],
) -> Result<(), AllocError>
    requires name { IsAttributeName name.now }
    requires values { AreValues (map plain_value values.now) }
    ensures appended { Appends result out.old.items out.new.items
        (attribute_spelling (attribute_of name.now (map plain_value values.now))) }
    ensures front { take (length out.old.items) out.new.items ≡ out.old.items }
{
    let first = values[0];
    put_attribute(out, first.tag, name, first.bytes).map_err(|fault| want_of_memory(fault))?;
    put_further(out, &values[1..])
}

/// Appends further values of the attribute before them.
#[tactic(auto, using(crate::proofs::Values::each_is_value))]
fn put_further(out: &mut Vec<u8>, values: &[Value<'_>]) -> Result<(), AllocError>
    requires { AllByRecursion IsValue (map plain_value values.now) }
    ensures appended { Appends result out.old.items out.new.items
        (flat_map further_spelling (map plain_value values.now)) }
    ensures front { take (length out.old.items) out.new.items ≡ out.old.items }
{
    for value in values {
        put_value(out, *value)?;
    }
    Ok(())
}

/// Appends one further value of the attribute before it.
fn put_value(out: &mut Vec<u8>, value: Value<'_>) -> Result<(), AllocError>
    requires { IsValue (plain_value value) }
    ensures appended { Appends result out.old.items out.new.items
        (further_spelling (plain_value value.entry)) }
    ensures unchanged { OnErr result (out.new.items ≡ out.old.items) }
{
    put_more(out, value.tag, value.bytes).map_err(|fault| want_of_memory(fault))
}
