//! Finds groups and attributes in a message, and single values under a tag.

// The parts of a message that the checks look at.
ghost use Rattle.std.specs.Prelude.{◌≡◌, ◌==◌, option_map, option_copied, map, find};
ghost use Rattle.ipp_coding.specs.Plain.{plain_value, plain_attribute, plain_group};
ghost use Rattle.account_asks.specs.Requests.{bytes_under, single_under, is_named, named, single_named, single_if_named, operation_group_of, job_group_of, charset_first, language_second};

use crate::syntax::lone_value;
use ipp_coding::tags::{CHARSET, JOB_ATTRIBUTES, NATURAL_LANGUAGE, OPERATION_ATTRIBUTES};
use ipp_coding::{Attribute, Group, Value};

/// The attributes of the first group, where it is an operation group.
pub fn operation_group<'m, 'a>(groups: &'m [Group<'a>]) -> Option<&'m [Attribute<'a>]>
    ensures { option_map (λ attributes. map plain_attribute attributes.now) result
        ≡ operation_group_of (map plain_group groups.now) }
{
    let group = groups.first()?;
    if group.tag == OPERATION_ATTRIBUTES {
        Some(group.attributes.as_slice())
    } else {
        None
    }
}

/// The attributes of the first job group.
pub fn job_group<'m, 'a>(groups: &'m [Group<'a>]) -> Option<&'m [Attribute<'a>]>
    ensures { option_map (λ attributes. map plain_attribute attributes.now) result
        ≡ job_group_of (map plain_group groups.now) }
{
    let group = first_job_group(groups)?;
    Some(group.attributes.as_slice())
}

/// The first group with the tag of job attributes.
fn first_job_group<'m, 'a>(groups: &'m [Group<'a>]) -> Option<&'m Group<'a>>
    ensures { option_copied result ≡ find (λ g. g.tag == 2) groups.now }
{
    groups.iter().find(|group| group.tag == JOB_ATTRIBUTES)
}

/// The value of attributes-charset, where it is the first attribute and has one value, of that
/// syntax.
pub(crate) fn charset_first<'a>(attributes: &[Attribute<'a>]) -> Option<&'a [u8]>
    ensures { option_map (λ charset. charset.now) result
        ≡ charset_first (map plain_attribute attributes.now) }
{
    let charset = attributes.first()?;
    single_if_named(charset, b"attributes-charset", CHARSET)
}

/// The value of attributes-natural-language, where it is the second attribute and has one value, of
/// that syntax.
pub(crate) fn language_second<'a>(attributes: &[Attribute<'a>]) -> Option<&'a [u8]>
    ensures { option_map (λ language. language.now) result
        ≡ language_second (map plain_attribute attributes.now) }
{
    let language = attributes.get(1)?;
    single_if_named(language, b"attributes-natural-language", NATURAL_LANGUAGE)
}

/// The bytes of the first attribute with the name, where it has one value under the tag.
pub(crate) fn single_named<'a>(
    attributes: &[Attribute<'a>],
    name: &[u8],
    tag: u8,
) -> Option<&'a [u8]>
    ensures { option_map (λ bytes. bytes.now) result
        ≡ single_named name.now tag (map plain_attribute attributes.now) }
{
    let attribute = named(attributes, name)?;
    single_under(attribute, tag)
}

/// The first attribute with the name.
pub fn named<'m, 'a>(attributes: &'m [Attribute<'a>], name: &[u8]) -> Option<&'m Attribute<'a>>
    ensures { option_map (λ attribute. plain_attribute attribute.now) result
        ≡ named name.now (map plain_attribute attributes.now) }
{
    first_named(attributes, name)
}

/// Finds the first attribute with the name. `named` promises the same, but of what attributes stand
/// for.
fn first_named<'m, 'a>(attributes: &'m [Attribute<'a>], name: &[u8]) -> Option<&'m Attribute<'a>>
    ensures { option_copied result
        ≡ find (λ a. is_named name.now (plain_attribute a)) attributes.now }
{
    attributes
        .iter()
        .find(|attribute| is_named(attribute, name))
}

/// Whether the attribute has the name.
pub(crate) fn is_named(attribute: &Attribute<'_>, name: &[u8]) -> bool
    ensures { result ≡ is_named name.now (plain_attribute attribute.now) }
{
    attribute.name == name
}

/// The bytes of the attribute's one value, where it has the name, and the value the tag.
fn single_if_named<'a>(attribute: &Attribute<'a>, name: &[u8], tag: u8) -> Option<&'a [u8]>
    ensures { option_map (λ bytes. bytes.now) result
        ≡ single_if_named name.now tag (plain_attribute attribute.now) }
{
    if is_named(attribute, name) {
        single_under(attribute, tag)
    } else {
        None
    }
}

/// The bytes of the attribute's value, where it has just one, with the tag.
fn single_under<'a>(attribute: &Attribute<'a>, tag: u8) -> Option<&'a [u8]>
    ensures { option_map (λ bytes. bytes.now) result
        ≡ single_under tag (plain_attribute attribute.now) }
{
    let value = lone_value(attribute.values.as_slice())?;
    bytes_under(value, tag)
}

/// The bytes of the value, where it has the tag.
fn bytes_under<'a>(value: Value<'a>, tag: u8) -> Option<&'a [u8]>
    ensures { option_map (λ bytes. bytes.now) result ≡ bytes_under tag (plain_value value.entry) }
{
    if value.tag == tag {
        Some(value.bytes)
    } else {
        None
    }
}
