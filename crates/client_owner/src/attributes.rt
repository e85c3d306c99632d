//! Finds the attributes of an answer by their names.
ghost use Rattle.std.specs.Prelude.{◌≡◌, map, option_map};
ghost use Rattle.ipp_coding.specs.Plain.{plain_attribute, plain_value};
ghost use Rattle.client_owner.specs.Answers.{number_named, unsigned_of, text_named, value_named};

use account_asks::{lone_value, named};
use ipp_coding::{Attribute, Value, int_of, text_of};

/// Gives the number of the first attribute with the name, if its one value is a number from 0 on.
pub(crate) fn number_named(attributes: &[Attribute<'_>], name: &[u8]) -> Option<u32>
    ensures { result ≡ number_named name.now (map plain_attribute attributes.now) }
{
    unsigned_of(value_named(attributes, name)?)
}

/// Gives the text of the first attribute with the name, if its one value is a text.
pub(crate) fn text_named<'a>(attributes: &[Attribute<'a>], name: &[u8]) -> Option<&'a [u8]>
    ensures { option_map (λ text. text.now) result
        ≡ text_named name.now (map plain_attribute attributes.now) }
{
    text_of(value_named(attributes, name)?)
}

/// Gives the number of an integer, if it is not negative.
fn unsigned_of(value: Value<'_>) -> Option<u32>
    ensures { result ≡ unsigned_of (plain_value value.entry) }
{
    u32::try_from(int_of(value)?).ok()
}

/// Gives the value of the first attribute with the name, if it has just one.
fn value_named<'a>(attributes: &[Attribute<'a>], name: &[u8]) -> Option<Value<'a>>
    ensures { option_map plain_value result
        ≡ value_named name.now (map plain_attribute attributes.now) }
{
    let attribute = named(attributes, name)?;
    lone_value(attribute.values.as_slice())
}
