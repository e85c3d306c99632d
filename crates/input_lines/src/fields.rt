//! `Fields`: takes the fields of a line, one after another, each as what it has to be.
ghost use Rattle.std.specs.Prelude.{◌≡◌, ◌==◌, ◌≤◌, ◌<◌, None, IfOk, IfSome, IsTrue, OnOk, length, position};
ghost use Rattle.account_rules.specs.Limits.{first_month, last_moment, last_month};
ghost use Rattle.input_lines.specs.Actions.{are_impressions};
ghost use Rattle.input_fields.specs.Fields.{SaysNumber};
ghost use Rattle.input_lines.specs.Saying.{SaysBytes, SaysImpressions, SaysMonth, SaysPassword, SaysWord, name_said};
ghost use Rattle.input_lines.specs.ProofTaking.{TakesField, TakesOne, left};

use account_machine::{LAST_MOMENT, MOST_IMPRESSIONS, Name};
use input_fields::FieldFault;
use std::alloc::Global;

/// The fields of a line that are not taken yet. They are parted by one space; `None` says that the
/// last was taken.
#[derive(Drop)]
pub(crate) struct Fields<'a> {
    pub(crate) rest: Option<&'a [u8]>,
}

impl<'a> Fields<'a> {
    /// Takes the next field. `Malformed` where none is left.
    pub(crate) fn take(&mut self) -> Result<&'a [u8], FieldFault>
        ensures took { IfOk result (λ field. TakesField (left self.old) (left self.new) field.now) }
    {
        let rest = self.rest.ok_or(FieldFault::Malformed)?;
        match first_space(rest) {
            Some(end) => {
                self.rest = Some(&rest[end + 1..]);
                Ok(&rest[..end])
            }
            None => {
                self.rest = None;
                Ok(rest)
            }
        }
    }

    /// Checks that no field is left. `Malformed` where one is.
    pub(crate) fn end(&self) -> Result<(), FieldFault>
        ensures none_left { OnOk result (left self.now ≡ None) }
    {
        match self.rest {
            None => Ok(()),
            Some(_) => Err(FieldFault::Malformed),
        }
    }

    /// Takes the next field as a moment, in seconds from 1970.
    pub(crate) fn moment(&mut self) -> Result<u64, FieldFault>
        ensures range { IfOk result (λ moment. moment ≤ last_moment) }
        ensures said { IfOk result (λ moment.
            TakesOne (left self.old) (left self.new) (λ field. SaysNumber field moment)) }
    {
        match input_fields::decimal(self.take()?) {
            Some(moment) if moment <= LAST_MOMENT => Ok(moment),
            _ => Err(FieldFault::Malformed),
        }
    }

    /// Takes the next field as a name.
    pub(crate) fn name(&mut self) -> Result<Name, FieldFault>
        ensures said { IfOk result (λ name. TakesField (left self.old) (left self.new) name) }
    {
        Name::read(self.take()?).ok_or(FieldFault::Malformed)
    }

    /// Takes the next field as a name, or a dash for none.
    pub(crate) fn name_if_any(&mut self) -> Result<Option<Name>, FieldFault>
        ensures said { IfOk result
            (λ name. TakesField (left self.old) (left self.new) (name_said name)) }
    {
        match self.take()? {
            b"-" => Ok(None),
            name => Ok(Some(Name::read(name).ok_or(FieldFault::Malformed)?)),
        }
    }

    /// Takes the next field as a number from `least` to `most`.
    pub(crate) fn number(&mut self, least: u32, most: u32) -> Result<u32, FieldFault>
        ensures range { IfOk result (λ number. (least ≤ number) × (number ≤ most)) }
        ensures said { IfOk result (λ number.
            TakesOne (left self.old) (left self.new) (λ field. SaysNumber field number)) }
    {
        input_fields::number(self.take()?, least, most).ok_or(FieldFault::Malformed)
    }

    /// Takes the next field as a month, `YYYY-MM`.
    pub(crate) fn month(&mut self) -> Result<u32, FieldFault>
        ensures range { IfOk result (λ month. (first_month ≤ month) × (month ≤ last_month)) }
        ensures said { IfOk result (λ month.
            TakesOne (left self.old) (left self.new) (λ field. SaysMonth field month)) }
    {
        input_fields::month(self.take()?).ok_or(FieldFault::Malformed)
    }

    /// Takes the next field as one of two words, and answers whether it is `yes`.
    pub(crate) fn choice(&mut self, yes: &[u8], no: &[u8]) -> Result<bool, FieldFault>
        ensures said { IfOk result (λ it.
            TakesOne (left self.old) (left self.new) (λ field. SaysWord yes.now no.now field it)) }
    {
        input_fields::choice(self.take()?, yes, no).ok_or(FieldFault::Malformed)
    }

    /// Takes the next field as bytes in hexadecimal.
    pub(crate) fn bytes(&mut self, alloc: Global) -> Result<Vec<u8>, FieldFault>
        ensures said { IfOk result (λ bytes.
            TakesOne (left self.old) (left self.new) (λ field. SaysBytes field bytes.items)) }
    {
        input_fields::bytes(alloc, self.take()?)
    }

    /// Takes the next field as a password in hexadecimal, or a dash for none.
    pub(crate) fn password(&mut self, alloc: Global) -> Result<Vec<u8>, FieldFault>
        ensures said { IfOk result (λ password.
            TakesOne (left self.old) (left self.new) (λ field. SaysPassword field password.items)) }
    {
        match self.take()? {
            b"-" => Ok(Vec::new(alloc)),
            digits => input_fields::bytes(alloc, digits),
        }
    }

    /// Takes the next field as impressions, from 1, or a dash where they are left out.
    pub(crate) fn impressions(&mut self) -> Result<Option<u32>, FieldFault>
        ensures range { IfOk result (λ impressions. IsTrue (are_impressions impressions)) }
        ensures said { IfOk result (λ impressions.
            TakesOne (left self.old) (left self.new) (λ field. SaysImpressions field impressions)) }
    {
        match self.take()? {
            b"-" => Ok(None),
            digits => {
                let impressions = input_fields::number(digits, 1, MOST_IMPRESSIONS);
                Ok(Some(impressions.ok_or(FieldFault::Malformed)?))
            }
        }
    }
}

/// The place of the first space.
fn first_space(text: &[u8]) -> Option<usize>
    ensures place { result ≡ position (λ b. b == 32) text.now }
    ensures within { IfSome result (λ end. end < length text.now) }
{
    text.iter().position(|byte| *byte == b' ')
}
