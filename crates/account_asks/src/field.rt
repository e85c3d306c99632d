//! `Field`: an operation attribute that is read. This file has the name of each, its syntax, the
//! operations that read it, and its value as it stands in a request; `fields.rt` has what the value
//! says.

ghost use Rattle.std.specs.Prelude.{◌≡◌, map, option_map};
ghost use Rattle.std.specs.List.{list_any};
ghost use Rattle.ipp_coding.specs.Plain.{plain_value, plain_attribute};
ghost use Rattle.account_asks.specs.Requests.{named};
ghost use Rattle.account_asks.specs.Fields.{row_of, may_be_absent, is_well, is_wrong, any_is_wrong, all_fields, values_of, value_of, bytes_of};

use crate::operation::Operation;
use crate::request::named;
use crate::syntax::{Syntax, lone_value};
use ipp_coding::{Attribute, Value};

/// An operation attribute that is read (RFC 8011 sections 4.2 and 4.3, PWG 5100.11 for the
/// passwords).
#[derive(Clone, Copy, PartialEq, Eq)]
pub(crate) enum Field {
    JobName,
    Fidelity,
    Impressions,
    Password,
    PasswordEncryption,
    DocumentFormat,
    Compression,
    LastDocument,
    WhichJobs,
    Limit,
    MyJobs,
    RequestedAttributes,
}

/// All of them, through which check 9 goes.
const ALL: [Field; 12] = [
    Field::JobName,
    Field::Fidelity,
    Field::Impressions,
    Field::Password,
    Field::PasswordEncryption,
    Field::DocumentFormat,
    Field::Compression,
    Field::LastDocument,
    Field::WhichJobs,
    Field::Limit,
    Field::MyJobs,
    Field::RequestedAttributes,
];

/// Whether an attribute that the operation reads has a wrong syntax, or is missing where it has to
/// be there: check 9.
#[tactic(auto, unfolding(crate::specs::Fields::any_is_wrong))]
pub(crate) fn any_is_wrong(operation: Operation, attributes: &[Attribute<'_>]) -> bool
    ensures { result ≡ any_is_wrong operation (map plain_attribute attributes.now) }
{
    ALL.iter()
        .any(|field| field.is_wrong(operation, attributes))
}

impl Field {
    /// The values of the attribute, where the operation reads it and it is there.
    #[tactic(auto, unfolding(crate::specs::Fields::values_of))]
    pub(crate) fn values<'m, 'a>(
        self,
        operation: Operation,
        attributes: &'m [Attribute<'a>],
    ) -> Option<&'m [Value<'a>]>
        ensures { option_map (λ values. map plain_value values.now) result
            ≡ values_of self operation (map plain_attribute attributes.now) }
    {
        if self.is_read_by(operation) {
            let attribute = named(attributes, self.name())?;
            Some(attribute.values.as_slice())
        } else {
            None
        }
    }

    /// The attribute's one value. None where the operation does not read it, or it has not just
    /// one.
    #[tactic(auto, unfolding(crate::specs::Fields::value_of))]
    pub(crate) fn value<'a>(
        self,
        operation: Operation,
        attributes: &[Attribute<'a>],
    ) -> Option<Value<'a>>
        ensures { option_map plain_value result
            ≡ value_of self operation (map plain_attribute attributes.now) }
    {
        lone_value(self.values(operation, attributes)?)
    }

    /// The bytes of the attribute's one value.
    pub(crate) fn bytes<'a>(
        self,
        operation: Operation,
        attributes: &[Attribute<'a>],
    ) -> Option<&'a [u8]>
        ensures { option_map (λ bytes. bytes.now) result
            ≡ bytes_of self operation (map plain_attribute attributes.now) }
    {
        Some(self.value(operation, attributes)?.bytes)
    }

    /// Whether the operation reads the attribute, and it is not as it has to be.
    #[tactic(auto, unfolding(crate::specs::Fields::is_wrong))]
    fn is_wrong(self, operation: Operation, attributes: &[Attribute<'_>]) -> bool
        ensures { result ≡ is_wrong operation (map plain_attribute attributes.now) self }
    {
        self.is_read_by(operation) && !self.is_well(attributes)
    }

    /// Whether the attribute's values are of its syntax, or it is not there and may be absent.
    fn is_well(self, attributes: &[Attribute<'_>]) -> bool
        ensures { result
            ≡ is_well self (named (row_of self).name (map plain_attribute attributes.now)) }
    {
        match named(attributes, self.name()) {
            Some(attribute) => self.syntax().fits(attribute.values.as_slice()),
            None => self.may_be_absent(),
        }
    }

    /// Whether a request may leave the attribute out: each but last-document.
    fn may_be_absent(self) -> bool
        ensures { result ≡ may_be_absent self }
    {
        !matches!(self, Field::LastDocument)
    }

    /// The attribute's name in a request.
    fn name(self) -> &'static [u8]
        ensures { result.now ≡ (row_of self).name }
    {
        match self {
            Field::JobName => b"job-name",
            Field::Fidelity => b"ipp-attribute-fidelity",
            Field::Impressions => b"job-impressions",
            Field::Password => b"job-password",
            Field::PasswordEncryption => b"job-password-encryption",
            Field::DocumentFormat => b"document-format",
            Field::Compression => b"compression",
            Field::LastDocument => b"last-document",
            Field::WhichJobs => b"which-jobs",
            Field::Limit => b"limit",
            Field::MyJobs => b"my-jobs",
            Field::RequestedAttributes => b"requested-attributes",
        }
    }

    /// What the attribute's values have to be.
    fn syntax(self) -> Syntax
        ensures { result ≡ (row_of self).syntax }
    {
        match self {
            Field::JobName => Syntax::Name,
            Field::Fidelity | Field::LastDocument | Field::MyJobs => Syntax::Boolean,
            Field::Impressions => Syntax::Count,
            Field::Limit => Syntax::Positive,
            Field::Password => Syntax::Octets,
            Field::PasswordEncryption | Field::Compression | Field::WhichJobs => Syntax::Keyword,
            Field::DocumentFormat => Syntax::MediaType,
            Field::RequestedAttributes => Syntax::Keywords,
        }
    }

    /// Whether the operation reads the attribute. One that it does not read may say anything.
    fn is_read_by(self, operation: Operation) -> bool
        ensures { result ≡ (row_of self).is_read_by operation }
    {
        match self {
            Field::JobName
            | Field::Fidelity
            | Field::Impressions
            | Field::Password
            | Field::PasswordEncryption => operation.makes_job(),
            Field::DocumentFormat | Field::Compression => operation.describes_document(),
            Field::LastDocument => operation.is_send_document(),
            Field::WhichJobs | Field::Limit | Field::MyJobs => operation.is_get_jobs(),
            Field::RequestedAttributes => operation.lists_attributes(),
        }
    }
}
