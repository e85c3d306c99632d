//! `Parts`: the operation attributes of a request with where they lead and what they say, read
//! once, for all later checks.

ghost use Rattle.std.specs.Prelude.{◌≡◌, ◌<◌, ◌≤◌, IfOk, IfSome, length, map};
ghost use Rattle.ipp_coding.specs.Plain.{plain_attribute, plain_message};
ghost use Rattle.account_rules.specs.Limits.{longest_job_name, longest_password, most_impressions, last_next_job, longest_uri};
ghost use Rattle.account_asks.specs.ProofAskParts.{ask_parts, plain_parts, IsParts};
ghost use Rattle.account_asks.specs.CheckOrder.{attribute_checks, opening_checks};
ghost use Rattle.account_asks.specs.Refusals.{checked};
ghost use Rattle.account_asks.specs.ProofTelling.{told};
ghost use Rattle.account_asks.specs.Requests.{operation_attributes};

use crate::checks;
use crate::fields::Fields;
use crate::operation::Operation;
use crate::target::Target;
use account_rules::{Name, Refusal};
use ipp_coding::{Attribute, Message};

/// The operation attributes of a request, where it leads and what they say.
#[derive(Clone, Copy)]
pub(crate) struct Parts<'m, 'a> {
    pub(crate) attributes: &'m [Attribute<'a>],
    pub(crate) target: Target<'a>,
    pub(crate) fields: Fields<'a>,
}

impl<'m, 'a> Parts<'m, 'a> {
    /// Makes checks 4 to 16 of the message, and gives its parts or the first check that fails.
    pub(crate) fn read(
        operation: Operation,
        message: &'m Message<'a>,
        account: Name,
    ) -> Result<Parts<'m, 'a>, Refusal>
        ensures told { told plain_parts result
            ≡ checked
            (attribute_checks account operation (operation_attributes (plain_message message.now)))
            (ask_parts account operation (operation_attributes (plain_message message.now))) }
        ensures within { IfOk result (λ parts. IsParts (plain_parts parts)) }
    {
        let attributes = opened(message)?;
        let target = Target::read(operation, attributes, account)?;
        let fields = Fields::read(operation, attributes)?;
        Ok(Parts {
            attributes,
            target,
            fields,
        })
    }
}

/// Makes checks 4 and 5, and hands on the operation attributes.
#[tactic(auto, unfolding(crate::specs::CheckOrder::opening_checks))]
fn opened<'m, 'a>(message: &'m Message<'a>) -> Result<&'m [Attribute<'a>], Refusal>
    ensures { told (λ attributes. map plain_attribute attributes.now) result
        ≡ checked
        (opening_checks (operation_attributes (plain_message message.now)))
        (operation_attributes (plain_message message.now)) }
{
    let attributes = checks::charset_and_language(message)?;
    checks::charset(attributes)?;
    Ok(attributes)
}
