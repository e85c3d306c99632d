//! Laws on where your request is done, and what a refusal says of it. Nobody calls them at run
//! time; docs/PROMISES.md lists them.

ghost use Rattle.account_laws.specs.CodedRefusals.{RefusalsAreCoded};
ghost use Rattle.account_laws.specs.DoneWhere.{DoneExactlyWhere};
ghost use Rattle.account_laws.specs.RefusalMeanings.{RefusalsMean};
ghost use Rattle.account_laws.specs.RefusalOrder.{RefusedForTheFirst};
ghost use Rattle.account_laws.specs.ReturnedAttributes.{RefusalsSendBack};

/// Law: your request is done exactly where your account was opened, its bytes pass the checks of
/// requests, and nothing that you were told before stands against it.
pub fn requests_are_done()
    ensures { DoneExactlyWhere }
{}

/// Law: a refusal has the status code of its word, as the standard's table of codes has it.
#[tactic(auto, using(crate::proofs::CodedRefusals::refusals_are_coded))]
pub fn refusals_are_coded()
    ensures { RefusalsAreCoded }
{}

/// Law: a refusal means what its word says. Where your request is refused as it is read, whatever
/// its bytes, what the word says is true of them: of the message that they spell, the attributes
/// that it begins with, and what these name and say. It is the first word, in their order, of which
/// this is so: exactly with that your request is refused, and exactly where there is none it passes.
pub fn refusals_mean()
    ensures mean { RefusalsMean }
    ensures first { RefusedForTheFirst }
{}

/// Law: with a refusal of your request as it is read, those attributes of your job go back that are
/// not supported, where it is refused for them or for its document; and with any other nothing.
#[tactic(auto, using(crate::proofs::ReturnedAttributes::refusals_send_back))]
pub fn refusals_send_back()
    ensures { RefusalsSendBack }
{}
