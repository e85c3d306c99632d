//! What a line of the desk does and came to, as its page tells it.
ghost use Rattle.std.specs.Prelude.{◌≡◌};
ghost use Rattle.serve_desk.specs.Acts.{came_by, came_of, came_told, deed_of, device_deed, onward_of, owner_deed};

use account_machine::{Answered, Reply, Verdict};
use account_rules::Word;
use input_lines::{Action, OwnerAct};
use page_pages::{Came, Deed, Onward};
use store_rounds::StoreFault;

/// Gives what the action does. `None` of an action that no operator asks.
pub(crate) fn deed_of(action: &Action) -> Option<Deed>
    ensures { result ≡ deed_of action.now }
{
    match action {
        Action::Open { .. } => Some(Deed::Open),
        Action::Grant { .. } => Some(Deed::Grant),
        Action::Device { on, .. } => Some(device_deed(*on)),
        Action::Rate { .. } => Some(Deed::Rate),
        Action::Owner(request) => Some(owner_deed(request.act)),
        _ => None,
    }
}

/// Gives what becomes of a device that is switched.
fn device_deed(on: bool) -> Deed
    ensures { result ≡ device_deed on }
{
    if on { Deed::TurnOn } else { Deed::TurnOff }
}

/// Gives what an operator does in the place of an owner.
fn owner_deed(act: OwnerAct) -> Deed
    ensures { result ≡ owner_deed act }
{
    match act {
        OwnerAct::Cancel => Deed::Cancel,
        OwnerAct::Hold => Deed::Hold,
    }
}

/// Gives the page to which the answer leads on: that of the account, or that of devices.
pub(crate) fn onward_of(action: &Action) -> Onward
    ensures { result ≡ onward_of action.now }
{
    match action {
        Action::Open { account } => Onward::Account(*account),
        Action::Grant { account, .. } => Onward::Account(*account),
        Action::Owner(request) => Onward::Account(request.account),
        Action::Device { .. } | Action::Rate { .. } => Onward::Devices,
        _ => Onward::Accounts,
    }
}

/// Gives what the line came to, by what it was told.
pub(crate) fn came_told(deed: Deed, told: &Result<Answered, StoreFault>) -> Came
    ensures { result ≡ came_told deed told.now }
{
    match told {
        Ok(answered) => came_of(deed, &answered.reply, answered.verdict),
        Err(_) => Came::Failed,
    }
}

/// Gives what the line came to. An account that is not open is the reason why nothing was done.
fn came_of(deed: Deed, reply: &Reply, verdict: Verdict) -> Came
    ensures { result ≡ came_of deed reply.now verdict }
{
    match reply {
        Reply::NoAccount => Came::Refused(Word::NoAccount),
        _ => came_by(deed, verdict),
    }
}

/// Gives what the line came to, by the verdict.
fn came_by(deed: Deed, verdict: Verdict) -> Came
    ensures { result ≡ came_by deed verdict }
{
    match verdict {
        Verdict::Done { .. } => Came::Done(deed),
        Verdict::Refused { refusal, .. } => Came::Refused(refusal.word),
    }
}
