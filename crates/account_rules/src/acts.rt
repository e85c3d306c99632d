//! What may be done to a job, one function for each act. It looks at the job's state, and gives the
//! job's next standing or why it is refused; the caller's own standing stays as it is. What the act
//! changes is in `effects.rt`. None takes memory.

ghost use Rattle.std.specs.Prelude.{◌≡◌, ◌≤◌, IfOk};
ghost use Rattle.account_rules.specs.Limits.{most_impressions, IsRate};
ghost use Rattle.account_rules.specs.Standings.{IsStanding};
ghost use Rattle.account_rules.specs.Keeping.{Keeps};
ghost use Rattle.account_rules.specs.Acts.{SendDocument, CancelJob, HoldJob, ReleaseJob, StationRelease, StationStart, StationSettle};
ghost use Rattle.account_rules.specs.Moves.{move};

use crate::effects;
use crate::job::{JobState, Standing};
use crate::moment::Moment;
use crate::name::Name;
use crate::refusal::{Refusal, Word};

/// Send-Document (RFC 8011 section 4.3.1): gives the job a document where there is data, and closes
/// it after the last one. Refused as `Closed`, and as `TooManyDocuments` where it has eight.
pub fn add_document(s: Standing, last: bool, some_data: bool) -> Result<Standing, Refusal>
    requires { IsStanding s }
    ensures moved { result ≡ move (SendDocument last some_data) s }
    ensures standing { IfOk result IsStanding }
{
    match s.state {
        JobState::Held => effects::document(s, last, some_data),
        JobState::Pending
        | JobState::Processing
        | JobState::Canceled
        | JobState::Aborted
        | JobState::Completed => Err(Refusal::not_possible(Word::Closed)),
    }
}

/// Cancel-Job (RFC 8011 section 4.3.3): ends a job that is not printed yet at the moment `now`, and
/// tells one that is processing to stop. Refused as `Stopping` where it was told, and as `Ended`.
pub fn cancel(s: Standing, now: Moment) -> Result<Standing, Refusal>
    requires { IsStanding s }
    ensures moved { result ≡ move (CancelJob now) s }
    ensures standing { IfOk result IsStanding }
    ensures kept { IfOk result (Keeps s) }
{
    match s.state {
        JobState::Held | JobState::Pending => Ok(effects::cancel(s, now)),
        JobState::Processing => effects::stop(s),
        JobState::Canceled | JobState::Aborted | JobState::Completed => {
            Err(Refusal::not_possible(Word::Ended))
        }
    }
}

/// Hold-Job (RFC 8011 section 4.3.5): takes a release back. Nothing happens to a job that is held.
/// Refused as `Printing` and as `Ended`.
pub fn hold(s: Standing) -> Result<Standing, Refusal>
    requires { IsStanding s }
    ensures moved { result ≡ move HoldJob s }
    ensures standing { IfOk result IsStanding }
    ensures kept { IfOk result (Keeps s) }
{
    match s.state {
        JobState::Held => Ok(s),
        JobState::Pending => Ok(effects::hold(s)),
        JobState::Processing => Err(Refusal::not_possible(Word::Printing)),
        JobState::Canceled | JobState::Aborted | JobState::Completed => {
            Err(Refusal::not_possible(Word::Ended))
        }
    }
}

/// Release-Job (RFC 8011 section 4.3.6): releases a held job to any device of rate 1, where what it
/// needs is within the units that are left. Nothing happens to a job that is released or
/// processing. Refused in this order: `Incomplete` (open, or without a document), `Password` (it
/// has one), `ImpressionsUnknown`, `Quota`; and as `Ended`. The quota comes last, since only where
/// all else lets the job go are the sums over the account's jobs read.
pub fn release_by_owner(s: Standing, has_password: bool, left: i64) -> Result<Standing, Refusal>
    requires { IsStanding s }
    ensures moved { result ≡ move (ReleaseJob has_password left) s }
    ensures standing { IfOk result IsStanding }
    ensures kept { IfOk result (Keeps s) }
{
    match s.state {
        JobState::Held => effects::release(s, has_password, left),
        JobState::Pending | JobState::Processing => Ok(s),
        JobState::Canceled | JobState::Aborted | JobState::Completed => {
            Err(Refusal::not_possible(Word::Ended))
        }
    }
}

/// Releases a held job at a station (this project's own): binds it to the station's device, whose
/// rate now is `rate` units an impression, where what it needs is within the units that are left.
/// `kept` is the job's password, empty where it has none. Impressions above 0 stand in for the
/// job's own. Refused as `NotHeld`, and then in this order: `Incomplete` (open, or without a
/// document), `Password` (it has one that is not the one given), `ImpressionsUnknown`, `Quota`, for
/// the reason above.
pub fn release_at_station(
    s: Standing,
    kept: &[u8],
    device: Name,
    given: &[u8],
    impressions: u32,
    rate: u32,
    left: i64,
) -> Result<Standing, Refusal>
    requires standing { IsStanding s }
    requires impressions { impressions ≤ most_impressions }
    requires rate { IsRate rate }
    ensures moved { result
        ≡ move (StationRelease kept.now device given.now impressions rate left) s }
    ensures standing { IfOk result IsStanding }
    ensures kept { IfOk result (Keeps s) }
{
    match s.state {
        JobState::Held => {
            effects::station_release(s, kept, device, given, impressions, rate, left)
        }
        JobState::Pending
        | JobState::Processing
        | JobState::Canceled
        | JobState::Aborted
        | JobState::Completed => Err(Refusal::not_possible(Word::NotHeld)),
    }
}

/// Starts a released job on a device, whose rate now is `rate`, at the moment `now` (this project's
/// own). Refused as `NotPending`, as `OtherDevice` where it is bound to another one, and as `Rate`
/// where it is bound to none and the device's rate is not 1.
pub fn start(s: Standing, device: Name, rate: u32, now: Moment) -> Result<Standing, Refusal>
    requires standing { IsStanding s }
    requires rate { IsRate rate }
    ensures moved { result ≡ move (StationStart device rate now) s }
    ensures standing { IfOk result IsStanding }
    ensures kept { IfOk result (Keeps s) }
{
    match s.state {
        JobState::Pending => effects::start(s, device, rate, now),
        JobState::Held
        | JobState::Processing
        | JobState::Canceled
        | JobState::Aborted
        | JobState::Completed => Err(Refusal::not_possible(Word::NotPending)),
    }
}

/// Ends a job at the moment `now` and charges the impressions that its device completed, all copies
/// included, at the job's rate (this project's own). Refused as `NotProcessing`, and as
/// `OtherDevice` where it is bound to another one.
pub fn settle(
    s: Standing,
    device: Name,
    impressions: u32,
    failed: bool,
    now: Moment,
) -> Result<Standing, Refusal>
    requires standing { IsStanding s }
    requires impressions { impressions ≤ most_impressions }
    ensures moved { result ≡ move (StationSettle device impressions failed now) s }
    ensures standing { IfOk result IsStanding }
    ensures kept { IfOk result (Keeps s) }
{
    match s.state {
        JobState::Processing => effects::settling(s, device, impressions, failed, now),
        JobState::Held
        | JobState::Pending
        | JobState::Canceled
        | JobState::Aborted
        | JobState::Completed => Err(Refusal::not_possible(Word::NotProcessing)),
    }
}
