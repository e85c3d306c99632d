//! What each act of `acts.rt` makes of a job whose state allows it: the fields that change, and
//! what else may refuse it.

ghost use Rattle.std.specs.Prelude.{◌≡◌, ◌≤◌, false, IsNone, IfOk};
ghost use Rattle.account_rules.specs.Limits.{most_impressions, IsRate};
ghost use Rattle.account_rules.specs.Standings.{IsStanding};
ghost use Rattle.account_rules.specs.Effects.{after_document, after_cancel, after_stop, after_hold, after_reserving, after_release, after_station_release, after_start, after_settling, is_incomplete, is_wrong_password, impressions_of, is_bound_elsewhere, end_of};

use crate::job::{JobState, Standing};
use crate::limits::MOST_DOCUMENTS;
use crate::moment::Moment;
use crate::name::Name;
use crate::quota;
use crate::refusal::{Refusal, Word};

/// Gives the job one document more where there is data, and closes it where that was the last.
/// Refused as `Closed` where the job is closed, and as `TooManyDocuments` where it has eight.
pub(crate) fn document(s: Standing, last: bool, some_data: bool) -> Result<Standing, Refusal>
    ensures { result ≡ after_document s last some_data }
{
    if !s.is_open {
        return Err(Refusal::not_possible(Word::Closed));
    }
    if !some_data {
        return Ok(Standing {
            is_open: !last,
            ..s
        });
    }
    if s.documents >= MOST_DOCUMENTS {
        return Err(Refusal::too_many_documents());
    }
    Ok(Standing {
        is_open: !last,
        documents: s.documents + 1,
        ..s
    })
}

/// Ends the job as canceled at the moment `now`, and gives back the units that it reserved.
pub(crate) fn cancel(s: Standing, now: Moment) -> Standing
    ensures { result ≡ after_cancel s now }
{
    Standing {
        state: JobState::Canceled,
        is_open: false,
        reserved: 0,
        ended: Some(now.seconds()),
        ..s
    }
}

/// Tells a job that a device prints to stop: it ends where the device settles it. Refused as
/// `Stopping` where it was told before.
pub(crate) fn stop(s: Standing) -> Result<Standing, Refusal>
    requires standing { IsStanding s }
    requires state { s.state ≡ JobState.Processing }
    ensures moved { result ≡ after_stop s }
    ensures standing { IfOk result IsStanding }
{
    if s.stopping {
        return Err(Refusal::not_possible(Word::Stopping));
    }
    Ok(Standing {
        stopping: true,
        ..s
    })
}

/// Takes a release back: the job is held, at rate 1, reserves nothing and is bound to no device.
pub(crate) fn hold(s: Standing) -> Standing
    ensures { result ≡ after_hold s }
{
    Standing {
        state: JobState::Held,
        reserved: 0,
        rate: 1,
        device: None,
        ..s
    }
}

/// Releases the job for its owner over IPP, at rate 1 and for any device of that rate. `left` are
/// the units of the quota that are left. The first that applies refuses: incomplete, password,
/// impressions unknown, quota.
pub(crate) fn release(s: Standing, has_password: bool, left: i64) -> Result<Standing, Refusal>
    requires standing { IsStanding s }
    requires state { s.state ≡ JobState.Held }
    ensures moved { result ≡ after_release s has_password left }
    ensures standing { IfOk result IsStanding }
{
    if is_incomplete(&s) {
        return Err(Refusal::not_possible(Word::Incomplete));
    }
    if has_password {
        return Err(Refusal::not_possible(Word::Password));
    }
    let impressions = s.impressions;
    reserving(s, impressions, 1, None, left)
}

/// Releases the job at a station, for the station's device and at its rate. `kept` is the job's
/// password, empty where it has none, and `given` the one that was typed. `handed_in` is the number
/// of impressions that the station tells, which goes before the owner's, or 0. `left` are the units
/// of the quota that are left. The first that applies refuses: incomplete, password, impressions
/// unknown, quota.
pub(crate) fn station_release(
    s: Standing,
    kept: &[u8],
    device: Name,
    given: &[u8],
    handed_in: u32,
    rate: u32,
    left: i64,
) -> Result<Standing, Refusal>
    requires standing { IsStanding s }
    requires state { s.state ≡ JobState.Held }
    requires handed_in { handed_in ≤ most_impressions }
    requires rate { IsRate rate }
    ensures moved { result ≡ after_station_release s kept.now device given.now handed_in rate left }
    ensures standing { IfOk result IsStanding }
{
    if is_incomplete(&s) {
        return Err(Refusal::not_possible(Word::Incomplete));
    }
    if is_wrong_password(kept, given) {
        return Err(Refusal::not_possible(Word::Password));
    }
    let impressions = impressions_of(&s, handed_in);
    reserving(s, impressions, rate, Some(device), left)
}

/// Makes the job pending, and reserves the units that it needs at most: impressions of one copy
/// times copies times rate. Refused where the impressions are 0, which is unknown, or where fewer
/// units are left. It waits for the device, or with None for any device of rate 1.
fn reserving(
    s: Standing,
    impressions: u32,
    rate: u32,
    device: Option<Name>,
    left: i64,
) -> Result<Standing, Refusal>
    requires standing { IsStanding s }
    requires state { s.state ≡ JobState.Held }
    requires complete { is_incomplete s ≡ false }
    requires impressions { impressions ≤ most_impressions }
    requires rate { IsRate rate }
    requires rate_one { IsNone device → rate ≡ 1 }
    ensures moved { result ≡ after_reserving s impressions rate device left }
    ensures standing { IfOk result IsStanding }
{
    if impressions == 0 {
        return Err(Refusal::not_possible(Word::ImpressionsUnknown));
    }
    let need = quota::need(impressions, s.copies, rate);
    if quota::exceeds(need, left) {
        return Err(Refusal::not_possible(Word::Quota { need, left }));
    }
    Ok(Standing {
        state: JobState::Pending,
        impressions,
        reserved: need,
        rate,
        device,
        ..s
    })
}

/// Makes the job processing on the device, from the moment `now` on. Refused as `OtherDevice` where
/// it is bound to another one, and as `Rate` where it is bound to none and the rate is not 1.
pub(crate) fn start(s: Standing, device: Name, rate: u32, now: Moment) -> Result<Standing, Refusal>
    ensures { result ≡ after_start s device rate now }
{
    if is_bound_elsewhere(s.device, device) {
        return Err(Refusal::not_possible(Word::OtherDevice));
    }
    if s.device.is_none() && rate != 1 {
        return Err(Refusal::not_possible(Word::Rate));
    }
    Ok(Standing {
        state: JobState::Processing,
        device: Some(device),
        started: Some(now.seconds()),
        ..s
    })
}

/// Ends the job at the moment `now`, and charges the impressions that the device completed, at the
/// rate of the release. Refused as `OtherDevice` where it is bound to another one.
pub(crate) fn settling(
    s: Standing,
    device: Name,
    completed: u32,
    failed: bool,
    now: Moment,
) -> Result<Standing, Refusal>
    requires standing { IsStanding s }
    requires state { s.state ≡ JobState.Processing }
    requires completed { completed ≤ most_impressions }
    ensures moved { result ≡ after_settling s device completed failed now }
    ensures standing { IfOk result IsStanding }
{
    if is_bound_elsewhere(s.device, device) {
        return Err(Refusal::not_possible(Word::OtherDevice));
    }
    let state = end_of(s.stopping, failed);
    let charged = quota::charge(completed, s.rate);
    Ok(Standing {
        state,
        is_open: false,
        reserved: 0,
        charged,
        ended: Some(now.seconds()),
        ..s
    })
}

/// Whether the job lacks what a release needs: it still takes documents, or has none.
pub fn is_incomplete(s: &Standing) -> bool
    ensures { result ≡ is_incomplete s.now }
{
    s.is_open || s.documents == 0
}

/// The impressions of one copy that a release at a station counts: those that were handed in there,
/// or where these are 0 the job's own.
fn impressions_of(s: &Standing, handed_in: u32) -> u32
    ensures { result ≡ impressions_of s.now handed_in }
{
    if handed_in > 0 {
        handed_in
    } else {
        s.impressions
    }
}

/// Whether the job has a password, and another one was given.
fn is_wrong_password(kept: &[u8], given: &[u8]) -> bool
    ensures { result ≡ is_wrong_password kept.now given.now }
{
    !kept.is_empty() && kept != given
}

/// Whether the job is bound to another device. Bound to none, it may go to any.
pub fn is_bound_elsewhere(bound: Option<Name>, device: Name) -> bool
    ensures { result ≡ is_bound_elsewhere bound device }
{
    match bound {
        None => false,
        Some(bound) => bound != device,
    }
}

/// The state in which a settled job ends: canceled where it was told to stop, else aborted where
/// its device failed, else completed.
fn end_of(stopping: bool, failed: bool) -> JobState
    ensures { result ≡ end_of stopping failed }
{
    match (stopping, failed) {
        (true, _) => JobState::Canceled,
        (false, true) => JobState::Aborted,
        (false, false) => JobState::Completed,
    }
}
