//! Checks the device of a station, and reckons what is left of the quota after a station's act.

ghost use Rattle.std.specs.Prelude.{◌≡◌, ◌≤◌, pos, ◌≤ℤ◌, option_copied, IfOk, IfErr, option_map};
ghost use Rattle.account_replies.specs.Stations.{known_device, ready_device, check_on, left_after, units_of};
ghost use Rattle.account_rules.specs.Limits.{most_units};
ghost use Rattle.account_rules.specs.Quota.{least_left, most_left};
ghost use Rattle.account_rules.specs.Standings.{IsStanding};

use account_rules::{Device, Standing, Word};

/// Gives back what is known of the device that a station speaks for. Refused as `NoDevice` where
/// there is none of its name.
pub fn known_device<D: Drop>(known: Option<D>) -> Result<D, Word>
    ensures { result ≡ known_device known }
{
    known.ok_or(Word::NoDevice)
}

/// Gives back the device, where it takes jobs. Refused as `NoDevice` where there is none, and as
/// `DeviceOff` where it is off.
pub fn ready_device(device: Option<Device>) -> Result<Device, Word>
    ensures { result ≡ ready_device device }
{
    let known = known_device(device)?;
    check_on(known.on)?;
    Ok(known)
}

/// Refuses a device that is off as `DeviceOff`.
pub fn check_on(on: bool) -> Result<(), Word>
    ensures { result ≡ check_on on }
{
    if on { Ok(()) } else { Err(Word::DeviceOff) }
}

/// What is left of the quota once a job's standing has changed, of what was left before, which is
/// from -2 * 10^18 to 10^18.
pub fn left_after(left: i64, before: &Standing, after: &Standing) -> i64
    requires low { least_left ≤ℤ left }
    requires high { left ≤ℤ most_left }
    requires before { IsStanding before.now }
    requires after { IsStanding after.now }
    ensures { result ≡ left_after left before.now after.now }
{
    left + units(before) - units(after)
}

/// The units that a job takes of the quota, reserved and charged.
fn units(standing: &Standing) -> i64
    requires { IsStanding standing.now }
    ensures units { result ≡ pos (units_of standing.now) }
    ensures bound { units_of standing.now ≤ most_units }
{
    (standing.reserved + standing.charged) as i64
}
