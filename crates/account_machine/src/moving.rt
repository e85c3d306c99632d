//! Releases a job as if the quota allowed it, so that the quota is looked at last. And cuts a
//! refusal to its word, for stations.

ghost use Rattle.std.specs.Prelude.{◌≡◌, ◌≤◌, ℤ, IfOk};
ghost use Rattle.account_rules.specs.Keeping.{Keeps};
ghost use Rattle.account_machine.specs.Stations.{by_word};
ghost use Rattle.account_rules.specs.Acts.{ReleaseJob, StationRelease};
ghost use Rattle.account_rules.specs.Limits.{most_impressions, IsRate};
ghost use Rattle.account_rules.specs.Moves.{move};
ghost use Rattle.account_rules.specs.Standings.{IsStanding};
ghost use Rattle.account_rules.specs.StateLaws.{kept_to_quota};

use account_rules::{
    ENOUGH_LEFT, Job, Name, Refusal, Standing, Word, release_at_station, release_by_owner,
};

/// Releases the job over IPP as if the quota allowed it: `release_by_owner` with so many units left
/// that none is refused for them. The caller then keeps the result to what is left, by
/// `within_quota`.
pub fn released(standing: Standing, has_password: bool) -> Result<Standing, Refusal>
    requires { IsStanding standing }
    ensures moved { (left : ℤ) →
        move (ReleaseJob has_password left) standing ≡ kept_to_quota standing.state left result }
    ensures in_range { IfOk result IsStanding }
    ensures kept { IfOk result (Keeps standing) }
{
    release_by_owner(standing, has_password, ENOUGH_LEFT)
}

/// Releases the job at the station of a device with this rate as if the quota allowed it:
/// `release_at_station` with so many units left that none is refused for them. The caller then
/// keeps the result to what is left, by `within_quota`.
pub fn released_at(
    job: &Job,
    device: Name,
    rate: u32,
    password: &[u8],
    impressions: u32,
) -> Result<Standing, Refusal>
    requires standing { IsStanding job.now.standing }
    requires impressions { impressions ≤ most_impressions }
    requires rate { IsRate rate }
    ensures moved { (left : ℤ) →
        let act = StationRelease job.now.password device password.now impressions rate left in
        move act job.now.standing ≡ kept_to_quota job.now.standing.state left result }
    ensures in_range { IfOk result IsStanding }
    ensures kept { IfOk result (Keeps job.now.standing) }
{
    let kept = job.password.as_slice();
    release_at_station(
        job.standing,
        kept,
        device,
        password,
        impressions,
        rate,
        ENOUGH_LEFT,
    )
}

/// Cuts a refusal to its word, which is all that a station is told of it.
pub fn by_word(moved: Result<Standing, Refusal>) -> Result<Standing, Word>
    ensures { result ≡ by_word moved }
{
    match moved {
        Ok(standing) => Ok(standing),
        Err(refusal) => Err(refusal.word),
    }
}
