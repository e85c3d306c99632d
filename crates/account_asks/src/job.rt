//! The standing of the job that Print-Job or Create-Job makes.

ghost use Rattle.std.specs.Prelude.{◌≡◌};
ghost use Rattle.account_rules.specs.NewJobs.{fresh};
ghost use Rattle.account_rules.specs.Standings.{IsStanding};
ghost use Rattle.account_asks.specs.Asks.{plain_ask, IsAsk};
ghost use Rattle.account_asks.specs.Operations.{is_print_job};

use crate::ask::Ask;
use account_rules::{Moment, Standing, fresh};

/// The standing of the job that a request makes at the moment `now`: held; closed with one
/// document for Print-Job, and open without one for any other, which is Create-Job.
pub fn new_job(ask: &Ask<'_>, now: Moment) -> Standing
    ensures made { result
        ≡ fresh (is_print_job ask.now.operation) ask.now.copies ask.now.impressions now }
    // What a request asks makes a standing within the ranges.
    ensures standing { IsAsk (plain_ask ask.now) → IsStanding result }
{
    fresh(
        ask.operation.is_print_job(),
        ask.copies,
        ask.impressions,
        now,
    )
}
