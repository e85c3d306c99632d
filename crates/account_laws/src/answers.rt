//! Laws on lines: what you are answered follows from what you were told before. Nobody calls them
//! at run time; docs/PROMISES.md lists them.

ghost use Rattle.account_laws.specs.OperatorAnswers.{GrantsAreAnswered, OpeningsAreAnswered, RatesAreAnswered, TurnsAreAnswered};
ghost use Rattle.account_laws.specs.StationAnswers.{ReleasesAreAnswered, SettlementsAreAnswered, StartsAreAnswered};

/// Law: a station's line on your job is done exactly where nothing stands against it, and else is
/// told the first thing that does, in the order of the checks, by what you were told before.
#[tactic(auto, using(crate::proofs::StationsAnswered::releases_are_answered, crate::proofs::StationsAnswered::starts_are_answered, crate::proofs::StationsAnswered::settlements_are_answered))]
pub fn stations_are_answered()
    ensures releases { ReleasesAreAnswered }
    ensures starts { StartsAreAnswered }
    ensures settlements { SettlementsAreAnswered }
{}

/// Law: an operator's line on your account or on a device is done exactly where nothing stands
/// against it, and else is told the first thing that does, by what was told before.
#[tactic(auto, using(crate::proofs::OperatorsAnswered::openings_are_answered, crate::proofs::OperatorsAnswered::grants_are_answered, crate::proofs::OperatorsAnswered::turns_are_answered, crate::proofs::OperatorsAnswered::rates_are_answered))]
pub fn operators_are_answered()
    ensures openings { OpeningsAreAnswered }
    ensures grants { GrantsAreAnswered }
    ensures turns { TurnsAreAnswered }
    ensures rates { RatesAreAnswered }
{}
