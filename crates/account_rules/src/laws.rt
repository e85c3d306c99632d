//! Laws on the table of states: functions without a body, whose contract is a fact about the
//! definitions in `specs`, whoever moves a job. Nobody calls them at run time; docs/PROMISES.md
//! lists them.

ghost use Rattle.account_rules.specs.Formats.{MediaTypesAreRead};
ghost use Rattle.account_rules.specs.StateLaws.{EndedJobsStay, OnlySettlingCharges, ReleasesFixRates, ReleasesReserve, ReleasesGoByWhatIsLeft, ReservationsAreGivenBack, ReservationsStay, PasswordsAreAsked, OnlyStartsProcess, QuotaComesLast};

/// Law: a job that has ended never changes again.
pub fn ended_jobs_stay()
    ensures { EndedJobsStay }
{}

/// Law: only settling charges a job, the device's count times the rate of the job.
pub fn only_settling_charges()
    ensures { OnlySettlingCharges }
{}

/// Law: the rate of a released job is the one that its release fixed, until it is held again.
pub fn releases_fix_rates()
    ensures { ReleasesFixRates }
{}

/// Law: a release reserves impressions times copies times rate, and never more than is left.
pub fn releases_reserve()
    ensures { ReleasesReserve }
{}

/// Law: a release of a held job that nothing else refuses is accepted exactly where what it needs
/// is at most what is left.
pub fn releases_go_by_what_is_left()
    ensures { ReleasesGoByWhatIsLeft }
{}

/// Law: what is reserved is given back whole when the job is held, canceled or settled.
pub fn reservations_are_given_back()
    ensures { ReservationsAreGivenBack }
{}

/// Law: what is reserved stays as it is until the job is held, canceled or settled.
pub fn reservations_stay()
    ensures { ReservationsStay }
{}

/// Law: nothing but a release makes a job pending, and one with a password becomes pending at a
/// station alone, by exactly its password.
#[tactic(auto, using(crate::proofs::PasswordLemmas::right_password))]
pub fn passwords_are_asked()
    ensures { PasswordsAreAsked }
{}

/// Law: nothing but a start makes a job processing.
pub fn only_starts_process()
    ensures { OnlyStartsProcess }
{}

/// Law: a release is refused for the quota last of all. Asked with the units that are left it
/// answers what it answers where enough is left, but for the quota itself. So the units that are
/// left need to be known only where a release would else succeed.
#[tactic(auto, using(crate::proofs::QuotaLemmas::quota_is_last))]
pub fn quota_comes_last()
    ensures { QuotaComesLast }
{}

/// Law: reading a media type that was written gives its format.
pub fn media_types_are_read()
    ensures { MediaTypesAreRead }
{}
