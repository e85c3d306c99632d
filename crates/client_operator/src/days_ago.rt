//! Whether a moment lies so many days ago.
ghost use Rattle.std.specs.Prelude.{◌≡◌, ◌≤◌};
ghost use Rattle.client_operator.specs.Ages.{is_as_old};

/// The most days that an operator may ask for.
pub const MOST_DAYS: u32 = 36_500;

const SECONDS_OF_A_DAY: u64 = 86_400;

/// Whether a moment lies at least so many days of 86400 seconds before now. Both moments are in
/// seconds since 1970-01-01T00:00:00Z.
pub(crate) fn is_as_old(moment: u64, days: u32, now: u64) -> bool
    ensures { result ≡ is_as_old moment days now }
{
    let age = u64::from(days) * SECONDS_OF_A_DAY;
    match now.checked_sub(age) {
        Some(latest) => moment <= latest,
        None => false,
    }
}
