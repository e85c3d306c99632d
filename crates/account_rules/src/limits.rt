//! The numbers that bound an account, its jobs and its requests.

ghost use Rattle.std.specs.Prelude.{◌≡◌};
ghost use Rattle.account_rules.specs.Limits.{may_be_job};

/// The greatest integer that a message carries, which has 32 bits with the sign.
pub const GREATEST_INTEGER: u32 = 2_147_483_647;

/// The longest name of an account or a device, in bytes.
pub(crate) const LONGEST_NAME: usize = 32;

/// The longest URI, in bytes (RFC 8011 section 5.1.6).
pub const LONGEST_URI: usize = 1_023;

/// The most copies that a job may have.
pub const MOST_COPIES: u32 = 999;

/// The most impressions that one copy of a job may have, and that a device may complete of a job.
pub const MOST_IMPRESSIONS: u32 = GREATEST_INTEGER;

/// The most units that an impression may count on a device.
pub const MOST_RATE: u32 = 100;

/// The most units that one release can need.
pub(crate) const MOST_NEED: u64 = MOST_IMPRESSIONS as u64 * MOST_COPIES as u64 * MOST_RATE as u64;

/// The most documents that a job may have.
pub const MOST_DOCUMENTS: u32 = 8;

/// The last moment that the rules know, 2099-12-31T23:59:59Z, in seconds since
/// 1970-01-01T00:00:00Z.
pub const LAST_MOMENT: u64 = 4_102_444_799;

/// The longest name of a job, in bytes.
pub const LONGEST_JOB_NAME: usize = 255;

/// The longest password of a job, in bytes.
pub const LONGEST_PASSWORD: usize = 32;

/// The longest document, in bytes: 16 MiB.
pub const LONGEST_DOCUMENT: usize = 16_777_216;

/// The last number that a job may have.
pub const LAST_JOB: u32 = 999_999;

/// The most jobs of an account that have not ended.
pub const MOST_UNFINISHED: u32 = 100;

/// The most pages of one grant, in units.
pub const MOST_PAGES: u32 = 1_000_000_000;

/// A bound that units stay below: what an account's grants come to, and what its jobs ever reserve or
/// were ever charged.
pub const MOST_UNITS: u64 = 1_000_000_000_000_000_000;

/// The first month of grants, January 1970: the year times 12, and 0 for January to 11 for
/// December.
pub const FIRST_MONTH: u32 = 23_640;

/// The last month of grants, December 2099.
pub const LAST_MONTH: u32 = 25_199;

/// Whether a job may have the number: 1 to 999999. 0 stands for no job.
pub fn may_be_job(number: u32) -> bool
    ensures { result ≡ may_be_job number }
{
    1 <= number && number <= LAST_JOB
}
