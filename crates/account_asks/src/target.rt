//! Finds where in the account's queue a request leads, from the URI that it gives: checks 6 to 8.

ghost use Rattle.std.specs.Prelude.{◌≡◌, ◌<◌, ◌≤◌, IfOk, IfSome, IsTrue, bytes_eq, length, map, option_map};
ghost use Rattle.std.specs.Char.{is_ascii_digit};
ghost use Rattle.std.specs.List.{list_all};
ghost use Rattle.std.specs.Str.Parse.{digits_value};
ghost use Rattle.ipp_coding.specs.Plain.{plain_attribute};
ghost use Rattle.account_rules.specs.Limits.{last_next_job, longest_uri};
ghost use Rattle.account_rules.specs.QueuePaths.{queue_path};
ghost use Rattle.account_asks.specs.Targets.{job_numbered, lone_integer, job_id, with_job_id, job_target, target_in, uri_of, starts_above_zero, is_job_number, job_number, job_in_path, in_queue, in_job, reached};
ghost use Rattle.account_asks.specs.ProofPlainParts.{HasNumber};
ghost use Rattle.account_asks.specs.CheckOrder.{target_checks};
ghost use Rattle.account_asks.specs.Checks.{target_of};
ghost use Rattle.account_asks.specs.Refusals.{checked};
ghost use Rattle.account_asks.specs.ProofTelling.{told};
ghost use Rattle.account_asks.specs.ProofPlainParts.{plain_named, plain_target, plain_uri};

use crate::checks;
use crate::operation::Operation;
use crate::request::{named, single_named};
use crate::syntax::{integer_of, lone_value};
use crate::uri::{Uri, parts_of};
use account_rules::{LAST_JOB, Name, QUEUES, Refusal};
use ipp_coding::Attribute;
use ipp_coding::tags::URI;

/// The attributes that name a target (RFC 8011 section 4.1.5).
#[derive(Clone, Copy)]
pub(crate) enum TargetUri<'a> {
    /// printer-uri, and the number of a job, 0 for none.
    Printer { uri: &'a [u8], job: u32 },
    Job { uri: &'a [u8] },
}

/// Where a target leads in the account's queue.
#[derive(Clone, Copy)]
pub(crate) struct Target<'a> {
    /// What stands before the path.
    pub(crate) base: &'a [u8],
    /// The number of a job, 0 for none.
    pub(crate) job: u32,
}

impl<'a> TargetUri<'a> {
    /// Reads the target from the operation attributes: printer-uri, or for an operation on a job
    /// either printer-uri with job-id, or job-uri. None where they are missing or not well.
    #[tactic(auto, unfolding(crate::specs::Targets::target_in))]
    pub(crate) fn read(operation: Operation, attributes: &[Attribute<'a>]) -> Option<TargetUri<'a>>
        ensures named { option_map plain_named result
            ≡ target_in operation (map plain_attribute attributes.now) }
        ensures number { IfSome result (λ target. HasNumber (plain_named target)) }
    {
        if operation.is_for_job() {
            return job_target(attributes);
        }
        let uri = single_named(attributes, b"printer-uri", URI)?;
        Some(TargetUri::Printer { uri, job: 0 })
    }

    /// The URI that was given, of the queue or of the job.
    pub(crate) fn uri(self) -> &'a [u8]
        ensures { result.now ≡ uri_of (plain_named self.entry) }
    {
        match self {
            TargetUri::Printer { uri, .. } => uri,
            TargetUri::Job { uri } => uri,
        }
    }

    /// Tells where the target leads, and None where that is not in the account's queue.
    #[tactic(auto, unfolding(crate::specs::Targets::reached))]
    pub(crate) fn reach(self, account: Name) -> Option<Target<'a>>
        requires { HasNumber (plain_named self) }
        ensures reached { option_map plain_target result
            ≡ reached account (plain_named self.entry) }
        ensures base { IfSome result
            (λ target. length target.base.now ≤ length (uri_of (plain_named self.entry))) }
        ensures job { IfSome result (λ target. target.job < last_next_job) }
    {
        match self {
            TargetUri::Printer { uri, job } => in_queue(parts_of(uri)?, account, job),
            TargetUri::Job { uri } => in_job(parts_of(uri)?, account),
        }
    }
}

impl<'a> Target<'a> {
    /// Makes checks 6 to 8, and gives where the request leads or the first check that its target
    /// fails.
    #[tactic(auto, unfolding(crate::specs::CheckOrder::target_checks, crate::specs::Checks::target_of))]
    pub(crate) fn read(
        operation: Operation,
        attributes: &[Attribute<'a>],
        account: Name,
    ) -> Result<Target<'a>, Refusal>
        ensures told { told plain_target result
            ≡ checked
            (target_checks account operation (map plain_attribute attributes.now))
            (target_of account operation (map plain_attribute attributes.now)) }
        ensures base { IfOk result (λ target. length target.base.now ≤ longest_uri) }
        ensures job { IfOk result (λ target. target.job < last_next_job) }
    {
        let target = checks::target(operation, attributes)?;
        checks::target_length(target)?;
        checks::queue(target, account)
    }
}

/// Reads the target of an operation on a job: printer-uri with job-id, or job-uri where there is no
/// printer-uri.
fn job_target<'a>(attributes: &[Attribute<'a>]) -> Option<TargetUri<'a>>
    ensures named { option_map plain_named result
        ≡ job_target (map plain_attribute attributes.now) }
    ensures number { IfSome result (λ target. HasNumber (plain_named target)) }
{
    if named(attributes, b"printer-uri").is_some() {
        let uri = single_named(attributes, b"printer-uri", URI)?;
        let job = job_id(attributes)?;
        Some(TargetUri::Printer { uri, job })
    } else {
        let uri = single_named(attributes, b"job-uri", URI)?;
        Some(TargetUri::Job { uri })
    }
}

/// The number that job-id gives, 0 where no job can have it. None where it is not there or not one
/// integer.
fn job_id(attributes: &[Attribute<'_>]) -> Option<u32>
    ensures number { result ≡ job_id (map plain_attribute attributes.now) }
    ensures within { IfSome result (λ number. number < last_next_job) }
{
    let attribute = named(attributes, b"job-id")?;
    let id = lone_integer(attribute)?;
    Some(job_numbered(id))
}

/// The attribute's value, where it has just one and that is an integer.
fn lone_integer(attribute: &Attribute<'_>) -> Option<i32>
    ensures { result ≡ lone_integer (plain_attribute attribute.now) }
{
    integer_of(lone_value(attribute.values.as_slice())?)
}

/// The job's number, and 0 for an integer that no job has as its number.
fn job_numbered(id: i32) -> u32
    ensures number { result ≡ job_numbered id }
    ensures within { result < last_next_job }
{
    match u32::try_from(id) {
        Ok(number) if number <= LAST_JOB => number,
        _ => 0,
    }
}

/// Leads to the job in the account's queue, or with 0 to the queue, where the URI's path is that of
/// the queue.
fn in_queue<'a>(uri: Uri<'a>, account: Name, job: u32) -> Option<Target<'a>>
    ensures reached { option_map plain_target result ≡ in_queue account job (plain_uri uri.entry) }
    ensures parts { IfSome result (λ target. (target.base ≡ uri.entry.base) × (target.job ≡ job)) }
{
    if is_queue_path(uri.path, account) {
        Some(Target {
            base: uri.base,
            job,
        })
    } else {
        None
    }
}

/// Whether the path is that of the account's queue: `/ipp/print/` and the account's name, no more.
fn is_queue_path(path: &[u8], account: Name) -> bool
    ensures { result ≡ bytes_eq path.now (queue_path account) }
{
    match path.strip_prefix(QUEUES) {
        Some(name) => name == account.bytes(),
        None => false,
    }
}

/// Leads to the job that the URI's path names, where that is in the account's queue.
fn in_job<'a>(uri: Uri<'a>, account: Name) -> Option<Target<'a>>
    ensures reached { option_map plain_target result ≡ in_job account (plain_uri uri.entry) }
    ensures base { IfSome result (λ target. target.base ≡ uri.entry.base) }
    ensures job { IfSome result (λ target. target.job < last_next_job) }
{
    let job = job_in_path(uri.path, account)?;
    Some(Target {
        base: uri.base,
        job,
    })
}

/// The number of the job, where the path is `/ipp/print/`, the account's name, `/` and the number.
fn job_in_path(path: &[u8], account: Name) -> Option<u32>
    ensures number { result ≡ job_in_path account path.now }
    ensures within { IfSome result (λ number. number < last_next_job) }
{
    let name = path.strip_prefix(QUEUES)?;
    let rest = name.strip_prefix(account.bytes())?;
    job_number(rest.strip_prefix(b"/".as_slice())?)
}

/// Reads 1 to 6 digits as a number, the first of them not 0. None for any other bytes.
fn job_number(digits: &[u8]) -> Option<u32>
    ensures number { result ≡ job_number digits.now }
    ensures within { IfSome result (λ number. number < last_next_job) }
{
    if is_job_number(digits) {
        Some(number_of(digits))
    } else {
        None
    }
}

/// Whether the bytes are 1 to 6 digits, the first of them not 0.
fn is_job_number(digits: &[u8]) -> bool
    ensures { result ≡ is_job_number digits.now }
{
    starts_above_zero(digits) && are_digits(digits) && digits.len() <= 6
}

/// Whether there is a first byte, and it is not the digit 0.
fn starts_above_zero(digits: &[u8]) -> bool
    ensures { result ≡ starts_above_zero digits.now }
{
    match digits {
        [first, ..] => *first != b'0',
        [] => false,
    }
}

fn are_digits(digits: &[u8]) -> bool
    ensures { result ≡ list_all is_ascii_digit digits.now }
{
    digits.iter().all(|digit| digit.is_ascii_digit())
}

/// Reads at most 6 digits as a number.
fn number_of(digits: &[u8]) -> u32
    requires are_digits { IsTrue (list_all is_ascii_digit digits.now) }
    requires few { length digits.now ≤ 6 }
    ensures number { result ≡ digits_value 10 digits.now }
    ensures within { result < last_next_job }
{
    let mut number = 0;
    for digit in digits {
        number = number * 10 + u32::from(*digit - b'0');
    }
    number
}
