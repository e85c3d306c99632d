//! `Place`: where and when a printer or a job is shown, by which URIs and moments are told.

ghost use Rattle.std.specs.Prelude.{◌≡◌, ◌≤◌, length, IfOk};
ghost use Rattle.account_rules.specs.Limits.{greatest_integer, last_job};
ghost use Rattle.account_replies.specs.Limits.{IsPlace};
ghost use Rattle.account_replies.specs.Places.{plain_place, printer_uri, job_uri};
ghost use Rattle.account_replies.specs.Times.{up};

use account_rules::{GREATEST_INTEGER, Name, QUEUES};
use std::alloc::{AllocError, Global};

/// How many bytes are reserved for a URI at first. Most are shorter.
const SHORT_URI: usize = 96;

/// Where and when a job or a printer is shown.
#[derive(Clone, Copy)]
pub struct Place<'a> {
    /// The part of the target URI before its path.
    pub base: &'a [u8],
    /// The name of the account.
    pub name: Name,
    /// The moment that the account was opened at.
    pub opened: u64,
    /// The moment of the request.
    pub now: u64,
}

impl<'a> Place<'a> {
    /// Writes the URI of the account's queue.
    pub(crate) fn printer_uri(&self, alloc: Global) -> Result<Vec<u8>, AllocError>
        requires { IsPlace (plain_place self.now) }
        ensures uri { IfOk result (λ uri. uri.items ≡ printer_uri (plain_place self.entry.now)) }
        ensures short { IfOk result (λ uri. length uri.items ≤ 1066) }
    {
        let mut uri = Vec::with_capacity(alloc, SHORT_URI)?;
        uri.extend_from_slice(self.base)?;
        uri.extend_from_slice(QUEUES)?;
        uri.extend_from_slice(self.name.bytes())?;
        Ok(uri)
    }

    /// Writes the URI of a job in the account's queue.
    pub(crate) fn job_uri(&self, alloc: Global, job: u32) -> Result<Vec<u8>, AllocError>
        requires place { IsPlace (plain_place self.now) }
        requires job { job ≤ last_job }
        ensures uri { IfOk result (λ uri. uri.items ≡ job_uri (plain_place self.entry.now) job) }
        ensures short { IfOk result (λ uri. length uri.items ≤ 1073) }
    {
        let mut uri = self.printer_uri(alloc)?;
        let number = format!(in alloc; "/{job}")?;
        uri.extend_from_slice(number.as_bytes())?;
        Ok(uri)
    }

    /// A moment as the printer tells it: in seconds since the account was opened, counted from 1.
    pub(crate) fn up(&self, moment: u64) -> u32
        ensures up { result ≡ up (plain_place self.entry.now) moment }
        ensures integer { result ≤ greatest_integer }
    {
        (moment
            .saturating_sub(self.opened)
            .min(u64::from(GREATEST_INTEGER) - 1)
            + 1) as u32
    }
}
