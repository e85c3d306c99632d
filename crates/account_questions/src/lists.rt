//! Writes answers of several lines: how many jobs, grants, accounts or devices, then a line for
//! each.

ghost use Rattle.std.specs.Prelude.{◌≡◌, ◌++◌, IfOk, OnOk};
ghost use Rattle.account_questions.specs.JobLines.{job_text};
ghost use Rattle.account_questions.specs.Lists.{account_text, accounts_text, device_text, devices_text, grant_text, grants_text, jobs_text, list_text};

use crate::job_line::put_job;
use account_rules::{Device, Grant, Job, Name};
use ipp_coding::List;
use page_markup::put_month_number;
use std::alloc::{AllocError, Global};

/// An item of such a list, which is told in one line.
trait Line: Sized {
    ghost use Rattle.std.specs.Prelude.{ℕ, List};

    // Its text, without the end of the line.
    ghost text: { Self → List ℕ };

    /// Appends the item's line, without its end.
    fn put(&self, out: &mut Vec<u8>) -> Result<(), AllocError>
        ensures put { OnOk result (out.new.items ≡ out.old.items ++ text self.now) };
}

/// Writes `WORD COUNT`, and behind it each item's line. The last line has no end.
fn list<L: Line>(alloc: Global, word: &str, items: &[L]) -> Result<List<u8>, AllocError>
    ensures { IfOk result (λ told. told ≡ list_text word.now L.text items.now) }
{
    let count = items.len();
    let head = format!(in alloc; "{word} {count}")?;
    let mut lines = Vec::new(alloc);
    lines.extend_from_slice(head.as_bytes())?;
    for item in items {
        lines.push(b'\n')?;
        item.put(&mut lines)?;
    }
    Ok(List { items: lines })
}

/// Answers `jobs COUNT`, and a line for each job as `job_line.rt` writes it.
pub fn jobs_lines(alloc: Global, jobs: &[Job]) -> Result<List<u8>, AllocError>
    ensures { IfOk result (λ told. told ≡ jobs_text jobs.now) }
{
    list(alloc, "jobs", jobs)
}

impl Line for Job {
    ghost use Rattle.account_questions.specs.JobLines.{job_text};

    ghost text = { job_text };

    fn put(&self, out: &mut Vec<u8>) -> Result<(), AllocError> {
        put_job(out, self)
    }
}

/// Answers `grants COUNT`, and for each grant `grant MONTH PAGES`.
pub fn grants_lines(alloc: Global, grants: &[Grant]) -> Result<List<u8>, AllocError>
    ensures { IfOk result (λ told. told ≡ grants_text grants.now) }
{
    list(alloc, "grants", grants)
}

impl Line for Grant {
    ghost use Rattle.account_questions.specs.Lists.{grant_text};

    ghost text = { grant_text };

    fn put(&self, out: &mut Vec<u8>) -> Result<(), AllocError> {
        out.extend_from_slice(b"grant ")?;
        put_month_number(out, self.month)?;
        let pages = self.pages;
        let text = format!(in *out.allocator(); " {pages}")?;
        out.extend_from_slice(text.as_bytes())
    }
}

/// Answers `accounts COUNT`, and for each name `account NAME`.
pub fn accounts_lines(alloc: Global, names: &[Name]) -> Result<List<u8>, AllocError>
    ensures { IfOk result (λ told. told ≡ accounts_text names.now) }
{
    list(alloc, "accounts", names)
}

impl Line for Name {
    ghost use Rattle.account_questions.specs.Lists.{account_text};

    ghost text = { account_text };

    fn put(&self, out: &mut Vec<u8>) -> Result<(), AllocError> {
        out.extend_from_slice(b"account ")?;
        out.extend_from_slice(self.bytes())
    }
}

/// Answers `devices COUNT`, and for each device `device NAME on|off RATE`.
pub fn devices_lines(alloc: Global, devices: &[Device]) -> Result<List<u8>, AllocError>
    ensures { IfOk result (λ told. told ≡ devices_text devices.now) }
{
    list(alloc, "devices", devices)
}

impl Line for Device {
    ghost use Rattle.account_questions.specs.Lists.{device_text};

    ghost text = { device_text };

    fn put(&self, out: &mut Vec<u8>) -> Result<(), AllocError> {
        out.extend_from_slice(b"device ")?;
        out.extend_from_slice(self.name.bytes())?;
        let on = if self.on { "on" } else { "off" };
        let rate = self.rate;
        let text = format!(in *out.allocator(); " {on} {rate}")?;
        out.extend_from_slice(text.as_bytes())
    }
}
