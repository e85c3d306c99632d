//! Writes the line of an event: moment, door, what was asked, and what it came to.
ghost use Rattle.std.specs.Prelude.{◌≡◌, ◌++◌, codes, OnOk};
ghost use Rattle.account_machine.specs.Events.{plain_event};
ghost use Rattle.serve_log.specs.LogLines.{act_fields, beyond_text, event_fields, grant_fields, ipp_fields, line_text, month_text, rate_fields, request_fields, settle_fields, switch_fields};

use crate::digits::{put_four_digits, put_number, put_two_digits};
use crate::door::{Door, put_door};
use crate::ipp::{put_job, put_operation};
use crate::outcome::put_outcome;
use crate::request_job::job_of;
use account_machine::{Answered, Event};
use account_rules::Name;
use std::alloc::AllocError;

/// Appends the line of an event, with its line feed: when and by which door it came in, what was
/// asked, and what it came to. An error in `told` is that of a store that failed, whatever it is.
/// Where memory is refused, a part of the line may stand.
pub fn put_line<F>(
    output: &mut Vec<u8>,
    moment: u64,
    door: Door,
    event: &Event<'_>,
    told: &Result<Answered, F>,
) -> Result<(), AllocError>
    ensures { OnOk result (output.new.items ≡ output.old.items
        ++ line_text moment door (plain_event event.now) told.now) }
{
    put_number(output, moment)?;
    output.extend_from_slice(b" ")?;
    put_door(output, door)?;
    output.extend_from_slice(b" ")?;
    put_event(output, event, told)?;
    output.extend_from_slice(b" ")?;
    put_outcome(output, told)?;
    output.extend_from_slice(b"\n")
}

/// Appends the line, with its line feed, that tells that a job was charged so many units beyond
/// what it had reserved. Where memory is refused, a part may stand.
pub(crate) fn put_beyond(
    output: &mut Vec<u8>,
    moment: u64,
    device: &[u8],
    account: &[u8],
    job: u32,
    units: u64,
) -> Result<(), AllocError>
    ensures { OnOk result (output.new.items
        ≡ output.old.items ++ beyond_text moment device.now account.now job units) }
{
    put_number(output, moment)?;
    output.extend_from_slice(b" stations ")?;
    put_act(output, device, b"beyond", account, job)?;
    output.extend_from_slice(b" ")?;
    put_number(output, units)?;
    output.extend_from_slice(b"\n")
}

/// Appends what was asked by the event.
fn put_event<F>(
    output: &mut Vec<u8>,
    event: &Event<'_>,
    told: &Result<Answered, F>,
) -> Result<(), AllocError>
    ensures { OnOk result (output.new.items ≡ output.old.items
        ++ event_fields (plain_event event.now) told.now) }
{
    match event {
        Event::Open { account } => put_open(output, account.bytes()),
        Event::Ipp { account, body } => put_request(output, *account, body, told),
        Event::Release {
            device,
            account,
            job,
            ..
        } => put_act(output, device.bytes(), b"release", account.bytes(), *job),
        Event::Start {
            device,
            account,
            job,
        } => put_act(output, device.bytes(), b"start", account.bytes(), *job),
        Event::Settle {
            device,
            account,
            job,
            impressions,
            failed,
        } => put_settle(
            output,
            device.bytes(),
            account.bytes(),
            *job,
            *impressions,
            *failed,
        ),
        Event::Grant {
            account,
            month,
            pages,
        } => put_grant(output, account.bytes(), *month, *pages),
        Event::Device { name, on } => put_switch(output, name.bytes(), *on),
        Event::Rate { name, units } => put_rate(output, name.bytes(), *units),
    }
}

/// Appends what a request of IPP asked: the account, the operation, and the job.
fn put_request<F>(
    output: &mut Vec<u8>,
    account: Name,
    body: &[u8],
    told: &Result<Answered, F>,
) -> Result<(), AllocError>
    ensures { OnOk result (output.new.items ≡ output.old.items
        ++ request_fields account body.now told.now) }
{
    let job = job_of(*output.allocator(), account, body, told)?;
    put_ipp(output, account.bytes(), body, job)
}

/// Appends which account is to be opened.
fn put_open(output: &mut Vec<u8>, account: &[u8]) -> Result<(), AllocError>
    ensures { OnOk result (output.new.items ≡ output.old.items
        ++ codes "open " ++ account.now) }
{
    output.extend_from_slice(b"open ")?;
    output.extend_from_slice(account)
}

/// Appends the account, the operation and the job of a request.
fn put_ipp(
    output: &mut Vec<u8>,
    account: &[u8],
    body: &[u8],
    job: Option<u32>,
) -> Result<(), AllocError>
    ensures { OnOk result (output.new.items ≡ output.old.items
        ++ ipp_fields account.now body.now job) }
{
    output.extend_from_slice(account)?;
    output.extend_from_slice(b" ")?;
    put_operation(output, body)?;
    output.extend_from_slice(b" ")?;
    put_job(output, job)
}

/// Appends which device asks what of whose job.
fn put_act(
    output: &mut Vec<u8>,
    device: &[u8],
    act: &[u8],
    account: &[u8],
    job: u32,
) -> Result<(), AllocError>
    ensures { OnOk result (output.new.items ≡ output.old.items
        ++ act_fields device.now act.now account.now job) }
{
    output.extend_from_slice(device)?;
    output.extend_from_slice(b" ")?;
    output.extend_from_slice(act)?;
    output.extend_from_slice(b" ")?;
    output.extend_from_slice(account)?;
    output.extend_from_slice(b" ")?;
    put_number(output, u64::from(job))
}

/// Appends which device settles whose job, with how many impressions, and whether it failed.
fn put_settle(
    output: &mut Vec<u8>,
    device: &[u8],
    account: &[u8],
    job: u32,
    impressions: u32,
    failed: bool,
) -> Result<(), AllocError>
    ensures { OnOk result (output.new.items ≡ output.old.items
        ++ settle_fields device.now account.now job impressions failed) }
{
    put_act(output, device, b"settle", account, job)?;
    output.extend_from_slice(b" ")?;
    put_number(output, u64::from(impressions))?;
    output.extend_from_slice(b" ")?;
    if failed {
        output.extend_from_slice(b"failed")
    } else {
        output.extend_from_slice(b"done")
    }
}

/// Appends which account is granted how many pages for which month.
fn put_grant(output: &mut Vec<u8>, account: &[u8], month: u32, pages: u32) -> Result<(), AllocError>
    ensures { OnOk result (output.new.items ≡ output.old.items
        ++ grant_fields account.now month pages) }
{
    output.extend_from_slice(b"grant ")?;
    output.extend_from_slice(account)?;
    output.extend_from_slice(b" ")?;
    put_month(output, month)?;
    output.extend_from_slice(b" ")?;
    put_number(output, u64::from(pages))
}

/// Appends a month as `YYYY-MM`. Its number is twelve times the year, and 0 for January to 11 for
/// December.
fn put_month(output: &mut Vec<u8>, month: u32) -> Result<(), AllocError>
    ensures { OnOk result (output.new.items ≡ output.old.items ++ month_text month) }
{
    put_four_digits(output, month / 12)?;
    output.extend_from_slice(b"-")?;
    put_two_digits(output, month % 12 + 1)
}

/// Appends which device is switched on or off.
fn put_switch(output: &mut Vec<u8>, device: &[u8], on: bool) -> Result<(), AllocError>
    ensures { OnOk result (output.new.items ≡ output.old.items ++ switch_fields device.now on) }
{
    output.extend_from_slice(b"device ")?;
    output.extend_from_slice(device)?;
    output.extend_from_slice(b" ")?;
    if on {
        output.extend_from_slice(b"on")
    } else {
        output.extend_from_slice(b"off")
    }
}

/// Appends how many units a page is to cost on which device.
fn put_rate(output: &mut Vec<u8>, device: &[u8], units: u32) -> Result<(), AllocError>
    ensures { OnOk result (output.new.items ≡ output.old.items ++ rate_fields device.now units) }
{
    output.extend_from_slice(b"rate ")?;
    output.extend_from_slice(device)?;
    output.extend_from_slice(b" ")?;
    put_number(output, u64::from(units))
}
