//! Writes whole responses to requests, as lists of bytes of their own. Those of jobs or of the printer
//! require of place and job what `put_job` does.

ghost use Rattle.std.specs.Prelude.{◌≡◌, ◌++◌, ◌∷◌, [], None, IfOk, OnOk, map};
ghost use Rattle.std.specs.List.{AllByRecursion, flat_map};
ghost use Rattle.ipp_coding.specs.Plain.{plain_attribute};
ghost use Rattle.ipp_coding.specs.Spelling.{IsAttribute, group_spelling};
ghost use Rattle.account_replies.specs.Responses.{refused_text, done_text, success_status, job_groups, selected_groups};
ghost use Rattle.account_replies.specs.JobAttributes.{job_group};
ghost use Rattle.account_replies.specs.PrinterAttributes.{printer_group};
ghost use Rattle.account_replies.specs.Limits.{IsPlace, IsShowable, IsPrinter};
ghost use Rattle.account_replies.specs.Places.{plain_place};
ghost use Rattle.account_replies.specs.Replies.{reply_text};
ghost use Rattle.account_replies.specs.Tables.{asked_names};

use crate::as_job::AsJob;
use crate::attribute::want_of_memory;
use crate::job::{append_job, append_wanted};
use crate::printer::append_printer;
use crate::reply::append_reply;
use crate::{Place, PrinterNow, Selection};
use account_rules::{Job, Refusal};
use ipp_coding::{Attribute, Header, List, put_end};
use std::alloc::{AllocError, Global};

/// How many bytes are reserved for a response at first. Most about one job are shorter.
const SHORT_TEXT: usize = 512;

/// Writes the response that refuses the request with the header, with the job template attributes
/// that are not supported.
pub fn refused(
    alloc: Global,
    request: Header,
    refusal: Refusal,
    unsupported: &[Attribute<'_>],
) -> Result<List<u8>, AllocError>
    requires { AllByRecursion IsAttribute (map plain_attribute unsupported.now) }
    ensures text { IfOk result
        (λ text. text ≡ refused_text request refusal (map plain_attribute unsupported.now)) }
{
    let mut out = Vec::with_capacity(alloc, SHORT_TEXT)?;
    append_reply(
        &mut out,
        request,
        refusal.status,
        Some(refusal.word),
        unsupported,
    )?;
    ended(out)
}

/// Begins the response to a request that was done, up to its groups of jobs or of the printer.
fn begin_response(
    alloc: Global,
    request: Header,
    unsupported: &[Attribute<'_>],
) -> Result<Vec<u8>, AllocError>
    requires { AllByRecursion IsAttribute (map plain_attribute unsupported.now) }
    ensures text { IfOk result (λ text.
        let all = map plain_attribute unsupported.now in
        text.items ≡ reply_text request (success_status all) None all) }
{
    let mut out = Vec::with_capacity(alloc, SHORT_TEXT)?;
    append_reply(
        &mut out,
        request,
        success_status(unsupported),
        None,
        unsupported,
    )?;
    Ok(out)
}

/// The status code of a request that was done: successful-ok, or where attributes are not supported
/// successful-ok-ignored-or-substituted-attributes.
fn success_status(unsupported: &[Attribute<'_>]) -> u16
    ensures { result ≡ success_status (map plain_attribute unsupported.now) }
{
    if unsupported.is_empty() {
        0x0000
    } else {
        0x0001
    }
}

/// Ends a response whose groups are all there, with the end tag.
fn ended(out: Vec<u8>) -> Result<List<u8>, AllocError>
    ensures text { IfOk result (λ text. text ≡ out.items ++ 3 ∷ []) }
{
    let mut items = out;
    put_end(&mut items).map_err(|fault| want_of_memory(fault))?;
    Ok(List { items })
}

/// Writes the response to a request that was done, without groups of jobs or of the printer.
pub fn done(
    alloc: Global,
    request: Header,
    unsupported: &[Attribute<'_>],
) -> Result<List<u8>, AllocError>
    requires { AllByRecursion IsAttribute (map plain_attribute unsupported.now) }
    ensures text { IfOk result
        (λ text. text ≡ done_text request (map plain_attribute unsupported.now) []) }
{
    let out = begin_response(alloc, request, unsupported)?;
    ended(out)
}

/// Writes the response with the attributes of one job that are wanted.
pub fn with_job(
    alloc: Global,
    request: Header,
    unsupported: &[Attribute<'_>],
    at: &Place<'_>,
    job: &Job,
    wanted: Option<&[&[u8]]>,
) -> Result<List<u8>, AllocError>
    requires unsupported { AllByRecursion IsAttribute (map plain_attribute unsupported.now) }
    requires place { IsPlace (plain_place at.now) }
    requires job { IsShowable job.now }
    ensures text { IfOk result
        (λ text. text ≡ done_text request (map plain_attribute unsupported.now)
        (job_group (plain_place at.entry.now) job.now (asked_names wanted.entry) ∷ [])) }
{
    let mut out = begin_response(alloc, request, unsupported)?;
    append_wanted(&mut out, at, job, wanted)?;
    ended(out)
}

/// Writes the response with the attributes of each job that are wanted, a group for each.
pub fn with_jobs<J: AsJob>(
    alloc: Global,
    request: Header,
    unsupported: &[Attribute<'_>],
    at: &Place<'_>,
    jobs: &[J],
    wanted: Option<&[&[u8]]>,
) -> Result<List<u8>, AllocError>
    requires unsupported { AllByRecursion IsAttribute (map plain_attribute unsupported.now) }
    requires place { IsPlace (plain_place at.now) }
    requires jobs { AllByRecursion (λ job. IsShowable (J.job job)) jobs.now }
    ensures text { IfOk result
        (λ text. text ≡ done_text request (map plain_attribute unsupported.now)
        (job_groups (plain_place at.entry.now) (map J.job jobs.now) (asked_names wanted.entry))) }
{
    let selection = Selection::of(wanted);
    let mut out = begin_response(alloc, request, unsupported)?;
    put_jobs(&mut out, at, jobs, &selection)?;
    ended(out)
}

/// Appends a group for each job, with the attributes of the selection.
fn put_jobs<J: AsJob>(
    out: &mut Vec<u8>,
    at: &Place<'_>,
    jobs: &[J],
    selection: &Selection,
) -> Result<(), AllocError>
    requires place { IsPlace (plain_place at.now) }
    requires jobs { AllByRecursion (λ job. IsShowable (J.job job)) jobs.now }
    ensures appended { OnOk result (out.new.items ≡ out.old.items ++ flat_map group_spelling
        (selected_groups (plain_place at.entry.now) (map J.job jobs.now) selection.now)) }
{
    for job in jobs {
        append_job(out, at, job.as_job(), selection)?;
    }
    Ok(())
}

/// Writes the response with the attributes of the printer that are wanted.
pub fn with_printer(
    alloc: Global,
    request: Header,
    unsupported: &[Attribute<'_>],
    at: &Place<'_>,
    now: PrinterNow,
    wanted: Option<&[&[u8]]>,
) -> Result<List<u8>, AllocError>
    requires unsupported { AllByRecursion IsAttribute (map plain_attribute unsupported.now) }
    requires place { IsPlace (plain_place at.now) }
    requires printer { IsPrinter now }
    ensures text { IfOk result
        (λ text. text ≡ done_text request (map plain_attribute unsupported.now)
        (printer_group (plain_place at.entry.now) now (asked_names wanted.entry) ∷ [])) }
{
    let mut out = begin_response(alloc, request, unsupported)?;
    append_printer(&mut out, at, now, wanted)?;
    ended(out)
}
