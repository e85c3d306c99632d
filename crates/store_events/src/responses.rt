//! The responses to IPP requests, each with its verdict.

ghost use Rattle.std.specs.Prelude.{◌≡◌, [], ◌∷◌, map, IfOk, IfErr};
ghost use Rattle.std.specs.List.{AllByRecursion};
ghost use Rattle.store_events.specs.Answers.{request_done, request_refused, short_answered};
ghost use Rattle.store_events.specs.Prelude.{IsAsk, plain_ask};
ghost use Rattle.account_machine.specs.Queues.{listed_names};
ghost use Rattle.account_machine.specs.Verdicts.{job_numbered};
ghost use Rattle.account_machine.specs.declared.verdict.Verdict.TheVariants as verdict;
ghost use Rattle.account_replies.specs.JobAttributes.{job_group};
ghost use Rattle.account_replies.specs.Limits.{IsPlace, IsPrinter, IsShowable};
ghost use Rattle.account_replies.specs.Places.{plain_place};
ghost use Rattle.account_replies.specs.PrinterAttributes.{printer_group};
ghost use Rattle.account_replies.specs.Responses.{job_groups, success_status};
ghost use Rattle.account_replies.specs.Tables.{asked_names};

use account_machine::{
    Answered, Ask, Job, Place, PrinterNow, Refusal, Reply, Verdict, Word, done, jobs_told, refused,
    wanted_names, with_job, with_printer,
};
use ipp_coding::List;
use rows_tables::TableFault;
use std::alloc::Global;

/// The answer to a body of less than 8 bytes, which has no response, with its verdict:
/// client-error-bad-request.
pub(crate) fn short_answered() -> Answered
    ensures { result ≡ short_answered }
{
    let refusal = Refusal {
        status: 0x0400,
        word: Word::Malformed,
    };
    Answered {
        reply: Reply::Short,
        verdict: Verdict::Refused { refusal, job: None },
    }
}

/// The response that refuses the request. `Memory` is its only fault.
pub(crate) fn request_refused(
    alloc: Global,
    ask: &Ask<'_>,
    refusal: Refusal,
) -> Result<Answered, TableFault>
    requires { IsAsk (plain_ask ask.now) }
    ensures answered { IfOk result
        (λ answered. answered ≡ request_refused (plain_ask ask.entry.now) refusal) }
    ensures memory { IfErr result (λ fault. fault ≡ TableFault.Memory) }
{
    let text = refused(alloc, ask.header, refusal, ask.unsupported.as_slice())?;
    Ok(Answered {
        reply: Reply::Ipp(text),
        verdict: Verdict::Refused {
            refusal,
            job: job_numbered(ask.job),
        },
    })
}

/// The response that a request was carried out, which shows nothing. `Memory` is its only fault.
pub(crate) fn request_done(alloc: Global, ask: &Ask<'_>) -> Result<Answered, TableFault>
    requires { IsAsk (plain_ask ask.now) }
    ensures answered { let it = plain_ask ask.entry.now in
        IfOk result (λ answered. answered ≡ request_done it it.job []) }
    ensures memory { IfErr result (λ fault. fault ≡ TableFault.Memory) }
{
    let text = done(alloc, ask.header, ask.unsupported.as_slice())?;
    Ok(Answered {
        reply: Reply::Ipp(text),
        verdict: done_with(ask, ask.job),
    })
}

/// The response that a request was carried out, with the wanted attributes of a job. `Memory` is
/// its only fault.
pub(crate) fn job_shown(
    alloc: Global,
    ask: &Ask<'_>,
    at: &Place<'_>,
    job: &Job,
    wanted: Option<&[&[u8]]>,
) -> Result<Answered, TableFault>
    requires ask { IsAsk (plain_ask ask.now) }
    requires place { IsPlace (plain_place at.now) }
    requires job { IsShowable job.now }
    ensures answered { IfOk result (λ answered. answered ≡
        request_done (plain_ask ask.entry.now) job.now.job
        (job_group (plain_place at.entry.now) job.now (asked_names wanted.entry) ∷ [])) }
    ensures memory { IfErr result (λ fault. fault ≡ TableFault.Memory) }
{
    let text = with_job(
        alloc,
        ask.header,
        ask.unsupported.as_slice(),
        at,
        job,
        wanted,
    )?;
    Ok(Answered {
        reply: Reply::Ipp(text),
        verdict: done_with(ask, job.job),
    })
}

/// The response to Get-Jobs, with the wanted attributes of each job. `Memory` is its only fault.
pub(crate) fn jobs_shown(
    alloc: Global,
    ask: &Ask<'_>,
    at: &Place<'_>,
    jobs: &[Job],
) -> Result<Answered, TableFault>
    requires ask { IsAsk (plain_ask ask.now) }
    requires place { IsPlace (plain_place at.now) }
    requires jobs { AllByRecursion IsShowable jobs.now }
    ensures answered { let it = plain_ask ask.entry.now in
        IfOk result (λ answered. answered ≡ request_done it it.job
        (job_groups (plain_place at.entry.now) jobs.now (listed_names it.wanted))) }
    ensures memory { IfErr result (λ fault. fault ≡ TableFault.Memory) }
{
    let text = jobs_told(alloc, ask, at, jobs)?;
    Ok(Answered {
        reply: Reply::Ipp(text),
        verdict: done_with(ask, ask.job),
    })
}

/// The response to Get-Printer-Attributes, with the wanted attributes of the printer. `Memory` is
/// its only fault.
pub(crate) fn printer_shown(
    alloc: Global,
    ask: &Ask<'_>,
    at: &Place<'_>,
    printer: PrinterNow,
) -> Result<Answered, TableFault>
    requires ask { IsAsk (plain_ask ask.now) }
    requires place { IsPlace (plain_place at.now) }
    requires printer { IsPrinter printer }
    ensures answered { let it = plain_ask ask.entry.now in
        IfOk result (λ answered. answered ≡ request_done it it.job
        (printer_group (plain_place at.entry.now) printer it.wanted ∷ [])) }
    ensures memory { IfErr result (λ fault. fault ≡ TableFault.Memory) }
{
    let text = with_printer(
        alloc,
        ask.header,
        ask.unsupported.as_slice(),
        at,
        printer,
        wanted_names(ask),
    )?;
    Ok(Answered {
        reply: Reply::Ipp(text),
        verdict: done_with(ask, ask.job),
    })
}

/// The verdict of a request that was carried out on the job of this number: successful-ok, or
/// successful-ok-ignored-or-substituted-attributes where some of its attributes are unsupported.
fn done_with(ask: &Ask<'_>, number: u32) -> Verdict
    ensures { result ≡ verdict.Done (success_status (plain_ask ask.entry.now).unsupported)
        (job_numbered number) }
{
    let status = if ask.unsupported.as_slice().is_empty() {
        0x0000
    } else {
        0x0001
    };
    Verdict::Done {
        status,
        job: job_numbered(number),
    }
}

/// The number of a verdict's job. 0 stands for no job.
fn job_numbered(number: u32) -> Option<u32>
    ensures { result ≡ job_numbered number }
{
    if number == 0 { None } else { Some(number) }
}
