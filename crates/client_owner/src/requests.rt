//! Makes the IPP messages of what an owner asks of a queue.
ghost use Rattle.std.specs.Prelude.{◌≡◌, ◌++◌, ◌∷◌, [], IfOk, OnOk, codes, map};
ghost use Rattle.ipp_coding.specs.Spelling.{message_spelling};
ghost use Rattle.account_replies.specs.Attributes.{attribute_of, attribute_with, value_with};
ghost use Rattle.account_rules.specs.Formats.{media_type};
ghost use Rattle.client_owner.specs.ProofSpelled.{attributes_text};
ghost use Rattle.client_owner.specs.Requests.{act_message, get_jobs_message, impressions, password, print_attributes, print_message, request, wanted};

use crate::acts::JobAct;
use crate::asked::Asked;
use crate::new_job::NewJob;
use crate::put::{begin_group, end_groups, put_front, put_integer, put_keywords, put_single};
use account_rules::Format;
use client_lines::ClientFault;
use ipp_coding::tags::{
    JOB_ATTRIBUTES, KEYWORD, MIME_MEDIA_TYPE, NAME_WITHOUT_LANGUAGE, OCTET_STRING,
};
use std::alloc::Global;

/// Makes the IPP message that asks a queue. `TooLong` where a value of it is too long for a
/// message.
pub fn request_text(alloc: Global, uri: &[u8], asked: &Asked<'_>) -> Result<Vec<u8>, ClientFault>
    ensures { IfOk result
        (λ text. text.items ≡ message_spelling (request uri.now asked.now)) }
{
    let mut text = Vec::new(alloc);
    put_request(&mut text, uri, asked)?;
    Ok(text)
}

/// Appends the message that asks a queue.
fn put_request(out: &mut Vec<u8>, uri: &[u8], asked: &Asked<'_>) -> Result<(), ClientFault>
    ensures { OnOk result
        (out.new.items ≡ out.old.items ++ message_spelling (request uri.now asked.now)) }
{
    match asked {
        Asked::Print(job) => put_print_job(out, uri, job),
        Asked::Jobs => put_get_jobs(out, uri),
        Asked::Act { act, job } => put_act(out, uri, *act, *job),
    }
}

/// Appends a Print-Job, its document behind it.
fn put_print_job(out: &mut Vec<u8>, uri: &[u8], job: &NewJob<'_>) -> Result<(), ClientFault>
    ensures { OnOk result
        (out.new.items ≡ out.old.items ++ message_spelling (print_message uri.now job.now)) }
{
    put_front(out, 0x0002, uri)?;
    put_print_attributes(out, job)?;
    begin_group(out, JOB_ATTRIBUTES)?;
    put_integer(out, b"copies", job.copies)?;
    end_groups(out, job.document)
}

/// Appends the operation attributes of a Print-Job: name, format, impressions and password.
fn put_print_attributes(out: &mut Vec<u8>, job: &NewJob<'_>) -> Result<(), ClientFault>
    ensures { OnOk result
        (out.new.items ≡ out.old.items ++ attributes_text (print_attributes job.now)) }
{
    put_single(out, NAME_WITHOUT_LANGUAGE, b"job-name", job.name)?;
    put_format(out, job.format)?;
    put_impressions(out, job.impressions)?;
    put_password(out, job.password)
}

fn put_format(out: &mut Vec<u8>, format: Format) -> Result<(), ClientFault>
    ensures { OnOk result (out.new.items ≡ out.old.items ++ attributes_text
        (attribute_with (codes "document-format") 0x49 (media_type format) ∷ [])) }
{
    put_single(
        out,
        MIME_MEDIA_TYPE,
        b"document-format",
        format.media_type().as_bytes(),
    )
}

/// Appends the attribute job-impressions, if they are known.
fn put_impressions(out: &mut Vec<u8>, count: Option<u32>) -> Result<(), ClientFault>
    ensures { OnOk result (out.new.items ≡ out.old.items ++ attributes_text (impressions count)) }
{
    match count {
        Some(count) => put_integer(out, b"job-impressions", count),
        None => Ok(()),
    }
}

/// Appends the password, which is not encrypted, and the attribute that tells so, if the job has
/// one.
fn put_password(out: &mut Vec<u8>, word: Option<&[u8]>) -> Result<(), ClientFault>
    ensures { OnOk result (out.new.items ≡ out.old.items ++ attributes_text (password word.entry)) }
{
    let Some(word) = word else {
        return Ok(());
    };
    put_single(out, OCTET_STRING, b"job-password", word)?;
    put_single(out, KEYWORD, b"job-password-encryption", b"none")
}

/// Appends a Get-Jobs for the jobs that have not ended.
fn put_get_jobs(out: &mut Vec<u8>, uri: &[u8]) -> Result<(), ClientFault>
    ensures { OnOk result
        (out.new.items ≡ out.old.items ++ message_spelling (get_jobs_message uri.now)) }
{
    put_front(out, 0x000a, uri)?;
    put_single(out, KEYWORD, b"which-jobs", b"not-completed")?;
    put_wanted(out)?;
    end_groups(out, b"")
}

/// Appends which attributes of each job the answer is to have: those that the table shows.
fn put_wanted(out: &mut Vec<u8>) -> Result<(), ClientFault>
    ensures { OnOk result (out.new.items ≡ out.old.items ++ attributes_text
        (attribute_of (codes "requested-attributes") (map (value_with 0x44) wanted) ∷ [])) }
{
    let further: [&[u8]; 7] = [
        b"job-state",
        b"copies",
        b"job-impressions",
        b"number-of-documents",
        b"time-at-creation",
        b"job-printer-up-time",
        b"job-name",
    ];
    put_keywords(out, b"requested-attributes", b"job-id", &further)
}

/// Appends a Cancel-Job, Hold-Job or Release-Job.
fn put_act(out: &mut Vec<u8>, uri: &[u8], act: JobAct, job: u32) -> Result<(), ClientFault>
    ensures { OnOk result
        (out.new.items ≡ out.old.items ++ message_spelling (act_message uri.now act job)) }
{
    put_front(out, act.operation_id(), uri)?;
    put_integer(out, b"job-id", job)?;
    end_groups(out, b"")
}
