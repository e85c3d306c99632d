//! The table of an owner's jobs, made of the answer to Get-Jobs.
ghost use Rattle.std.specs.Prelude.{◌≡◌, ◌++◌, ◌-◌, IfOk, OnOk, map, option_map};
ghost use Rattle.ipp_coding.specs.Plain.{plain_attribute, plain_group};
ghost use Rattle.client_operator.specs.Csv.{record_text};
ghost use Rattle.client_operator.specs.Talks.{InTurn};
ghost use Rattle.client_owner.specs.Tables.{ListsJob, head_fields, moment_made, number_field, plain_row, row_fields, row_told, state_word};

use crate::attributes::{number_named, text_named};
use client_lines::ClientFault;
use client_operator::{put_record, shown_text};
use ipp_coding::tags::JOB_ATTRIBUTES;
use ipp_coding::{Attribute, Group};
use itoa::Buffer;
use std::alloc::Global;

/// What the table shows of a job.
#[derive(Clone, Copy)]
pub(crate) struct JobRow<'a> {
    number: u32,
    state: &'a [u8],
    /// In seconds since 1970-01-01T00:00:00Z.
    made: u64,
    copies: u32,
    impressions: Option<u32>,
    documents: u32,
    name: &'a [u8],
}

/// Makes a CSV record for each job that the groups tell of, behind the names of the columns.
/// `Broken` where a job is not told whole.
pub(crate) fn table_of(
    alloc: Global,
    groups: &[Group<'_>],
    now: u64,
) -> Result<Vec<u8>, ClientFault>
    ensures { IfOk result (λ text. InTurn (ListsJob now) (record_text head_fields) text.items
        (map plain_group groups.now)) }
{
    let mut text = Vec::new(alloc);
    put_head(&mut text)?;
    put_jobs(&mut text, groups, now)?;
    Ok(text)
}

/// Appends the names of the columns.
fn put_head(text: &mut Vec<u8>) -> Result<(), ClientFault>
    ensures { OnOk result (text.new.items ≡ text.old.items ++ record_text head_fields) }
{
    let fields: [&[u8]; 7] = [
        b"job",
        b"state",
        b"made",
        b"copies",
        b"impressions",
        b"documents",
        b"name",
    ];
    Ok(put_record(text, &fields)?)
}

/// Appends the records of the jobs that the groups tell of.
fn put_jobs(text: &mut Vec<u8>, groups: &[Group<'_>], now: u64) -> Result<(), ClientFault>
    ensures { OnOk result (InTurn (ListsJob now) text.old.items text.new.items
        (map plain_group groups.now)) }
{
    for group in groups {
        put_group(text, group, now)?;
    }
    Ok(())
}

/// Appends the record of the job that a group tells of. A group of other attributes has none.
fn put_group(text: &mut Vec<u8>, group: &Group<'_>, now: u64) -> Result<(), ClientFault>
    ensures { OnOk result
        (ListsJob now (plain_group group.now) text.old.items text.new.items) }
{
    if group.tag != JOB_ATTRIBUTES {
        return Ok(());
    }
    match row_told(group.attributes.as_slice(), now) {
        Some(row) => put_row(text, &row),
        None => Err(ClientFault::Broken),
    }
}

/// Reads a job of its attributes. `None` where one that the table needs is missing.
#[tactic(auto, unfolding(crate::specs::Tables::row_told))]
fn row_told<'a>(attributes: &[Attribute<'a>], now: u64) -> Option<JobRow<'a>>
    ensures { option_map plain_row result ≡ row_told now (map plain_attribute attributes.now) }
{
    let number = number_named(attributes, b"job-id")?;
    let code = number_named(attributes, b"job-state")?;
    let state = state_word(code)?;
    let created = number_named(attributes, b"time-at-creation")?;
    let up = number_named(attributes, b"job-printer-up-time")?;
    let copies = number_named(attributes, b"copies")?;
    let documents = number_named(attributes, b"number-of-documents")?;
    let name = text_named(attributes, b"job-name")?;
    Some(JobRow {
        number,
        state,
        made: moment_made(now, up, created),
        copies,
        impressions: number_named(attributes, b"job-impressions"),
        documents,
        name,
    })
}

/// Gives the word of a job-state (RFC 8011 section 5.3.7) that is not an end.
fn state_word(state: u32) -> Option<&'static [u8]>
    ensures { option_map (λ word. word.now) result ≡ state_word state }
{
    match state {
        3 => Some(b"pending"),
        4 => Some(b"held"),
        5 => Some(b"processing"),
        6 => Some(b"stopped"),
        _ => None,
    }
}

/// Gives the moment at which a job was made. `up` is the printer's up-time now and `created` that
/// of the making, both in seconds.
fn moment_made(now: u64, up: u32, created: u32) -> u64
    ensures { result ≡ moment_made now up created }
{
    now.saturating_sub(u64::from(up.saturating_sub(created)))
}

/// Appends the record of a job.
fn put_row(text: &mut Vec<u8>, row: &JobRow<'_>) -> Result<(), ClientFault>
    ensures { OnOk result (text.new.items
        ≡ text.old.items ++ record_text (row_fields (plain_row row.now))) }
{
    let mut number = Buffer::new();
    let mut made = Buffer::new();
    let mut copies = Buffer::new();
    let mut impressions = Buffer::new();
    let mut documents = Buffer::new();
    let name = shown_text(*text.allocator(), row.name)?;
    let fields = [
        number.format(row.number).as_bytes(),
        row.state,
        made.format(row.made).as_bytes(),
        copies.format(row.copies).as_bytes(),
        number_field(&mut impressions, row.impressions),
        documents.format(row.documents).as_bytes(),
        name.as_slice(),
    ];
    Ok(put_record(text, &fields)?)
}

/// Gives the digits of a number, or nothing where there is none.
fn number_field(buffer: &mut Buffer, number: Option<u32>) -> &[u8]
    ensures { result.now ≡ number_field number }
{
    match number {
        Some(number) => buffer.format(number).as_bytes(),
        None => b"",
    }
}
