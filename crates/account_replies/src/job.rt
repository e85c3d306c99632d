//! Shows a job in a response: which attributes a job has, in which order, and the value of each.

ghost use Rattle.std.specs.Prelude.{◌≡◌, ◌≤◌, ◌*◌, ◌/◌, IfErr, OnErr, take, length};
ghost use Rattle.ipp_coding.specs.Spelling.{attribute_spelling, group_spelling, Fits};
ghost use Rattle.account_rules.specs.Limits.{greatest_integer, last_job, most_impressions};
ghost use Rattle.account_replies.specs.ProofAppends.{Appends};
ghost use Rattle.account_replies.specs.Attributes.{attribute_of, attribute_with};
ghost use Rattle.account_replies.specs.Limits.{IsAttributeName, IsPlace, IsShowable};
ghost use Rattle.account_replies.specs.JobAttributes.{job_group, impressions_values, job_state_reason};
ghost use Rattle.account_replies.specs.ProofJobPlaces.{selected_group, job_row, picked_text};
ghost use Rattle.account_replies.specs.Places.{plain_place, job_uri};
ghost use Rattle.account_replies.specs.Tables.{asked_names, row_attribute};
ghost use Rattle.account_replies.specs.ProofRowTexts.{text_where};

use crate::attribute::{begin_group, put_moment, put_number, put_printer_uri, put_single};
use crate::place::Place;
use crate::selection::Selection;
use account_rules::{CoreFault, Job, JobState, Standing};
use ipp_coding::tags::{
    self, CHARSET, ENUM, INTEGER, KEYWORD, NAME_WITHOUT_LANGUAGE, NATURAL_LANGUAGE, UNKNOWN, URI,
};
use std::alloc::AllocError;

/// An attribute that a job shows.
#[derive(Clone, Copy)]
pub(crate) enum JobAttribute {
    Uri,
    Id,
    PrinterUri,
    Name,
    UserName,
    State,
    StateReasons,
    Documents,
    Impressions,
    ImpressionsCompleted,
    Created,
    Started,
    Ended,
    UpTime,
    Charset,
    NaturalLanguage,
    Copies,
    HoldUntil,
}

/// How many attributes a job shows.
pub(crate) const JOB_ATTRIBUTE_COUNT: usize = 18;

/// All attributes of a job, in the order in which they are shown.
pub(crate) const JOB_ATTRIBUTES: [JobAttribute; JOB_ATTRIBUTE_COUNT] = [
    JobAttribute::Uri,
    JobAttribute::Id,
    JobAttribute::PrinterUri,
    JobAttribute::Name,
    JobAttribute::UserName,
    JobAttribute::State,
    JobAttribute::StateReasons,
    JobAttribute::Documents,
    JobAttribute::Impressions,
    JobAttribute::ImpressionsCompleted,
    JobAttribute::Created,
    JobAttribute::Started,
    JobAttribute::Ended,
    JobAttribute::UpTime,
    JobAttribute::Charset,
    JobAttribute::NaturalLanguage,
    JobAttribute::Copies,
    JobAttribute::HoldUntil,
];

impl JobAttribute {
    /// The attribute's name in a message.
    #[tactic(auto, unfolding(crate::specs::JobAttributes::job_attributes))]
    pub(crate) fn name(self) -> &'static [u8]
        ensures row { result.now ≡ (job_row self).name }
        ensures name { IsAttributeName result.now }
    {
        match self {
            JobAttribute::Uri => b"job-uri",
            JobAttribute::Id => b"job-id",
            JobAttribute::PrinterUri => b"job-printer-uri",
            JobAttribute::Name => b"job-name",
            JobAttribute::UserName => b"job-originating-user-name",
            JobAttribute::State => b"job-state",
            JobAttribute::StateReasons => b"job-state-reasons",
            JobAttribute::Documents => b"number-of-documents",
            JobAttribute::Impressions => b"job-impressions",
            JobAttribute::ImpressionsCompleted => b"job-impressions-completed",
            JobAttribute::Created => b"time-at-creation",
            JobAttribute::Started => b"time-at-processing",
            JobAttribute::Ended => b"time-at-completed",
            JobAttribute::UpTime => b"job-printer-up-time",
            JobAttribute::Charset => b"attributes-charset",
            JobAttribute::NaturalLanguage => b"attributes-natural-language",
            JobAttribute::Copies => b"copies",
            JobAttribute::HoldUntil => b"job-hold-until",
        }
    }

    /// The keyword in `requested-attributes` that asks for it together with others: job-template or
    /// job-description.
    #[tactic(auto, unfolding(crate::specs::JobAttributes::job_attributes))]
    pub(crate) fn group(self) -> &'static [u8]
        ensures { result.now ≡ (job_row self).group }
    {
        match self {
            JobAttribute::Copies | JobAttribute::HoldUntil => b"job-template",
            _ => b"job-description",
        }
    }
}

/// Appends the group of a job, with the attributes that are wanted. `Memory` is its only fault, and
/// then nothing is appended.
pub fn put_job(
    out: &mut Vec<u8>,
    at: &Place<'_>,
    job: &Job,
    wanted: Option<&[&[u8]]>,
) -> Result<(), CoreFault>
    requires place { IsPlace (plain_place at.now) }
    requires job { IsShowable job.now }
    ensures appended { Appends result out.old.items out.new.items
        (group_spelling (job_group (plain_place at.entry.now) job.now (asked_names wanted.entry))) }
    ensures memory { IfErr result (λ fault. fault ≡ CoreFault.Memory) }
    ensures unchanged { OnErr result (out.new.items ≡ out.old.items) }
{
    let start = out.len();
    let answer = append_wanted(out, at, job, wanted);
    if answer.is_err() {
        out.truncate(start);
    }
    Ok(answer?)
}

/// Appends the group of a job, with the attributes that are wanted. Where memory runs out a part of
/// it is left, which the caller takes back or drops.
pub(crate) fn append_wanted(
    out: &mut Vec<u8>,
    at: &Place<'_>,
    job: &Job,
    wanted: Option<&[&[u8]]>,
) -> Result<(), AllocError>
    requires place { IsPlace (plain_place at.now) }
    requires job { IsShowable job.now }
    ensures appended { Appends result out.old.items out.new.items
        (group_spelling (job_group (plain_place at.entry.now) job.now (asked_names wanted.entry))) }
    ensures front { take (length out.old.items) out.new.items ≡ out.old.items }
{
    append_job(out, at, job, &Selection::of(wanted))
}

/// Appends the group of a job with the attributes of the selection, which serves many jobs. Where
/// memory runs out a part of it is left.
pub(crate) fn append_job(
    out: &mut Vec<u8>,
    at: &Place<'_>,
    job: &Job,
    selection: &Selection,
) -> Result<(), AllocError>
    requires place { IsPlace (plain_place at.now) }
    requires job { IsShowable job.now }
    ensures appended { Appends result out.old.items out.new.items
        (group_spelling (selected_group (plain_place at.entry.now) job.now selection.now)) }
    ensures front { take (length out.old.items) out.new.items ≡ out.old.items }
{
    begin_group(out, tags::JOB_ATTRIBUTES)?;
    put_job_attributes(out, at, job, selection.flags(), &JOB_ATTRIBUTES)?;
    Ok(())
}

/// Appends those of the attributes whose flag is set, one by one.
fn put_job_attributes(
    out: &mut Vec<u8>,
    at: &Place<'_>,
    job: &Job,
    flags: &[bool; JOB_ATTRIBUTE_COUNT],
    attributes: &[JobAttribute; JOB_ATTRIBUTE_COUNT],
) -> Result<(), AllocError>
    requires place { IsPlace (plain_place at.now) }
    requires job { IsShowable job.now }
    ensures appended { Appends result out.old.items out.new.items
        (picked_text (plain_place at.entry.now) job.now flags.now attributes.now) }
    ensures front { take (length out.old.items) out.new.items ≡ out.old.items }
{
    for index in 0..JOB_ATTRIBUTE_COUNT {
        put_where_set(out, at, job, flags[index], attributes[index])?;
    }
    Ok(())
}

/// Appends the attribute, if its flag is set.
fn put_where_set(
    out: &mut Vec<u8>,
    at: &Place<'_>,
    job: &Job,
    flag: bool,
    attribute: JobAttribute,
) -> Result<(), AllocError>
    requires place { IsPlace (plain_place at.now) }
    requires job { IsShowable job.now }
    ensures appended { Appends result out.old.items out.new.items
        (text_where flag (plain_place at.entry.now) job.now (job_row attribute)) }
    ensures unchanged { OnErr result (out.new.items ≡ out.old.items) }
{
    if !flag {
        return Ok(());
    }
    put_job_attribute(out, at, job, attribute)
}

/// Appends one attribute of the job with its value.
#[tactic(auto, unfolding(crate::specs::JobAttributes::job_attributes))]
fn put_job_attribute(
    out: &mut Vec<u8>,
    at: &Place<'_>,
    job: &Job,
    attribute: JobAttribute,
) -> Result<(), AllocError>
    requires place { IsPlace (plain_place at.now) }
    requires job { IsShowable job.now }
    ensures appended { Appends result out.old.items out.new.items
        (attribute_spelling
        (row_attribute (plain_place at.entry.now) job.now (job_row attribute))) }
    ensures unchanged { OnErr result (out.new.items ≡ out.old.items) }
{
    let name = attribute.name();
    let standing = &job.standing;
    match attribute {
        JobAttribute::Uri => put_job_uri(out, name, at, job.job),
        JobAttribute::Id => put_number(out, INTEGER, name, job.job),
        JobAttribute::PrinterUri => put_printer_uri(out, name, at),
        JobAttribute::Name => put_single(out, NAME_WITHOUT_LANGUAGE, name, job.name.as_slice()),
        JobAttribute::UserName => put_single(out, NAME_WITHOUT_LANGUAGE, name, at.name.bytes()),
        JobAttribute::State => put_number(out, ENUM, name, standing.state.number()),
        JobAttribute::StateReasons => put_single(out, KEYWORD, name, state_reason(standing)),
        JobAttribute::Documents => put_number(out, INTEGER, name, standing.documents),
        JobAttribute::Impressions => put_impressions(out, name, standing.impressions),
        JobAttribute::ImpressionsCompleted => put_number(
            out,
            INTEGER,
            name,
            impressions_completed(standing),
        ),
        JobAttribute::Created => put_number(out, INTEGER, name, at.up(standing.created)),
        JobAttribute::Started => put_moment(out, name, at, standing.started),
        JobAttribute::Ended => put_moment(out, name, at, standing.ended),
        JobAttribute::UpTime => put_number(out, INTEGER, name, at.up(at.now)),
        JobAttribute::Charset => put_single(out, CHARSET, name, b"utf-8"),
        JobAttribute::NaturalLanguage => put_single(out, NATURAL_LANGUAGE, name, b"en"),
        JobAttribute::Copies => put_number(out, INTEGER, name, standing.copies),
        JobAttribute::HoldUntil => put_single(out, KEYWORD, name, b"indefinite"),
    }
}

/// The job-state-reasons of the job: one keyword, by its state.
fn state_reason(standing: &Standing) -> &'static [u8]
    ensures reason { result.now
        ≡ job_state_reason standing.now.state standing.now.is_open standing.now.stopping }
    ensures fits { Fits result.now }
{
    match standing.state {
        JobState::Held if standing.is_open => b"job-incoming",
        JobState::Held => b"job-hold-until-specified",
        JobState::Pending => b"none",
        JobState::Processing if standing.stopping => b"processing-to-stop-point",
        JobState::Processing => b"job-printing",
        JobState::Canceled => b"job-canceled-by-user",
        JobState::Aborted => b"aborted-by-system",
        JobState::Completed => b"job-completed-successfully",
    }
}

/// The impressions of all copies that the device completed: the units that were charged, by the
/// job's rate.
fn impressions_completed(standing: &Standing) -> u32
    requires rate { 1 ≤ standing.now.rate }
    requires charged { standing.now.charged ≤ most_impressions * standing.now.rate }
    ensures quotient { result ≡ standing.now.charged / standing.now.rate }
    ensures integer { result ≤ greatest_integer }
{
    (standing.charged / u64::from(standing.rate)) as u32
}

/// Appends the attribute with so many impressions, or as `unknown` where they are 0.
fn put_impressions(out: &mut Vec<u8>, name: &[u8], impressions: u32) -> Result<(), AllocError>
    requires name { IsAttributeName name.now }
    requires impressions { impressions ≤ most_impressions }
    ensures appended { Appends result out.old.items out.new.items
        (attribute_spelling (attribute_of name.now (impressions_values impressions))) }
    ensures unchanged { OnErr result (out.new.items ≡ out.old.items) }
{
    if impressions == 0 {
        return put_single(out, UNKNOWN, name, b"");
    }
    put_number(out, INTEGER, name, impressions)
}

/// Appends an attribute of one URI, that of the job.
fn put_job_uri(out: &mut Vec<u8>, name: &[u8], at: &Place<'_>, job: u32) -> Result<(), AllocError>
    requires name { IsAttributeName name.now }
    requires place { IsPlace (plain_place at.now) }
    requires job { job ≤ last_job }
    ensures appended { Appends result out.old.items out.new.items
        (attribute_spelling
        (attribute_with name.now 0x45 (job_uri (plain_place at.entry.now) job))) }
    ensures unchanged { OnErr result (out.new.items ≡ out.old.items) }
{
    let uri = at.job_uri(*out.allocator(), job)?;
    put_single(out, URI, name, &uri)
}
