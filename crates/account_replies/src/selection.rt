//! Decides which attributes a requester is shown, by the names in requested-attributes.

ghost use Rattle.std.specs.Prelude.{◌≡◌, ℕ, Bool, List, map};
ghost use Rattle.std.specs.Borrow.{Bor};
ghost use Rattle.std.specs.List.{list_any};
ghost use Rattle.account_replies.specs.declared.job.JobAttribute.{JobAttribute};
ghost use Rattle.account_replies.specs.ProofJobPlaces.{job_row, wanted_rows};
ghost use Rattle.account_replies.specs.Tables.{asks_for, asked_names, is_wanted};

use crate::job::{JOB_ATTRIBUTE_COUNT, JOB_ATTRIBUTES, JobAttribute};
use std::marker::Model;

/// Which attributes of a job a requester wants: the names that are asked for, held against the
/// attributes once. Contracts see a flag for each attribute, in their order.
#[derive(Drop)]
pub struct Selection {
    flags: [bool; JOB_ATTRIBUTE_COUNT],
}

impl Model for Selection {
    ghost Value = { List Bool };

    ghost view = { λ s. s.flags };
}

impl Selection {
    /// Selects by the names that are asked for, and all attributes where none are.
    pub fn of(wanted: Option<&[&[u8]]>) -> Selection
        ensures { result ≡ wanted_rows (asked_names wanted.entry) }
    {
        Selection {
            flags: is_each_wanted(wanted, &JOB_ATTRIBUTES),
        }
    }

    /// For each of `JOB_ATTRIBUTES`, in their order, whether it is wanted.
    pub(crate) fn flags(&self) -> &[bool; JOB_ATTRIBUTE_COUNT]
        ensures { result.now ≡ self.now }
    {
        &self.flags
    }
}

/// Tells of each attribute whether it is wanted. One that is wanted is held against the names no
/// further than to the first that asks for it.
fn is_each_wanted(
    wanted: Option<&[&[u8]]>,
    attributes: &[JobAttribute; JOB_ATTRIBUTE_COUNT],
) -> [bool; JOB_ATTRIBUTE_COUNT]
    ensures { result
        ≡ map
        (λ (a : JobAttribute).
        is_wanted (asked_names wanted.entry) (job_row a).name (job_row a).group)
        attributes.now }
{
    let mut selected = [false; JOB_ATTRIBUTE_COUNT];
    for index in 0..JOB_ATTRIBUTE_COUNT {
        let attribute = attributes[index];
        selected[index] = is_wanted(wanted, attribute.name(), attribute.group());
    }
    selected
}

/// Whether the attribute is to be shown: `wanted` are the values of `requested-attributes`, of
/// which one has to be its name, the keyword `group` that asks for it with its like
/// (`job-template`), or `all`. Where there are none every attribute is (RFC 8011 section 4.2.5.1).
pub(crate) fn is_wanted(wanted: Option<&[&[u8]]>, name: &[u8], group: &[u8]) -> bool
    ensures { result ≡ is_wanted (asked_names wanted.entry) name.now group.now }
{
    match wanted {
        None => true,
        Some(names) => is_asked_for(names, name, group),
    }
}

/// Whether one of the names asks for the attribute.
fn is_asked_for(names: &[&[u8]], name: &[u8], group: &[u8]) -> bool
    ensures { result
        ≡ list_any
        (λ (asked : Bor (List ℕ)). asks_for name.now group.now asked.now)
        names.entry.now }
{
    names.iter().any(|asked| asks_for(asked, name, group))
}

/// Whether the name is that of the attribute, of its group, or `all`.
fn asks_for(asked: &[u8], name: &[u8], group: &[u8]) -> bool
    ensures { result ≡ asks_for name.now group.now asked.now }
{
    asked == name || asked == group || asked == b"all".as_slice()
}
