//! A job that an owner wants printed: its document, and what is told of it.

use account_rules::Format;

/// A job that is to be printed, with its one document.
#[derive(Clone, Copy)]
pub struct NewJob<'a> {
    pub name: &'a [u8],
    pub copies: u32,
    /// The impressions of one copy, where they are told.
    pub impressions: Option<u32>,
    /// The PIN, where the job has one.
    pub password: Option<&'a [u8]>,
    pub format: Format,
    pub document: &'a [u8],
}
