//! `NewDocument`: a document on its way into the table, as Print-Job and Send-Document bring one.

use account_rules::Format;

/// A document that is to be inserted. Its bytes are borrowed: the row takes the one copy of them.
#[derive(Clone, Copy)]
pub struct NewDocument<'a> {
    /// 1 to 8, among the documents of its job.
    pub number: u32,
    pub format: Format,
    pub bytes: &'a [u8],
}
