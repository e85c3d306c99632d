//! Numbers by which the schema is recognized: the number of each table's tree in the file, and the
//! places of the columns that are in keys and indexes. Columns count from 1.

/// The tree of `meta`. It has no index: its key is its row number.
pub(crate) const META_TREE: u32 = 0;

/// The tree of `account`. The index of a table's key is in the tree after the table's.
pub(crate) const ACCOUNT_TREE: u32 = 1;

/// The tree of `job`.
pub(crate) const JOB_TREE: u32 = 3;

/// The tree of `document`.
pub(crate) const DOCUMENT_TREE: u32 = 5;

/// The tree of `grants`.
pub(crate) const GRANTS_TREE: u32 = 7;

/// The tree of `device`.
pub(crate) const DEVICE_TREE: u32 = 9;

/// The tree of `rates`.
pub(crate) const RATES_TREE: u32 = 11;

/// The tree of the index on jobs by their end.
pub(crate) const JOB_ENDED_TREE: u32 = 13;

/// The place of the row number, which stands before all columns.
pub(crate) const ROW_NUMBER: usize = 0;

/// The place of the column `name` of `account`.
pub(crate) const ACCOUNT_NAME: usize = 1;

/// The place of the column `account` of `job`.
pub(crate) const JOB_ACCOUNT: usize = 1;

/// The place of the column `job` of `job`: the job's number.
pub(crate) const JOB_NUMBER: usize = 2;

/// The place of the column `ended` of `job`.
pub(crate) const JOB_ENDED: usize = 17;

/// The place of the column `account` of `document`.
pub(crate) const DOCUMENT_ACCOUNT: usize = 1;

/// The place of the column `job` of `document`.
pub(crate) const DOCUMENT_JOB: usize = 2;

/// The place of the column `number` of `document`.
pub(crate) const DOCUMENT_NUMBER: usize = 3;

/// The place of the column `account` of `grants`.
pub(crate) const GRANT_ACCOUNT: usize = 1;

/// The place of the column `month` of `grants`.
pub(crate) const GRANT_MONTH: usize = 2;

/// The place of the column `name` of `device`.
pub(crate) const DEVICE_NAME: usize = 1;

/// The place of the column `device` of `rates`.
pub(crate) const RATE_DEVICE: usize = 1;
