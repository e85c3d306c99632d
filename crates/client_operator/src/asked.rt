//! Makes the lines that an operator's commands send, without the line feeds that end them.
ghost use Rattle.std.specs.Prelude.{◌≡◌, ◌≤◌, IfOk};
ghost use Rattle.account_rules.specs.Limits.{first_month, last_month};
ghost use Rattle.client_operator.specs.Asked.{account_asked, backup_asked, cancel_asked, slice_asked, statement_asked};
ghost use Rattle.client_operator.specs.Names.{accounts_asked, last_of};

use account_rules::Name;
use client_lines::month_text;
use std::alloc::{AllocError, Global};

/// Makes the line that asks for the next accounts: `accounts NAME` with the last name known, or
/// `accounts -` where none is yet.
pub(crate) fn accounts_line(alloc: Global, names: &[Name]) -> Result<Vec<u8>, AllocError>
    ensures { IfOk result (λ line. line.items ≡ accounts_asked (last_of names.now)) }
{
    match names.last() {
        Some(name) => account_line(alloc, b"accounts ", name),
        None => Vec::from_slice(alloc, b"accounts -"),
    }
}

/// Makes a line of a word, with its space behind it, and an account: as `jobs ACCOUNT`.
pub(crate) fn account_line(
    alloc: Global,
    word: &[u8],
    account: &Name,
) -> Result<Vec<u8>, AllocError>
    ensures { IfOk result (λ line. line.items ≡ account_asked word.now account.now) }
{
    let mut line = Vec::from_slice(alloc, word)?;
    line.extend_from_slice(account.bytes())?;
    Ok(line)
}

/// Makes the line `statement ACCOUNT YYYY-MM`.
pub(crate) fn statement_line(
    alloc: Global,
    account: &Name,
    month: u32,
) -> Result<Vec<u8>, AllocError>
    requires first { first_month ≤ month }
    requires last { month ≤ last_month }
    ensures { IfOk result (λ line. line.items ≡ statement_asked account.now month) }
{
    let mut line = account_line(alloc, b"statement ", account)?;
    line.push(b' ')?;
    line.extend_from_slice(&month_text(month))?;
    Ok(line)
}

/// Makes the line `cancel ACCOUNT JOB`, with the job as an answer told it.
pub(crate) fn cancel_line(alloc: Global, account: &Name, job: &[u8]) -> Result<Vec<u8>, AllocError>
    ensures { IfOk result (λ line. line.items ≡ cancel_asked account.now job.now) }
{
    let mut line = account_line(alloc, b"cancel ", account)?;
    line.push(b' ')?;
    line.extend_from_slice(job)?;
    Ok(line)
}

/// Makes the line `backup FILE`.
pub(crate) fn backup_line(alloc: Global, file: &str) -> Result<Vec<u8>, AllocError>
    ensures { IfOk result (λ line. line.items ≡ backup_asked file.now) }
{
    let mut line = Vec::from_slice(alloc, b"backup ")?;
    line.extend_from_slice(file.as_bytes())?;
    Ok(line)
}

/// Makes the line `slice FILE`.
pub(crate) fn slice_line(alloc: Global, file: &str) -> Result<Vec<u8>, AllocError>
    ensures { IfOk result (λ line. line.items ≡ slice_asked file.now) }
{
    let mut line = Vec::from_slice(alloc, b"slice ")?;
    line.extend_from_slice(file.as_bytes())?;
    Ok(line)
}
