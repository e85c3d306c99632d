//! The part of the check that reads documents: whether each belongs to an unfinished job that has
//! it, and whether no document is missing.

ghost use Rattle.std.specs.Prelude.{◌≡◌, ◌&&◌, ℤ, [], ◌∷◌, Err, IfOk, IfSome, None, OnOk, Some, option_map, pos};
ghost use Rattle.account_rules.specs.declared.job.Document.{Document as DocumentValue};
ghost use Rattle.account_state.specs.RoomRules.{has_document, IsDocumentAt};
ghost use Rattle.rows_checks.specs.Checks.{DocumentIsInOrder, DocumentsAreInOrder, HasDocument, IsDocumentThere, ShowsContent};
ghost use Rattle.rows_statements.specs.Prelude.{GetsRow, IfOurTables, IsRowOf, KeepsOpen, ReadsStore, column};
ghost use Rattle.rows_tables.specs.Places.{document_column, cell};
ghost use Rattle.rows_tables.specs.Accounts.{document_at, IsSound};
ghost use Rattle.rows_tables.specs.Cells.{document_cells};

use crate::keys::{Nothing, Places, walk_places};
use account_rules::{Document, Job, LONGEST_DOCUMENT, Name};
use rows_statements::{Reads, find_job};
use rows_tables::TableFault;
use rows_tables::values::{bytes_at, format_at, number};
use sqlite::{Error, Row};
use sqlite_value::value::ValueRef;
use std::alloc::Global;

/// Checks that the account has no document. `Damaged` where it has one.
pub(crate) fn check_no_document<R: Reads>(
    connection: &mut R,
    account: Name,
) -> Result<(), TableFault>
    ensures none { IfOurTables R.S.Store (R.held connection.old) (R.held connection.new)
        (λ db. OnOk result ((job number : ℤ) → document_at db account job number ≡ None)) }
    ensures damaged { IfOurTables R.S.Store (R.held connection.old) (R.held connection.new)
        (λ db. result ≡ Err TableFault.Damaged
        → ((job number : ℤ) → document_at db account job number ≡ None) → ⊥) }
    ensures reads { ReadsStore R.S.Store (R.held connection.old) (R.held connection.new) result }
{
    let mut nothing = Nothing {};
    walk_places(connection, account, &mut nothing)
}

/// Reads one document of a job. `None` where it is not there; `Damaged` where its row is broken.
fn find_document<R: Reads>(
    connection: &mut R,
    account: Name,
    job: u32,
    document: u32,
) -> Result<Option<Document>, TableFault>
    ensures found { IfOurTables R.S.Store (R.held connection.old) (R.held connection.new)
        (λ db. IfOk result (λ found.
        document_at db account (pos job) (pos document)
        ≡ option_map (document_cells account) found)) }
    ensures in_range { IfOk result (λ found. IfSome found (IsDocumentAt (job, document))) }
    ensures damaged { IfOurTables R.S.Store (R.held connection.old) (R.held connection.new) (λ db.
        result ≡ Err TableFault.Damaged
        → IsRowOf (document_cells account) (IsDocumentAt (job, document))
        (document_at db account (pos job) (pos document)) → ⊥) }
    ensures reads { ReadsStore R.S.Store (R.held connection.old) (R.held connection.new) result }
{
    match document_row(connection, account, job, document)? {
        Some(row) => Ok(Some(document_told(&row, job, document)?)),
        None => Ok(None),
    }
}

/// Runs the query of `find_document`.
fn document_row<R: Reads>(
    connection: &mut R,
    account: Name,
    job: u32,
    document: u32,
) -> Result<Option<Row>, Error>
    ensures gets { GetsRow R.S.Store (R.held connection.old) (R.held connection.new)
        (λ db. document_at db account (pos job) (pos document))
        (λ cells. cell document_column.format cells ∷ cell document_column.bytes cells ∷ [])
        result }
    ensures connection { KeepsOpen R.S.Store (R.held connection.old)
        (R.held connection.new) result }
{
    connection.find_row(
        "SELECT format, bytes FROM document WHERE account = ?1 AND job = ?2 AND number = ?3",
        &[
            ValueRef::Text(account.bytes()),
            number(job as u64),
            number(document as u64),
        ],
    )
}

/// Reads a document from the row of that query. `Damaged` where its format or length is none that a
/// document can have.
fn document_told(row: &Row, job: u32, document: u32) -> Result<Document, TableFault>
    ensures read { IfOk result (ShowsContent row.now) }
    ensures in_range { IfOk result (IsDocumentAt (job, document)) }
    ensures damaged { result ≡ Err TableFault.Damaged → (it : DocumentValue)
        → IsDocumentAt (job, document) it → ShowsContent row.now it → ⊥ }
{
    let format = format_at(row, 0)?;
    let bytes = bytes_at(row, 1)?;
    if bytes.items.len() > LONGEST_DOCUMENT {
        return Err(TableFault::Damaged);
    }
    Ok(Document {
        job,
        number: document,
        format,
        bytes,
    })
}

/// Checks each document of the account: its job has to be unfinished, and to have so many.
/// `Damaged` where the rows are not sound.
pub(crate) fn check_places<R: Reads>(
    alloc: Global,
    connection: &mut R,
    account: Name,
) -> Result<(), TableFault>
    ensures in_order { IfOurTables R.S.Store (R.held connection.old) (R.held connection.new)
        (λ db. OnOk result (DocumentsAreInOrder db account)) }
    ensures damaged { IfOurTables R.S.Store (R.held connection.old) (R.held connection.new)
        (λ db. result ≡ Err TableFault.Damaged → IsSound db account → ⊥) }
    ensures reads { ReadsStore R.S.Store (R.held connection.old) (R.held connection.new) result }
{
    // The connection can read nothing else while the walk is under way.
    let mut places = Places {
        items: Vec::new(alloc),
    };
    walk_places(connection, account, &mut places)?;
    for (job, number) in places.as_slice() {
        check_place(connection, account, *job, *number)?;
    }
    Ok(())
}

/// Whether the job has a document of this number: it is unfinished, and was given at least so many.
fn has_document(job: &Job, document: u32) -> bool
    ensures { result ≡ has_document (Some job.now) document }
{
    job.standing.state.is_unfinished() && document >= 1 && document <= job.standing.documents
}

/// Checks that a document, if it is there, is one that its job has. `Damaged` where it is not.
fn check_place<R: Reads>(
    connection: &mut R,
    account: Name,
    job: u32,
    document: u32,
) -> Result<(), TableFault>
    ensures in_order { IfOurTables R.S.Store (R.held connection.old) (R.held connection.new)
        (λ db. OnOk result (DocumentIsInOrder db account job document)) }
    ensures damaged { IfOurTables R.S.Store (R.held connection.old) (R.held connection.new)
        (λ db. result ≡ Err TableFault.Damaged → IsSound db account → ⊥) }
    ensures reads { ReadsStore R.S.Store (R.held connection.old) (R.held connection.new) result }
{
    if has_job_with(connection, account, job, document)? {
        return Ok(());
    }
    match find_document(connection, account, job, document)? {
        Some(_) => Err(TableFault::Damaged),
        None => Ok(()),
    }
}

/// Whether the job is there and has a document of this number. `Damaged` where the row of the job
/// is broken.
fn has_job_with<R: Reads>(
    connection: &mut R,
    account: Name,
    job: u32,
    document: u32,
) -> Result<bool, TableFault>
    ensures there { IfOurTables R.S.Store (R.held connection.old) (R.held connection.new)
        (λ db. IfOk result (HasDocument db account job document)) }
    ensures damaged { IfOurTables R.S.Store (R.held connection.old) (R.held connection.new)
        (λ db. result ≡ Err TableFault.Damaged → IsSound db account → ⊥) }
    ensures reads { ReadsStore R.S.Store (R.held connection.old) (R.held connection.new) result }
{
    match find_job(connection, account, job)? {
        Some(it) => Ok(has_document(&it, document)),
        None => Ok(false),
    }
}

/// Checks that a document of a job is there. `Damaged` where it is missing, or its row is broken.
pub(crate) fn check_there<R: Reads>(
    connection: &mut R,
    account: Name,
    job: u32,
    document: u32,
) -> Result<(), TableFault>
    ensures there { IfOurTables R.S.Store (R.held connection.old) (R.held connection.new)
        (λ db. OnOk result (IsDocumentThere db account job document)) }
    ensures damaged { IfOurTables R.S.Store (R.held connection.old) (R.held connection.new) (λ db.
        result ≡ Err TableFault.Damaged → IsDocumentThere db account job document → ⊥) }
    ensures reads { ReadsStore R.S.Store (R.held connection.old) (R.held connection.new) result }
{
    match find_document(connection, account, job, document)? {
        Some(_) => Ok(()),
        None => Err(TableFault::Damaged),
    }
}
