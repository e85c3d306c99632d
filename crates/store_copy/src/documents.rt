//! Copying the documents of one job.

ghost use Rattle.std.specs.Prelude.{◌≡◌, Err};
ghost use Rattle.store_copy.specs.ProofParts.{CopiesMore, HasDocuments};
ghost use Rattle.store_copy.specs.ProofRows.{AddsDocuments};
ghost use Rattle.store_copy.specs.ProofSavepoints.{KeepsSavepoint};
ghost use Rattle.rows_statements.specs.SoundRows.{AccountsRead};
ghost use Rattle.rows_tables.specs.Calls.{Changes, IfOurTables, ReadsStore, WritesInSavepoint};
ghost use Rattle.rows_tables.specs.Cells.{document_cells};
ghost use Rattle.rows_tables.specs.Keyed.{SetsRow};
ghost use Rattle.rows_tables.specs.Tables.{document as document_table};
ghost use Rattle.rows_tables.specs.declared.fault.TableFault.TheVariants.{Damaged};

use account_rules::{Document, Name};
use rows_statements::{TableFault, add_document, find_documents};
use sqlite::{Alter, Savepoint};
use std::alloc::Global;
use store_rounds::Rounds;

/// Copies the documents of a job, and answers whether it has any.
pub(crate) fn copy_documents<S: Alter, T: Alter>(
    alloc: Global,
    source: &mut Rounds<S>,
    savepoint: &mut Savepoint<'_, T>,
    account: Name,
    job: u32,
) -> Result<bool, TableFault>
    ensures copies { Changes T.Store savepoint.old.conn.now savepoint.new.conn.now result
        (λ before after. IfOurTables S.Store source.old source.new
        (λ db. CopiesMore account (HasDocuments job) db before after)) }
    ensures inside { KeepsSavepoint savepoint.old savepoint.new result }
    ensures damaged { IfOurTables S.Store source.old source.new
        (λ db. result ≡ Err Damaged → AccountsRead db account → ⊥) }
    ensures reads { ReadsStore S.Store source.old source.new result }
{
    let documents = find_documents(alloc, source, account, job)?;
    add_documents(savepoint, account, job, documents.as_slice())
}

/// Inserts the documents of a job into the copy, and answers whether there are any.
fn add_documents<T: Alter>(
    savepoint: &mut Savepoint<'_, T>,
    account: Name,
    job: u32,
    documents: &[Document],
) -> Result<bool, TableFault>
    ensures adds { Changes T.Store savepoint.old.conn.now savepoint.new.conn.now result
        (AddsDocuments account job documents.now) }
    ensures undamaged { result ≡ Err Damaged → ⊥ }
    ensures inside { KeepsSavepoint savepoint.old savepoint.new result }
{
    for document in documents {
        put_document(savepoint, account, job, document)?;
    }
    Ok(!documents.is_empty())
}

/// Inserts a document into the copy. `Storage` where the copy has one of its number already, since
/// `Damaged` is said of the source alone.
fn put_document<T: Alter>(
    savepoint: &mut Savepoint<'_, T>,
    account: Name,
    job: u32,
    document: &Document,
) -> Result<(), TableFault>
    ensures sets { Changes T.Store savepoint.old.conn.now savepoint.new.conn.now result
        (SetsRow document_table (document_cells account (record document.now { job = job }))) }
    ensures undamaged { result ≡ Err Damaged → ⊥ }
    ensures inside { WritesInSavepoint savepoint.old savepoint.new result }
{
    let put = add_document(
        savepoint,
        account,
        job,
        document.number,
        document.format,
        document.bytes.as_slice(),
    );
    match put {
        Err(TableFault::Damaged) => Err(TableFault::Storage),
        _ => put,
    }
}
