//! Statements on the table `document`, which has the documents of unfinished jobs.

ghost use Rattle.std.specs.Prelude.{◌≡◌, [], ◌∷◌, None, pos, Err, IfOk, IfErr, IsPermutation};
ghost use Rattle.rows_statements.specs.Prelude.{Changes, HoldsRoom, IfOurTables, KeepsOpen, ReadsStore, RoomValue, SetsRow, WalksStore, WritesInSavepoint, number};
ghost use Rattle.std.specs.List.{flat_map};
ghost use Rattle.std.specs.Option.{option_to_list};
ghost use Rattle.sqlite_value.specs.declared.value.Value.TheVariants.{Text};
ghost use Rattle.account_rules.specs.declared.job.Document.{Document as DocumentValue};
ghost use Rattle.account_state.specs.Documents.{documents_of};
ghost use Rattle.rows_tables.specs.Places.{job_places};
ghost use Rattle.rows_tables.specs.Tables.{document as document_table};
ghost use Rattle.rows_tables.specs.Keyed.{RemovesRows};
ghost use Rattle.rows_tables.specs.Cells.{document_cells};
ghost use Rattle.rows_tables.specs.Accounts.{document_at};
ghost use Rattle.rows_statements.specs.Documents.{IsDocumentOf, ShowsDocument, gathers_document, refuses_document, shown_documents};
ghost use Rattle.rows_statements.specs.SoundRows.{document_rows, AreRowsOf};

use crate::reads::Reads;
use crate::walking::Gather;
use account_rules::{Document, Format, LONGEST_DOCUMENT, MOST_DOCUMENTS, Name};
use ipp_coding::List;
use rows_tables::values::{bytes_at, format_at, format_text, number, short_at};
use rows_tables::{TableFault, put, write};
use sqlite::{Alter, Error, Row, Savepoint};
use sqlite_value::value::ValueRef;
use std::alloc::Global;

/// Reads the documents of a job, by rising number. `Damaged` where a row is broken.
pub fn find_documents<R: Reads>(
    alloc: Global,
    connection: &mut R,
    account: Name,
    job: u32,
) -> Result<List<Document>, TableFault>
    ensures listed { IfOurTables R.S.Store (R.held connection.old) (R.held connection.new)
        (λ db. (room : RoomValue)
        → HoldsRoom db account room
        → IfOk result (λ documents. documents ≡ documents_of room job)) }
    ensures damaged { IfOurTables R.S.Store (R.held connection.old) (R.held connection.new) (λ db.
        result ≡ Err TableFault.Damaged
        → AreRowsOf (document_cells account) (IsDocumentOf job)
        (document_rows db account job) → ⊥) }
    ensures reads { ReadsStore R.S.Store (R.held connection.old) (R.held connection.new) result }
{
    let mut found = Found {
        job,
        places: [None, None, None, None, None, None, None, None],
    };
    walk_documents(connection, account, &mut found)?;
    in_order(alloc, found.places)
}

/// How many documents a job may have, as the length of an array.
const PLACES: usize = MOST_DOCUMENTS as usize;

/// The documents of a job that were read so far. Document 1 is in the first place.
#[derive(Drop)]
struct Found {
    job: u32,
    places: [Option<Document>; PLACES],
}

impl Gather for Found {
    ghost use Rattle.rows_statements.specs.Documents.{gathers_document, refuses_document};

    ghost step = { gathers_document };

    ghost refuses = { λ first row. refuses_document first.job row };

    fn gather(&mut self, row: &Row) -> Result<(), TableFault> {
        let document = document_from(row, self.job)?;
        let place = (document.number - 1) as usize;
        self.places[place] = Some(document);
        Ok(())
    }
}

/// Reads a document of the job from its row. `Damaged` where the number or the length is out of
/// range.
fn document_from(row: &Row, job: u32) -> Result<Document, TableFault>
    ensures read { IfOk result (ShowsDocument row.now) }
    ensures in_range { IfOk result (IsDocumentOf job) }
    ensures damaged { result ≡ Err TableFault.Damaged → (document : DocumentValue)
        → IsDocumentOf job document → ShowsDocument row.now document → ⊥ }
{
    let number = short_at(row, 0)?;
    let format = format_at(row, 1)?;
    let bytes = bytes_at(row, 2)?;
    if number < 1 || number > MOST_DOCUMENTS || bytes.items.len() > LONGEST_DOCUMENT {
        return Err(TableFault::Damaged);
    }
    Ok(Document {
        job,
        number,
        format,
        bytes,
    })
}

/// Reads the rows of the job's documents into `found`, in any order.
fn walk_documents<R: Reads>(
    connection: &mut R,
    account: Name,
    found: &mut Found,
) -> Result<(), TableFault>
    ensures walks { WalksStore gathers_document (λ first row. refuses_document first.job row)
        R.S.Store (R.held connection.old) (R.held connection.new)
        (λ db. IsPermutation (shown_documents db account found.old.job))
        found.old found.new result }
    ensures connection { KeepsOpen R.S.Store (R.held connection.old)
        (R.held connection.new) result }
{
    connection.walk(
        "SELECT number, format, bytes FROM document WHERE account = ?1 AND job = ?2",
        &[ValueRef::Text(account.bytes()), number(found.job as u64)],
        found,
    )
}

/// The documents that were found, by rising number.
fn in_order(alloc: Global, places: [Option<Document>; PLACES]) -> Result<List<Document>, TableFault>
    ensures listed { IfOk result (λ documents. documents ≡ flat_map option_to_list places) }
    ensures fault { IfErr result (λ fault. fault ≡ TableFault.Memory) }
{
    let mut items = Vec::new(alloc);
    for place in places {
        if let Some(document) = place {
            items.push(document)?;
        }
    }
    Ok(List { items })
}

/// Inserts a document of a job, inside a savepoint. The row takes the one copy of the bytes.
/// `Damaged` where the job has a document of this number already.
pub fn add_document<S: Alter>(
    savepoint: &mut Savepoint<'_, S>,
    account: Name,
    job: u32,
    number_in_job: u32,
    format: Format,
    bytes: &[u8],
) -> Result<(), TableFault>
    ensures sets { Changes S.Store savepoint.old.conn.now savepoint.new.conn.now result
        (SetsRow document_table (document_cells account
        (record { job = job; number = number_in_job; format = format; bytes = bytes.now }))) }
    ensures taken { IfOurTables S.Store savepoint.old.conn.now savepoint.new.conn.now (λ db.
        result ≡ Err TableFault.Damaged
        → document_at db account (pos job) (pos number_in_job) ≡ None → ⊥) }
    ensures inside { WritesInSavepoint savepoint.old savepoint.new result }
{
    put(
        savepoint,
        "INSERT INTO document (account, job, number, format, bytes) VALUES (?1, ?2, ?3, ?4, ?5)",
        &[
            ValueRef::Text(account.bytes()),
            number(job as u64),
            number(number_in_job as u64),
            format_text(format),
            ValueRef::Blob(bytes),
        ],
    )
}

/// Deletes the documents of a job, inside a savepoint. The job may have none.
pub fn remove_documents<S: Alter>(
    savepoint: &mut Savepoint<'_, S>,
    account: Name,
    job: u32,
) -> Result<(), Error>
    ensures removes { Changes S.Store savepoint.old.conn.now savepoint.new.conn.now result
        (RemovesRows document_table (Text account ∷ number job ∷ []) job_places) }
    ensures inside { WritesInSavepoint savepoint.old savepoint.new result }
{
    write(
        savepoint,
        "DELETE FROM document WHERE account = ?1 AND job = ?2",
        &[ValueRef::Text(account.bytes()), number(job as u64)],
    )
}
