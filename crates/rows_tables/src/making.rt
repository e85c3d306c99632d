//! CREATE TABLE: the tables of a new database, and what a migration adds to those of version 1.

ghost use Rattle.std.specs.Prelude.{◌≡◌, false};
ghost use Rattle.rows_tables.specs.Tables.{no_schema, first_schema, unindexed_schema, room_schema};
ghost use Rattle.rows_tables.specs.Calls.{AllOrNothing, MakesIfHonest, WritesInSavepoint};
ghost use Rattle.rows_tables.specs.Making.{schema_before, schema_with, AddsIndex, IsBlank, IsNew};
ghost use Rattle.rows_tables.specs.Migrating.{AddsRates};

use crate::writing::write;
use sqlite::{Alter, Connection, Error, Savepoint};

/// The tables that version 1 has already, in the order in which they are made.
#[derive(Clone, Copy)]
enum FirstTable {
    Meta,
    Account,
    Job,
    Document,
    Grants,
    Device,
}

/// Makes the tables of version 2 in an empty database, in one transaction. Their only row is the
/// one that tells the version.
pub fn make_tables<S: Alter>(connection: &mut Connection<S>) -> Result<(), Error>
    ensures made { MakesIfHonest S.Store connection.old connection.new result
        (λ before after. before.schema ≡ no_schema → IsNew after) }
    ensures whole { AllOrNothing S.Store connection.old connection.new result }
{
    let mut savepoint = connection.savepoint()?;
    make_all(&mut savepoint)?;
    savepoint.commit()
}

/// Makes the tables of version 2 and their version row, inside a savepoint.
fn make_all<S: Alter>(savepoint: &mut Savepoint<'_, S>) -> Result<(), Error>
    ensures made { MakesIfHonest S.Store savepoint.old.conn.now savepoint.new.conn.now result
        (λ before after. IsBlank no_schema before → IsNew after) }
    ensures inside { WritesInSavepoint savepoint.old savepoint.new result }
{
    make_first_tables(savepoint)?;
    extend_tables(savepoint)?;
    note_version(savepoint)
}

/// Makes the tables that version 1 has already.
fn make_first_tables<S: Alter>(savepoint: &mut Savepoint<'_, S>) -> Result<(), Error>
    ensures made { MakesIfHonest S.Store savepoint.old.conn.now savepoint.new.conn.now result
        (λ before after. IsBlank no_schema before → IsBlank first_schema after) }
    ensures inside { WritesInSavepoint savepoint.old savepoint.new result }
{
    make(savepoint, FirstTable::Meta)?;
    make(savepoint, FirstTable::Account)?;
    make(savepoint, FirstTable::Job)?;
    make(savepoint, FirstTable::Document)?;
    make(savepoint, FirstTable::Grants)?;
    make(savepoint, FirstTable::Device)
}

/// Makes one table of version 1. Those before it in `FirstTable` are there.
fn make<S: Alter>(savepoint: &mut Savepoint<'_, S>, table: FirstTable) -> Result<(), Error>
    ensures made { MakesIfHonest S.Store savepoint.old.conn.now savepoint.new.conn.now result
        (λ before after. IsBlank (schema_before table) before → IsBlank (schema_with table) after) }
    ensures inside { WritesInSavepoint savepoint.old savepoint.new result }
{
    match table {
        FirstTable::Meta => write(
            savepoint,
            "CREATE TABLE meta (id INTEGER NOT NULL PRIMARY KEY, version INTEGER NOT NULL) STRICT",
            &[],
        ),
        FirstTable::Account => write(
            savepoint,
            "CREATE TABLE account (name TEXT NOT NULL, opened INTEGER NOT NULL, next_job INTEGER NOT NULL, PRIMARY KEY (name)) STRICT",
            &[],
        ),
        FirstTable::Job => write(
            savepoint,
            "CREATE TABLE job (account TEXT NOT NULL, job INTEGER NOT NULL, name BLOB NOT NULL, password BLOB NOT NULL, state INTEGER NOT NULL, open INTEGER NOT NULL, stopping INTEGER NOT NULL, copies INTEGER NOT NULL, impressions INTEGER NOT NULL, reserved INTEGER NOT NULL, charged INTEGER NOT NULL, documents INTEGER NOT NULL, rate INTEGER NOT NULL, device TEXT NOT NULL, created INTEGER NOT NULL, started INTEGER NOT NULL, ended INTEGER NOT NULL, PRIMARY KEY (account, job)) STRICT",
            &[],
        ),
        FirstTable::Document => write(
            savepoint,
            "CREATE TABLE document (account TEXT NOT NULL, job INTEGER NOT NULL, number INTEGER NOT NULL, format TEXT NOT NULL, bytes BLOB NOT NULL, PRIMARY KEY (account, job, number)) STRICT",
            &[],
        ),
        FirstTable::Grants => write(
            savepoint,
            "CREATE TABLE grants (account TEXT NOT NULL, month INTEGER NOT NULL, pages INTEGER NOT NULL, PRIMARY KEY (account, month)) STRICT",
            &[],
        ),
        FirstTable::Device => write(
            savepoint,
            "CREATE TABLE device (name TEXT NOT NULL, accepting INTEGER NOT NULL, PRIMARY KEY (name)) STRICT",
            &[],
        ),
    }
}

/// Adds to the tables of version 1 what version 2 has more: the table of rates, and the index by
/// which an account's jobs are found by their ends.
pub(crate) fn extend_tables<S: Alter>(savepoint: &mut Savepoint<'_, S>) -> Result<(), Error>
    ensures made { MakesIfHonest S.Store savepoint.old.conn.now savepoint.new.conn.now result
        (λ before after. IsBlank first_schema before → IsBlank room_schema after) }
    ensures adds { MakesIfHonest S.Store savepoint.old.conn.now savepoint.new.conn.now result
        (λ before after. before.schema ≡ first_schema → AddsRates room_schema before after) }
    ensures inside { WritesInSavepoint savepoint.old savepoint.new result }
{
    make_rates(savepoint)?;
    make_job_ended_index(savepoint)
}

/// Makes the table `rates`: how many units a device counts for an impression.
fn make_rates<S: Alter>(savepoint: &mut Savepoint<'_, S>) -> Result<(), Error>
    ensures made { MakesIfHonest S.Store savepoint.old.conn.now savepoint.new.conn.now result
        (λ before after. IsBlank first_schema before → IsBlank unindexed_schema after) }
    ensures adds { MakesIfHonest S.Store savepoint.old.conn.now savepoint.new.conn.now result
        (λ before after. before.schema ≡ first_schema → AddsRates unindexed_schema before after) }
    ensures inside { WritesInSavepoint savepoint.old savepoint.new result }
{
    write(
        savepoint,
        "CREATE TABLE rates (device TEXT NOT NULL, units INTEGER NOT NULL, PRIMARY KEY (device)) STRICT",
        &[],
    )
}

/// Makes the index on jobs by account, end and number, with which Get-Jobs reads them in order.
pub(crate) fn make_job_ended_index<S: Alter>(savepoint: &mut Savepoint<'_, S>) -> Result<(), Error>
    ensures adds { MakesIfHonest S.Store savepoint.old.conn.now savepoint.new.conn.now result
        (λ before after. before.schema ≡ unindexed_schema → AddsIndex before after) }
    ensures inside { WritesInSavepoint savepoint.old savepoint.new result }
{
    write(
        savepoint,
        "CREATE INDEX job_ended ON job (account, ended, job)",
        &[],
    )
}

/// Inserts version 2 into the new table `meta`.
fn note_version<S: Alter>(savepoint: &mut Savepoint<'_, S>) -> Result<(), Error>
    ensures made { MakesIfHonest S.Store savepoint.old.conn.now savepoint.new.conn.now result
        (λ before after. IsBlank room_schema before → IsNew after) }
    ensures inside { WritesInSavepoint savepoint.old savepoint.new result }
{
    write(
        savepoint,
        "INSERT INTO meta (id, version) VALUES (1, 2)",
        &[],
    )
}
