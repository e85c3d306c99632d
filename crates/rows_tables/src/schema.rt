//! Recognizing a schema: whether the tables, columns and indexes of a file are exactly those of
//! version 1, of version 2 or of none. Long lists are tested part by part: first, later, last.

ghost use Rattle.std.specs.Prelude.{◌≡◌, ◌↔◌, ◌+◌, ◌<◌, ◌^◌, [], ◌∷◌, map, drop, true, false, IsTrue};
ghost use Rattle.sqlite_value.specs.Keys.{plain};
ghost use Rattle.sqlite_schema.specs.declared.schema.Kind.TheVariants.{Integer, Text as TextKind, Blob as BlobKind};
ghost use Rattle.rows_tables.specs.Tables.{column_of, keyed, meta, account, job, document, grants, device, rates, no_schema, first_schema, unindexed_schema, job_ended, room_schema};
ghost use Rattle.rows_tables.specs.ProofForms.{column_formed};
ghost use Rattle.rows_tables.specs.Making.{IsLaidOut, KeepsVersion};

use crate::places::{
    ACCOUNT_NAME, ACCOUNT_TREE, DEVICE_NAME, DEVICE_TREE, DOCUMENT_ACCOUNT, DOCUMENT_JOB,
    DOCUMENT_NUMBER, DOCUMENT_TREE, GRANT_ACCOUNT, GRANT_MONTH, GRANTS_TREE, JOB_ACCOUNT,
    JOB_ENDED, JOB_ENDED_TREE, JOB_NUMBER, JOB_TREE, META_TREE, RATE_DEVICE, RATES_TREE,
    ROW_NUMBER,
};
use sqlite_items::Items;
use sqlite_schema::code::Terms;
use sqlite_schema::schema::{Column, Index, Kind, Schema, Table};
use sqlite_value::keys::{Collation, Order};
use sqlite_value::value::{Bytes, Value};

/// The name and the kind that a column of ours has to have.
#[derive(Clone, Copy)]
struct ColumnForm {
    name: &'static str,
    kind: Kind,
}

/// A column of texts.
fn text(name: &'static str) -> ColumnForm
    ensures { column_formed result ≡ column_of TextKind name.now }
{
    ColumnForm {
        name,
        kind: Kind::Text,
    }
}

/// A column of integers.
fn integer(name: &'static str) -> ColumnForm
    ensures { column_formed result ≡ column_of Integer name.now }
{
    ColumnForm {
        name,
        kind: Kind::Integer,
    }
}

/// A column of blobs.
fn blob(name: &'static str) -> ColumnForm
    ensures { column_formed result ≡ column_of BlobKind name.now }
{
    ColumnForm {
        name,
        kind: Kind::Blob,
    }
}

/// Which tables and indexes a database has.
#[derive(Clone, Copy, PartialEq, Eq)]
pub(crate) enum Layout {
    /// As those of version 2.
    Current,
    /// As those of version 2, without the index on jobs, which was not made at first.
    Unindexed,
    /// As those of version 1.
    First,
    /// Otherwise.
    Other,
}

/// Compares a schema with those that the program knows.
pub(crate) fn layout_of(schema: &Schema) -> Layout
    ensures { IsLaidOut schema.now result }
{
    if is_room_schema(schema) {
        Layout::Current
    } else if is_unindexed_schema(schema) {
        Layout::Unindexed
    } else if is_first_schema(schema) {
        Layout::First
    } else {
        Layout::Other
    }
}

/// Whether the first table is `meta`, which tells the version.
pub(crate) fn keeps_version(schema: &Schema) -> bool
    ensures { IsTrue result ↔ KeepsVersion schema.now }
{
    match schema.tables.as_slice() {
        [first, ..] => is_meta_table(first),
        _ => false,
    }
}

/// Whether a schema is exactly that of version 2.
fn is_room_schema(schema: &Schema) -> bool
    ensures { IsTrue result ↔ schema.now ≡ room_schema }
{
    are_room_tables(schema.tables.as_slice())
        && are_room_indexes(schema.indexes.as_slice())
        && schema.views.is_empty()
}

/// Whether a schema is that of version 2 without its index on jobs.
fn is_unindexed_schema(schema: &Schema) -> bool
    ensures { IsTrue result ↔ schema.now ≡ unindexed_schema }
{
    are_room_tables(schema.tables.as_slice())
        && are_key_indexes(schema.indexes.as_slice())
        && schema.views.is_empty()
}

/// Whether a schema is exactly that of version 1.
fn is_first_schema(schema: &Schema) -> bool
    ensures { IsTrue result ↔ schema.now ≡ first_schema }
{
    are_first_tables(schema.tables.as_slice())
        && are_first_indexes(schema.indexes.as_slice())
        && schema.views.is_empty()
}

/// Whether a database is empty: it has no table, index or view.
pub fn is_blank(schema: &Schema) -> bool
    ensures { IsTrue result ↔ schema.now ≡ no_schema }
{
    schema.tables.is_empty() && schema.indexes.is_empty() && schema.views.is_empty()
}

/// Whether these are the tables of version 2: those of version 1, and `rates`.
fn are_room_tables(tables: &[Table]) -> bool
    ensures { IsTrue result ↔ tables.now ≡ room_schema.tables }
{
    match tables {
        [first @ .., last] => are_first_tables(first) && is_rates_table(last),
        _ => false,
    }
}

/// Whether these are the tables of version 1, in order.
fn are_first_tables(tables: &[Table]) -> bool
    ensures { IsTrue result ↔ tables.now ≡ first_schema.tables }
{
    match tables {
        [a, b, c, rest @ ..] => is_meta_table(a)
            && is_account_table(b)
            && is_job_table(c)
            && are_later_tables(rest),
        _ => false,
    }
}

/// Whether these are the last three tables of version 1: `document`, `grants` and `device`.
fn are_later_tables(tables: &[Table]) -> bool
    ensures { IsTrue result ↔ tables.now ≡ drop 3 first_schema.tables }
{
    match tables {
        [a, b, c] => is_document_table(a) && is_grants_table(b) && is_device_table(c),
        _ => false,
    }
}

/// Whether it is the table `meta`, whose row tells the version. Its key is its row number, as no
/// other table's is.
fn is_meta_table(table: &Table) -> bool
    ensures { IsTrue result ↔ table.now ≡ meta }
{
    table.key == Some(ROW_NUMBER)
        && table.uniques.is_empty()
        && table.orders.is_empty()
        && is_laid_out(table, "meta", META_TREE, &[ROW_NUMBER])
        && are_columns(
            table.columns.as_slice(),
            &[integer("id"), integer("version")],
        )
}

fn is_account_table(table: &Table) -> bool
    ensures { IsTrue result ↔ table.now ≡ account }
{
    is_keyed(
        table,
        "account",
        ACCOUNT_TREE,
        &[ACCOUNT_NAME],
        &[text("name"), integer("opened"), integer("next_job")],
    )
}

fn is_job_table(table: &Table) -> bool
    ensures { IsTrue result ↔ table.now ≡ job }
{
    is_keyed(
        table,
        "job",
        JOB_TREE,
        &[JOB_ACCOUNT, JOB_NUMBER],
        &[
            text("account"),
            integer("job"),
            blob("name"),
            blob("password"),
            integer("state"),
            integer("open"),
            integer("stopping"),
            integer("copies"),
            integer("impressions"),
            integer("reserved"),
            integer("charged"),
            integer("documents"),
            integer("rate"),
            text("device"),
            integer("created"),
            integer("started"),
            integer("ended"),
        ],
    )
}

fn is_document_table(table: &Table) -> bool
    ensures { IsTrue result ↔ table.now ≡ document }
{
    is_keyed(
        table,
        "document",
        DOCUMENT_TREE,
        &[DOCUMENT_ACCOUNT, DOCUMENT_JOB, DOCUMENT_NUMBER],
        &[
            text("account"),
            integer("job"),
            integer("number"),
            text("format"),
            blob("bytes"),
        ],
    )
}

fn is_grants_table(table: &Table) -> bool
    ensures { IsTrue result ↔ table.now ≡ grants }
{
    is_keyed(
        table,
        "grants",
        GRANTS_TREE,
        &[GRANT_ACCOUNT, GRANT_MONTH],
        &[text("account"), integer("month"), integer("pages")],
    )
}

fn is_device_table(table: &Table) -> bool
    ensures { IsTrue result ↔ table.now ≡ device }
{
    is_keyed(
        table,
        "device",
        DEVICE_TREE,
        &[DEVICE_NAME],
        &[text("name"), integer("accepting")],
    )
}

fn is_rates_table(table: &Table) -> bool
    ensures { IsTrue result ↔ table.now ≡ rates }
{
    is_keyed(
        table,
        "rates",
        RATES_TREE,
        &[RATE_DEVICE],
        &[text("device"), integer("units")],
    )
}

/// Whether a table is exactly the one of this name, tree, key and columns, and keeps its key in an
/// index.
fn is_keyed(table: &Table, name: &str, tree: u32, key: &[usize], columns: &[ColumnForm]) -> bool
    ensures { IsTrue result
        ↔ table.now ≡ keyed name.now tree key.now (map column_formed columns.now) }
{
    table.key.is_none()
        && is_only(&table.uniques, key)
        && is_plain(&table.orders)
        && is_laid_out(table, name, tree, key)
        && are_columns(table.columns.as_slice(), columns)
}

/// Whether a table has this name, tree number and primary key, and none of the features that ours
/// don't use. Its columns are not looked at.
fn is_laid_out(table: &Table, name: &str, tree: u32, key: &[usize]) -> bool
    ensures { IsTrue result ↔ table.now ≡ record (keyed name.now tree key.now table.now.columns) {
      key = table.now.key;
      uniques = table.now.uniques;
      orders = table.now.orders;
    } }
{
    is_name(&table.name, name)
        && table.tree == tree
        && are_places(&table.primary, key)
        && has_no_more(table)
}

/// Whether a table has none of the features that ours don't use: checks, references, computed
/// columns, stamps, a counter.
fn has_no_more(table: &Table) -> bool
    ensures { IsTrue result ↔ table.now ≡ record table.now {
      checks = [];
      references = [];
      computed = [];
      stamps = record { places = []; terms = []; formats = [] };
      is_counted = false;
    } }
{
    are_no_terms(&table.checks)
        && table.references.is_empty()
        && table.computed.is_empty()
        && table.stamps.places.is_empty()
        && are_no_terms(&table.stamps.terms)
        && table.stamps.formats.is_empty()
        && !table.is_counted
}

/// Whether the columns are these, in order.
fn are_columns(columns: &[Column], forms: &[ColumnForm]) -> bool
    ensures { IsTrue result ↔ columns.now ≡ map column_formed forms.now }
{
    match (columns, forms) {
        ([], []) => true,
        ([column, columns @ ..], [form, forms @ ..]) => {
            is_column(column, form) && are_columns(columns, forms)
        }
        _ => false,
    }
}

/// Whether a column has this name and kind, is strict and NOT NULL, has no default, and is compared
/// byte by byte.
fn is_column(column: &Column, form: &ColumnForm) -> bool
    ensures { IsTrue result ↔ column.now ≡ column_formed form.now }
{
    is_name(&column.name, form.name)
        && column.kind == form.kind
        && column.is_strict
        && column.not_null
        && is_null(&column.default)
        && column.collation == Collation::Binary
}

/// Whether these are the indexes of version 2: those of its keys, and the one on jobs.
fn are_room_indexes(indexes: &[Index]) -> bool
    ensures { IsTrue result ↔ indexes.now ≡ room_schema.indexes }
{
    match indexes {
        [rated @ .., last] => are_key_indexes(rated) && is_job_ended_index(last),
        _ => false,
    }
}

/// Whether it is the index on jobs by account, end and number.
fn is_job_ended_index(index: &Index) -> bool
    ensures { IsTrue result ↔ index.now ≡ job_ended }
{
    is_name(&index.name, "job_ended")
        && index.tree == JOB_ENDED_TREE
        && index.table == JOB_TREE
        && are_places(&index.columns, &[JOB_ACCOUNT, JOB_ENDED, JOB_NUMBER])
        && index.order.digits == 0
        && !index.is_unique
}

/// Whether these are the indexes of the keys of version 2: those of version 1, and that of `rates`.
fn are_key_indexes(indexes: &[Index]) -> bool
    ensures { IsTrue result ↔ indexes.now ≡ unindexed_schema.indexes }
{
    match indexes {
        [first @ .., last] => {
            are_first_indexes(first)
                && is_index(last, "sqlite_autoindex_rates_1", RATES_TREE, &[RATE_DEVICE])
        }
        _ => false,
    }
}

/// Whether these are the indexes of the keys of version 1, in the order of their tables.
fn are_first_indexes(indexes: &[Index]) -> bool
    ensures { IsTrue result ↔ indexes.now ≡ first_schema.indexes }
{
    match indexes {
        [a, b, rest @ ..] => {
            is_index(
                a,
                "sqlite_autoindex_account_1",
                ACCOUNT_TREE,
                &[ACCOUNT_NAME],
            ) && is_index(
                b,
                "sqlite_autoindex_job_1",
                JOB_TREE,
                &[JOB_ACCOUNT, JOB_NUMBER],
            ) && are_later_indexes(rest)
        }
        _ => false,
    }
}

/// Whether these are the indexes of version 1 from that of `document` on.
fn are_later_indexes(indexes: &[Index]) -> bool
    ensures { IsTrue result ↔ indexes.now ≡ drop 2 first_schema.indexes }
{
    match indexes {
        [a, rest @ ..] => {
            is_index(
                a,
                "sqlite_autoindex_document_1",
                DOCUMENT_TREE,
                &[DOCUMENT_ACCOUNT, DOCUMENT_JOB, DOCUMENT_NUMBER],
            ) && are_last_indexes(rest)
        }
        _ => false,
    }
}

/// Whether these are the last two indexes of version 1: those of `grants` and `device`.
fn are_last_indexes(indexes: &[Index]) -> bool
    ensures { IsTrue result ↔ indexes.now ≡ drop 3 first_schema.indexes }
{
    match indexes {
        [a, b] => {
            is_index(
                a,
                "sqlite_autoindex_grants_1",
                GRANTS_TREE,
                &[GRANT_ACCOUNT, GRANT_MONTH],
            ) && is_index(b, "sqlite_autoindex_device_1", DEVICE_TREE, &[DEVICE_NAME])
        }
        _ => false,
    }
}

/// Whether it is the unique index of this name over the key of the table in the tree `table`. It is
/// in the tree after the table's.
fn is_index(index: &Index, name: &str, table: u32, key: &[usize]) -> bool
    requires { table < 2 ^ 31 }
    ensures { IsTrue result ↔ index.now ≡ record {
      name = name.now;
      tree = table + 1;
      table = table;
      columns = key.now;
      order = plain;
      is_unique = true;
    } }
{
    is_name(&index.name, name)
        && index.tree == table + 1
        && index.table == table
        && are_places(&index.columns, key)
        && index.order.digits == 0
        && index.is_unique
}

fn is_name(name: &Bytes, text: &str) -> bool
    ensures { IsTrue result ↔ name.now ≡ text.now }
{
    name.as_slice() == text.as_bytes()
}

fn is_null(value: &Value) -> bool
    ensures { IsTrue result ↔ value.now ≡ Value.Null }
{
    matches!(value, Value::Null)
}

/// Whether the columns in these places are those of the key, in order.
fn are_places(places: &Items<usize>, key: &[usize]) -> bool
    ensures { IsTrue result ↔ places.now ≡ key.now }
{
    places.as_slice() == key
}

/// Whether the one unique constraint of a table is its key.
fn is_only(uniques: &Items<Items<usize>>, key: &[usize]) -> bool
    ensures { IsTrue result ↔ uniques.now ≡ key.now ∷ [] }
{
    match uniques.as_slice() {
        [one] => are_places(one, key),
        _ => false,
    }
}

/// Whether there is one key, with all columns in rising order.
fn is_plain(orders: &Items<Order>) -> bool
    ensures { IsTrue result ↔ orders.now ≡ plain ∷ [] }
{
    match orders.as_slice() {
        [one] => one.digits == 0,
        _ => false,
    }
}

/// Whether there are no expressions.
fn are_no_terms(terms: &Terms) -> bool
    ensures { IsTrue result ↔ terms.now ≡ [] }
{
    terms.roots.is_empty()
}
