//! Recognizing a database when it is opened: whether it is one of ours, of which version, and what
//! it lacks of version 2.

ghost use Rattle.std.specs.Prelude.{◌≡◌, ◌≢◌, ◌⊎◌, ⊤, ℤ, false, [], ◌∷◌, pos, IfOk, IfErr, OnOk, IsTrue, MatchOption};
ghost use Rattle.rows_tables.specs.Places.{meta_tree, meta_column};
ghost use Rattle.rows_tables.specs.Tables.{first_version, room_version};
ghost use Rattle.sqlite_value.specs.declared.value.Value.TheVariants.{Int};
ghost use Rattle.sqlite_value.specs.Order.{column};
ghost use Rattle.sqlite_sql.specs.Term.{col};
ghost use Rattle.sqlite.specs.State.{HasCleanDisk};
ghost use Rattle.sqlite.specs.Held.{state};
ghost use Rattle.rows_tables.specs.Calls.{KeepsOpen, IfDiskHonest, OnlyReads};
ghost use Rattle.rows_tables.specs.Queries.{FindsRow};
ghost use Rattle.rows_tables.specs.Making.{HasVersion, LacksVersion, KeepsVersion, IsEdition, IsNoEdition, IsOpened, IsOpenFault, LacksIndex, version_tests};
ghost use Rattle.rows_tables.specs.Migrating.{IsMigrateFault, Lacks, LacksIn};

use crate::fault::OpenFault;
use crate::rows::find_row;
use crate::schema::{Layout, keeps_version, layout_of};
use sqlite::{Alter, Connection, Error, ErrorCode, Row};

/// The version that the store opens.
const VERSION: i64 = 2;

/// The version that can be migrated to `VERSION`.
const OLDER_VERSION: i64 = 1;

/// What a database was found to be: how its tables are laid out, and the version that `meta` tells.
#[derive(Clone, Copy)]
struct Edition {
    layout: Layout,
    version: i64,
}

/// What a database lacks of version 2, and so what a migration has to add.
#[derive(Clone, Copy, PartialEq, Eq)]
pub(crate) enum Lack {
    Nothing,
    /// The index on jobs.
    Index,
    /// All that version 2 has beside version 1.
    Version,
}

/// Whether a database of version 2 lacks its index on jobs. Any other database is refused.
pub(crate) fn lacks_index<S: Alter>(connection: &mut Connection<S>) -> Result<bool, OpenFault>
    ensures found { IfDiskHonest S.Store connection.old connection.new (λ db.
        IfOk result (λ lacks. (IsTrue lacks → LacksIndex db) × (lacks ≡ false → IsOpened db))) }
    ensures fault { IfDiskHonest S.Store connection.old connection.new
        (λ db. IfErr result (IsOpenFault db)) }
    ensures reads { OnlyReads S.Store connection.old connection.new (λ _. ⊤) result }
{
    let edition = find_edition(connection)?;
    is_unindexed(edition)
}

/// What a database of version 1 or 2 lacks of version 2. Any other database is refused.
pub(crate) fn lack_of<S: Alter>(connection: &mut Connection<S>) -> Result<Lack, OpenFault>
    ensures found { IfDiskHonest S.Store connection.old connection.new
        (λ db. IfOk result (Lacks db)) }
    ensures fault { IfDiskHonest S.Store connection.old connection.new
        (λ db. IfErr result (IsMigrateFault db)) }
    ensures reads { OnlyReads S.Store connection.old connection.new (λ _. ⊤) result }
{
    let edition = find_edition(connection)?;
    lack_in(edition)
}

/// Whether an edition of version 2 lacks its index on jobs. `WrongVersion` for any other version,
/// whatever its tables are; `NotOurs` where the tables are not those of version 2.
fn is_unindexed(edition: Edition) -> Result<bool, OpenFault>
    ensures accepted { IfOk result (λ lacks. (edition.version ≡ room_version)
        × (IsTrue lacks → edition.layout ≡ Layout.Unindexed)
        × (lacks ≡ false → edition.layout ≡ Layout.Current)) }
    ensures refused { IfErr result (λ fault.
        ((edition.version ≢ room_version) × (fault ≡ OpenFault.WrongVersion edition.version))
        ⊎ ((edition.version ≡ room_version) × (edition.layout ≢ Layout.Current)
        × (edition.layout ≢ Layout.Unindexed) × (fault ≡ OpenFault.NotOurs))) }
{
    if edition.version != VERSION {
        return Err(OpenFault::WrongVersion(edition.version));
    }
    match edition.layout {
        Layout::Current => Ok(false),
        Layout::Unindexed => Ok(true),
        Layout::First | Layout::Other => Err(OpenFault::NotOurs),
    }
}

/// What an edition of version 1 or 2 lacks of version 2. `WrongVersion` for any other version;
/// `NotOurs` where the tables are not those of its version; `Storage` where version 1 has those of
/// version 2.
fn lack_in(edition: Edition) -> Result<Lack, OpenFault>
    ensures accepted { IfOk result (LacksIn edition) }
    ensures refused { IfErr result (λ fault.
        ((edition.version ≢ first_version) × (edition.version ≢ room_version)
        × (fault ≡ OpenFault.WrongVersion edition.version))
        ⊎ (((edition.version ≡ room_version) × (edition.layout ≢ Layout.Current)
        × (edition.layout ≢ Layout.Unindexed) × (fault ≡ OpenFault.NotOurs))
        ⊎ (((edition.version ≡ first_version) × (edition.layout ≡ Layout.Other)
        × (fault ≡ OpenFault.NotOurs))
        ⊎ ((edition.version ≡ first_version)
        × ((edition.layout ≡ Layout.Current) ⊎ (edition.layout ≡ Layout.Unindexed))
        × (fault ≡ OpenFault.Storage))))) }
{
    if edition.version != OLDER_VERSION {
        return Ok(if is_unindexed(edition)? {
            Lack::Index
        } else {
            Lack::Nothing
        });
    }
    match edition.layout {
        Layout::First => Ok(Lack::Version),
        // The table that a migration makes would be there already.
        Layout::Current | Layout::Unindexed => Err(OpenFault::Storage),
        Layout::Other => Err(OpenFault::NotOurs),
    }
}

/// Reads the layout and the version of a database, whatever they are. `NotOurs` where its first
/// table is not `meta`, or has no version.
fn find_edition<S: Alter>(connection: &mut Connection<S>) -> Result<Edition, OpenFault>
    ensures found { IfDiskHonest S.Store connection.old connection.new
        (λ db. IfOk result (IsEdition db)) }
    ensures fault { IfDiskHonest S.Store connection.old connection.new
        (λ db. IfErr result (IsNoEdition db)) }
    ensures reads { OnlyReads S.Store connection.old connection.new (λ _. ⊤) result }
{
    if !keeps_version(connection.schema()) {
        return Err(OpenFault::NotOurs);
    }
    let layout = layout_of(connection.schema());
    match find_version(connection)? {
        None => Err(OpenFault::NotOurs),
        Some(version) => Ok(Edition { layout, version }),
    }
}

/// Reads the version from row 1 of `meta`, which the database has. `None` where that row is missing
/// or has no integer.
fn find_version<S: Alter>(connection: &mut Connection<S>) -> Result<Option<i64>, OpenFault>
    ensures found { IfDiskHonest S.Store connection.old connection.new (λ db. KeepsVersion db.schema
        → IfOk result (λ found. MatchOption found (LacksVersion db) (HasVersion db))) }
    ensures fault { IfErr result
        (λ fault. (fault ≡ OpenFault.Storage) ⊎ (fault ≡ OpenFault.Memory)) }
    ensures reads { OnlyReads S.Store connection.old connection.new
        (λ db. KeepsVersion db.schema) result }
{
    match version_row(connection)? {
        Some(row) => version_from(&row),
        None => Ok(None),
    }
}

/// Reads row 1 of `meta`.
fn version_row<S: Alter>(connection: &mut Connection<S>) -> Result<Option<Row>, Error>
    ensures finds { HasCleanDisk (state S.Store connection.new)
        → KeepsVersion (state S.Store connection.old).now.schema
        → FindsRow (state S.Store connection.old) (state S.Store connection.new) meta_tree version_tests
        (col 1 meta_column.version ∷ []) [] result }
    ensures connection { KeepsOpen S.Store connection.old connection.new result }
{
    find_row(connection, "SELECT version FROM meta WHERE id = 1", &[])
}

/// The version in the row of `meta`. `None` where it is no integer.
fn version_from(row: &Row) -> Result<Option<i64>, OpenFault>
    ensures read { IfOk result (λ found. MatchOption found
        ((version : ℤ) → column row.now 0 ≢ Int version)
        (λ version. column row.now 0 ≡ Int version)) }
    ensures fault { IfErr result (λ fault. fault ≡ OpenFault.Memory) }
{
    match row.get(0) {
        Ok(version) => Ok(Some(version)),
        Err(Error::SqliteFailure(ErrorCode::OutOfMemory)) => Err(OpenFault::Memory),
        Err(_) => Ok(None),
    }
}
