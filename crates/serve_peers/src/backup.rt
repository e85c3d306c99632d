//! The state of a backup that operators ask for by lines, and the answer to each such line.
//! `background.rt` does what they ask for, and `copies.rt` has the rows.
ghost use Rattle.std.specs.Prelude.{◌≡◌, IfOk, OnErr};
ghost use Rattle.serve_peers.specs.Backups.{AsksSlice, BeginsBackup, backup_text, is_busy, slice_told};

use std::alloc::{AllocError, Global};

/// For how many seconds behind its last line a backup keeps others from beginning one.
const KEPT: u64 = 10;

/// A backup that was begun.
#[derive(Drop)]
pub struct Backup {
    /// The path that its lines name.
    pub(crate) file: Vec<u8>,
    /// The moment at which its last line came.
    pub(crate) asked_at: u64,
    pub(crate) stage: Stage,
}

/// How far a backup is. Its lines ask, and between the turns of peers what they ask for is done.
#[derive(Clone, Copy, PartialEq, Eq)]
pub enum Stage {
    /// Its file is to be made.
    Begun,
    /// What was asked for is done.
    Ready,
    /// The next slice is to be done.
    Wanted,
    /// It is whole, and its file closed.
    Whole,
    /// The copy's file could not be made or written, or rows are damaged.
    Failed,
}

/// What a line of a backup is told.
#[derive(Clone, Copy, PartialEq, Eq)]
pub enum BackupTold {
    /// It is begun, or it is whole.
    Ok,
    /// Another one is under way.
    Busy,
    /// More slices are to be asked for.
    More,
    /// It failed, or none into this file was begun.
    Failed,
}

impl BackupTold {
    /// The text of its line.
    pub(crate) fn text(self) -> &'static [u8]
        ensures { result.now ≡ backup_text self }
    {
        match self {
            BackupTold::Ok => b"ok\n",
            BackupTold::Busy => b"busy\n",
            BackupTold::More => b"more\n",
            BackupTold::Failed => b"failed\n",
        }
    }
}

/// Begins a backup into FILE.part, unless another is under way that was asked for within the last
/// seconds. One that is older is given up.
pub(crate) fn begin_backup(
    alloc: Global,
    backup: &mut Option<Backup>,
    file: &[u8],
    moment: u64,
) -> Result<BackupTold, AllocError>
    ensures begins { IfOk result (λ told. BeginsBackup file.now moment told backup.old backup.new) }
    ensures unchanged { OnErr result (backup.new ≡ backup.old) }
{
    if is_busy(backup, moment) {
        return Ok(BackupTold::Busy);
    }
    let mut path = Vec::with_capacity(alloc, file.len())?;
    path.extend_from_slice(file)?;
    *backup = Some(Backup {
        file: path,
        asked_at: moment,
        stage: Stage::Begun,
    });
    Ok(BackupTold::Ok)
}

/// Whether a backup was asked for within the last `KEPT` seconds, so that no other can begin.
fn is_busy(backup: &Option<Backup>, moment: u64) -> bool
    ensures { result ≡ is_busy backup.now moment }
{
    match backup {
        Some(backup) => moment.saturating_sub(backup.asked_at) < KEPT,
        None => false,
    }
}

/// Asks for the next slice of a backup into FILE.part, and answers what has become of it so far.
pub(crate) fn ask_slice(backup: &mut Option<Backup>, file: &[u8], moment: u64) -> BackupTold
    ensures { AsksSlice file.now moment result backup.old backup.new }
{
    let Some(asked) = backup.take() else {
        return BackupTold::Failed;
    };
    if asked.file.as_slice() != file {
        *backup = Some(asked);
        return BackupTold::Failed;
    }
    let told = slice_told(asked.stage);
    *backup = asked.next(moment);
    told
}

/// The answer to a line that asks for a slice, by the backup's stage.
fn slice_told(stage: Stage) -> BackupTold
    ensures { result ≡ slice_told stage }
{
    match stage {
        Stage::Begun | Stage::Ready | Stage::Wanted => BackupTold::More,
        Stage::Whole => BackupTold::Ok,
        Stage::Failed => BackupTold::Failed,
    }
}

impl Backup {
    ghost use Rattle.serve_peers.specs.Backups.{backup_then};

    /// The backup once its next slice is asked for. One that is whole or has failed is told once,
    /// and then forgotten.
    fn next(self, moment: u64) -> Option<Backup>
        ensures { result ≡ backup_then self moment }
    {
        let stage = match self.stage {
            Stage::Begun => Stage::Begun,
            Stage::Ready | Stage::Wanted => Stage::Wanted,
            Stage::Whole | Stage::Failed => return None,
        };
        Some(Backup {
            file: self.file,
            asked_at: moment,
            stage,
        })
    }
}
