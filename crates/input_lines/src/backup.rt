//! Parsing an operator's lines of a backup: `backup FILE` and `slice FILE`.
ghost use Rattle.std.specs.Prelude.{IfOk};
ghost use Rattle.input_lines.specs.Backups.{IsBackupOf};

use crate::fields::Fields;
use input_fields::FieldFault;

/// What an operator's line asks of a backup. A file is told by its path, which has no space.
#[derive(Clone, Copy)]
pub enum BackupLine<'a> {
    /// That one begins.
    Begin { file: &'a [u8] },
    /// That it does its next slice.
    Slice { file: &'a [u8] },
}

/// Parses a line of a backup, without its line feed. `Malformed` where it is none.
pub fn read_backup(line: &[u8]) -> Result<BackupLine<'_>, FieldFault>
    ensures said { IfOk result (IsBackupOf line.now) }
{
    let mut fields = Fields { rest: Some(line) };
    let kind = fields.take()?;
    let file = fields.take()?;
    fields.end()?;
    match kind {
        b"backup" => Ok(BackupLine::Begin { file }),
        b"slice" => Ok(BackupLine::Slice { file }),
        _ => Err(FieldFault::Malformed),
    }
}
