//! Where a running process puts its backups: `FILE.part` on this machine, for each that is asked
//! for.

use crate::placing::{DatabaseOpener, OnDisk, part_of, remove_database};
use cli_words::Fault;
use sqlite::{Connection, File, FileStore};
use store_copy::CopyMaker;

/// The maker of copies that `serve` gives to what it serves: each is a file of this machine.
#[derive(Drop)]
pub struct CopyFiles<'a> {
    rt: &'a HostRuntime,
}

impl<'a> CopyFiles<'a> {
    /// A maker by the files of this process.
    pub fn new(rt: &'a HostRuntime) -> CopyFiles<'a> {
        CopyFiles { rt }
    }

    /// Makes an empty `FILE.part`, after it has removed what an earlier copy left there.
    fn make_part(&self, file: &[u8]) -> Result<Connection<FileStore<File>>, Fault> {
        let Ok(file) = str::from_utf8(file) else {
            return Err(Fault::Store);
        };
        let opener = OnDisk { rt: self.rt };
        let part = part_of(self.rt, file)?;
        remove_database(self.rt, &opener, part.as_str())?;
        opener.open(part.as_str())
    }
}

impl CopyMaker for CopyFiles<'_> {
    type Rows = Connection<FileStore<File>>;

    fn make(&mut self, file: &[u8]) -> Option<Connection<FileStore<File>>> {
        self.make_part(file).ok()
    }

    fn close(&mut self, rows: Connection<FileStore<File>>) -> bool {
        rows.close().is_ok()
    }

    /// Leaves `FILE.part` as it is. The next copy removes it.
    fn give_up(&mut self, _rows: Connection<FileStore<File>>) {}
}
