//! Where `send --into FOLDER` puts the documents that are answered: a file of the folder each.
ghost use Rattle.std.specs.Prelude.{◌++◌, Some, codes};
ghost use Rattle.std.specs.Path.{path_join};

use client_lines::Keeper;
use std::io::Write;
use std::path::Path;
use std::{fs, io};

/// A folder, which is there. A file of the same name in it is overwritten.
#[derive(Clone, Copy)]
pub struct Folder<'a> {
    pub rt: &'a HostRuntime,
    pub folder: &'a str,
}

impl Keeper for Folder<'_> {
    ghost shown = { λ it name _. Some (path_join it.folder.now name ++ codes "\n") };

    /// Writes the document as a file of the folder, and prints the file's path.
    fn keep<O: Write>(&mut self, output: &mut O, name: &str, bytes: Vec<u8>) -> io::Result<()> {
        let path = Path::new(self.folder).join(self.rt.alloc(), name)?;
        fs::write(self.rt, path.as_path(), bytes.as_slice())?;
        writeln!(output, "{}", path.as_path().display())
    }
}
