//! The trait of what takes the documents that answers bring: it keeps them as files, or prints
//! them.

ghost use Rattle.std.specs.Prelude.{◌≡◌, ℕ, List, Option, None, IfSome, OnOk};
ghost use Rattle.std.specs.Io.KnownBytes.{Appends};

use std::io;
use std::io::Write;

/// Takes the documents that answers bring, one at a time.
pub trait Keeper {
    // The line that it prints of a document of the name and the bytes, where that is known.
    ghost shown: { Self → (name : List ℕ) (bytes : List ℕ) → Option (List ℕ) } = { λ _ _ _. None };

    /// Takes a document: its name (`ACCOUNT-JOB-NUMBER`) and its bytes. Prints a line that shows it
    /// or tells where it is kept.
    fn keep<O: Write>(&mut self, output: &mut O, name: &str, bytes: Vec<u8>) -> io::Result<()>
        ensures printed { OnOk result (IfSome (shown self.old name.now bytes.items)
            (Appends (O.contents output.old) (O.contents output.new))) }
        ensures same { shown self.new ≡ shown self.old };
}
