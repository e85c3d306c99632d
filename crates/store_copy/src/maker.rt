//! `CopyMaker`: how `serve` makes and closes the file of a copy, without knowing of files itself.

/// Makes and closes files of copies. A copy is in FILE.part until whoever asked for it renames that
/// to FILE.
pub trait CopyMaker {
    /// A connection to a copy.
    type Rows;

    /// Makes a new FILE.part, in the place of what an earlier copy left there, and connects to it.
    /// It has no tables yet. `None` where it can't be made.
    fn make(&mut self, file: &[u8]) -> Option<Self::Rows>;

    /// Closes a copy that is whole, and answers whether all of it is in its file.
    fn close(&mut self, rows: Self::Rows) -> bool;

    /// Drops a copy that is not whole.
    fn give_up(&mut self, rows: Self::Rows);
}
