//! `--version`: the version, and the commit that the program is built of.

use cli_words::{VERSION, is_command};
use std::io;
use std::io::Write;

/// Whether the words ask for the version.
pub(crate) fn asks_for_version(words: &[&str]) -> bool {
    is_command(words, "--version") || is_command(words, "-V")
}

/// Prints the version, and the commit that the program is built of.
pub(crate) fn print_version<W: Write>(output: &mut W, commit: &str) -> io::Result<()> {
    writeln!(output, "ipp-room {VERSION} ({commit})")?;
    output.flush()
}
