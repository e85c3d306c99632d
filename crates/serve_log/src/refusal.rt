//! Writes the lines of the log that tell what a door refused.
ghost use Rattle.std.specs.Prelude.{◌≡◌, ◌++◌, OnOk};
ghost use Rattle.serve_log.specs.LogLines.{line_refusal_word, refused_line_text, refused_request_text, shown_path};

use crate::digits::put_number;
use crate::door::{Door, put_door};
use crate::outcome::put_shown;
use std::alloc::AllocError;

/// The most bytes of a path that a line shows.
const LONGEST_PATH: usize = 256;

/// Why a door refused a line.
#[derive(Clone, Copy, PartialEq, Eq)]
pub enum LineRefusal {
    /// It is none of those that come by the door.
    BadLine,
    /// It is one of a device for which the door takes none.
    NotYourDevice,
}

impl LineRefusal {
    /// Gives its word in the log, which is also what the line is answered.
    pub fn word(self) -> &'static [u8]
        ensures { result.now ≡ line_refusal_word self }
    {
        match self {
            LineRefusal::BadLine => b"bad-line",
            LineRefusal::NotYourDevice => b"not-your-device",
        }
    }
}

/// Appends the line of the log, with its line feed, that tells that a door refused a line. Nothing
/// of the refused line is told, since it may hold a password. Where memory is refused, a part may
/// stand.
pub(crate) fn put_refused_line(
    output: &mut Vec<u8>,
    moment: u64,
    door: Door,
    why: LineRefusal,
) -> Result<(), AllocError>
    ensures { OnOk result
        (output.new.items ≡ output.old.items ++ refused_line_text moment door why) }
{
    put_number(output, moment)?;
    output.extend_from_slice(b" ")?;
    put_door(output, door)?;
    output.extend_from_slice(b" refused ")?;
    output.extend_from_slice(why.word())?;
    output.extend_from_slice(b"\n")
}

/// Appends the line of the log, with its line feed, that tells that a request of HTTP was refused,
/// with its status and its path. Where memory is refused, a part may stand.
pub(crate) fn put_refused_request(
    output: &mut Vec<u8>,
    moment: u64,
    status: u16,
    path: &[u8],
) -> Result<(), AllocError>
    ensures { OnOk result
        (output.new.items ≡ output.old.items ++ refused_request_text moment status path.now) }
{
    put_number(output, moment)?;
    output.extend_from_slice(b" clients refused ")?;
    put_number(output, status as u64)?;
    output.extend_from_slice(b" ")?;
    put_path(output, path)?;
    output.extend_from_slice(b"\n")
}

/// Appends the first `LONGEST_PATH` bytes of a path.
fn put_path(output: &mut Vec<u8>, path: &[u8]) -> Result<(), AllocError>
    ensures { OnOk result (output.new.items ≡ output.old.items ++ shown_path path.now) }
{
    put_shown(output, &path[..LONGEST_PATH.min(path.len())])
}
