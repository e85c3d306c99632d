//! Takes the lines of an input, one at a time, to be sent.

ghost use Rattle.std.specs.Prelude.{◌≡◌, ◌<◌, IfOk, IfSome, IfNone, IsErrOf, [], length};
ghost use Rattle.client_lines.specs.ProofTaking.{MayBeLine, TakesAll, TakesLine, TakesTooMany};

use crate::fault::ClientFault;
use crate::line::{Taken, take_line};
use std::alloc::Global;
use std::io::BufRead;

/// Takes the next line of an input, without the line feed that ends it. `None` at the end. The last
/// line may have no line feed.
pub(crate) fn next_line<I: BufRead>(
    alloc: Global,
    input: &mut I,
) -> Result<Option<Vec<u8>>, ClientFault>
    ensures taken { IfOk result (λ found. IfSome found
        (λ line. TakesLine (I.remaining input.old) (I.remaining input.new) line.items)) }
    ensures line { IfOk result (λ found. IfSome found (λ line. MayBeLine line.items)) }
    ensures end { IfOk result
        (λ found. IfNone found (TakesAll (I.remaining input.old) (I.remaining input.new) [])) }
    ensures long { IsErrOf result ClientFault.TooLong
        → TakesTooMany (I.remaining input.old) (I.remaining input.new) }
{
    match take_line(alloc, input)? {
        Taken::Line(line) => Ok(Some(line)),
        Taken::Last(line) => Ok(found(line)),
        Taken::Long => Err(ClientFault::TooLong),
    }
}

/// Gives what is left behind the last line feed as a line, or `None` where nothing is left.
fn found(line: Vec<u8>) -> Option<Vec<u8>>
    ensures some { IfSome result (λ found. found ≡ line) }
    ensures not_empty { IfSome result (λ found. 0 < length found.items) }
    ensures none { IfNone result (line.items ≡ []) }
{
    if line.is_empty() {
        return None;
    }
    Some(line)
}
