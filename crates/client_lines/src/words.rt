//! Takes the words of a line apart, at its spaces.

ghost use Rattle.std.specs.Prelude.{◌≡◌, ◌+◌, ◌<◌, ◌++◌, IfSome, codes, length, take};
ghost use Rattle.client_lines.specs.Words.{HasNoSpace};

/// Splits a line at its first space: the bytes before it and those behind it. `None` where it has
/// no space.
pub fn first_word(line: &[u8]) -> Option<(&[u8], &[u8])>
    ensures parts { IfSome result (λ parts. line.now ≡ parts.0.now ++ codes " " ++ parts.1.now) }
    ensures word { IfSome result (λ parts. HasNoSpace parts.0.now) }
{
    let end = space_in(line)?;
    Some((&line[..end], &line[end + 1..]))
}

/// Gives what comes behind the word and a space, or `None` where the line does not begin with
/// these.
pub fn after_word<'a>(line: &'a [u8], word: &[u8]) -> Option<&'a [u8]>
    ensures { IfSome result (λ rest. line.now ≡ word.now ++ codes " " ++ rest.now) }
{
    let (first, rest) = first_word(line)?;
    if first == word {
        return Some(rest);
    }
    None
}

/// Finds the first space.
fn space_in(line: &[u8]) -> Option<usize>
    ensures bound { IfSome result (λ end. end < length line.now) }
    ensures found { IfSome result
        (λ end. take (end + 1) line.now ≡ take end line.now ++ codes " ") }
    ensures before { IfSome result (λ end. HasNoSpace (take end line.now)) }
{
    line.iter().position(|byte| *byte == b' ')
}
