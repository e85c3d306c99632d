//! Lists of words in the value of a header field, as in `Connection: close, upgrade`.
ghost use Rattle.std.specs.Prelude.{◌≡◌};
ghost use Rattle.listen_http.specs.Words.{lists};

use input_http::without_margin;

/// Whether the value, a list parted by commas, has the word in any case.
pub(crate) fn lists(word: &[u8], value: &[u8]) -> bool
    ensures { result ≡ lists word.now value.now }
{
    value.split(|b| *b == b',').any(|item| without_margin(b" \t", item).eq_ignore_ascii_case(word))
}
