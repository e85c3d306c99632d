//! Cutting the value of a header field into parts.
ghost use Rattle.std.specs.Prelude.{◌≡◌, ◌==◌, ◌<◌, ◌≤◌, IfSome, length, reverse};
ghost use Rattle.std.specs.List.{list_any, position};
ghost use Rattle.input_http.specs.Words.{before, without_front, without_margin};

/// What stands before the first `mark`, or all bytes where there is none.
pub fn before(mark: u8, bytes: &[u8]) -> &[u8]
    ensures value { result.now ≡ before mark bytes.now }
    ensures bound { length result.now ≤ length bytes.now }
{
    match place_of(mark, bytes) {
        Some(end) => &bytes[..end],
        None => bytes,
    }
}

/// The place of the first `mark`.
fn place_of(mark: u8, bytes: &[u8]) -> Option<usize>
    ensures place { result ≡ position (λ b. b == mark) bytes.now }
    ensures within { IfSome result (λ place. place < length bytes.now) }
{
    bytes.iter().position(|b| *b == mark)
}

/// The bytes without those of `margin` at both ends.
pub fn without_margin<'a>(margin: &[u8], bytes: &'a [u8]) -> &'a [u8]
    ensures { result.now ≡ without_margin margin.now bytes.now }
{
    without_back(margin, without_front(margin, bytes))
}

/// The bytes without those of `margin` at their front.
fn without_front<'a>(margin: &[u8], mut bytes: &'a [u8]) -> &'a [u8]
    ensures { result.now ≡ without_front margin.now bytes.now }
{
    while let [first, rest @ ..] = bytes
        && is_in(*first, margin)
    {
        bytes = rest;
    }
    bytes
}

/// The bytes without those of `margin` at their end.
fn without_back<'a>(margin: &[u8], mut bytes: &'a [u8]) -> &'a [u8]
    ensures { result.now ≡ reverse (without_front margin.now (reverse bytes.now)) }
{
    while let [rest @ .., last] = bytes
        && is_in(*last, margin)
    {
        bytes = rest;
    }
    bytes
}

/// Whether the byte is one of `margin`.
fn is_in(byte: u8, margin: &[u8]) -> bool
    ensures { result ≡ list_any (λ m. m == byte) margin.now }
{
    margin.contains(&byte)
}
