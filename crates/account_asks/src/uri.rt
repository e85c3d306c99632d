//! Cuts a URI into what stands before its path, and its path.

ghost use Rattle.std.specs.Prelude.{◌≡◌, ◌<◌, ◌≤◌, IfSome, length, option_map, position};
ghost use Rattle.account_asks.specs.ProofPlainParts.{plain_uri};
ghost use Rattle.account_asks.specs.Uris.{behind_scheme, is_slash, from_slash, from_path, ends_path, before_query, parts_of};

/// A URI in two: what stands before its path, and its path. A query or a fragment is left out.
#[derive(Clone, Copy)]
pub(crate) struct Uri<'a> {
    pub(crate) base: &'a [u8],
    pub(crate) path: &'a [u8],
}

/// Cuts the URI in two. None where it has no path.
#[tactic(auto, using(crate::proofs::UriCuts::base_taken))]
pub(crate) fn parts_of(uri: &[u8]) -> Option<Uri<'_>>
    ensures value { option_map plain_uri result ≡ parts_of uri.now }
    ensures within { IfSome result (λ parts. length parts.base.now ≤ length uri.now) }
{
    let rest = from_path(uri)?;
    Some(Uri {
        base: &uri[..uri.len() - rest.len()],
        path: before_query(rest),
    })
}

/// The path without a query or a fragment: up to the first `?` or `#`.
fn before_query(bytes: &[u8]) -> &[u8]
    ensures { result.now ≡ before_query bytes.now }
{
    match end_of_path(bytes) {
        Some(end) => &bytes[..end],
        None => bytes,
    }
}

/// The place of the first `?` or `#`.
fn end_of_path(bytes: &[u8]) -> Option<usize>
    ensures place { result ≡ position ends_path bytes.now }
    ensures within { IfSome result (λ end. end < length bytes.now) }
{
    bytes.iter().position(|byte| ends_path(*byte))
}

fn ends_path(byte: u8) -> bool
    ensures { result ≡ ends_path byte }
{
    byte == b'?' || byte == b'#'
}

/// The URI from its path on: from the first `/` after `://`.
fn from_path(uri: &[u8]) -> Option<&[u8]>
    ensures value { option_map (λ rest. rest.now) result ≡ from_path uri.now }
    ensures within { IfSome result (λ rest. length rest.now ≤ length uri.now) }
{
    from_slash(behind_scheme(uri)?)
}

/// What stands from the first `/` on.
fn from_slash(bytes: &[u8]) -> Option<&[u8]>
    ensures value { option_map (λ rest. rest.now) result ≡ from_slash bytes.now }
    ensures within { IfSome result (λ rest. length rest.now ≤ length bytes.now) }
{
    let start = first_slash(bytes)?;
    Some(&bytes[start..])
}

/// The place of the first `/`.
fn first_slash(bytes: &[u8]) -> Option<usize>
    ensures place { result ≡ position is_slash bytes.now }
    ensures within { IfSome result (λ start. start < length bytes.now) }
{
    bytes.iter().position(|byte| *byte == b'/')
}

/// What stands after the first `://`.
fn behind_scheme(uri: &[u8]) -> Option<&[u8]>
    ensures value { option_map (λ rest. rest.now) result ≡ behind_scheme uri.now }
    ensures within { IfSome result (λ rest. length rest.now ≤ length uri.now) }
{
    for start in 0..uri.len() {
        let rest = &uri[start..];
        if rest.starts_with(b"://") {
            return Some(&rest[3..]);
        }
    }
    None
}
