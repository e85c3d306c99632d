//! What a browser tells of the site whose page sent a request (Fetch Metadata, Origin): whether there
//! is one, and whether it is another for a form.
ghost use Rattle.std.specs.Prelude.{◌≡◌, option_copied};
ghost use Rattle.input_http.specs.Origins.{is_foreign, is_of_browser, is_origin_of, is_own, is_own_origin, is_own_site};

use crate::targets::is_post;
use bytes::Bytes;
use http::{HeaderValue, Request};

/// Whether a browser sent the request: it has an Origin or a Sec-Fetch-Site, and no client of IPP
/// sends either.
pub fn is_of_browser(request: &Request<Bytes>) -> bool
    ensures { result ≡ is_of_browser request.now }
{
    request.headers().get("origin").is_some() || request.headers().get("sec-fetch-site").is_some()
}

/// Whether the request is a POST that may come from a page of another site: its browser tells
/// neither that a page of this site sent it nor that its owner did.
pub fn is_foreign(request: &Request<Bytes>) -> bool
    ensures { result ≡ is_foreign request.now }
{
    is_post(request.method().as_str().as_bytes()) && !is_own(request)
}

/// Whether the browser tells, by Sec-Fetch-Site or Origin, that this site or its owner sent the
/// request, and by neither that another did.
fn is_own(request: &Request<Bytes>) -> bool
    ensures { result ≡ is_own request.now }
{
    let site = request.headers().get("sec-fetch-site");
    let origin = request.headers().get("origin");
    let host = request.headers().get("host");
    (site.is_some() || origin.is_some()) && is_own_site(site) && is_own_origin(origin, host)
}

/// Whether Sec-Fetch-Site, if it is there, tells of this site (`same-origin`) or of the owner
/// (`none`).
fn is_own_site(site: Option<&HeaderValue>) -> bool
    ensures { result ≡ is_own_site (option_copied site.entry) }
{
    match site {
        None => true,
        Some(site) => {
            site.as_bytes() == b"same-origin".as_slice() || site.as_bytes() == b"none".as_slice()
        }
    }
}

/// Whether Origin, if it is there, is that of Host.
fn is_own_origin(origin: Option<&HeaderValue>, host: Option<&HeaderValue>) -> bool
    ensures { result ≡ is_own_origin (option_copied origin.entry) (option_copied host.entry) }
{
    match (origin, host) {
        (None, _) => true,
        (Some(_), None) => false,
        (Some(origin), Some(host)) => is_origin_of(origin.as_bytes(), host.as_bytes()),
    }
}

/// Whether the origin is the host by `https://` or `http://`.
fn is_origin_of(origin: &[u8], host: &[u8]) -> bool
    ensures { result ≡ is_origin_of origin.now host.now }
{
    match origin.strip_prefix(b"https://".as_slice()) {
        Some(rest) => rest == host,
        None => match origin.strip_prefix(b"http://".as_slice()) {
            Some(rest) => rest == host,
            None => false,
        },
    }
}
