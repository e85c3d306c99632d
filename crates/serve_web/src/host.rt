//! Which Hosts are answered: a site whose name leads to this machine is another one.
ghost use Rattle.std.specs.Prelude.{◌≡◌, ◌≤◌, length, option_copied, option_map};
ghost use Rattle.serve_web.specs.Hosts.{begins, bytes_of, host_of, is_answered, is_at, is_host_among, is_named, is_port};

use bytes::Bytes;
use http::{HeaderValue, Request};
use input_http::are_digits;

/// Whether a request of this Host is answered. `hosts`: the names that are, parted by commas, or
/// `None` where each is.
pub fn is_answered(hosts: Option<&'static [u8]>, request: &Request<Bytes>) -> bool
    ensures { result ≡ is_answered (option_map (λ names. names.now) hosts.entry) request.now }
{
    match hosts {
        None => true,
        Some(names) => is_host_among(names, host_of(request)),
    }
}

/// The host that is asked for: that of the target, where it has one, else that of the field Host.
fn host_of(request: &Request<Bytes>) -> Option<&[u8]>
    ensures { option_map (λ host. host.now) result ≡ host_of request.now }
{
    match request.uri().authority() {
        Some(authority) => Some(authority.as_str().as_bytes()),
        None => bytes_of(request.headers().get("host")),
    }
}

/// The bytes of a field's value, if there is one.
fn bytes_of(value: Option<&HeaderValue>) -> Option<&[u8]>
    ensures { option_map (λ bytes. bytes.now) result ≡ bytes_of (option_copied value.entry) }
{
    match value {
        Some(value) => Some(value.as_bytes()),
        None => None,
    }
}

/// Whether there is a host, and it is one of the names.
fn is_host_among(names: &[u8], host: Option<&[u8]>) -> bool
    ensures { result ≡ is_host_among names.now (option_map (λ host. host.now) host.entry) }
{
    match host {
        Some(host) => is_named(names, host),
        None => false,
    }
}

/// Whether the host is one of the names, which commas part.
fn is_named(names: &[u8], host: &[u8]) -> bool
    ensures { result ≡ is_named names.now host.now }
{
    names
        .split(|byte| *byte == b',')
        .any(|name| is_at(name, host))
}

/// Whether the host is this name, in any case, at whatever port.
fn is_at(name: &[u8], host: &[u8]) -> bool
    ensures { result ≡ is_at name.now host.now }
{
    name.len() <= host.len() && begins(name, host)
}

/// Whether the host begins with this name, in any case, and behind it is nothing or a port.
fn begins(name: &[u8], host: &[u8]) -> bool
    requires { length name.now ≤ length host.now }
    ensures { result ≡ begins name.now host.now }
{
    host[..name.len()].eq_ignore_ascii_case(name) && is_port(&host[name.len()..])
}

/// Whether this may stand behind the name: nothing, or `:` and digits.
fn is_port(rest: &[u8]) -> bool
    ensures { result ≡ is_port rest.now }
{
    match rest {
        [] => true,
        [mark, digits @ ..] => *mark == b':' && are_digits(digits),
    }
}
