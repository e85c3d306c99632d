//! Reads the address of an account's queue, as a user gives it.
ghost use Rattle.std.specs.Prelude.{◌≡◌, ◌==◌, ◌<◌, ◌≤◌, ◌↔◌, ℕ, IfNone, IfSome, IsTrue, SomeIff, bytes_eq, codes, is_some, length, option_map};
ghost use Rattle.std.specs.List.{position};
ghost use Rattle.std.specs.declared.net.ipv4_addr.Ipv4Addr.{Ipv4Addr as AddressValue};
ghost use Rattle.std.specs.Net.Grammar.{IsIpv4Text};
ghost use Rattle.std.specs.Str.Parse.{digits_value};
ghost use Rattle.input_fields.specs.Fields.{IsDecimal};
ghost use Rattle.input_http.specs.Words.{before};
ghost use Rattle.client_owner.specs.Queues.{IsHost, IsPort, IsQueueAt, behind_scheme, is_queue_path};
ghost use Rattle.client_owner.specs.declared.queue.Queue.{Queue as QueueValue};

use account_rules::{Name, QUEUES};
use input_fields::number;
use input_http::before;
use std::net::Ipv4Addr;

/// The port of a queue whose address tells none (RFC 3510).
const IPP_PORT: u16 = 631;

/// The last port of a machine.
const LAST_PORT: u32 = 65_535;

/// The address of an account's queue.
#[derive(Clone, Copy)]
pub struct Queue<'a> {
    /// The whole address, as it was told.
    pub uri: &'a [u8],
    /// Its host, as it was told.
    pub host: &'a [u8],
    pub address: Ipv4Addr,
    pub port: u16,
    /// The path of the queue: `/ipp/print/ACCOUNT`.
    pub path: &'a [u8],
}

impl<'a> Queue<'a> {
    /// Reads the address of a queue: `ipp://HOST[:PORT]/ipp/print/ACCOUNT`, or the same with
    /// `http`. `None` where the words are none.
    pub fn read(uri: &'a [u8]) -> Option<Queue<'a>>
        ensures said { IfSome result (IsQueueAt uri.now) }
        ensures none { IfNone result ((queue : QueueValue) → IsQueueAt uri.now queue → ⊥) }
    {
        let rest = behind_scheme(uri)?;
        let authority = before(b'/', rest);
        let host = before(b':', authority);
        let address = address_of(host)?;
        let port = port_of(&authority[host.len()..])?;
        let path = queue_path(&rest[authority.len()..])?;
        Some(Queue {
            uri,
            host,
            address,
            port,
            path,
        })
    }
}

/// Gives what stands behind `ipp://` or `http://`. `None` where the address begins with neither.
#[tactic(auto, unfolding(crate::specs::Queues::behind_scheme))]
fn behind_scheme(uri: &[u8]) -> Option<&[u8]>
    ensures { option_map (λ rest. rest.now) result ≡ behind_scheme uri.now }
{
    uri.strip_prefix(b"ipp://").or(uri.strip_prefix(b"http://"))
}

/// Reads a host: `localhost`, or an IPv4 address.
fn address_of(host: &[u8]) -> Option<Ipv4Addr>
    ensures said { IfSome result (IsHost host.now) }
    ensures none { IfNone result ((address : AddressValue) → IsHost host.now address → ⊥) }
{
    if is_localhost(host) {
        return Some(Ipv4Addr::new(127, 0, 0, 1));
    }
    dotted(host)
}

fn is_localhost(host: &[u8]) -> bool
    ensures { result ≡ bytes_eq host.now (codes "localhost") }
{
    host == b"localhost".as_slice()
}

/// Reads an IPv4 address of four numbers with dots.
fn dotted(host: &[u8]) -> Option<Ipv4Addr>
    ensures said { IfSome result (IsIpv4Text host.now) }
    ensures none { IfNone result ((address : AddressValue) → IsIpv4Text host.now address → ⊥) }
{
    match Ipv4Addr::parse_ascii(host) {
        Ok(address) => Some(address),
        Err(_) => None,
    }
}

/// Reads the port of what stands behind a host: 631 where nothing does.
fn port_of(text: &[u8]) -> Option<u16>
    ensures said { IfSome result (IsPort text.now) }
    ensures none { IfNone result ((port : ℕ) → IsPort text.now port → ⊥) }
{
    match text {
        [] => Some(IPP_PORT),
        [b':', digits @ ..] => port_said(digits),
        _ => None,
    }
}

/// Reads a port, 1 to 65535 in decimal.
fn port_said(digits: &[u8]) -> Option<u16>
    ensures { SomeIff result (IsDecimal digits.now × (1 ≤ digits_value 10 digits.now)
        × (digits_value 10 digits.now ≤ LAST_PORT)) (digits_value 10 digits.now) }
{
    let port = number(digits, 1, LAST_PORT)?;
    Some(port as u16)
}

/// Gives the path, if it is that of a queue: `/ipp/print/ACCOUNT`.
fn queue_path(path: &[u8]) -> Option<&[u8]>
    ensures value { IfSome result (λ same. same.now ≡ path.now) }
    ensures some { IsTrue (is_some result) ↔ IsTrue (is_queue_path path.now) }
{
    let name = path.strip_prefix(QUEUES)?;
    Name::read(name)?;
    Some(path)
}
