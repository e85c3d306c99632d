//! An address on the command line: a port of this machine, or the path of a socket.
ghost use Rattle.std.specs.Prelude.{◌≡◌, IfNone, IfSome, IsTrue};
ghost use Rattle.cli_words.specs.Addresses.{is_all_digits};

use std::fmt;

/// The last port of a machine.
pub(crate) const LAST_PORT: u32 = 65_535;

/// An address where a process takes connections: a port of 127.0.0.1, or the path of a socket of
/// Unix.
#[derive(Clone, Copy, PartialEq, Eq)]
pub enum Address<'a> {
    Port(u16),
    Path(&'a str),
}

impl<'a> Address<'a> {
    ghost use Rattle.cli_words.specs.Addresses.{IsAddressOf, IsNoAddress, has_port_from};

    /// The address that a word is. Decimal digits alone are a port, which is at least `least`; any
    /// other word is a path. `None` where it is empty, or such a port is none.
    pub(crate) fn read(word: &'a str, least: u32) -> Option<Address<'a>>
        ensures said { IfSome result (IsAddressOf word.now least) }
        ensures range { IfSome result (λ address. IsTrue (has_port_from least address)) }
        ensures none { IfNone result (IsNoAddress word.now least) }
    {
        if word.is_empty() {
            return None;
        }
        if !is_all_digits(word) {
            return Some(Address::Path(word));
        }
        let port = input_fields::number(word.as_bytes(), least, LAST_PORT)?;
        Some(Address::Port(port as u16))
    }
}

/// Whether the word has decimal digits alone, so that it is read as a port.
fn is_all_digits(word: &str) -> bool
    ensures { result ≡ is_all_digits word.now }
{
    word.bytes().all(|byte| byte.is_ascii_digit())
}

impl fmt::Display for Address<'_> {
    fn fmt<W: fmt::Write>(&self, f: &mut fmt::Formatter<W>) -> fmt::Result {
        match self {
            Address::Port(port) => write!(f, "{port}"),
            Address::Path(path) => f.write_str(path),
        }
    }
}
