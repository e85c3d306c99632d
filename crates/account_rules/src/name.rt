//! `Name`: the name of an account or a device, which is known to be one.

ghost use Rattle.std.specs.Prelude.{◌≡◌, Some, None, IsTrue, if◌then◌else◌};
ghost use Rattle.std.specs.List.{list_all};
ghost use Rattle.account_rules.specs.Names.{is_letter, is_name_byte, is_name};

use crate::limits::LONGEST_NAME;
use std::marker::Model;

/// The name of an account or a device: 1 to 32 bytes of `a` to `z`, `0` to `9` and `-`, the first
/// of them a letter.
#[derive(Clone, Copy, PartialEq, Eq, PartialOrd, Ord)]
pub struct Name {
    /// How many of the cells, from the first on, are the name. All others are 0.
    size: u8,
    cells: [u8; LONGEST_NAME],
}

impl Model for Name {
    ghost use Rattle.std.specs.Prelude.{◌≡◌, ℕ, ◌≤◌, List, length, take, IsTrue};
    ghost use Rattle.std.proofs.Common.{sym};
    ghost use Rattle.account_rules.specs.Limits.{longest_name};
    ghost use Rattle.account_rules.specs.Names.{is_name};
    ghost use Rattle.account_rules.specs.ProofNameCells.{cells_of};

    ghost Value = { List ℕ };

    ghost view = { λ n. take n.size n.cells };

    ghost invariant = { λ n.
        (n.size ≤ longest_name)
        × (length (take n.size n.cells) ≡ n.size)
        × (n.cells ≡ cells_of (take n.size n.cells))
        × IsTrue (is_name (take n.size n.cells)) };

    ghost inverse = { λ bytes. record { size = length bytes; cells = cells_of bytes } };

    ghost inverse_ok = { λ n h i. record {
      size = h.1 i;
      cells = sym h.2 i;
    } };
}

impl Name {
    /// Reads the bytes as a name. None where they are none.
    pub fn read(b: &[u8]) -> Option<Name>
        ensures { result ≡ (if is_name b.now then Some b.now else None) }
    {
        if !is_name(b) {
            return None;
        }
        let mut cells = [0; LONGEST_NAME];
        cells[..b.len()].copy_from_slice(b);
        Some(Name {
            size: b.len() as u8,
            cells,
        })
    }

    /// The bytes of the name, without the cells that it leaves unused.
    pub fn bytes(&self) -> &[u8]
        ensures value { result.now ≡ self.now }
        ensures name { IsTrue (is_name self.now) }
    {
        &self.cells[..self.size as usize]
    }
}

/// Whether the bytes are a name: 1 to 32 of `a` to `z`, `0` to `9` and `-`, the first of them a
/// letter.
fn is_name(bytes: &[u8]) -> bool
    ensures { result ≡ is_name bytes.now }
{
    if bytes.is_empty() || LONGEST_NAME < bytes.len() {
        return false;
    }
    is_letter(bytes[0]) && are_name_bytes(bytes)
}

fn are_name_bytes(bytes: &[u8]) -> bool
    ensures { result ≡ list_all is_name_byte bytes.now }
{
    bytes.iter().all(|byte| is_name_byte(*byte))
}

fn is_name_byte(byte: u8) -> bool
    ensures { result ≡ is_name_byte byte }
{
    is_letter(byte) || byte.is_ascii_digit() || byte == b'-'
}

fn is_letter(byte: u8) -> bool
    ensures { result ≡ is_letter byte }
{
    byte.is_ascii_lowercase()
}
