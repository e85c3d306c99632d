//! Finds the first attribute of each name by sorting the names, so that many attributes take little
//! time.

ghost use Rattle.std.specs.Prelude.{◌≡◌, ◌∷◌, [], IfOk, length, drop};
ghost use Rattle.std.specs.Int.{to_be_bytes, w64};
ghost use Rattle.account_asks.specs.ProofNames.{byte_at, first_bytes, first_eight, IsKeyOf, AreKeys, AreFirsts};

use ipp_coding::Attribute;
use std::alloc::{AllocError, Global};

/// What a name is sorted by: its first bytes as a number, its length and what is after those
/// bytes. Most names differ in their first bytes, and a short name has no others: so two are mostly
/// compared with no look at a byte of the request, wherever that lies.
#[derive(Clone, Copy, PartialEq, Eq, PartialOrd, Ord)]
struct Key<'a> {
    first: u64,
    length: usize,
    rest: &'a [u8],
}

/// Of each attribute whether it is the first of its name. Names are sorted, those that are the same
/// in the order of the request, and then each is compared to its neighbour.
pub(crate) fn firsts_in(
    alloc: Global,
    attributes: &[Attribute<'_>],
) -> Result<Vec<bool>, AllocError>
    ensures length { IfOk result (λ firsts. length firsts.items ≡ length attributes.now) }
    ensures firsts { IfOk result (λ firsts. AreFirsts firsts.items attributes.now) }
{
    let mut keys = keys_in(alloc, attributes)?;
    keys.sort_unstable();
    let mut firsts = vec![in alloc; false; attributes.len()]?;
    for turn in 0..keys.len() {
        let (key, place) = keys[turn];
        if turn == 0 || key != keys[turn - 1].0 {
            firsts[place] = true;
        }
    }
    Ok(firsts)
}

/// The key of each attribute's name, with the attribute's place.
fn keys_in<'a>(
    alloc: Global,
    attributes: &[Attribute<'a>],
) -> Result<Vec<(Key<'a>, usize)>, AllocError>
    ensures { IfOk result (λ keys. AreKeys keys.items attributes.now) }
{
    let mut keys = Vec::with_capacity(alloc, attributes.len())?;
    for (place, attribute) in attributes.iter().enumerate() {
        keys.push((key_of(attribute.name), place))?;
    }
    Ok(keys)
}

/// The key by which a name is sorted.
fn key_of(name: &[u8]) -> Key<'_>
    ensures { IsKeyOf name.now result }
{
    Key {
        first: first_bytes(name),
        length: name.len(),
        rest: name.get(8..).unwrap_or(b""),
    }
}

/// The first 8 bytes of a name as a number, the first byte highest. A shorter name is filled up
/// with 0.
#[tactic(auto, unfolding(crate::specs::ProofNames::first_bytes))]
fn first_bytes(name: &[u8]) -> u64
    ensures number { result ≡ first_bytes name.now }
    ensures bytes { to_be_bytes w64 result ≡ first_eight name.now }
{
    u64::from_be_bytes([
        byte_at(name, 0),
        byte_at(name, 1),
        byte_at(name, 2),
        byte_at(name, 3),
        byte_at(name, 4),
        byte_at(name, 5),
        byte_at(name, 6),
        byte_at(name, 7),
    ])
}

/// The byte of the name at the place, and 0 after its end.
fn byte_at(name: &[u8], place: usize) -> u8
    ensures { result ≡ byte_at name.now place }
{
    name.get(place).copied().unwrap_or(0)
}
