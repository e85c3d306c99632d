//! How much can be explained of bytes that are no message: the longest front that is whole parts of
//! one. A front is the first so many bytes.

ghost use Rattle.std.specs.Prelude.{◌≡◌, ◌≤◌, ◌⊎◌, IfOk, IfSome, IsSome, length, take};
ghost use Rattle.ipp_coding.specs.Reading.{message_of};
ghost use Rattle.ipp_notation.specs.Fronts.{closed_by_end};

use ipp_coding::tags::END_OF_ATTRIBUTES;
use ipp_coding::{HEADER_LENGTH, LONGEST, ReadFault, read_message};
use std::alloc::{AllocError, Global};

/// What the last whole part was.
#[derive(Clone, Copy)]
enum Part {
    Header,
    Group,
    Value,
}

/// How many bytes at the front of bytes that are no message are whole parts of one: with an end tag
/// after them they are a message, and no longer front is one. 0 where not even the header is
/// whole. Time is linear in the length of the bytes.
pub(crate) fn end_of_reading(alloc: Global, bytes: &[u8]) -> Result<usize, AllocError>
    ensures within { IfOk result (λ n. n ≤ length bytes.now) }
    ensures message { IfOk result
        (λ n. (n ≡ 0) ⊎ IsSome (message_of (closed_by_end (take n bytes.now)))) }
{
    let length = whole_length(bytes);
    let front = closed(alloc, &bytes[..length])?;
    match read_message(alloc, front.as_slice()) {
        Ok(_) => Ok(length),
        Err(ReadFault::Malformed) => Ok(0),
        Err(ReadFault::Memory) => Err(AllocError),
    }
}

/// The bytes with an end tag after them.
pub(crate) fn closed(alloc: Global, front: &[u8]) -> Result<Vec<u8>, AllocError>
    ensures { IfOk result (λ bytes. bytes.items ≡ closed_by_end front.now) }
{
    let mut bytes = Vec::new(alloc);
    bytes.extend_from_slice(front)?;
    bytes.push(END_OF_ATTRIBUTES)?;
    Ok(bytes)
}

/// How many bytes at the front are whole parts: the header, tags of groups, and values. Of fewer
/// bytes than a header has, all of them: they are no message even with an end tag.
fn whole_length(bytes: &[u8]) -> usize
    ensures { result ≤ length bytes.now }
{
    let mut length = HEADER_LENGTH.min(bytes.len());
    let mut part = Part::Header;
    for _ in 0..bytes.len() {
        let Some((more, next)) = next_part(part, &bytes[length..]) else {
            break;
        };
        length += more;
        part = next;
    }
    length
}

/// The length of the part that follows `part` at the front of `rest`, and its kind. `None` where
/// that part is not whole.
fn next_part(part: Part, rest: &[u8]) -> Option<(usize, Part)>
    ensures { IfSome result (λ next. next.0 ≤ length rest.now) }
{
    let [tag, fields @ ..] = rest else {
        return None;
    };
    if *tag < 0x10 {
        return match tag {
            0x00 | 0x03 => None,
            _ => Some((1, Part::Group)),
        };
    }
    let name = field_length(fields)?;
    let value = field_length(fields.get(name..)?)?;
    match part {
        Part::Header => None,
        Part::Group if name == 2 => None,
        Part::Group | Part::Value => Some((1 + name + value, Part::Value)),
    }
}

/// The length of the name or the value at the front, with the two bytes that tell it. `None` where
/// it is not whole.
fn field_length(bytes: &[u8]) -> Option<usize>
    ensures { IfSome result (λ n. n ≤ length bytes.now) }
{
    let [high, low, rest @ ..] = bytes else {
        return None;
    };
    let length = usize::from(u16::from_be_bytes([*high, *low]));
    if length <= LONGEST && length <= rest.len() {
        Some(2 + length)
    } else {
        None
    }
}
