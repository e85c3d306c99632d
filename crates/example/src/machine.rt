//! An example of `room_core`: the machine of one account over a room in memory, without a database.

use crate::fault::Fault;
use room_core::{Event, Name, Reply, Room, answer};
use std::alloc::Global;

/// The moment of all events: 2026-09-01T00:00:00Z.
const NOW: u64 = 1_788_220_800;

/// A Validate-Job request for the queue of alice, as bytes.
const VALIDATE_JOB: &[u8] = b"\x01\x01\x00\x04\x00\x00\x00\x01\x01\
    \x47\x00\x12attributes-charset\x00\x05utf-8\
    \x48\x00\x1battributes-natural-language\x00\x02en\
    \x45\x00\x0bprinter-uri\x00\x1fipp://localhost/ipp/print/alice\x03";

/// The replies of alice's machine to three events: Validate-Job before her account is opened, its
/// opening, and Validate-Job again.
pub fn first_answers(alloc: Global) -> Result<Vec<Reply>, Fault> {
    let account = Name::read(b"alice").ok_or(Fault::Name)?;
    let open = Event::Open { account };
    let validate = Event::Ipp {
        account,
        body: VALIDATE_JOB,
    };
    let mut room: Option<Room> = None;
    let mut replies = Vec::new(alloc);
    replies.push(answer(alloc, &mut room, &[], NOW, &validate)?)?;
    replies.push(answer(alloc, &mut room, &[], NOW, &open)?)?;
    replies.push(answer(alloc, &mut room, &[], NOW, &validate)?)?;
    Ok(replies)
}
