//! One HTTP request to a queue, and its answer.
ghost use Rattle.std.specs.Prelude.{◌≡◌, IfOk, OnOk, length};
ghost use Rattle.std.specs.List.{flat_map};
ghost use Rattle.std.specs.Io.KnownBytes.{Appends, Consumes};
ghost use Rattle.client_operator.specs.Csv.{texts};
ghost use Rattle.client_owner.specs.Exchanges.{Hears, http_request};

use crate::head::{fill, take_head};
use crate::queue::Queue;
use client_lines::ClientFault;
use itoa::Buffer;
use std::alloc::Global;
use std::io::{Read, Write};

/// An answer over HTTP: its status and its body.
#[derive(Drop)]
pub(crate) struct Answer {
    pub(crate) status: u16,
    pub(crate) body: Vec<u8>,
}

/// Sends an HTTP request with a body to a queue, and takes its answer, and nothing behind that.
pub(crate) fn exchange<R: Read, W: Write>(
    alloc: Global,
    reader: &mut R,
    writer: &mut W,
    queue: &Queue<'_>,
    body: &[u8],
) -> Result<Answer, ClientFault>
    ensures sent { OnOk result (Appends (W.contents writer.old) (W.contents writer.new)
        (http_request queue.now body.now)) }
    ensures heard { IfOk result (λ answer. Hears (R.remaining reader.old) (R.remaining reader.new)
        answer.status answer.body.items) }
{
    send(writer, queue, body)?;
    hear(alloc, reader)
}

/// Sends a POST of an IPP message, after which the connection is to be closed.
fn send<W: Write>(writer: &mut W, queue: &Queue<'_>, body: &[u8]) -> Result<(), ClientFault>
    ensures { OnOk result (Appends (W.contents writer.old) (W.contents writer.new)
        (http_request queue.now body.now)) }
{
    let mut port = Buffer::new();
    let mut length = Buffer::new();
    let parts = [
        b"POST ",
        queue.path,
        b" HTTP/1.1\r\nHost: ",
        queue.host,
        b":",
        port.format(queue.port).as_bytes(),
        b"\r\nContent-Type: application/ipp\r\nContent-Length: ",
        length.format(body.len()).as_bytes(),
        b"\r\nConnection: close\r\n\r\n",
        body,
    ];
    send_parts(writer, &parts)
}

/// Writes the parts one after another, and flushes them.
fn send_parts<W: Write>(writer: &mut W, parts: &[&[u8]]) -> Result<(), ClientFault>
    ensures { OnOk result (Appends (W.contents writer.old) (W.contents writer.new)
        (flat_map (λ part. part) (texts parts.now))) }
{
    for part in parts {
        writer.write_all(part)?;
    }
    Ok(writer.flush()?)
}

/// Takes the head of an answer, and the body that it tells the length of.
fn hear<R: Read>(alloc: Global, reader: &mut R) -> Result<Answer, ClientFault>
    ensures { IfOk result (λ answer. Hears (R.remaining reader.old) (R.remaining reader.new)
        answer.status answer.body.items) }
{
    let head = take_head(alloc, reader)?;
    let body = take_body(alloc, reader, head.length)?;
    Ok(Answer {
        status: head.status,
        body,
    })
}

/// Takes a body of so many bytes.
fn take_body<R: Read>(alloc: Global, reader: &mut R, count: u32) -> Result<Vec<u8>, ClientFault>
    ensures bytes { IfOk result
        (λ bytes. Consumes (R.remaining reader.old) (R.remaining reader.new) bytes.items) }
    ensures count { IfOk result (λ bytes. length bytes.items ≡ count) }
{
    let mut bytes = vec![in alloc; 0; count as usize]?;
    fill(reader, bytes.as_mut_slice())?;
    Ok(bytes)
}
