//! The last text on a connection whose round's commit failed: the answer to what it asked there.
ghost use Rattle.std.specs.Prelude.{◌≡◌, ◌++◌, OnOk};
ghost use Rattle.serve_peers.specs.LastTexts.{answer_to, last_text, response_text};

use crate::entry::Entry;
use crate::into_bytes::into_bytes;
use crate::line_text::put_told;
use crate::outcome::reply_of;
use account_machine::{Answered, Reply, internal_error};
use bytes::BufMut;
use http_server::Rope;
use input_http::{Refusal, last_answer_head, refusal_text};
use ipp_coding::{HEADER_LENGTH, Header, header_in};
use std::alloc::{AllocError, Global};
use store_rounds::StoreFault;

/// Appends the answer to an entry that was applied again by itself, since the commit of its round
/// failed: over HTTP a whole response that ends the connection, and else a line.
pub(crate) fn put_last(
    alloc: Global,
    output: &mut Rope,
    asked: &Entry,
    told: Result<Answered, StoreFault>,
) -> Result<(), AllocError>
    ensures { OnOk result (output.new.items ≡ output.old.items ++ last_text asked.now told) }
{
    match asked {
        Entry::Message { body, .. } => put_answer(output, body.as_slice(), reply_of(told)),
        Entry::Line(_) | Entry::Desk { .. } => put_told(alloc, output, told),
    }
}

/// Appends the whole response to a request over HTTP.
fn put_answer(
    output: &mut Rope,
    body: &[u8],
    told: Result<Reply, StoreFault>,
) -> Result<(), AllocError>
    ensures { OnOk result (output.new.items ≡ output.old.items ++ answer_to body.now told) }
{
    if body.len() < HEADER_LENGTH {
        return output.put_slice(refusal_text(Refusal::BadRequest).as_slice());
    }
    put_response(output, header_in(body), told)
}

/// Appends the whole response to a message whose header is whole. An IPP answer repeats the
/// request-id of that.
fn put_response(
    output: &mut Rope,
    header: Header,
    told: Result<Reply, StoreFault>,
) -> Result<(), AllocError>
    ensures { OnOk result (output.new.items ≡ output.old.items ++ response_text header told) }
{
    match told {
        Ok(Reply::Ipp(answer)) => {
            output.put_slice(last_answer_head(answer.items.len()).as_slice())?;
            output.push(into_bytes(answer.items)?)
        }
        Ok(Reply::NoAccount) => output.put_slice(refusal_text(Refusal::NotFound).as_slice()),
        _ => {
            let text = internal_error(header);
            output.put_slice(last_answer_head(text.len()).as_slice())?;
            output.put_slice(&text)
        }
    }
}
