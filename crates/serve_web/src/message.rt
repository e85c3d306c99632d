//! Makes the IPP messages by which a browser's acts are done: on a job, or to print a file.
ghost use Rattle.std.specs.Prelude.{◌≡◌, IfOk, option_copied, option_map};
ghost use Rattle.ipp_coding.specs.Spelling.{message_spelling};
ghost use Rattle.percent_encoding.specs.Percent.{percent_decode};
ghost use Rattle.client_owner.specs.Requests.{act_message, request as message_asked};
ghost use Rattle.input_lines.specs.OwnerRequests.{queue_uri};
ghost use Rattle.serve_web.specs.Messages.{IsFileMessage, IsJobOf, file_name, lacks_password, name_part, password_in, password_sent, word_of};

use crate::asked::query_of;
use crate::replaced::put_replaced;
use account_rules::Name;
use bytes::Bytes;
use client_owner::{Asked, JobAct, NewJob, format_of, request_text};
use http::{HeaderValue, Request};
use input_http::before;
use input_lines::queue_uri;
use percent_encoding::percent_decode;
use std::alloc::{AllocError, Global};

/// Makes the IPP message that does an act on a job.
pub(crate) fn act_message(
    alloc: Global,
    account: Name,
    act: JobAct,
    job: u32,
) -> Result<Vec<u8>, AllocError>
    ensures { IfOk result
        (λ text. text.items ≡ message_spelling (act_message (queue_uri account) act job)) }
{
    let uri = queue_uri(alloc, account)?;
    text_of(alloc, uri.as_slice(), &Asked::Act { act, job })
}

/// Makes the IPP message that prints the file of a request.
pub(crate) fn file_message(
    alloc: Global,
    account: Name,
    request: &Request<Bytes>,
    copies: u32,
    pages: Option<u32>,
) -> Result<Vec<u8>, AllocError>
    ensures { IfOk result
        (λ text. IsFileMessage account request.now copies pages text.items) }
{
    let uri = queue_uri(alloc, account)?;
    let name = file_name(alloc, query_of(request))?;
    let password = password_of(alloc, request)?;
    let word = slice_of(&password);
    let job = new_job(
        name.as_slice(),
        copies,
        pages,
        word,
        request.body().as_slice(),
    );
    let text = text_of(alloc, uri.as_slice(), &Asked::Print(job))?;
    Ok(text)
}

/// Makes a job of one document, in the format that its first bytes tell.
fn new_job<'a>(
    name: &'a [u8],
    copies: u32,
    pages: Option<u32>,
    password: Option<&'a [u8]>,
    document: &'a [u8],
) -> NewJob<'a>
    ensures { IsJobOf name.now copies pages (option_map word_of password.entry) document.now result }
{
    NewJob {
        name,
        copies,
        impressions: pages,
        password,
        format: format_of(document),
        document,
    }
}

/// Makes the bytes of a message. None of its values is too long, since each came in the head of a
/// request: only memory can be missing.
fn text_of(alloc: Global, uri: &[u8], asked: &Asked<'_>) -> Result<Vec<u8>, AllocError>
    ensures { IfOk result
        (λ text. text.items ≡ message_spelling (message_asked uri.now asked.now)) }
{
    match request_text(alloc, uri, asked) {
        Ok(text) => Ok(text),
        Err(_) => Err(AllocError),
    }
}

/// Reads the name of the file from the query, where it is as a form writes it: `+` for a space, and
/// percent-encoded.
fn file_name(alloc: Global, query: &[u8]) -> Result<Vec<u8>, AllocError>
    ensures { IfOk result (λ name. name.items ≡ file_name query.now) }
{
    let mut spaced = Vec::new(alloc);
    put_replaced(&mut spaced, name_part(query), b'+', b' ')?;
    percent_decoded(alloc, spaced.as_slice())
}

/// Gives what stands in the query behind `name=`, up to the next `&`.
fn name_part(query: &[u8]) -> &[u8]
    ensures { result.now ≡ name_part query.now }
{
    match query.strip_prefix(b"name=".as_slice()) {
        Some(rest) => before(b'&', rest),
        None => b"",
    }
}

/// Decodes the percent-encoded bytes of a text (`%41` is `A`), of a file's name or a password.
fn percent_decoded(alloc: Global, text: &[u8]) -> Result<Vec<u8>, AllocError>
    ensures { IfOk result (λ bytes. bytes.items ≡ percent_decode text.now) }
{
    let mut bytes = Vec::new(alloc);
    percent_decode(text).append_to(&mut bytes)?;
    Ok(bytes)
}

/// Whether a file needs a password, and the request has none.
pub(crate) fn lacks_password(
    alloc: Global,
    needs: bool,
    request: &Request<Bytes>,
) -> Result<bool, AllocError>
    ensures { IfOk result (λ lacks. lacks ≡ lacks_password needs request.now) }
{
    if !needs {
        return Ok(false);
    }
    Ok(password_of(alloc, request)?.is_none())
}

/// Reads the password of the file from the field Job-Password, if it has one.
fn password_of(alloc: Global, request: &Request<Bytes>) -> Result<Option<Vec<u8>>, AllocError>
    ensures { IfOk result
        (λ password. option_map (λ word. word.items) password ≡ password_sent request.now) }
{
    password_in(alloc, request.headers().get("job-password"))
}

/// Decodes the value of the field Job-Password. An empty one is no password.
fn password_in(alloc: Global, value: Option<&HeaderValue>) -> Result<Option<Vec<u8>>, AllocError>
    ensures { IfOk result (λ password. option_map (λ word. word.items) password
        ≡ password_in (option_copied value.entry)) }
{
    let Some(value) = value else {
        return Ok(None);
    };
    let word = percent_decoded(alloc, value.as_bytes())?;
    if word.is_empty() {
        return Ok(None);
    }
    Ok(Some(word))
}

/// Gives the bytes of a password, if there is one.
fn slice_of(word: &Option<Vec<u8>>) -> Option<&[u8]>
    ensures { option_map word_of result ≡ option_map (λ items. items.items) word.now }
{
    match word {
        Some(word) => Some(word.as_slice()),
        None => None,
    }
}
