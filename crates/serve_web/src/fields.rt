//! Adds the header fields of the answers to browsers.
ghost use Rattle.std.specs.Prelude.{◌≡◌, ◌++◌, ◌∷◌, [], IsTrue, OnOk};
ghost use Rattle.http_header.specs.FieldValue.{is_visible_text};
ghost use Rattle.http_server.specs.Response.{fields_of};
ghost use Rattle.serve_web.specs.Fields.{common_fields, more_fields, page_fields, policy_fields, safe_fields, sheet_fields, shown_fields};

use http::{HeaderValue, header};
use http_server::Response;
use page_pages::{PAGE_POLICY, Refusal};
use serve_peers::put_close;
use std::alloc::AllocError;

/// Adds the fields of a page, which a browser is not to keep. `closes`: the connection ends with
/// the answer.
#[tactic(auto, using(std::proofs::Common::append_assoc))]
pub fn put_page_fields(response: &mut Response, closes: bool) -> Result<(), AllocError>
    ensures status { response.new.status ≡ response.old.status }
    ensures body { response.new.body ≡ response.old.body }
    ensures fields { OnOk result
        (fields_of response.new ≡ fields_of response.old ++ page_fields closes) }
{
    let kind = HeaderValue::from_static("text/html; charset=utf-8");
    response.add_header(header::CONTENT_TYPE, kind)?;
    put_common_fields(response, closes)?;
    Ok(())
}

/// Adds the fields of what a question is answered with, which a browser is not to keep. `kind` is
/// the Content-Type.
#[tactic(auto, using(std::proofs::Common::append_assoc))]
pub(crate) fn put_shown_fields(
    response: &mut Response,
    kind: &'static str,
    closes: bool,
) -> Result<(), AllocError>
    requires { IsTrue (is_visible_text kind.now) }
    ensures status { response.new.status ≡ response.old.status }
    ensures body { response.new.body ≡ response.old.body }
    ensures fields { OnOk result
        (fields_of response.new ≡ fields_of response.old ++ shown_fields kind.now closes) }
{
    response.add_header(header::CONTENT_TYPE, HeaderValue::from_static(kind))?;
    put_common_fields(response, closes)?;
    Ok(())
}

/// Adds the fields of the style sheet or the script, which a browser may keep for ten minutes.
/// `kind` is the Content-Type.
#[tactic(auto, using(std::proofs::Common::append_assoc))]
pub(crate) fn put_sheet_fields(
    response: &mut Response,
    kind: &'static str,
    closes: bool,
) -> Result<(), AllocError>
    requires { IsTrue (is_visible_text kind.now) }
    ensures status { response.new.status ≡ response.old.status }
    ensures body { response.new.body ≡ response.old.body }
    ensures fields { OnOk result
        (fields_of response.new ≡ fields_of response.old ++ sheet_fields kind.now closes) }
{
    response.add_header(header::CONTENT_TYPE, HeaderValue::from_static(kind))?;
    let kept = HeaderValue::from_static("max-age=600");
    response.add_header(header::CACHE_CONTROL, kept)?;
    put_safe_fields(response, closes)?;
    Ok(())
}

/// Adds the fields of any answer that a browser is not to keep.
#[tactic(auto, using(std::proofs::Common::append_assoc))]
pub(crate) fn put_common_fields(response: &mut Response, closes: bool) -> Result<(), AllocError>
    ensures status { response.new.status ≡ response.old.status }
    ensures body { response.new.body ≡ response.old.body }
    ensures fields { OnOk result
        (fields_of response.new ≡ fields_of response.old ++ common_fields closes) }
{
    let store = HeaderValue::from_static("no-store");
    response.add_header(header::CACHE_CONTROL, store)?;
    put_safe_fields(response, closes)?;
    Ok(())
}

/// Adds what a browser may do with the answer, and whether the connection ends with it.
#[tactic(auto, using(std::proofs::Common::append_assoc))]
fn put_safe_fields(response: &mut Response, closes: bool) -> Result<(), AllocError>
    ensures status { response.new.status ≡ response.old.status }
    ensures body { response.new.body ≡ response.old.body }
    ensures fields { OnOk result
        (fields_of response.new ≡ fields_of response.old ++ safe_fields closes) }
{
    put_policy(response)?;
    let sniff = HeaderValue::from_static("nosniff");
    response.add_header(header::X_CONTENT_TYPE_OPTIONS, sniff)?;
    let referrer = HeaderValue::from_static("same-origin");
    response.add_header(header::REFERRER_POLICY, referrer)?;
    put_close(response, closes)?;
    Ok(())
}

/// Adds what a browser may load for a page (Content-Security-Policy).
fn put_policy(response: &mut Response) -> Result<(), AllocError>
    ensures status { response.new.status ≡ response.old.status }
    ensures body { response.new.body ≡ response.old.body }
    ensures fields { OnOk result
        (fields_of response.new ≡ fields_of response.old ++ policy_fields) }
{
    let policy = HeaderValue::from_static(PAGE_POLICY);
    response.add_header(header::CONTENT_SECURITY_POLICY, policy)
}

/// Adds what a refusal tells beside its status: which methods there are, or after how many seconds
/// to ask again.
pub(crate) fn put_more_fields(response: &mut Response, refusal: Refusal) -> Result<(), AllocError>
    ensures status { response.new.status ≡ response.old.status }
    ensures body { response.new.body ≡ response.old.body }
    ensures fields { OnOk result
        (fields_of response.new ≡ fields_of response.old ++ more_fields refusal) }
{
    match refusal {
        Refusal::OnlyRead => {
            let read = HeaderValue::from_static("GET, HEAD");
            response.add_header(header::ALLOW, read)?;
        }
        Refusal::OnlyPost => {
            let post = HeaderValue::from_static("POST");
            response.add_header(header::ALLOW, post)?;
        }
        Refusal::NoSpace => {
            let minute = HeaderValue::from_static("60");
            response.add_header(header::RETRY_AFTER, minute)?;
        }
        Refusal::Busy => {
            let second = HeaderValue::from_static("1");
            response.add_header(header::RETRY_AFTER, second)?;
        }
        _ => {}
    }
    Ok(())
}
