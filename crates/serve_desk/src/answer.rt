//! Writes the page that answers a form.
ghost use Rattle.std.specs.Prelude.{◌≡◌, ◌⊎◌, OnOk};
ghost use Rattle.http_server.specs.Response.{IsBlank};
ghost use Rattle.serve_web.specs.Responses.{IsLost};
ghost use Rattle.serve_desk.specs.Answers.{IsTold};

use http_server::Response;
use page_pages::{LineTold, put_told_page};
use serve_web::{lose, put_page_fields, shared};
use std::alloc::AllocError;

/// Answers with the page that tells what a line came to, or `500 Internal Server Error` where there is
/// no memory for it.
pub(crate) fn tell(response: &mut Response, told: &LineTold<'_>, closes: bool)
    requires { IsBlank response.old }
    ensures { IsTold told.now closes response.new ⊎ IsLost response.new }
{
    if put_told(response, told, closes).is_err() {
        lose(response);
    }
}

/// Answers with the page that tells what a line came to.
fn put_told(response: &mut Response, told: &LineTold<'_>, closes: bool) -> Result<(), AllocError>
    requires { IsBlank response.old }
    ensures { OnOk result (IsTold told.now closes response.new) }
{
    let mut text = Vec::new(*response.headers.allocator());
    put_told_page(&mut text, told)?;
    put_page_fields(response, closes)?;
    response.body.push(shared(text)?)?;
    Ok(())
}
