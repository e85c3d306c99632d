//! Who asks, as the proxy says it.
ghost use Rattle.std.specs.Prelude.{◌≡◌};
ghost use Rattle.serve_desk.specs.Operators.{operator_of};
ghost use Rattle.serve_web.specs.Queries.{name_said};

use account_rules::Name;
use bytes::Bytes;
use http::{HeaderValue, Request};

/// The operator who asks: the name in the request's one field X-Operator. `None` where there is no
/// such field, or another one too, or it has no name.
pub(crate) fn operator_of(request: &Request<Bytes>) -> Option<Name>
    ensures { result ≡ operator_of request.now }
{
    let values = request.headers().get_all("x-operator");
    let mut values = values.iter();
    let only = values.next()?;
    match values.next() {
        Some(_) => None,
        None => name_in(only),
    }
}

/// The name that a field has.
fn name_in(value: &HeaderValue) -> Option<Name>
    ensures { result ≡ name_said value.now.bytes }
{
    Name::read(value.as_bytes())
}
