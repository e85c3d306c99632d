//! How long heads, bodies and trailers may be on a connection of HTTP, and how much may wait to go.
ghost use Rattle.std.specs.Prelude.{◌≡◌};
ghost use Rattle.input_http.specs.Limits.{longest_body, longest_head, longest_trailers};

use http_server::Config;
use http1::Limits;
use input_http::{BODY_LIMIT, HEAD_LIMIT, TRAILERS_LIMIT};

/// While more bytes than this wait to go, no request is answered.
const MOST_PENDING: usize = 0;

/// The limits of heads, bodies and trailers, as where one connection is served after another. A
/// further request is answered only once the answer before it has gone, so that no peer has more
/// than one answered at a time.
pub fn connection_config() -> Config
    ensures head { result.limits.max_head_len ≡ longest_head }
    ensures trailers { result.limits.max_trailers_len ≡ longest_trailers }
    ensures body { result.max_body_len ≡ longest_body }
    ensures pending { result.max_pending ≡ 0 }
{
    Config {
        limits: Limits {
            max_head_len: HEAD_LIMIT,
            max_trailers_len: TRAILERS_LIMIT,
            ..Limits::default()
        },
        max_body_len: BODY_LIMIT,
        max_pending: MOST_PENDING,
        ..Config::default()
    }
}
