//! Messages of IPP over HTTP/1.1, as the program's `listen` takes them: reading a head and a body
//! from a source, judging them, and writing answers to a sink. `serve` has its messages read by the
//! crate `http_server` instead; what both judge is in `input_http`.
#![tactic(auto)]

mod body;
mod chunks;
mod digits;
mod fault;
mod fields;
mod framing;
mod head;
mod judging;
mod laws;
mod receiving;
mod send;
mod trailers;
mod words;

pub use fault::WireFault;
pub use fields::Field;
pub use input_http::Refusal;
pub use judging::{Order, Request};
pub use laws::one_reading;
pub use receiving::{Received, receive};
pub use send::{send_answer, send_refusal};
