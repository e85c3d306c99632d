//! What pages are made of: pieces of markup, of text, of numbers and moments, and the bytes of
//! each. Only text comes from outside, and it goes out escaped.
#![tactic(auto)]

mod escape;
mod laws;
mod moment;
mod piece;
mod texts;

pub use escape::is_control;
pub use laws::{is_read_back, never_marks_up};
pub use moment::{day_in_month, known, put_month_number};
pub use piece::{Piece, put_all, signed_text};
