//! What comes from outside the program: `Source` and `Sink` for bytes, what one field says (of a
//! line, of a record, or of the command line), and files of grants. Also bytes printed as
//! hexadecimal digits.
#![tactic(auto)]

mod counted;
mod fields;
mod grant_fault;
mod grant_line;
mod grants;
mod hex_text;
mod sink;
mod source;
mod stream_fault;
mod whole;

pub use counted::Counted;
pub use fields::{FieldFault, bytes, choice, decimal, month, number};
pub use grant_fault::GrantFault;
pub use grant_line::GrantLine;
pub use grants::{MOST_BYTES, read_grants};
pub use hex_text::print_hex;
pub use sink::Sink;
pub use source::{Source, read_byte};
pub use stream_fault::StreamFault;
pub use whole::read_whole;
