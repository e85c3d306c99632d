//! The sockets of one process for everybody: doors, a connection for each peer that came in by one,
//! and the loop that waits for them.
//!
//! - Coming in: `door` (a socket that listens), `doors` (how many a door lets in, and what they
//!   speak).
//! - A guest: `guest` (a peer with its socket), `stream` (the socket).
//! - The loop: `hall`, with `sharing` (who shares a commit), `deadlines`, `memory` and `stock` (how
//!   much all hold), `clock` and `pace` (the time that deadlines go by).
#![tactic(auto)]

mod clock;
mod deadlines;
mod door;
mod doors;
mod guest;
mod hall;
mod laws;
mod memory;
mod pace;
mod sharing;
mod stock;
mod stream;

pub use clock::moment;
pub use door::Door;
pub use doors::{Entrance, Kind, Speech};
pub use hall::Hall;
pub use laws::{always_hear, from_end_to_end, lines_ask_what_they_say};
