//! The rooms as one process serves them to everybody: a service of HTTP and of lines, over one
//! store and one journal of all that was applied to it; and one connection over any stream that may
//! make it wait: what it reads, answers and writes in a turn, how long it may take, how much it
//! holds.
//!
//! - What is served: `served`, with `applying`, `full_disk`, `journal`, `logging`, `outcome`.
//! - What comes: `entry`, `request`, `own_devices`.
//! - A peer over HTTP: `http_peer`, `answering`, `queue_service`, `room_service`, `http_limits`,
//!   `bytes_held`.
//! - A peer of lines: `line_peer`, `line_connection`, `line_text`.
//! - Both kinds: `step`, `progress`, `patience`; `last_peer` and `last_text`, where one is told
//!   something last; `into_bytes`.
//! - Between turns: `background`, with `backup`, `copies`, `account_watch`, `gathering`.
//!
//! A type with a `drop` of its own has that in the place of `#[derive(Drop)]`, so that no caller
//! proves again how each part is dropped.
#![tactic(auto)]

mod account_watch;
mod answering;
mod applying;
mod background;
mod backup;
mod bytes_held;
mod copies;
mod entry;
mod full_disk;
mod gathering;
mod http_limits;
mod http_peer;
mod into_bytes;
mod journal;
mod last_peer;
mod last_text;
mod laws;
mod line_connection;
mod line_peer;
mod line_text;
mod logging;
mod outcome;
mod own_devices;
mod page_rules;
mod patience;
mod progress;
mod queue_service;
mod request;
mod room_service;
mod served;
mod step;

pub use answering::answer_requests;
pub use backup::BackupTold;
pub use bytes_held::{LARGE, LONGEST};
pub use copies::{Copies, CopyUnderWay};
pub use entry::Entry;
pub use http_limits::connection_config;
pub use http_peer::HttpPeer;
pub use last_peer::LastPeer;
pub use laws::{
    always_found, always_lives, always_logged, always_runs, backups_hold, lines_tell_words,
    lives_are_always_found,
};
pub use line_connection::{Front, LineConnection, MOST_LINE, Side};
pub use line_peer::LinePeer;
pub use page_rules::PageRules;
pub use patience::Patience;
pub use queue_service::put_close;
pub use request::has_long_body;
pub use room_service::RoomService;
pub use served::Served;
pub use step::{Next, Turn};
