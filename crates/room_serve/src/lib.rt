//! What a user of the library calls: `run_events`, for lists of events of many accounts over one
//! store, and `serve_one`, for messages of HTTP, each one event. And the laws of what each account
//! may rely on whatever the others ask. The program's `script` and `listen` are built on this; its
//! `serve` is in the crates `serve_..`.
//!
//! ```text
//! let events = [(now, Event::Open { account }), (now, Event::Ipp { account, body })];
//! for outcome in run_events(alloc, &mut store, &events)? {
//!     match outcome {
//!         Outcome::Answered(reply) => ..,
//!         Outcome::Failed(fault) => ..,    // nothing was answered, and the next was tried
//!     }
//! }
//!
//! let mut wire = Wire::new(reader, writer);
//! while serve_one(alloc, &mut store, now, &mut wire)? == After::Again {}
//! ```
#![tactic(auto)]

mod exchange;
mod fault;
mod laws;
mod outcome;
mod run;
mod targets;
mod wire;

pub use exchange::serve_one;
pub use fault::RunFault;
pub use input_fields::{GrantFault, GrantLine, Sink, Source, read_grants};
pub use laws::{
    agreement, isolation, lives_are_found, lives_go_on_in_files, lives_stay_in_files, runs_join,
};
pub use listen_http::WireFault;
pub use outcome::Outcome;
pub use run::run_events;
pub use targets::paths_are_accounts;
pub use wire::{After, Wire};
