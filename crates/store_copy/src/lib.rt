//! A backup of the store, row by row. The rows of one account after another, and last those of the
//! devices, go from the store's connection, which is only read, to the connection of a second, new
//! database. All at once:
//!
//! ```text
//! copy_all(alloc, &mut source, &mut copy)?;
//! ```
//!
//! Or in slices, between which the source goes on:
//!
//! ```text
//! let mut progress = Progress::UpTo(None);
//! while let Some(further) = copy_slice(alloc, &mut source, &mut copy, &progress, Some(100))? {
//!     progress = further;
//!     // Events. Where one changed the account that is under way:
//!     progress = start_again(&mut copy, &progress)?;
//! }
//! ```
#![tactic(auto)]

mod accounts;
mod again;
mod devices;
mod documents;
mod every;
mod grants;
mod jobs;
mod law;
mod maker;
mod removals;
mod slices;

pub use again::start_again;
pub use every::copy_all;
pub use law::{copies_agree, slices_copy};
pub use maker::CopyMaker;
pub use slices::{Progress, copy_slice};
