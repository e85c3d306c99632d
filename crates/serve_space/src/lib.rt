//! Space that is kept beside the database, so that a full disk leaves room for small changes.
#![tactic(auto)]

mod spare;
#[cfg(test)]
mod tests;

pub use spare::Spare;
