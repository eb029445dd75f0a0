//! One count per actor, kept so that the value behind a lock and the actor agree on it.
//!
//! - knows numbers of actors, and no lock
//! - definitions: `Values`, `Views`
//! - used by `sv_device`
#![tactic(auto)]

mod board;
mod case;
mod view;

pub use board::{Board, Book, Share};
pub use case::{Brand, Case, Receipt};
pub use view::{Known, View};

#[cfg(test)]
mod tests;
