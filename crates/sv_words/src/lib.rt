//! What the words after the program's name ask for.
//!
//! - knows no trace: the words of a run
//! - definitions: `Words`, `Reading`
//! - used by `sv_app`
#![tactic(auto)]

mod ask;
mod numbers;
mod reading;

pub use ask::Ask;
pub use reading::{is_replay, is_usage, read};

#[cfg(test)]
mod tests;
