//! The steps of recordings that stand in texts, and tests of them.
//!
//! - knows recordings as texts
//! - definitions: none: the tests are values
//! - used by nothing: it only tests
#![tactic(auto)]

#[cfg(test)]
mod commands;
#[cfg(test)]
mod items;
#[cfg(test)]
mod passes;
mod recordings;

pub use recordings::record;
