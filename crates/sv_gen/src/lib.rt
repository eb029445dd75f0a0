//! Traces made from a seed: works on one buffer by two lanes that take turns.
//!
//! - knows the text of the traces that it makes, and no type of them
//! - definitions: `Draws`, `Generated`
//! - used by `sv_app`
#![tactic(auto)]

mod draws;
mod lines;
mod trace;

pub use trace::generate;

#[cfg(test)]
mod tests;
