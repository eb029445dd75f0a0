//! Batches that run: their waits, their recordings, their signals.
//!
//! - knows one batch, and the recordings that were published
//! - definitions: `Batches` of `sv_model`; `Begun`, `Running`
//! - used by `sv_core`
#![tactic(auto)]

mod batches;
mod instances;
mod recordings;

pub use batches::take_batch;
pub use recordings::{Published, Recordings};
