//! The work of the items that were taken: their steps, bound one by one.
//!
//! - knows the items that were processed, and not which comes next
//! - definitions: `Processed`, `Work` of `sv_model`; `Works`
//! - used by `sv_batch`
#![tactic(auto)]

mod events;
mod work;

pub use work::Work;
