//! Calls, batches and fence signals that wait, and the order in which they are taken.
//!
//! - knows items, lanes and queues, and no cell
//! - definitions: `Holding` of `sv_model`; `Gates`, `Kept`; `FlowLaws`, `ReadyLaws` are laws
//! - used by `sv_batch`
#![tactic(auto)]

mod calls;
mod gate;
mod lanes;
pub mod laws;
mod queues;
mod ready;
#[cfg(test)]
mod tests;
mod waiting;

pub use gate::Gate;
pub use sv_model::work::{Held, Item};
