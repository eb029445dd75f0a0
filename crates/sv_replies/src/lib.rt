//! The reply to an event, step by step: the reports of each step that it released, and its notes behind them.
//!
//! - knows the steps that one event released, and their notes
//! - definitions: `Replies` of `sv_model`; `Replying`
//! - used by `sv_steps`, `sv_history_laws`
#![tactic(auto)]

mod reply;

pub use reply::{add_step, empty_reply};
