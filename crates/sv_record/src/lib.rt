//! Recordings, one command after another.
//!
//! - knows one recording, and the tables of a trace that it looks up
//! - definitions: `Recordings` of `sv_model`; `Contexts`, `Indexed` say what is kept
//! - used by `sv_device`
#![tactic(auto)]

mod begin_steps;
mod command_steps;
pub mod context;
mod families;
mod here;
pub mod index;
pub mod passes;
mod recording;
pub mod scope;
mod scope_steps;

pub use recording::record;
