//! The lines taken so far, with tables of what they declare, and the sizes of their work.
//!
//! - knows lines that break no rule, and each render pass by its steps
//! - definitions: `Taken`, `Limits` of `sv_rules`; `Sound`, `Following`, `Tables` say what is kept
//! - used by `sv_check`
#![tactic(auto)]

mod commands;
mod elements;
mod end;
mod extent;
mod keep;
mod known;
mod measure;
mod pairs;
mod passes;
mod recordings;
mod register;
mod scripts;
mod sizes;
mod taken;

pub use elements::{is_misused_access, leaves_subpass, transfers, transfers_wrongly};
pub use extent::{Extent, is_outside, is_without_cells};
pub use known::Known;
pub use measure::PassSizes;
pub use passes::Pass;
pub use sizes::call_size;
pub use taken::TakenLines;
