//! Pipeline stages, accesses, usages and image layouts, and sets of them.
//!
//! - knows no trace: names, bits and the table of usages
//! - definitions: `Names`, `Scopes`, `Sets`, `Usages`
//! - used by `sv_name`, `sv_expand`, `sv_model`
#![tactic(auto)]

mod access;
mod layout;
mod stage;
#[cfg(test)]
mod tests;
mod usage;

pub use access::{Access16, AccessWord, Accesses};
pub use layout::Layout;
pub use stage::{Stage, StageWord, Stages};
pub use usage::{Usage, Usages, access_of, is_write, stage_of};
