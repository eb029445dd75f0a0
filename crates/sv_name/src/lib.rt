//! The names of stages, accesses, usages and layouts.
//!
//! - knows the words of a text for masks and layouts
//! - definitions: `Names` of `sv_mask`
//! - used by `sv_parts`, `sv_report`
#![tactic(auto)]

mod accesses;
mod layouts;
mod stages;
mod table;
#[cfg(test)]
mod tests;
mod texts;

pub use accesses::{access_bits, plain_access};
pub use layouts::{layout, layout_text};
pub use stages::{plain_stage, stage_bits};
pub use texts::usage_text;
