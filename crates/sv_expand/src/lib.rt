//! Synchronization scopes and access scopes of masks.
//!
//! - knows masks alone
//! - definitions: `Scopes` of `sv_mask`; `Rows`
//! - used by `sv_command`, `sv_pass`, `sv_binding`
#![tactic(auto)]

mod accesses;
mod rows;
mod stages;
#[cfg(test)]
mod tests;
mod union;

pub use accesses::{access, is_within, supported, usages_at};
pub use stages::{first_sync, names_all, second_sync};
