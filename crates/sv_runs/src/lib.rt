//! Reports and notes in greatest runs of neighbouring cells.
//!
//! - knows reports and notes, and not what they stand for
//! - definitions: `Reports`, `Notes`, `Replies` of `sv_model`; `Runs`, `Joined`, `Grouped`
//! - used by `sv_space`, `sv_layout`, `sv_owner`, `sv_report`
#![tactic(auto)]

mod areas;
mod grouped_notes;
mod grouping;
mod notes;
mod reports;
mod same;

pub use grouping::group;
pub use notes::add_note;
pub use reports::add_run;

#[cfg(test)]
mod tests;
