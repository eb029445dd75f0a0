//! What the steps of a work report, and their notes.
//!
//! - knows one step of the work after another, and no item
//! - definitions: `Checked`
//! - used by `sv_processed`
#![tactic(auto)]

mod checks;

pub use checks::Checks;
