//! The recordings of a trace, found by their numbers.
//!
//! - knows the recordings that a trace declares
//! - definitions: `Indexes`, `Places`
//! - used by `sv_record`, `sv_report`
#![tactic(auto)]

mod recordings;

pub use recordings::RecordingIndex;
