//! The validator from bytes to bytes: what is asked for, what is read, what is accepted and what is written.
//!
//! - knows bytes and words of one run
//! - definitions: `Run`, `Asked`, `Answer`, `Bench`, `Status`
//! - used by `svval`
#![tactic(auto)]

mod answer;
mod asked;
mod bench;
mod checking;
mod delivery;
mod replaying;
mod runs;
mod status;
mod validating;

pub use checking::check_run;
pub use runs::run;
pub use status::Status;
