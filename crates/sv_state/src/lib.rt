//! The state of one cell: the accesses of its epoch, and what dependency chains reach from each.
//!
//! - knows one cell: no range, no queue, no other cell
//! - definitions: `Dependencies`, `Order`, `Kept` of `sv_model`; `States` says what is kept
//! - used by `sv_space`
#![tactic(auto)]

mod copying;
mod entry;
mod keeping;
mod key;
mod laws;
mod mask;
mod outlines;
mod reached;
mod runs;
mod set;
mod settled;
mod state;
mod sub_runs;
mod subs;
#[cfg(test)]
mod tests;

pub use laws::full_are_quiet;
pub use outlines::outline;
pub use state::CellState;
