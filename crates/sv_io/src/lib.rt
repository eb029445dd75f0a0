//! Sources and sinks of bytes, each with a count of its faults, reading and writing whole texts, and the
//! pace of a replay.
//!
//! - knows no trace: bytes, faults and memory
//! - definitions: `Causes`, `Memory`
//! - used by `sv_device`
#![tactic(auto)]

mod memory;
mod pace;
mod standard;
mod stream;
mod whole;

pub use memory::{MemSink, MemSource};
pub use pace::{Idle, Pace};
pub use standard::{StdSink, StdSource};
pub use stream::{Failed, Sink, Source};
pub use whole::{MAX_TEXT, ReadStop, read_all, write_all};

#[cfg(test)]
mod tests;
