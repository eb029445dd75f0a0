//! The rules of a trace: what refuses a line after the lines before it, the trace that lines make,
//! and the laws of both.
//!
//! - knows lines and the lines before them, and no code that keeps them
//! - definitions: `Causes` and what it names; `Outcome`; `Laws`, `Taken` are laws
//! - used by `sv_lines`
#![tactic(auto)]

pub mod laws;
pub mod standing;
