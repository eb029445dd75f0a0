//! Parts of lines: numbers, names, masks, ranges, and the accesses, elements, attachments and batches made of
//! them.
//!
//! - knows one part of a line, and no op
//! - definitions: `Parts`, `Names`
//! - used by `sv_trace`
#![tactic(auto)]

pub mod access;
pub mod attachment;
pub mod batch;
pub mod element;
pub mod mask;
pub mod name;
pub mod number;
pub mod pass;
pub mod range;
pub mod table;
