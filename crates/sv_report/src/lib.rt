//! The printed lines of replies and refusals.
//!
//! - knows replies as values, and the names that are printed
//! - definitions: `Text`, `Replies`, `Lines`, `Notes`, `Pieces`
//! - used by `sv_app`
//!
//! Each call appends to one text. Where it finds no memory the text may hold a part of the line.
#![tactic(auto)]

mod events;
mod lines;
mod notes;
mod pieces;
mod refusals;
mod replies;

pub use events::{
    note_count, push_all_held, push_event, push_events, push_history, report_count, text,
};
pub use lines::{push_call, push_count, push_counts, push_publish, push_report, push_total};
pub use notes::{push_held, push_note};
pub use refusals::{push_refusal, refusal_text};
pub use replies::push_reply;
pub use sv_runs::group;

#[cfg(test)]
mod tests;
