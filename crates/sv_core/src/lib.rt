//! The one-thread validator: events in, replies out.
//!
//! - knows events and replies, and no text and no thread
//! - definitions: `Replies`, `Work`, `Holding` of `sv_model`; `State`, `Marks`, `Going`
//! - used by `sv_device`
#![tactic(auto)]

mod calls;
mod going;
mod items;
mod parts;
mod stop;
mod validator;

pub use stop::{Spent, Stop};
pub use validator::{Counts, Validator};
