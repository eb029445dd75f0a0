//! Listeners of reports: what each of them has heard.
//!
//! - knows reports as values, and no text
//! - definitions: `Attachments`, `Lives`
//! - used by `sv_app`
#![tactic(auto)]

mod entry;
mod hub;
mod laws;
mod listener;
mod tally;
#[cfg(test)]
mod tests;

pub use hub::{Audience, Hub, Id};
pub use laws::{hears_while_it_stays, leaves_with_what_it_heard, reports_add_up, room_lasts};
pub use listener::Listener;
pub use tally::Tally;
