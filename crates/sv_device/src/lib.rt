//! The device lock, and the actors that take it in turn.
//!
//! - knows actors, their events and the lock, and no text
//! - definitions: `Devices`, `Actors`, `Indexed`
//! - used by `sv_app`
#![tactic(auto)]

mod actor;
mod device;
mod finish;
mod kept;
mod recording;
mod runs;
mod scripts;
mod who;

pub use actor::Actor;
pub use device::Device;
pub use kept::Kept;
pub use runs::replay;
pub use scripts::actors;
pub use who::Who;
