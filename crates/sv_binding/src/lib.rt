//! The steps of a recording in a batch, bound to queue, instances, tokens and places, and the groups that
//! no command stands for.
//!
//! - knows one step, and the batch that it runs in
//! - definitions: `Binding`, `Places`, `QueueGroups` of `sv_model`; `Runs`
//! - used by `sv_steps`
#![tactic(auto)]

mod binding;
mod groups;
mod halves;
mod numbering;
mod run;
mod sums;

pub use binding::{bind_accesses, bind_groups, bind_place};
pub use groups::{
    Side, device_side, device_stages, device_usages, from_token, group_from, place_in,
    queue_number, signal_scope, to_token,
};
pub use halves::{set_halves, wait_halves};
pub use numbering::{number_accesses, number_groups};
pub use run::Run;
pub use sums::{sum, sum_small};
