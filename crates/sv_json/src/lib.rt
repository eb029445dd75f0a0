//! Forms of JSON values: what a part of a line has to be, and what it says.
//!
//! - knows JSON values, and no line of a trace
//! - definitions: `Form`, `Flaw`
//! - used by `sv_parts`
#![tactic(auto)]

mod found;
mod list;
mod mask;
mod member;
mod number;
mod part;
mod word;

pub use found::{Flaw, Found, unless};
pub use list::{Plain, list_at, maybe_list_at, read_list};
pub use mask::mask_at;
pub use member::{has_member, maybe_at, or_at, pair_at, part_at};
pub use number::{AnyNumber, Truth, number_between, small_between};
pub use part::{Joined, Part, Whole};
pub use word::{named, no_text};
