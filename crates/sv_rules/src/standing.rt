//! Where the next command of a recording stands.
ghost use Rattle.std.specs.Prelude.{◌≡◌, count_by};
ghost use Rattle.sv_rules.specs.Standings.{is_stored, stored, is_inside, is_in_rendering, is_in_pass};

use sv_model::line::{Attachment, Store};

/// In no render scope, in dynamic rendering of which so many attachments are stored, or in a subpass of a
/// pass.
#[derive(Clone, Copy, PartialEq)]
pub enum Standing {
    Outside,
    InRendering { stores: u64 },
    InPass { pass: u32, subpass: u32 },
}

/// Whether the attachment is stored.
pub fn is_stored(store: Store) -> bool
    ensures { result ≡ is_stored store }
{
    match store {
        Store::Nothing => false,
        Store::Store => true,
        Store::DontCare => true,
    }
}

/// How many of the attachments are stored.
pub fn stored(attachments: &[Attachment]) -> u64
    ensures { result ≡ stored attachments.now }
{
    attachments.iter().filter(|a| is_stored(a.store)).count() as u64
}

pub fn is_inside(standing: Standing) -> bool
    ensures { result ≡ is_inside standing }
{
    match standing {
        Standing::Outside => false,
        Standing::InRendering { .. } => true,
        Standing::InPass { .. } => true,
    }
}

pub fn is_in_rendering(standing: Standing) -> bool
    ensures { result ≡ is_in_rendering standing }
{
    match standing {
        Standing::InRendering { .. } => true,
        _ => false,
    }
}

pub fn is_in_pass(standing: Standing) -> bool
    ensures { result ≡ is_in_pass standing }
{
    match standing {
        Standing::InPass { .. } => true,
        _ => false,
    }
}
