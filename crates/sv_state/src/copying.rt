//! Copies of entries.
ghost use Rattle.std.specs.Prelude.{◌≡◌, IfOk, map};
ghost use Rattle.sv_state.specs.Contents.{item_of};

use crate::entry::Entry;
use std::alloc::{AllocError, Global};

fn copy_of(e: &Entry) -> Result<Entry, AllocError>
    ensures { IfOk result (λ copied. item_of copied ≡ item_of e.now) }
{
    let reached = e.reached.copy()?;
    Ok(Entry {
        access: e.access,
        reached,
    })
}

/// Copies of the entries, in order.
pub fn copies_of(alloc: Global, entries: &[Entry]) -> Result<Vec<Entry>, AllocError>
    ensures { IfOk result (λ copies. map item_of copies.items ≡ map item_of entries.now) }
{
    let mut copies = Vec::with_capacity(alloc, entries.len())?;
    for e in entries {
        let copied = copy_of(e)?;
        copies.push(copied)?;
    }
    Ok(copies)
}
