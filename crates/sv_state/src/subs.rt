//! What is reached on the subpasses of render pass instances: runs for each queue and subpass in use.
ghost use Rattle.std.specs.Prelude.{◌≡◌, [], ◌<◌, IsTrue, ◌↔◌, IfOk, OnOk, IfSome, length, slice_index_or};
ghost use Rattle.std.specs.List.{HoldsAt};
ghost use Rattle.sv_model.specs.declared.work.Track.{Track};
ghost use Rattle.sv_state.specs.Masks.{Adds, LeadsInto, mark_for, ShownTo};
ghost use Rattle.sv_state.specs.Numbers.{on_sub, sub_masks, subs_masks};
ghost use Rattle.sv_state.specs.Turns.{EndBy};
ghost use Rattle.sv_state.specs.declared.sub_runs.SubRuns.{SubRuns};

use crate::mask::Mask;
use crate::sub_runs::SubRuns;
use std::alloc::{AllocError, Global};
use sv_mask::Usage;
use sv_model::work::{Access, Dep};

/// Copies of all.
pub fn copies_of(alloc: Global, subs: &[SubRuns]) -> Result<Vec<SubRuns>, AllocError>
    ensures { IfOk result (λ copies. subs_masks copies.items ≡ subs_masks subs.now) }
{
    let mut copies = Vec::with_capacity(alloc, subs.len())?;
    for p in subs {
        let copied = p.copy()?;
        copies.push(copied)?;
    }
    Ok(copies)
}

/// Where the runs of this subpass on that queue stand.
pub fn place_of(subs: &[SubRuns], queue: u32, subpass: u32) -> Option<usize>
    ensures { IfSome result (λ i. (i < length subs.now)
        × HoldsAt (λ p. (p.queue ≡ queue) × (p.subpass ≡ subpass)) subs.now i) }
{
    for (i, p) in subs.iter().enumerate() {
        if p.is_of(queue, subpass) {
            return Some(i);
        }
    }
    None
}

/// Adds what is reached on an instance, behind which none of those runs ends.
pub fn add_to(
    subs: &mut Vec<SubRuns>,
    i: usize,
    instance: u64,
    more: Mask,
) -> Result<(), AllocError>
    requires within { i < length subs.old.items }
    requires by { (d : SubRuns) → EndBy instance (slice_index_or subs.old.items i d).runs.items }
    requires track { (d : SubRuns) → more.track ≡ on_sub (slice_index_or subs.old.items i d) instance }
    ensures { OnOk result (Adds (subs_masks subs.old.items) (subs_masks subs.new.items) more) }
{
    subs[i].add(instance, more)
}

/// Runs of an instance alone.
fn begun(p: SubRuns, instance: u64, more: Mask) -> Result<SubRuns, AllocError>
    requires runs { p.runs.items ≡ [] }
    requires none { sub_masks p ≡ [] }
    requires track { more.track ≡ on_sub p instance }
    ensures { IfOk result (λ begun. Adds [] (sub_masks begun) more) }
{
    let mut begun = p;
    begun.add(instance, more)?;
    Ok(begun)
}

/// Adds what is reached on an instance, where no runs are of its queue and subpass.
pub fn add_pair(
    subs: &mut Vec<SubRuns>,
    queue: u32,
    instance: u64,
    subpass: u32,
    more: Mask,
) -> Result<(), AllocError>
    requires { more.track ≡ Track.Sub queue instance subpass }
    ensures { OnOk result (Adds (subs_masks subs.old.items) (subs_masks subs.new.items) more) }
{
    let none = SubRuns::new(*subs.allocator(), queue, subpass);
    let one = begun(none, instance, more)?;
    subs.push(one)?;
    Ok(())
}

/// Whether d may follow what is reached.
pub fn subs_lead(subs: &[SubRuns], d: &Dep) -> bool
    ensures { IsTrue result ↔ LeadsInto (subs_masks subs.now) d.now }
{
    for p in subs {
        if p.leads_into(d) {
            return true;
        }
    }
    false
}

/// Whether a track of x is reached with the usage, or its stage.
pub fn subs_marked(subs: &[SubRuns], x: &Access, write: bool, u: Usage) -> bool
    ensures { IsTrue result ↔ ShownTo x.now (mark_for write u.0) (subs_masks subs.now) }
{
    for p in subs {
        if p.marked_on(x, write, u) {
            return true;
        }
    }
    false
}
