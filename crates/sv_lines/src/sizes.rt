//! How much a call adds to the size of the whole work.
ghost use Rattle.std.specs.Prelude.{◌≡◌, ◌+◌, ℕ, List, length, sum_by};
ghost use Rattle.sv_model.specs.Size.{batch_size, fence_size, capped};
ghost use Rattle.sv_rules.specs.Taken.{size_in};
ghost use Rattle.sv_rules.specs.Limits.{added_size};

use crate::taken::TakenLines;
use sv_model::line::{Batch, Line};
use sv_range::List;

/// The sum of two sizes.
pub fn both(a: u64, b: u64) -> u64
    ensures { (x y : ℕ) → a ≡ capped x → b ≡ capped y → result ≡ capped (x + y) }
{
    a.saturating_add(b)
}

/// The length of a list, as a size.
pub fn count<T>(items: &List<T>) -> u64
    ensures { result ≡ capped (length items.now) }
{
    items.len() as u64
}

/// The sizes of a batch's recordings.
fn recs_size(taken: &TakenLines, recs: &[u32]) -> u64
    ensures { result ≡ capped (sum_by (size_in taken.now.trace) recs.now) }
{
    let mut size: u64 = 0;
    for rec in recs {
        size = both(size, taken.size_of_recording(*rec));
    }
    size
}

fn batch_size(taken: &TakenLines, batch: &Batch) -> u64
    ensures { result ≡ capped (batch_size taken.now.trace batch.now) }
{
    let recs = recs_size(taken, batch.recs.as_slice());
    let own = both(1, count(&batch.waits));
    let with_recs = both(own, recs);
    both(with_recs, count(&batch.signals))
}

fn batches_size(taken: &TakenLines, batches: &[Batch]) -> u64
    ensures { result ≡ capped (sum_by (batch_size taken.now.trace) batches.now) }
{
    let mut size: u64 = 0;
    for batch in batches {
        size = both(size, batch_size(taken, batch));
    }
    size
}

fn fence_size(fence: Option<u32>) -> u64
    ensures { result ≡ capped (fence_size fence) }
{
    match fence {
        Some(_) => 1,
        None => 0,
    }
}

/// What a call adds to the size of the whole work; 0 for every other line.
#[tactic(auto, unfolding(sv_rules::specs::Limits::added_size))]
pub fn call_size(taken: &TakenLines, line: &Line) -> u64
    ensures { result ≡ capped (added_size taken.now line.now) }
{
    match line {
        Line::Submit { batches, fence, .. } => {
            both(batches_size(taken, batches.as_slice()), fence_size(*fence))
        }
        Line::WaitFence { .. } => 17,
        Line::WaitQueue { .. } => 17,
        Line::WaitDevice { .. } => 257,
        Line::ResetFence { .. } => 1,
        _ => 0,
    }
}
