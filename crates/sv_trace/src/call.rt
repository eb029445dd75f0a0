//! The calls of lanes.
ghost use Rattle.std.specs.Prelude.{◌≡◌, IfOk};
ghost use Rattle.serde_json.specs.View.{view};
ghost use Rattle.sv_trace.specs.Lines as spec;

use serde_json::Value;
use std::alloc::{AllocError, Global};
use sv_json::{Found, list_at, maybe_at, part_at};
use sv_model::line::Line;
use sv_parts::batch::BatchPart;
use sv_parts::number::{Number, Slot};

#[tactic(auto, unfolding(crate::specs::Lines::submit_line))]
pub fn submit(alloc: Global, value: &Value) -> Result<Found<Line>, AllocError>
    ensures { IfOk result (λ it. it ≡ spec.submit_line (view value.now)) }
{
    let lane = part_at::<Slot>(value, "lane");
    let queue = part_at::<Slot>(value, "queue");
    let batches = list_at::<BatchPart>(alloc, value, "batches")?;
    let fence = maybe_at::<Number>(value, "fence");
    Ok(Found {
        flaw: lane
            .flaw
            .least(queue.flaw)
            .least(batches.flaw)
            .least(fence.flaw),
        value: Line::Submit {
            lane: lane.value,
            queue: queue.value,
            batches: batches.value,
            fence: fence.value,
        },
    })
}

#[tactic(auto, unfolding(crate::specs::Lines::wait_fence_line))]
pub fn wait_fence(value: &Value) -> Found<Line>
    ensures { result ≡ spec.wait_fence_line (view value.now) }
{
    let lane = part_at::<Slot>(value, "lane");
    let fence = part_at::<Number>(value, "fence");
    Found {
        flaw: lane.flaw.least(fence.flaw),
        value: Line::WaitFence {
            lane: lane.value,
            fence: fence.value,
        },
    }
}

#[tactic(auto, unfolding(crate::specs::Lines::reset_fence_line))]
pub fn reset_fence(value: &Value) -> Found<Line>
    ensures { result ≡ spec.reset_fence_line (view value.now) }
{
    let lane = part_at::<Slot>(value, "lane");
    let fence = part_at::<Number>(value, "fence");
    Found {
        flaw: lane.flaw.least(fence.flaw),
        value: Line::ResetFence {
            lane: lane.value,
            fence: fence.value,
        },
    }
}

#[tactic(auto, unfolding(crate::specs::Lines::wait_queue_line))]
pub fn wait_queue(value: &Value) -> Found<Line>
    ensures { result ≡ spec.wait_queue_line (view value.now) }
{
    let lane = part_at::<Slot>(value, "lane");
    let queue = part_at::<Slot>(value, "queue");
    Found {
        flaw: lane.flaw.least(queue.flaw),
        value: Line::WaitQueue {
            lane: lane.value,
            queue: queue.value,
        },
    }
}

#[tactic(auto, unfolding(crate::specs::Lines::wait_device_line))]
pub fn wait_device(value: &Value) -> Found<Line>
    ensures { result ≡ spec.wait_device_line (view value.now) }
{
    let lane = part_at::<Slot>(value, "lane");
    Found {
        flaw: lane.flaw,
        value: Line::WaitDevice { lane: lane.value },
    }
}
