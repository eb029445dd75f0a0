//! The lines that declare.
ghost use Rattle.std.specs.Prelude.{◌≡◌};
ghost use Rattle.serde_json.specs.View.{view};
ghost use Rattle.sv_trace.specs.Lines as spec;

use serde_json::Value;
use sv_json::{AnyNumber, Found, Truth, maybe_at, or_at, part_at};
use sv_mask::Layout;
use sv_model::line::{Line, Sharing};
use sv_parts::name::{FirstLayout, KindName, SharingName};
use sv_parts::number::{Layers, Mips, Number, Size, Slot, VersionNumber};

#[tactic(auto, unfolding(crate::specs::Lines::version_line))]
pub fn version(value: &Value) -> Found<Line>
    ensures { result ≡ spec.version_line (view value.now) }
{
    let number = part_at::<VersionNumber>(value, "number");
    Found {
        flaw: number.flaw,
        value: Line::Version {
            number: number.value,
        },
    }
}

#[tactic(auto, unfolding(crate::specs::Lines::queue_line))]
pub fn queue(value: &Value) -> Found<Line>
    ensures { result ≡ spec.queue_line (view value.now) }
{
    let queue = part_at::<Slot>(value, "queue");
    let family = part_at::<Number>(value, "family");
    let lane = part_at::<Slot>(value, "lane");
    Found {
        flaw: queue.flaw.least(family.flaw).least(lane.flaw),
        value: Line::Queue {
            queue: queue.value,
            family: family.value,
            lane: lane.value,
        },
    }
}

#[tactic(auto, unfolding(crate::specs::Lines::buffer_line))]
pub fn buffer(value: &Value) -> Found<Line>
    ensures { result ≡ spec.buffer_line (view value.now) }
{
    let res = part_at::<Number>(value, "res");
    let size = part_at::<Size>(value, "size");
    let sharing = or_at::<SharingName>(value, "sharing", Sharing::Exclusive);
    Found {
        flaw: res.flaw.least(size.flaw).least(sharing.flaw),
        value: Line::Buffer {
            res: res.value,
            size: size.value,
            sharing: sharing.value,
        },
    }
}

#[tactic(auto, unfolding(crate::specs::Lines::image_line))]
pub fn image(value: &Value) -> Found<Line>
    ensures { result ≡ spec.image_line (view value.now) }
{
    let res = part_at::<Number>(value, "res");
    let mips = part_at::<Mips>(value, "mips");
    let layers = part_at::<Layers>(value, "layers");
    let initial = or_at::<FirstLayout>(value, "initial", Layout::Undefined);
    let sharing = or_at::<SharingName>(value, "sharing", Sharing::Exclusive);
    Found {
        flaw: res
            .flaw
            .least(mips.flaw)
            .least(layers.flaw)
            .least(initial.flaw)
            .least(sharing.flaw),
        value: Line::Image {
            res: res.value,
            mips: mips.value,
            layers: layers.value,
            initial: initial.value,
            sharing: sharing.value,
        },
    }
}

#[tactic(auto, unfolding(crate::specs::Lines::semaphore_line))]
pub fn semaphore(value: &Value) -> Found<Line>
    ensures { result ≡ spec.semaphore_line (view value.now) }
{
    let sem = part_at::<Number>(value, "sem");
    let kind = part_at::<KindName>(value, "kind");
    let initial = maybe_at::<AnyNumber>(value, "initial");
    Found {
        flaw: sem.flaw.least(kind.flaw).least(initial.flaw),
        value: Line::Semaphore {
            sem: sem.value,
            kind: kind.value,
            initial: initial.value,
        },
    }
}

#[tactic(auto, unfolding(crate::specs::Lines::event_line))]
pub fn event(value: &Value) -> Found<Line>
    ensures { result ≡ spec.event_line (view value.now) }
{
    let event = part_at::<Number>(value, "event");
    Found {
        flaw: event.flaw,
        value: Line::Event { event: event.value },
    }
}

#[tactic(auto, unfolding(crate::specs::Lines::fence_line))]
pub fn fence(value: &Value) -> Found<Line>
    ensures { result ≡ spec.fence_line (view value.now) }
{
    let fence = part_at::<Number>(value, "fence");
    let signaled = or_at::<Truth>(value, "signaled", false);
    Found {
        flaw: fence.flaw.least(signaled.flaw),
        value: Line::Fence {
            fence: fence.value,
            signaled: signaled.value,
        },
    }
}
