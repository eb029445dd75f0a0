//! The batches of `submit`.
ghost use Rattle.std.specs.Prelude.{◌≡◌};
ghost use Rattle.serde_json.specs.View.{view};
ghost use Rattle.sv_parts.specs.Parts as spec;

use crate::mask::stages_at;
use crate::number::Number;
use serde_json::Value;
use std::alloc::{AllocError, Global};
use sv_json::{
    AnyNumber, Flaw, Found, Part, Plain, Whole, maybe_at, maybe_list_at, part_at, unless,
};
use sv_model::line::{Batch, SemaphoreUse};

/// A wait or a signal.
pub struct SemaphoreUsePart;

impl Part for SemaphoreUsePart {
    type Made = SemaphoreUse;

    ghost form = { spec.semaphore_use };

    #[tactic(auto, unfolding(crate::specs::Parts::semaphore_use))]
    fn read(value: &Value) -> Found<SemaphoreUse> {
        let sem = part_at::<Number>(value, "sem");
        let stages = stages_at(value, "stages");
        let count = maybe_at::<AnyNumber>(value, "value");
        Found {
            flaw: sem.flaw.least(count.flaw).least(stages.flaw),
            value: SemaphoreUse {
                sem: sem.value,
                value: count.value,
                stages: stages.value,
            },
        }
    }
}

/// A batch, which is an object though each of its members may be missing.
pub struct BatchPart;

impl Whole for BatchPart {
    type Made = Batch;

    ghost form = { spec.batch };

    #[tactic(auto, unfolding(crate::specs::Parts::batch))]
    fn read(alloc: Global, value: &Value) -> Result<Found<Batch>, AllocError> {
        let shape = unless(value.is_object(), Flaw::Shape);
        let waits = maybe_list_at::<Plain<SemaphoreUsePart>>(alloc, value, "waits")?;
        let recs = maybe_list_at::<Plain<Number>>(alloc, value, "recs")?;
        let signals = maybe_list_at::<Plain<SemaphoreUsePart>>(alloc, value, "signals")?;
        Ok(Found {
            flaw: shape.least(waits.flaw.least(recs.flaw).least(signals.flaw)),
            value: Batch {
                waits: waits.value,
                recs: recs.value,
                signals: signals.value,
            },
        })
    }
}
