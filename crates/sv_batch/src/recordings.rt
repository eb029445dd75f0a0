//! The published recordings, and the steps of those that a batch runs.
ghost use Rattle.std.specs.Prelude.{ℕ, ◌≡◌, ◌∷◌, ◌++◌, [], IfOk, List, OnOk};
ghost use Rattle.std.specs.List.{All};
ghost use Rattle.sv_model.specs.declared.line.Mark.{Mark};
ghost use Rattle.sv_model.specs.declared.line.Mark.TheVariants as mark;
ghost use Rattle.sv_model.specs.declared.line.Trace.{Trace};
ghost use Rattle.sv_step_laws.specs.Steps.{IsStepOf};
ghost use Rattle.sv_processed.specs.Works.{WorkFits};
ghost use Rattle.sv_batch.specs.Running.{AreOf, ArePublished, IsPublication, IsThere, MayRun, MayTakeSteps};
ghost use Rattle.sv_batch.specs.Running.{are_recordings_after, are_steps_after, is_recording_after};

use crate::instances::{instances_at, instances_of};
use std::alloc::{AllocError, Global};
use std::collections::BTreeMap;
use sv_binding::{Run, sum, sum_small};
use sv_model::line::Trace;
use sv_model::recorded::Recorded;
use sv_model::work::Step;
use sv_processed::Work;
use sv_range::List;

/// A published recording: its steps, and how many instances it begins.
#[derive(Drop)]
pub struct Published {
    pub steps: List<Step>,
    pub instances: u64,
}

/// The published recordings, by their numbers, and how many instances each recording of the trace begins.
#[derive(Drop)]
pub struct Recordings {
    pub published: BTreeMap<u32, Published>,
    pub instances: BTreeMap<u32, u64>,
}

impl Recordings {
    /// Of the recordings of the trace none is published. Fails only for want of memory.
    pub fn new(alloc: Global, trace: &Trace) -> Result<Recordings, AllocError>
        ensures { IfOk result (ArePublished trace.now []) }
    {
        Ok(Recordings {
            published: BTreeMap::new(alloc),
            instances: instances_of(alloc, trace.recordings.as_slice())?,
        })
    }

    /// A recording of the trace is published. Fails only for want of memory.
    pub fn publish(&mut self, recorded: Recorded) -> Result<(), AllocError>
        ensures { OnOk result ((t : Trace) (events : List Mark) → recorded.of.value ≡ t
            → ArePublished t events self.old → ArePublished t
            (events ++ mark.Publish recorded.number ∷ []) self.new) }
    {
        let number = recorded.number();
        let published = Published {
            instances: instances_at(&self.instances, number),
            steps: recorded.into_steps(),
        };
        self.published.insert(number, published)?;
        Ok(())
    }
}

// The steps of a recording, in order.
fn take_steps(work: &mut Work, run: Run, steps: &[Step]) -> Result<(), AllocError>
    requires { MayTakeSteps work.old steps.now }
    ensures fits { OnOk result ((t : Trace) → All (IsStepOf t) steps.now → WorkFits t work.old
        → WorkFits t work.new) }
    ensures at { OnOk result (are_steps_after run steps.now work.old work.new) }
{
    for step in steps {
        work.take_step(run, step)?;
    }
    Ok(())
}

// The recording in its slot.
fn take_recording(work: &mut Work, run: Run, published: &Published) -> Result<(), AllocError>
    requires { MayTakeSteps work.old published.now.steps }
    ensures fits { OnOk result ((t : Trace) → All (IsStepOf t) published.now.steps → WorkFits t work.old
        → WorkFits t work.new) }
    ensures at { OnOk result ((t : Trace) (k : ℕ) → IsPublication t k published.now
        → is_recording_after run k t work.old work.new) }
{
    let run = Run {
        instance: work.instances,
        ..run
    };
    take_steps(work, run, published.steps.as_slice())?;
    work.instances = sum(work.instances, published.instances)?;
    Ok(())
}

// The recording of that number in its slot, where it is published.
fn take_slot(work: &mut Work, recordings: &Recordings, run: Run, rec: u32) -> Result<(), AllocError>
    requires { MayRun work.old recordings.now }
    ensures fits { OnOk result ((t : Trace) → AreOf t recordings.now → WorkFits t work.old
        → WorkFits t work.new) }
    ensures at { OnOk result ((t : Trace) → IsThere t recordings.now rec
        → is_recording_after run rec t work.old work.new) }
{
    match recordings.published.get(&rec) {
        Some(published) => take_recording(work, run, published),
        None => Ok(()),
    }
}

/// The recordings of a batch, each in its slot. All of them are published.
pub fn take_recordings(
    work: &mut Work,
    recordings: &Recordings,
    run: Run,
    recs: &[u32],
) -> Result<(), AllocError>
    requires { MayRun work.old recordings.now }
    ensures fits { OnOk result ((t : Trace) → AreOf t recordings.now → WorkFits t work.old
        → WorkFits t work.new) }
    ensures at { OnOk result ((t : Trace) → All (IsThere t recordings.now) recs.now
        → are_recordings_after run recs.now t work.old work.new) }
{
    let mut slot = 0;
    for rec in recs {
        take_slot(work, recordings, Run { slot, ..run }, *rec)?;
        slot = sum_small(slot, 1)?;
    }
    Ok(())
}
