//! Items that are taken: calls, batches and fence signals.
ghost use Rattle.std.specs.Prelude.{ℕ, ◌≡◌, ◌∷◌, ◌++◌, [], List, Some, true, OnOk, length, option_map};
ghost use Rattle.std.specs.Prelude.{slice_get, unwrap_or};
ghost use Rattle.sv_model.specs.Places.{Bound};
ghost use Rattle.sv_model.specs.Declarations.{call_of};
ghost use Rattle.sv_model.specs.HostWaits.{call_given, call_made};
ghost use Rattle.sv_model.specs.History.{batch_at, batches_in, call_at, no_batch};
ghost use Rattle.sv_model.specs.Primitives.{Made};
ghost use Rattle.sv_model.specs.Work.{item_given, item_made, numbered};
ghost use Rattle.sv_model.specs.Work as spec;
ghost use Rattle.sv_model.specs.declared.line.Trace.{Trace};
ghost use Rattle.sv_model.specs.declared.work.Step.TheVariants as step;
ghost use Rattle.sv_model.specs.declared.line.Batch.{Batch};
ghost use Rattle.sv_processed.specs.Works.{IsAt, MayTake, WorkFits};
ghost use Rattle.sv_batch.specs.Running.{AreOf, MayRun};
ghost use Rattle.sv_core.specs.Runnable.{CallNamesFence, IsBatchAfter, IsRunnable};
ghost use Rattle.sv_core.specs.Taking.{IsAfter};

use crate::calls::{take_call, take_fence};
use std::alloc::{AllocError, Global};
use sv_batch::{Recordings, take_batch};
use sv_binding::Run;
use sv_model::line::{Batch, Line, Mark, Trace};
use sv_model::work::Item;
use sv_processed::Work;
use sv_range::List;

// The call of that number of a lane.
fn call_of(trace: &Trace, lane: u32, index: u32) -> Option<&Line>
    ensures { option_map (λ call. call.now) result ≡ call_of trace.now lane index }
{
    match trace.lane_scripts.as_slice().get(lane as usize) {
        None => None,
        Some(script) => script.as_slice().get(index as usize),
    }
}

// The call that came as that event.
fn call_at<'a>(trace: &'a Trace, history: &[Mark], event: u64) -> Option<&'a Line>
    ensures { option_map (λ call. call.now) result ≡ call_at trace.now history.now event }
{
    match history.get(event as usize) {
        None => None,
        Some(Mark::Publish(_)) => None,
        Some(Mark::Call { lane, index }) => call_of(trace, *lane, *index),
    }
}

fn batch_in(call: &Line, batch: u32) -> Option<&Batch>
    ensures { option_map (λ b. b.now) result ≡ slice_get (batches_in (Some call.now)) batch }
{
    match call {
        Line::Submit { batches, .. } => batches.as_slice().get(batch as usize),
        _ => None,
    }
}

// The batch of the submit that came as that event.
fn batch_at<'a>(trace: &'a Trace, history: &[Mark], event: u64, batch: u32) -> Option<&'a Batch>
    ensures { option_map (λ b. b.now) result ≡ slice_get
        (batches_in (call_at trace.now history.now event)) batch }
{
    match call_at(trace, history, event) {
        None => None,
        Some(call) => batch_in(call, batch),
    }
}

fn run_of(queue: u32, event: u64, batch: u32) -> Run
    ensures { result ≡ record { queue = queue; event = event; batch = batch; slot = 0; instance = 0 } }
{
    Run {
        queue,
        event,
        batch,
        slot: 0,
        instance: 0,
    }
}

// A call of that lane, which that event released.
fn take_call_of(
    work: &mut Work,
    trace: &Trace,
    released: u64,
    lane: u32,
    index: u32,
) -> Result<(), AllocError>
    requires { MayTake work.old (step.Groups []) }
    ensures fits { OnOk result ((t : Trace) → WorkFits t work.old → WorkFits t work.new) }
    ensures at { OnOk result (CallNamesFence trace.now (call_of trace.now lane index)
        → IsAfter trace.now released (λ (m : Made). call_given trace.now
        (spec.run_of released 0 released 0) m (call_of trace.now lane index))
        (λ (m : Made). call_made m (call_of trace.now lane index)) work.old work.new) }
{
    match call_of(trace, lane, index) {
        None => Ok(()),
        Some(call) => take_call(work, trace, run_of(0, released, 0), call),
    }
}

fn empty_batch(alloc: Global) -> Batch
    ensures { result ≡ no_batch }
{
    Batch {
        waits: List::new(alloc),
        recs: List::new(alloc),
        signals: List::new(alloc),
    }
}

// A batch of a submit that came as that event.
fn take_batch_of(
    work: &mut Work,
    trace: &Trace,
    history: &[Mark],
    recordings: &Recordings,
    run: Run,
) -> Result<(), AllocError>
    requires { MayRun work.old recordings.now }
    ensures fits { OnOk result ((t : Trace) → AreOf t recordings.now → WorkFits t work.old
        → WorkFits t work.new) }
    ensures at { OnOk result ((t : Trace) (event : ℕ) (b : Batch) → b
        ≡ batch_at trace.now history.now run.event run.batch
        → IsBatchAfter t event recordings.now run b work.old work.new) }
{
    match batch_at(trace, history, run.event, run.batch) {
        None => take_batch(work, recordings, run, &empty_batch(work.alloc)),
        Some(batch) => take_batch(work, recordings, run, batch),
    }
}

/// An item of a history that the latest event, of that number, released.
pub fn take_item(
    work: &mut Work,
    trace: &Trace,
    history: &[Mark],
    recordings: &Recordings,
    released: u64,
    item: Item,
) -> Result<(), AllocError>
    requires { MayRun work.old recordings.now }
    ensures fits { OnOk result ((t : Trace) → AreOf t recordings.now → WorkFits t work.old
        → WorkFits t work.new) }
    ensures at { OnOk result ((old more : List Bound) (m : Made)
        → IsRunnable trace.now history.now recordings.now m item → IsAt trace.now released old more m work.old
        → IsAt trace.now released old (more ++ numbered (length (old ++ more))
        (item_given trace.now history.now m released item))
        (item_made trace.now history.now m released item) work.new) }
{
    match item {
        Item::Call { lane, index } => take_call_of(work, trace, released, lane, index),
        Item::Batch {
            queue,
            event,
            batch,
        } => {
            let run = run_of(queue, event, batch);
            take_batch_of(work, trace, history, recordings, run)
        }
        Item::Fence {
            queue,
            event,
            fence,
        } => take_fence(work, run_of(queue, event, 0), fence),
    }
}
