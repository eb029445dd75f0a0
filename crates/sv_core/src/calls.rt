//! Fence signals and host calls (Vulkan 1.3, "Fences", "Wait Idle Operations").
ghost use Rattle.std.specs.Prelude.{ℕ, ◌≡◌, ◌∷◌, ◌++◌, [], List, Some, true, IfOk, OnOk, option_to_list};
ghost use Rattle.std.specs.List.{All, filter_map, flat_map};
ghost use Rattle.sv_mask.specs.Scopes as scopes;
ghost use Rattle.sv_mask.specs.Scopes.{with_signal};
ghost use Rattle.sv_model.specs.Declarations.{is_fence, queue_number, queues_of};
ghost use Rattle.sv_model.specs.HostWaits as spec;
ghost use Rattle.sv_model.specs.Fences as fences_spec;
ghost use Rattle.sv_model.specs.Primitives.{Made};
ghost use Rattle.sv_model.specs.Fences.{fence_reset, fence_signaled, fence_state};
ghost use Rattle.sv_model.specs.QueueGroups as groups;
ghost use Rattle.sv_model.specs.declared.line.Trace.{Trace};
ghost use Rattle.sv_model.specs.declared.work.Step.TheVariants as step;
ghost use Rattle.sv_model.specs.declared.work.Track.TheVariants as track;
ghost use Rattle.sv_binding.specs.Runs.{run_for};
ghost use Rattle.sv_replies.specs.Replying.{IsOnNone};
ghost use Rattle.sv_processed.specs.Works.{MayTake, WorkFits};
ghost use Rattle.sv_core.specs.Taking.{IsAfter, NamesFence, notes_where, queue_groups_on, token_groups};

use std::alloc::{AllocError, Global};
use sv_binding::{
    Run, Side, device_side, device_stages, device_usages, from_token, group_from, place_in,
    queue_number, sum, to_token,
};
use sv_model::line::{Line, Trace};
use sv_model::work::{FenceNote, FenceState, Group, Note, Place, Track};
use sv_processed::Work;
use sv_range::List;

fn push_some(queues: &mut List<u32>, queue: Option<u32>) -> Result<(), AllocError>
    ensures { OnOk result (queues.new ≡ queues.old ++ option_to_list queue) }
{
    match queue {
        None => Ok(()),
        Some(queue) => queues.push_or_drop(queue),
    }
}

// The numbers of the queues that the lines declare.
fn queue_numbers(alloc: Global, lines: &[Line]) -> Result<List<u32>, AllocError>
    ensures { IfOk result (λ queues. queues ≡ filter_map queue_number lines.now) }
{
    let mut queues = List::new(alloc);
    for line in lines {
        push_some(&mut queues, queue_number(line))?;
    }
    Ok(queues)
}

// All that the queue did, its signals too.
fn queue_side(queue: u32) -> Side
    ensures { result ≡ record {
      track = track.Queue queue;
      stages = with_signal scopes.device_stages;
      usages = scopes.device_usages;
    } }
{
    Side {
        track: Track::Queue(queue),
        stages: device_stages().with_signal(),
        usages: device_usages(),
    }
}

// From a token to all that comes later on any queue.
fn groups_from_token(
    alloc: Global,
    queues: &[u32],
    place: Place,
    token: u64,
) -> Result<List<Group>, AllocError>
    ensures { IfOk result (λ groups. groups ≡ token_groups place token queues.now) }
{
    let mut groups = List::new(alloc);
    for queue in queues {
        groups.push_or_drop(from_token(alloc, place, token, device_side(*queue))?)?;
    }
    Ok(groups)
}

// All that the queue did, before all that comes later on any queue.
fn queue_groups(
    alloc: Global,
    queues: &[u32],
    place: Place,
    from: u32,
) -> Result<List<Group>, AllocError>
    ensures { IfOk result (λ groups. groups ≡ queue_groups_on place queues.now from) }
{
    let mut groups = List::new(alloc);
    for queue in queues {
        groups.push_or_drop(group_from(alloc, place, queue_side(from), device_side(*queue))?)?;
    }
    Ok(groups)
}

fn push_all(groups: &mut List<Group>, more: List<Group>) -> Result<(), AllocError>
    ensures { OnOk result (groups.new ≡ groups.old ++ more) }
{
    for group in more.into_vec() {
        groups.push_or_drop(group)?;
    }
    Ok(())
}

fn device_groups(alloc: Global, queues: &[u32], place: Place) -> Result<List<Group>, AllocError>
    ensures { IfOk result (λ groups. groups ≡ flat_map (queue_groups_on place queues.now) queues.now) }
{
    let mut groups = List::new(alloc);
    for queue in queues {
        let more = queue_groups(alloc, queues, place, *queue)?;
        push_all(&mut groups, more)?;
    }
    Ok(groups)
}

// A note where the fence was signalled already.
fn fence_notes(alloc: Global, was: bool, fence: u32, event: u64) -> Result<List<Note>, AllocError>
    ensures notes { IfOk result (λ notes. notes ≡ notes_where was fence event) }
    ensures none { IfOk result (All IsOnNone) }
{
    let mut notes = List::new(alloc);
    if was {
        notes.push_or_drop(Note::Fence(FenceNote {
            fence,
            event,
            reports_before: 0,
        }))?;
    }
    Ok(notes)
}

// From all that the queue did to a token.
fn fence_groups(alloc: Global, run: Run, token: u64) -> Result<List<Group>, AllocError>
    ensures { IfOk result (λ list. list ≡ groups.to_token (groups.place_in (run_for 0 run)) run.queue
        (with_signal scopes.device_stages) scopes.device_usages token ∷ []) }
{
    let mut groups = List::new(alloc);
    groups.push_or_drop(to_token(alloc, place_in(run), queue_side(run.queue), token)?)?;
    Ok(groups)
}

/// A fence signal.
pub fn take_fence(work: &mut Work, run: Run, fence: u32) -> Result<(), AllocError>
    requires { MayTake work.old (step.Groups []) }
    ensures fits { OnOk result ((t : Trace) → WorkFits t work.old → WorkFits t work.new) }
    ensures at { OnOk result ((t : Trace) (event : ℕ) → is_fence t fence ≡ true
        → IsAfter t event (λ (m : Made). fences_spec.fence_given t (run_for event run) m fence)
        (λ (m : Made). fence_signaled m fence) work.old work.new) }
{
    let token = work.tokens;
    let groups = fence_groups(work.alloc, run, token)?;
    work.tokens = sum(token, 1)?;
    let was = work.fences.signal(fence, token);
    let notes = fence_notes(work.alloc, was, fence, run.event)?;
    work.take_groups(groups, notes)
}

// A wait for a fence: what its signal covers stands before all that comes later.
fn take_fence_wait(work: &mut Work, trace: &Trace, run: Run, fence: u32) -> Result<(), AllocError>
    requires { MayTake work.old (step.Groups []) }
    ensures fits { OnOk result ((t : Trace) → WorkFits t work.old → WorkFits t work.new) }
    ensures at { OnOk result ((event : ℕ) → is_fence trace.now fence ≡ true
        → IsAfter trace.now event (λ (m : Made). spec.fence_waited trace.now (run_for event run)
        (fence_state trace.now m fence)) (λ (m : Made). m) work.old work.new) }
{
    match work.fences.state(fence) {
        FenceState::Token(token) => {
            let queues = queue_numbers(work.alloc, trace.queues.as_slice())?;
            let groups = groups_from_token(work.alloc, queues.as_slice(), place_in(run), token)?;
            work.take_groups(groups, List::new(work.alloc))
        }
        FenceState::Initial => Ok(()),
        FenceState::Unsignalled => Ok(()),
    }
}

fn take_queue_wait(work: &mut Work, trace: &Trace, run: Run, queue: u32) -> Result<(), AllocError>
    requires { MayTake work.old (step.Groups []) }
    ensures fits { OnOk result ((t : Trace) → WorkFits t work.old → WorkFits t work.new) }
    ensures at { OnOk result ((event : ℕ) → IsAfter trace.now event
        (λ (m : Made). spec.host_step (run_for event run)
        (spec.queue_groups trace.now (run_for event run) queue)) (λ (m : Made). m) work.old work.new) }
{
    let queues = queue_numbers(work.alloc, trace.queues.as_slice())?;
    let groups = queue_groups(work.alloc, queues.as_slice(), place_in(run), queue)?;
    work.take_groups(groups, List::new(work.alloc))
}

fn take_device_wait(work: &mut Work, trace: &Trace, run: Run) -> Result<(), AllocError>
    requires { MayTake work.old (step.Groups []) }
    ensures fits { OnOk result ((t : Trace) → WorkFits t work.old → WorkFits t work.new) }
    ensures at { OnOk result ((event : ℕ) → IsAfter trace.now event
        (λ (m : Made). spec.host_step (run_for event run)
        (flat_map (spec.queue_groups trace.now (run_for event run)) (queues_of trace.now)))
        (λ (m : Made). m) work.old work.new) }
{
    let queues = queue_numbers(work.alloc, trace.queues.as_slice())?;
    let groups = device_groups(work.alloc, queues.as_slice(), place_in(run))?;
    work.take_groups(groups, List::new(work.alloc))
}

// A reset of a fence, which is no step.
fn take_fence_reset(work: &mut Work, fence: u32)
    ensures fits { (t : Trace) → WorkFits t work.old → WorkFits t work.new }
    ensures at { (t : Trace) (event : ℕ) → IsAfter t event (λ (m : Made). [])
        (λ (m : Made). fence_reset m fence) work.old work.new }
{
    work.fences.reset(fence);
}

/// A host call. A submit by itself is no step.
pub fn take_call(work: &mut Work, trace: &Trace, run: Run, call: &Line) -> Result<(), AllocError>
    requires { MayTake work.old (step.Groups []) }
    ensures fits { OnOk result ((t : Trace) → WorkFits t work.old → WorkFits t work.new) }
    ensures at { OnOk result ((event : ℕ) → NamesFence trace.now call.now
        → IsAfter trace.now event (λ (m : Made). spec.call_given trace.now (run_for event run) m
        (Some call.now)) (λ (m : Made). spec.call_made m (Some call.now)) work.old work.new) }
{
    match call {
        Line::WaitFence { fence, .. } => take_fence_wait(work, trace, run, *fence),
        Line::WaitQueue { queue, .. } => take_queue_wait(work, trace, run, *queue),
        Line::WaitDevice { .. } => take_device_wait(work, trace, run),
        Line::ResetFence { fence, .. } => {
            take_fence_reset(work, *fence);
            Ok(())
        }
        _ => Ok(()),
    }
}
