//! What a line names, and what it declares.
ghost use Rattle.std.specs.Prelude.{◌≡◌};
ghost use Rattle.std.specs.List.{list_any};
ghost use Rattle.sv_rules.specs.Taken.{recording_at};
ghost use Rattle.sv_rules.specs.Named as spec;

use crate::part_rule::PartRule;
use crate::parts::some_part;
use sv_lines::TakenLines;
use sv_model::line::{Batch, Line, SemaphoreUse};

/// The recording of which the line is a command, or the end.
pub fn recording_at(line: &Line) -> Option<u32>
    ensures { result ≡ recording_at line.now }
{
    match line {
        Line::End { rec } => Some(*rec),
        Line::Work { rec, .. } => Some(*rec),
        Line::Barrier { rec, .. } => Some(*rec),
        Line::SetEvent { rec, .. } => Some(*rec),
        Line::WaitEvent { rec, .. } => Some(*rec),
        Line::ResetEvent { rec, .. } => Some(*rec),
        Line::BeginRendering { rec, .. } => Some(*rec),
        Line::EndRendering { rec } => Some(*rec),
        Line::BeginPass { rec, .. } => Some(*rec),
        Line::NextSubpass { rec } => Some(*rec),
        Line::EndPass { rec } => Some(*rec),
        _ => None,
    }
}

fn names_new_queue(taken: &TakenLines, line: &Line) -> bool
    ensures { result ≡ spec.names_new_queue taken.now.trace line.now }
{
    match line {
        Line::Submit { queue, .. } => taken.is_new_queue(*queue),
        Line::WaitQueue { queue, .. } => taken.is_new_queue(*queue),
        _ => false,
    }
}

fn any_new_semaphore(taken: &TakenLines, uses: &[SemaphoreUse]) -> bool
    ensures { result ≡ list_any (spec.is_of_new_semaphore taken.now.trace) uses.now }
{
    uses.iter().any(|u| taken.is_new_semaphore(u.sem))
}

fn batch_names_new_semaphore(taken: &TakenLines, batch: &Batch) -> bool
    ensures { result ≡ spec.batch_names_new_semaphore taken.now.trace batch.now }
{
    any_new_semaphore(taken, batch.waits.as_slice())
        || any_new_semaphore(taken, batch.signals.as_slice())
}

fn any_names_new_semaphore(taken: &TakenLines, batches: &[Batch]) -> bool
    ensures { result ≡ list_any (spec.batch_names_new_semaphore taken.now.trace) batches.now }
{
    batches
        .iter()
        .any(|batch| batch_names_new_semaphore(taken, batch))
}

fn names_new_semaphore(taken: &TakenLines, line: &Line) -> bool
    ensures { result ≡ spec.names_new_semaphore taken.now.trace line.now }
{
    match line {
        Line::Submit { batches, .. } => any_names_new_semaphore(taken, batches.as_slice()),
        _ => false,
    }
}

fn names_new_event(taken: &TakenLines, line: &Line) -> bool
    ensures { result ≡ spec.names_new_event taken.now.trace line.now }
{
    match line {
        Line::SetEvent { event, .. } => taken.is_new_event(*event),
        Line::WaitEvent { event, .. } => taken.is_new_event(*event),
        Line::ResetEvent { event, .. } => taken.is_new_event(*event),
        _ => false,
    }
}

fn is_new_signal(taken: &TakenLines, fence: Option<u32>) -> bool
    ensures { result ≡ spec.is_new_signal taken.now.trace fence }
{
    match fence {
        Some(fence) => taken.is_new_fence(fence),
        None => false,
    }
}

fn names_new_fence(taken: &TakenLines, line: &Line) -> bool
    ensures { result ≡ spec.names_new_fence taken.now.trace line.now }
{
    match line {
        Line::Submit { fence, .. } => is_new_signal(taken, *fence),
        Line::WaitFence { fence, .. } => taken.is_new_fence(*fence),
        Line::ResetFence { fence, .. } => taken.is_new_fence(*fence),
        _ => false,
    }
}

fn names_new_pass(taken: &TakenLines, line: &Line) -> bool
    ensures { result ≡ spec.names_new_pass taken.now.trace line.now }
{
    match line {
        Line::BeginPass { pass, .. } => taken.is_new_pass(*pass),
        _ => false,
    }
}

fn batch_names_new_recording(taken: &TakenLines, batch: &Batch) -> bool
    ensures { result ≡ spec.batch_names_new_recording taken.now.trace batch.now }
{
    let recs = batch.recs.as_slice();
    recs.iter().any(|rec| taken.is_new_recording(*rec))
}

fn any_names_new_recording(taken: &TakenLines, batches: &[Batch]) -> bool
    ensures { result ≡ list_any (spec.batch_names_new_recording taken.now.trace) batches.now }
{
    batches
        .iter()
        .any(|batch| batch_names_new_recording(taken, batch))
}

fn submits_new_recording(taken: &TakenLines, line: &Line) -> bool
    ensures { result ≡ spec.submits_new_recording taken.now.trace line.now }
{
    match line {
        Line::Submit { batches, .. } => any_names_new_recording(taken, batches.as_slice()),
        _ => false,
    }
}

fn goes_on_in_new_recording(taken: &TakenLines, line: &Line) -> bool
    ensures { result ≡ spec.goes_on_in_new_recording taken.now.trace line.now }
{
    match recording_at(line) {
        Some(rec) => taken.is_new_recording(rec),
        None => false,
    }
}

/// Whether the line names a queue, resource, semaphore, event, fence, pass or recording that no earlier
/// line declares.
#[tactic(auto, unfolding(sv_rules::specs::Named::is_undeclared))]
pub fn is_undeclared(taken: &TakenLines, line: &Line) -> bool
    ensures { result ≡ spec.is_undeclared taken.now.trace line.now }
{
    names_new_queue(taken, line)
        || some_part(taken, PartRule::Undeclared, line)
        || names_new_semaphore(taken, line)
        || names_new_event(taken, line)
        || names_new_fence(taken, line)
        || names_new_pass(taken, line)
        || goes_on_in_new_recording(taken, line)
        || submits_new_recording(taken, line)
}

/// Whether the line declares one that an earlier line declares.
#[tactic(auto, unfolding(sv_rules::specs::Named::is_declared_twice))]
pub fn is_declared_twice(taken: &TakenLines, line: &Line) -> bool
    ensures { result ≡ spec.is_declared_twice taken.now.trace line.now }
{
    match line {
        Line::Queue { queue, .. } => !taken.is_new_queue(*queue),
        Line::Buffer { res, .. } => !taken.is_new_resource(*res),
        Line::Image { res, .. } => !taken.is_new_resource(*res),
        Line::Semaphore { sem, .. } => !taken.is_new_semaphore(*sem),
        Line::Event { event } => !taken.is_new_event(*event),
        Line::Fence { fence, .. } => !taken.is_new_fence(*fence),
        Line::RenderPass { pass, .. } => !taken.is_new_pass(*pass),
        Line::Begin { rec, .. } => !taken.is_new_recording(*rec),
        _ => false,
    }
}
