//! The queues and semaphores of calls.
ghost use Rattle.std.specs.Prelude.{◌≡◌};
ghost use Rattle.std.specs.List.{list_any};
ghost use Rattle.sv_rules.specs.Calls as spec;

use sv_lines::TakenLines;
use sv_model::line::{Batch, Line, SemKind, SemaphoreUse};

fn is_queue_of_other(taken: &TakenLines, lane: u32, queue: u32) -> bool
    ensures { result ≡ spec.is_queue_of_other taken.now.trace lane queue }
{
    match taken.lane_of_queue(queue) {
        Some(own) => !(own == lane),
        None => false,
    }
}

/// Whether the line is a `submit` or `wait_queue` by a lane that is not the queue's.
#[tactic(auto, unfolding(sv_rules::specs::Calls::is_of_another_lane))]
pub fn is_of_another_lane(taken: &TakenLines, line: &Line) -> bool
    ensures { result ≡ spec.is_of_another_lane taken.now.trace line.now }
{
    match line {
        Line::Submit { lane, queue, .. } => is_queue_of_other(taken, *lane, *queue),
        Line::WaitQueue { lane, queue } => is_queue_of_other(taken, *lane, *queue),
        _ => false,
    }
}

fn has_wrong_value(kind: Option<SemKind>, value: Option<u64>) -> bool
    ensures { result ≡ spec.has_wrong_value kind value }
{
    match kind {
        Some(SemKind::Timeline) => value.is_none(),
        Some(SemKind::Binary) => value.is_some(),
        None => false,
    }
}

fn any_wrong_use(taken: &TakenLines, uses: &[SemaphoreUse]) -> bool
    ensures { result ≡ list_any (spec.is_wrong_use taken.now.trace) uses.now }
{
    uses.iter()
        .any(|u| has_wrong_value(taken.kind(u.sem), u.value))
}

fn batch_has_wrong_use(taken: &TakenLines, batch: &Batch) -> bool
    ensures { result ≡ spec.batch_has_wrong_use taken.now.trace batch.now }
{
    any_wrong_use(taken, batch.waits.as_slice()) || any_wrong_use(taken, batch.signals.as_slice())
}

fn any_has_wrong_use(taken: &TakenLines, batches: &[Batch]) -> bool
    ensures { result ≡ list_any (spec.batch_has_wrong_use taken.now.trace) batches.now }
{
    batches
        .iter()
        .any(|batch| batch_has_wrong_use(taken, batch))
}

fn has_wrong_initial(kind: SemKind, initial: Option<u64>) -> bool
    ensures { result ≡ spec.has_wrong_initial kind initial }
{
    match kind {
        SemKind::Binary => initial.is_some(),
        SemKind::Timeline => false,
    }
}

/// Whether a timeline wait or signal has no value, a binary one has, or a binary semaphore has an initial
/// value.
#[tactic(auto, unfolding(sv_rules::specs::Calls::is_of_wrong_kind))]
pub fn is_of_wrong_kind(taken: &TakenLines, line: &Line) -> bool
    ensures { result ≡ spec.is_of_wrong_kind taken.now.trace line.now }
{
    match line {
        Line::Semaphore { kind, initial, .. } => has_wrong_initial(*kind, *initial),
        Line::Submit { batches, .. } => any_has_wrong_use(taken, batches.as_slice()),
        _ => false,
    }
}
