//! Where a line may not stand.
ghost use Rattle.std.specs.Prelude.{◌≡◌, ℕ};
ghost use Rattle.std.specs.List.{list_any};
ghost use Rattle.sv_rules.specs.Places as spec;

use crate::named::recording_at;
use sv_lines::{TakenLines, is_misused_access, leaves_subpass, transfers, transfers_wrongly};
use sv_model::line::{Batch, Declared, Element, Line};
use sv_rules::standing::{Standing, is_in_pass, is_in_rendering, is_inside};

fn is_before_last(taken: &TakenLines, standing: Standing) -> bool
    ensures { result ≡ spec.is_before_last taken.now.trace standing }
{
    match standing {
        Standing::InPass { pass, subpass } => {
            u64::from(subpass) + 1 < taken.pass(pass).subpasses.len() as u64
        }
        _ => false,
    }
}

fn is_in_last(taken: &TakenLines, standing: Standing) -> bool
    ensures { result ≡ spec.is_in_last taken.now.trace standing }
{
    match standing {
        Standing::InPass { pass, subpass } => {
            u64::from(subpass) + 1 == taken.pass(pass).subpasses.len() as u64
        }
        _ => false,
    }
}

fn is_late_version(taken: &TakenLines, line: &Line) -> bool
    ensures { result ≡ spec.is_late_version taken.now line.now }
{
    match line {
        Line::Version { .. } => taken.has_begun(),
        _ => false,
    }
}

fn begins_second(taken: &TakenLines, line: &Line) -> bool
    ensures { result ≡ spec.begins_second taken.now.trace line.now }
{
    match line {
        Line::Begin { recorder, .. } => taken.is_recording(*recorder),
        _ => false,
    }
}

fn comes_after_end(taken: &TakenLines, line: &Line) -> bool
    ensures { result ≡ spec.comes_after_end taken.now.trace line.now }
{
    match recording_at(line) {
        Some(rec) => taken.has_ended(rec),
        None => false,
    }
}

fn ends_in_scope(taken: &TakenLines, line: &Line) -> bool
    ensures { result ≡ spec.ends_in_scope taken.now.trace line.now }
{
    match line {
        Line::End { rec } => is_inside(taken.standing(*rec)),
        _ => false,
    }
}

fn are_same(a: Option<u32>, b: Option<u32>) -> bool
    ensures { result ≡ spec.are_same a b }
{
    match a {
        Some(a) => match b {
            Some(b) => a == b,
            None => false,
        },
        None => false,
    }
}

fn may_not_run(taken: &TakenLines, queue: u32, rec: u32) -> bool
    ensures { result ≡ spec.may_not_run taken.now.trace queue rec }
{
    let family = taken.family_of_queue(queue);
    !taken.has_ended(rec) || !are_same(taken.family_of_recording(rec), family)
}

fn batch_may_not_run(taken: &TakenLines, queue: u32, batch: &Batch) -> bool
    ensures { result ≡ spec.batch_may_not_run taken.now.trace queue batch.now }
{
    let recs = batch.recs.as_slice();
    recs.iter().any(|rec| may_not_run(taken, queue, *rec))
}

fn any_may_not_run(taken: &TakenLines, queue: u32, batches: &[Batch]) -> bool
    ensures { result ≡ list_any (spec.batch_may_not_run taken.now.trace queue) batches.now }
{
    batches
        .iter()
        .any(|batch| batch_may_not_run(taken, queue, batch))
}

fn submits_wrongly(taken: &TakenLines, line: &Line) -> bool
    ensures { result ≡ spec.submits_wrongly taken.now.trace line.now }
{
    match line {
        Line::Submit { queue, batches, .. } => {
            any_may_not_run(taken, *queue, batches.as_slice())
        }
        _ => false,
    }
}

fn any_transfers_wrongly(family: Option<u32>, inside: bool, deps: &[Element]) -> bool
    ensures { result ≡ list_any (spec.transfers_wrongly family inside) deps.now }
{
    deps.iter().any(|e| transfers_wrongly(family, inside, e))
}

fn any_transfers(deps: &[Element]) -> bool
    ensures { result ≡ list_any spec.transfers deps.now }
{
    deps.iter().any(|e| transfers(e))
}

fn has_wrong_transfer(taken: &TakenLines, line: &Line) -> bool
    ensures { result ≡ spec.has_wrong_transfer taken.now.trace line.now }
{
    match line {
        Line::Barrier { rec, deps } => {
            let family = taken.family_of_recording(*rec);
            let inside = is_inside(taken.standing(*rec));
            any_transfers_wrongly(family, inside, deps.as_slice())
        }
        Line::SetEvent { deps, .. } => any_transfers(deps.as_slice()),
        _ => false,
    }
}

fn breaks_scope(taken: &TakenLines, line: &Line) -> bool
    ensures { result ≡ spec.breaks_scope taken.now.trace line.now }
{
    match line {
        Line::BeginRendering { rec, .. } => is_inside(taken.standing(*rec)),
        Line::BeginPass { rec, .. } => is_inside(taken.standing(*rec)),
        Line::EndRendering { rec } => !is_in_rendering(taken.standing(*rec)),
        Line::NextSubpass { rec } => !is_before_last(taken, taken.standing(*rec)),
        Line::EndPass { rec } => !is_in_last(taken, taken.standing(*rec)),
        _ => false,
    }
}

fn is_forbidden_inside(taken: &TakenLines, line: &Line) -> bool
    ensures { result ≡ spec.is_forbidden_inside taken.now.trace line.now }
{
    match line {
        Line::Barrier { rec, .. } => is_in_rendering(taken.standing(*rec)),
        Line::SetEvent { rec, .. } => is_inside(taken.standing(*rec)),
        Line::WaitEvent { rec, .. } => is_inside(taken.standing(*rec)),
        Line::ResetEvent { rec, .. } => is_inside(taken.standing(*rec)),
        _ => false,
    }
}

fn any_leaves_subpass(deps: &[Element]) -> bool
    ensures { result ≡ list_any spec.leaves_subpass deps.now }
{
    deps.iter().any(|e| leaves_subpass(e))
}

fn breaks_subpass(taken: &TakenLines, line: &Line) -> bool
    ensures { result ≡ spec.breaks_subpass taken.now.trace line.now }
{
    match line {
        Line::Barrier { rec, deps } => {
            is_in_pass(taken.standing(*rec)) && any_leaves_subpass(deps.as_slice())
        }
        _ => false,
    }
}

fn any_misused(inside: bool, accesses: &[Declared]) -> bool
    ensures { result ≡ list_any (spec.is_misused_access inside) accesses.now }
{
    accesses.iter().any(|a| is_misused_access(inside, a))
}

fn has_wrong_usage(taken: &TakenLines, line: &Line) -> bool
    ensures { result ≡ spec.has_wrong_usage taken.now.trace line.now }
{
    match line {
        Line::Work { rec, accesses } => {
            any_misused(is_inside(taken.standing(*rec)), accesses.as_slice())
        }
        _ => false,
    }
}

fn has_wrong_views(taken: &TakenLines, line: &Line) -> bool
    ensures { result ≡ spec.has_wrong_views taken.now.trace line.now }
{
    match line {
        Line::BeginPass { pass, views, .. } => {
            !(views.len() == taken.pass(*pass).attachments.len())
        }
        _ => false,
    }
}

/// Whether the line may not stand where it stands. `unclear` says whether it has an unclear use of an
/// attachment.
#[tactic(auto, unfolding(sv_rules::specs::Places::is_misplaced))]
pub fn is_misplaced(taken: &TakenLines, line: &Line, unclear: bool) -> bool
    requires { unclear ≡ spec.has_unclear_use line.now }
    ensures { result ≡ spec.is_misplaced taken.now line.now }
{
    is_late_version(taken, line)
        || begins_second(taken, line)
        || comes_after_end(taken, line)
        || ends_in_scope(taken, line)
        || submits_wrongly(taken, line)
        || has_wrong_transfer(taken, line)
        || breaks_scope(taken, line)
        || is_forbidden_inside(taken, line)
        || breaks_subpass(taken, line)
        || has_wrong_usage(taken, line)
        || has_wrong_views(taken, line)
        || unclear
}
