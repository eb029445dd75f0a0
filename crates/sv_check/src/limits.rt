//! The limits of a trace, in the order of the list of limits.
ghost use Rattle.std.specs.Prelude.{◌≡◌, Some, nat_lt};
ghost use Rattle.std.specs.List.{list_any};
ghost use Rattle.sv_rules.specs.Limits as spec;

use sv_lines::{TakenLines, call_size};
use sv_model::line::{Batch, Line, PassUse};
use sv_model::refusal::{Cause, LimitName};
use sv_range::List;

/// The most lines of a trace.
const LINES: u64 = 1_000_000;

/// The greatest size of the whole work.
const SIZE: u64 = 4_000_000;

fn limit(name: LimitName, number: u64) -> Option<Cause>
    ensures { result ≡ Some (Cause.Limit name number) }
{
    Some(Cause::Limit { name, number })
}

fn has_many_accesses(line: &Line) -> bool
    ensures { result ≡ spec.has_many_accesses line.now }
{
    match line {
        Line::Work { accesses, .. } => accesses.len() > 64,
        _ => false,
    }
}

fn has_many_deps(line: &Line) -> bool
    ensures { result ≡ spec.has_many_deps line.now }
{
    match line {
        Line::Barrier { deps, .. } => deps.len() > 64,
        Line::SetEvent { deps, .. } => deps.len() > 64,
        Line::RenderPass { deps, .. } => deps.len() > 64,
        _ => false,
    }
}

fn has_many_subpasses(line: &Line) -> bool
    ensures { result ≡ spec.has_many_subpasses line.now }
{
    match line {
        Line::RenderPass { subpasses, .. } => subpasses.len() > 32,
        _ => false,
    }
}

fn any_has_many_uses(items: &[List<PassUse>]) -> bool
    ensures { result ≡ list_any spec.are_many_uses items.now }
{
    items.iter().any(|item| item.len() > 64)
}

fn has_many_uses(line: &Line) -> bool
    ensures { result ≡ spec.has_many_uses line.now }
{
    match line {
        Line::RenderPass { subpasses, .. } => { any_has_many_uses(subpasses.as_slice()) }
        _ => false,
    }
}

fn has_many_attachments(line: &Line) -> bool
    ensures { result ≡ spec.has_many_attachments line.now }
{
    match line {
        Line::RenderPass { attachments, .. } => attachments.len() > 16,
        Line::BeginRendering { attachments, .. } => attachments.len() > 16,
        _ => false,
    }
}

fn has_many_batches(line: &Line) -> bool
    ensures { result ≡ spec.has_many_batches line.now }
{
    match line {
        Line::Submit { batches, .. } => batches.len() > 64,
        _ => false,
    }
}

fn any_has_many_recs(items: &[Batch]) -> bool
    ensures { result ≡ list_any spec.is_of_many_recs items.now }
{
    items.iter().any(|item| item.recs.len() > 1024)
}

fn has_many_recs(line: &Line) -> bool
    ensures { result ≡ spec.has_many_recs line.now }
{
    match line {
        Line::Submit { batches, .. } => any_has_many_recs(batches.as_slice()),
        _ => false,
    }
}

fn any_has_many_waits(items: &[Batch]) -> bool
    ensures { result ≡ list_any spec.is_of_many_waits items.now }
{
    items.iter().any(|item| item.waits.len() > 64)
}

fn has_many_waits(line: &Line) -> bool
    ensures { result ≡ spec.has_many_waits line.now }
{
    match line {
        Line::Submit { batches, .. } => any_has_many_waits(batches.as_slice()),
        _ => false,
    }
}

fn any_has_many_signals(items: &[Batch]) -> bool
    ensures { result ≡ list_any spec.is_of_many_signals items.now }
{
    items.iter().any(|item| item.signals.len() > 64)
}

fn has_many_signals(line: &Line) -> bool
    ensures { result ≡ spec.has_many_signals line.now }
{
    match line {
        Line::Submit { batches, .. } => any_has_many_signals(batches.as_slice()),
        _ => false,
    }
}

/// Whether the size of the work so far, and what this line adds to it, is past the limit.
#[tactic(auto, using(sv_lines::proofs::Sums::past_capped))]
fn has_much_work(taken: &TakenLines, line: &Line) -> bool
    ensures { result ≡ nat_lt 4000000 (spec.size_with taken.now line.now) }
{
    taken.size().saturating_add(call_size(taken, line)) > SIZE
}

/// The first limit of the list that the line passes.
#[tactic(auto, unfolding(sv_rules::specs::Limits::passed_limit))]
pub fn passed_limit(taken: &TakenLines, line: &Line) -> Option<Cause>
    ensures { result ≡ spec.passed_limit taken.now line.now }
{
    if taken.lines() >= LINES {
        limit(LimitName::Lines, LINES)
    } else if has_many_accesses(line) {
        limit(LimitName::Accesses, 64)
    } else if has_many_deps(line) {
        limit(LimitName::Deps, 64)
    } else if has_many_subpasses(line) {
        limit(LimitName::Subpasses, 32)
    } else if has_many_uses(line) {
        limit(LimitName::Uses, 64)
    } else if has_many_attachments(line) {
        limit(LimitName::Attachments, 16)
    } else if has_many_batches(line) {
        limit(LimitName::Batches, 64)
    } else if has_many_recs(line) {
        limit(LimitName::Recs, 1024)
    } else if has_many_waits(line) {
        limit(LimitName::Waits, 64)
    } else if has_many_signals(line) {
        limit(LimitName::Signals, 64)
    } else if has_much_work(taken, line) {
        limit(LimitName::Size, SIZE)
    } else {
        None
    }
}
