//! What a command makes of where its recording stands, and what it adds to its size.
ghost use Rattle.std.specs.Prelude.{◌≡◌, ◌+◌, ◌<◌, count_by, length};
ghost use Rattle.sv_model.specs.declared.work.PassPoint.TheVariants as point;
ghost use Rattle.sv_model.specs.Declarations.{Pass};
ghost use Rattle.sv_model.specs.Size.{capped};
ghost use Rattle.sv_lines.specs.Following as spec;
ghost use Rattle.sv_lines.specs.Measures.{HasMeasure, IsSizeAt};

use crate::elements::are_two_layouts;
use crate::measure::PassSizes;
use crate::sizes::{both, count};
use crate::taken::TakenLines;
use sv_model::line::{Command, Element};
use sv_range::List;
use sv_rules::standing::{Standing, stored};

/// Where the next command stands after this one.
pub fn standing_after(standing: Standing, command: &Command) -> Standing
    ensures { result ≡ spec.standing_after standing command.now }
{
    match command {
        Command::BeginRendering { attachments } => Standing::InRendering {
            stores: stored(attachments.as_slice()),
        },
        Command::EndRendering => Standing::Outside,
        Command::BeginPass { pass, .. } => Standing::InPass {
            pass: *pass,
            subpass: 0,
        },
        Command::NextSubpass => next_standing(standing),
        Command::EndPass => Standing::Outside,
        Command::Work { .. } => standing,
        Command::Barrier { .. } => standing,
        Command::SetEvent { .. } => standing,
        Command::WaitEvent { .. } => standing,
        Command::ResetEvent { .. } => standing,
    }
}

fn next_standing(standing: Standing) -> Standing
    ensures { result ≡ spec.next_standing standing }
{
    match standing {
        Standing::InPass { pass, subpass } => Standing::InPass {
            pass,
            subpass: subpass.saturating_add(1),
        },
        Standing::Outside => standing,
        Standing::InRendering { .. } => standing,
    }
}

fn is_release(family: u32, families: Option<(u32, u32)>) -> bool
    ensures { result ≡ spec.is_release family families }
{
    match families {
        Some((from, to)) => from != to && from == family,
        None => false,
    }
}

/// Whether the element has a transition: its layouts differ, and it is no release.
fn moves(family: u32, element: &Element) -> bool
    ensures { result ≡ spec.has_transition family element.now }
{
    match element.target {
        Some(target) => {
            let release = is_release(family, target.families);
            are_two_layouts(target.layouts) && !release
        }
        None => false,
    }
}

/// How many of the elements have a transition.
fn transitions(family: u32, deps: &[Element]) -> u64
    ensures { result ≡ capped (count_by (spec.has_transition family) deps.now) }
{
    deps.iter().filter(|e| moves(family, e)).count() as u64
}

/// The size of a step with so many parts, which is left out where it has none.
fn step_with(parts: u64) -> u64
    ensures { result ≡ capped (spec.step_with parts) }
{
    if parts == 0 { 0 } else { both(1, parts) }
}

/// The size of a barrier: its step, and a dependency and perhaps a transition for each element.
fn barrier_size(family: u32, deps: &List<Element>) -> u64
    ensures { result ≡ capped (spec.barrier_size family deps.now) }
{
    both(1, both(count(deps), transitions(family, deps.as_slice())))
}

/// The size of the command that begins an instance of a pass of these sizes.
fn begin_size(sizes: Option<PassSizes>) -> u64
    ensures { (p : Pass) → HasMeasure p sizes → IsSizeAt p point.Begin result }
{
    match sizes {
        Some(sizes) => sizes.begin,
        None => 0,
    }
}

/// The size of the command that goes on from that subpass to the next.
fn next_size(sizes: Option<PassSizes>, subpass: u32) -> u64
    ensures { (p : Pass) → HasMeasure p sizes → subpass + 1 < length p.subpasses
        → IsSizeAt p (point.Next (subpass + 1)) result }
{
    match sizes {
        Some(sizes) => {
            if subpass < 31 {
                sizes.next[subpass as usize + 1]
            } else {
                0
            }
        }
        None => 0,
    }
}

/// The size of the command that ends an instance.
fn end_size(sizes: Option<PassSizes>) -> u64
    ensures { (p : Pass) → HasMeasure p sizes → IsSizeAt p point.End result }
{
    match sizes {
        Some(sizes) => sizes.end,
        None => 0,
    }
}

fn end_rendering_size(standing: Standing) -> u64
    ensures { result ≡ capped (spec.end_rendering_size standing) }
{
    match standing {
        Standing::InRendering { stores } => step_with(stores),
        Standing::Outside => 0,
        Standing::InPass { .. } => 0,
    }
}

fn next_subpass_size(taken: &TakenLines, standing: Standing) -> u64
    ensures { spec.IsNextSize taken.now.trace standing result }
{
    match standing {
        Standing::InPass { pass, subpass } => next_size(taken.pass_sizes(pass), subpass),
        Standing::Outside => 0,
        Standing::InRendering { .. } => 0,
    }
}

fn end_pass_size(taken: &TakenLines, standing: Standing) -> u64
    ensures { spec.IsEndSize taken.now.trace standing result }
{
    match standing {
        Standing::InPass { pass, .. } => end_size(taken.pass_sizes(pass)),
        Standing::Outside => 0,
        Standing::InRendering { .. } => 0,
    }
}

/// What a lawful command adds to the size of its recording, of that family, where it stands.
pub fn command_size(taken: &TakenLines, family: u32, standing: Standing, command: &Command) -> u64
    ensures { spec.IsSizeOf taken.now.trace family standing command.now result }
{
    match command {
        Command::Work { accesses } => both(1, count(accesses)),
        Command::Barrier { deps } => barrier_size(family, deps),
        Command::SetEvent { deps, .. } => both(1, count(deps)),
        Command::WaitEvent { .. } => 65,
        Command::ResetEvent { .. } => 1,
        Command::BeginRendering { attachments } => step_with(count(attachments)),
        Command::EndRendering => end_rendering_size(standing),
        Command::BeginPass { pass, .. } => begin_size(taken.pass_sizes(*pass)),
        Command::NextSubpass => next_subpass_size(taken, standing),
        Command::EndPass => end_pass_size(taken, standing),
    }
}
