//! The sizes of the commands of a render pass, which are measured once, where the pass is declared.
ghost use Rattle.std.specs.Prelude.{◌≡◌, ℕ, ◌∷◌, ◌<◌, ◌≤◌, [], All, List, IfOk, length, replicate};
ghost use Rattle.std.specs.Prelude.{slice_index_or, sum_by};
ghost use Rattle.sv_model.specs.declared.line.View.{View};
ghost use Rattle.sv_model.specs.declared.work.PassPoint.TheVariants as point;
ghost use Rattle.sv_model.specs.Declarations.{Pass};
ghost use Rattle.sv_model.specs.Plain.{ViewFits};
ghost use Rattle.sv_model.specs.Passes.{pass_steps};
ghost use Rattle.sv_model.specs.Size.{group_size, step_size, capped};
ghost use Rattle.sv_pass.specs.Begun.{IsBegun, pass_in};
ghost use Rattle.sv_lines.specs.Measures.{IsMeasureOf, anywhere};

use crate::sizes::{both, count};
use std::alloc::{AllocError, Global};
use std::slice;
use sv_model::line::{Line, View};
use sv_model::work::{Group, Here, PassPoint, Step};
use sv_pass::pass::OpenPass;

/// The most subpasses of a pass.
const SUBPASSES: usize = 32;

/// The size of the command that begins an instance of a pass, of those that go on to each subpass by its
/// number, and of the command that ends the instance.
#[derive(Clone, Copy)]
pub struct PassSizes {
    pub begin: u64,
    pub next: [u64; SUBPASSES],
    pub end: u64,
}

/// A place for the instance that is measured: it has no part in the sizes.
fn anywhere() -> Here
    ensures { result ≡ anywhere }
{
    Here {
        rec: 0,
        family: 0,
        cmd: 0,
        step: 0,
        instance: 0,
        subpass: None,
    }
}

/// So many views, which have no part in the sizes either.
fn any_views(alloc: Global, count: usize) -> Result<Vec<View>, AllocError>
    ensures count { IfOk result (λ views. length views.items ≡ count) }
    ensures fit { IfOk result (λ views. All ViewFits views.items) }
{
    let view = View {
        res: 0,
        mip: 0,
        layer: 0,
        layers: 1,
    };
    let views = vec![in alloc; view; count]?;
    Ok(views)
}

/// The dependencies and transitions of a group.
fn group_size(group: &Group) -> u64
    ensures { result ≡ capped (group_size group.now) }
{
    both(count(&group.deps), count(&group.transitions))
}

fn groups_size(groups: &[Group]) -> u64
    ensures { result ≡ capped (sum_by group_size groups.now) }
{
    let mut size: u64 = 0;
    for group in groups {
        size = both(size, group_size(group));
    }
    size
}

fn step_size(step: &Step) -> u64
    ensures { result ≡ capped (step_size step.now) }
{
    match step {
        Step::Accesses(accesses) => both(1, count(accesses)),
        Step::Groups(groups) => both(1, groups_size(groups.as_slice())),
        Step::SetEvent { groups, .. } => both(1, count(groups)),
        Step::WaitEvent { .. } => 65,
        Step::ResetEvent { .. } => 1,
    }
}

fn steps_size(steps: &[Step]) -> u64
    ensures { result ≡ capped (sum_by step_size steps.now) }
{
    let mut size: u64 = 0;
    for step in steps {
        size = both(size, step_size(step));
    }
    size
}

/// The size of one command of the pass.
fn measured(alloc: Global, begun: &OpenPass, at: PassPoint) -> Result<u64, AllocError>
    ensures { IfOk result (λ size. (pass : Pass) (views : List View) → IsBegun pass views begun.now → size
        ≡ capped (sum_by step_size (pass_steps pass views at anywhere))) }
{
    let steps = begun.steps(alloc, at, anywhere())?;
    let size = steps_size(steps.as_slice());
    Ok(size)
}

/// The sizes of the commands that go on to each of so many subpasses.
fn next_sizes(
    alloc: Global,
    begun: &OpenPass,
    subpasses: usize,
) -> Result<[u64; SUBPASSES], AllocError>
    requires { subpasses ≤ 32 }
    ensures { IfOk result (λ sizes. (pass : Pass) (views : List View) → IsBegun pass views begun.now
        → (i : ℕ) → i < subpasses → slice_index_or sizes i 0
        ≡ capped (sum_by step_size (pass_steps pass views (point.Next i) anywhere))) }
{
    let mut sizes = [0; SUBPASSES];
    for i in 0..subpasses {
        let size = measured(alloc, begun, PassPoint::Next(i as u32))?;
        sizes[i] = size;
    }
    Ok(sizes)
}

/// The sizes of the commands of the pass that the line declares under that number.
pub fn sizes_of(
    alloc: Global,
    line: &Line,
    pass: u32,
    attachments: usize,
    subpasses: usize,
) -> Result<PassSizes, AllocError>
    requires few { attachments ≤ 16 }
    requires bounded { subpasses ≤ 32 }
    requires attachments { attachments ≡ length (pass_in (line.now ∷ []) pass).attachments }
    requires subpasses { subpasses ≡ length (pass_in (line.now ∷ []) pass).subpasses }
    ensures { IfOk result (λ sizes. IsMeasureOf (pass_in (line.now ∷ []) pass) sizes) }
{
    let views = any_views(alloc, attachments)?;
    let begun = OpenPass::begin(alloc, slice::from_ref(line), pass, views.as_slice())?;
    let begin = measured(alloc, &begun, PassPoint::Begin)?;
    let next = next_sizes(alloc, &begun, subpasses)?;
    let end = measured(alloc, &begun, PassPoint::End)?;
    Ok(PassSizes { begin, next, end })
}
