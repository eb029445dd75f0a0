//! The line `render_pass`.
ghost use Rattle.std.specs.Prelude.{◌≡◌, IfOk};
ghost use Rattle.serde_json.specs.View.{view};
ghost use Rattle.sv_trace.specs.Lines as spec;
ghost use Rattle.std.specs.List.{list_all};

use serde_json::Value;
use std::alloc::{AllocError, Global};
use sv_json::{Flaw, Found, Plain, list_at, part_at, unless};
use sv_model::line::{Line, PassAttachment, PassDep, PassUse};
use sv_parts::attachment::PassAttachmentPart;
use sv_parts::number::Number;
use sv_parts::pass::{PassDepPart, SubpassPart};
use sv_range::List;

fn end_fits(subpasses: usize, end: Option<u32>) -> bool
    ensures { result ≡ spec.end_fits subpasses end }
{
    match end {
        Some(index) => (index as usize) < subpasses,
        None => true,
    }
}

fn in_order(from: Option<u32>, to: Option<u32>) -> bool
    ensures { result ≡ spec.in_order from to }
{
    match from {
        Some(from) => match to {
            Some(to) => from <= to,
            None => true,
        },
        None => true,
    }
}

fn dep_fits(subpasses: usize, dep: &PassDep) -> bool
    ensures { result ≡ spec.dep_fits subpasses dep.now }
{
    let from_fits = end_fits(subpasses, dep.from);
    let to_fits = end_fits(subpasses, dep.to);
    let in_order = in_order(dep.from, dep.to);
    from_fits && to_fits && in_order
}

fn deps_fit(subpasses: usize, deps: &[PassDep]) -> bool
    ensures { result ≡ list_all (spec.dep_fits subpasses) deps.now }
{
    deps.iter().all(|dep| dep_fits(subpasses, dep))
}

fn uses_fit(attachments: usize, uses: &[PassUse]) -> bool
    ensures { result ≡ list_all (spec.use_fits attachments) uses.now }
{
    uses.iter().all(|part| (part.att as usize) < attachments)
}

fn subpasses_fit(attachments: usize, subpasses: &[List<PassUse>]) -> bool
    ensures { result ≡ list_all (list_all (spec.use_fits attachments)) subpasses.now }
{
    subpasses
        .iter()
        .all(|uses| uses_fit(attachments, uses.as_slice()))
}

#[tactic(auto, unfolding(crate::specs::Lines::lists_fit))]
fn lists_fit(
    attachments: &List<PassAttachment>,
    subpasses: &List<List<PassUse>>,
    deps: &List<PassDep>,
) -> bool
    ensures { result ≡ spec.lists_fit attachments.now subpasses.now deps.now }
{
    let uses = subpasses_fit(attachments.len(), subpasses.as_slice());
    let ends = deps_fit(subpasses.len(), deps.as_slice());
    uses && ends
}

#[tactic(auto, unfolding(crate::specs::Lines::subpasses))]
fn subpasses(alloc: Global, value: &Value) -> Result<Found<List<List<PassUse>>>, AllocError>
    ensures { IfOk result (λ it. it ≡ spec.subpasses (view value.now)) }
{
    let subpasses = list_at::<SubpassPart>(alloc, value, "subpasses")?;
    let has_some = subpasses.value.len() > 0;
    Ok(Found {
        flaw: subpasses.flaw.least(unless(has_some, Flaw::Shape)),
        value: subpasses.value,
    })
}

type PassLists = (List<PassAttachment>, List<List<PassUse>>, List<PassDep>);

#[tactic(auto, unfolding(crate::specs::Lines::pass_lists))]
fn pass_lists(alloc: Global, value: &Value) -> Result<Found<PassLists>, AllocError>
    ensures { IfOk result (λ it. it ≡ spec.pass_lists (view value.now)) }
{
    let attachments = list_at::<Plain<PassAttachmentPart>>(alloc, value, "attachments")?;
    let subpasses = subpasses(alloc, value)?;
    let deps = list_at::<Plain<PassDepPart>>(alloc, value, "deps")?;
    let fit = lists_fit(&attachments.value, &subpasses.value, &deps.value);
    let flaw = attachments.flaw.least(subpasses.flaw).least(deps.flaw);
    Ok(Found {
        flaw: flaw.least(unless(fit, Flaw::Range)),
        value: (attachments.value, subpasses.value, deps.value),
    })
}

#[tactic(auto, unfolding(crate::specs::Lines::render_pass_line))]
pub fn render_pass(alloc: Global, value: &Value) -> Result<Found<Line>, AllocError>
    ensures { IfOk result (λ it. it ≡ spec.render_pass_line (view value.now)) }
{
    let pass = part_at::<Number>(value, "pass");
    let lists = pass_lists(alloc, value)?;
    let (attachments, subpasses, deps) = lists.value;
    Ok(Found {
        flaw: pass.flaw.least(lists.flaw),
        value: Line::RenderPass {
            pass: pass.value,
            attachments,
            subpasses,
            deps,
        },
    })
}
