//! The parts of resources that a line names.
ghost use Rattle.std.specs.Prelude.{◌≡◌};
ghost use Rattle.std.specs.List.{list_any};
ghost use Rattle.sv_model.specs.declared.line.Part.TheVariants as part;
ghost use Rattle.sv_rules.specs.PartRules as spec;
ghost use Rattle.sv_check.specs.Breaks.{breaks};

use crate::part_rule::PartRule;
use sv_lines::{TakenLines, is_outside, is_without_cells};
use sv_model::line::{Attachment, Declared, Element, Line, Part, View};

fn breaks(taken: &TakenLines, rule: PartRule, res: u32, part: Part) -> bool
    ensures { result ≡ breaks taken.now.trace rule res part }
{
    match rule {
        PartRule::Undeclared => taken.is_new_resource(res),
        PartRule::Outside => is_outside(taken.extent(res), part),
        PartRule::Empty => is_without_cells(part),
    }
}

/// One mip and some layers of an image.
fn one_mip(mip: u64, layer: u64, layers: u64) -> Part
    ensures { result ≡ part.Image mip 1 layer layers }
{
    Part::Image {
        mip,
        mips: 1,
        layer,
        layers,
    }
}

fn some_access(taken: &TakenLines, rule: PartRule, accesses: &[Declared]) -> bool
    ensures { result ≡ list_any (spec.access_part (breaks taken.now.trace rule)) accesses.now }
{
    accesses.iter().any(|a| breaks(taken, rule, a.res, a.part))
}

fn breaks_element(taken: &TakenLines, rule: PartRule, element: &Element) -> bool
    ensures { result ≡ spec.element_part (breaks taken.now.trace rule) element.now }
{
    match element.target {
        Some(target) => breaks(taken, rule, target.res, target.part),
        None => false,
    }
}

fn some_element(taken: &TakenLines, rule: PartRule, deps: &[Element]) -> bool
    ensures { result ≡ list_any (spec.element_part (breaks taken.now.trace rule)) deps.now }
{
    deps.iter().any(|e| breaks_element(taken, rule, e))
}

fn some_attachment(taken: &TakenLines, rule: PartRule, attachments: &[Attachment]) -> bool
    ensures { result ≡ list_any (spec.attachment_part (breaks taken.now.trace rule)) attachments.now }
{
    attachments.iter().any(|a| breaks(taken, rule, a.res, one_mip(a.mip, a.layer, a.layers)))
}

fn some_view(taken: &TakenLines, rule: PartRule, views: &[View]) -> bool
    ensures { result ≡ list_any (spec.view_part (breaks taken.now.trace rule)) views.now }
{
    views.iter().any(|v| breaks(taken, rule, v.res, one_mip(v.mip, v.layer, v.layers)))
}

/// Whether some part of the line breaks the rule.
pub fn some_part(taken: &TakenLines, rule: PartRule, line: &Line) -> bool
    ensures { result ≡ spec.some_part (breaks taken.now.trace rule) line.now }
{
    match line {
        Line::Work { accesses, .. } => some_access(taken, rule, accesses.as_slice()),
        Line::Barrier { deps, .. } => some_element(taken, rule, deps.as_slice()),
        Line::SetEvent { deps, .. } => some_element(taken, rule, deps.as_slice()),
        Line::BeginRendering { attachments, .. } => {
            some_attachment(taken, rule, attachments.as_slice())
        }
        Line::BeginPass { views, .. } => some_view(taken, rule, views.as_slice()),
        _ => false,
    }
}
