//! The stages and accesses that a line names.
ghost use Rattle.std.specs.Prelude.{◌≡◌};
ghost use Rattle.std.specs.List.{list_any};
ghost use Rattle.sv_rules.specs.Masks.{is_no_usage, element_unsupported, dep_unsupported, is_without_stage};

use sv_expand::supported;
use sv_mask::Usage;
use sv_model::line::{Declared, Element, Line, PassDep};

fn is_no_usage(access: &Declared) -> bool
    ensures { result ≡ is_no_usage access.now }
{
    Usage::of(access.stage, access.access).is_none()
}

fn any_no_usage(accesses: &[Declared]) -> bool
    ensures { result ≡ list_any is_no_usage accesses.now }
{
    accesses.iter().any(is_no_usage)
}

fn element_unsupported(element: &Element) -> bool
    ensures { result ≡ element_unsupported element.now }
{
    !supported(element.src, element.src_access) || !supported(element.dst, element.dst_access)
}

fn any_element_unsupported(deps: &[Element]) -> bool
    ensures { result ≡ list_any element_unsupported deps.now }
{
    deps.iter().any(element_unsupported)
}

fn dep_unsupported(dep: &PassDep) -> bool
    ensures { result ≡ dep_unsupported dep.now }
{
    !supported(dep.src, dep.src_access) || !supported(dep.dst, dep.dst_access)
}

fn any_dep_unsupported(deps: &[PassDep]) -> bool
    ensures { result ≡ list_any dep_unsupported deps.now }
{
    deps.iter().any(dep_unsupported)
}

/// Whether an access of a `work` is none of the usages, or a pair of masks is not supported.
#[tactic(auto, unfolding(sv_rules::specs::Masks::is_without_stage))]
pub fn is_without_stage(line: &Line) -> bool
    ensures { result ≡ is_without_stage line.now }
{
    match line {
        Line::Work { accesses, .. } => any_no_usage(accesses.as_slice()),
        Line::Barrier { deps, .. } => any_element_unsupported(deps.as_slice()),
        Line::SetEvent { deps, .. } => any_element_unsupported(deps.as_slice()),
        Line::RenderPass { deps, .. } => any_dep_unsupported(deps.as_slice()),
        _ => false,
    }
}
