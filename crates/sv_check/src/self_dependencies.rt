//! Barriers inside a subpass.
ghost use Rattle.std.specs.Prelude.{◌≡◌};
ghost use Rattle.std.specs.List.{list_any};
ghost use Rattle.sv_model.specs.Passes.{is_subpass};
ghost use Rattle.sv_model.specs.LawfulCommands.{contains_element};
ghost use Rattle.sv_rules.specs.SelfDependencies as spec;

use sv_expand::is_within;
use sv_lines::TakenLines;
use sv_model::line::{Element, Line, PassDep};
use sv_rules::standing::Standing;

fn is_subpass(i: u32, end: Option<u32>) -> bool
    ensures { result ≡ is_subpass i end }
{
    match end {
        Some(n) => n == i,
        None => false,
    }
}

fn contains_element(i: u32, element: &Element, dep: &PassDep) -> bool
    ensures { result ≡ contains_element i element.now dep.now }
{
    let src = is_within(element.src, element.src_access, dep.src, dep.src_access);
    let dst = is_within(element.dst, element.dst_access, dep.dst, dep.dst_access);
    is_subpass(i, dep.from) && is_subpass(i, dep.to) && (src && dst)
}

fn is_contained(i: u32, deps: &[PassDep], element: &Element) -> bool
    ensures { result ≡ spec.is_contained i deps.now element.now }
{
    deps.iter().any(|d| contains_element(i, element, d))
}

fn is_uncontained(i: u32, deps: &[PassDep], element: &Element) -> bool
    ensures { result ≡ spec.is_uncontained i deps.now element.now }
{
    !is_contained(i, deps, element)
}

fn any_uncontained(i: u32, deps: &[PassDep], elements: &[Element]) -> bool
    ensures { result ≡ list_any (spec.is_uncontained i deps.now) elements.now }
{
    elements.iter().any(|e| is_uncontained(i, deps, e))
}

fn some_uncontained(taken: &TakenLines, standing: Standing, elements: &[Element]) -> bool
    ensures { result ≡ spec.some_uncontained taken.now.trace standing elements.now }
{
    match standing {
        Standing::InPass { pass, subpass } => {
            any_uncontained(subpass, taken.pass(pass).deps, elements)
        }
        _ => false,
    }
}

/// Whether the line is a barrier inside a subpass, with an element that no self-dependency of the subpass
/// contains.
#[tactic(auto, unfolding(sv_rules::specs::SelfDependencies::is_without_self_dependency))]
pub fn is_without_self_dependency(taken: &TakenLines, line: &Line) -> bool
    ensures { result ≡ spec.is_without_self_dependency taken.now.trace line.now }
{
    match line {
        Line::Barrier { rec, deps } => {
            some_uncontained(taken, taken.standing(*rec), deps.as_slice())
        }
        _ => false,
    }
}
