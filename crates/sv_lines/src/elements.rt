//! What is asked of the elements of barriers and of the accesses of a `work` where they stand.
ghost use Rattle.std.specs.Prelude.{◌≡◌};
ghost use Rattle.std.specs.List.{list_any};
ghost use Rattle.sv_model.specs.LawfulCommands.{declared_usage, is_attachment_usage, is_outside_usage};
ghost use Rattle.sv_model.specs.LawfulCommands.{is_host_usage};
ghost use Rattle.sv_rules.specs.Places as spec;

use sv_mask::{Layout, Usage};
use sv_model::line::{Declared, Element, Part};

fn are_two(families: Option<(u32, u32)>) -> bool
    ensures { result ≡ spec.are_two families }
{
    match families {
        Some((from, to)) => !(from == to),
        None => false,
    }
}

fn are_foreign(family: Option<u32>, families: Option<(u32, u32)>) -> bool
    ensures { result ≡ spec.are_foreign family families }
{
    match family {
        Some(family) => match families {
            Some((from, to)) => !(from == family) && !(to == family),
            None => false,
        },
        None => false,
    }
}

fn families_of(element: &Element) -> Option<(u32, u32)>
    ensures { result ≡ spec.families_of element.now }
{
    match element.target {
        Some(target) => target.families,
        None => None,
    }
}

/// Whether the element has two different families.
pub fn transfers(element: &Element) -> bool
    ensures { result ≡ spec.transfers element.now }
{
    are_two(families_of(element))
}

/// Whether the element has two different families, and neither is the recording's or it stands in a render
/// scope.
pub fn transfers_wrongly(family: Option<u32>, inside: bool, element: &Element) -> bool
    ensures { result ≡ spec.transfers_wrongly family inside element.now }
{
    let foreign = are_foreign(family, families_of(element));
    transfers(element) && (foreign || inside)
}

/// Whether the layouts differ.
pub fn are_two_layouts(layouts: Option<(Layout, Layout)>) -> bool
    ensures { result ≡ spec.are_two_layouts layouts }
{
    match layouts {
        Some((was, becomes)) => !was.is_same(becomes),
        None => false,
    }
}

fn is_of_buffer(part: Part) -> bool
    ensures { result ≡ spec.is_of_buffer part }
{
    match part {
        Part::Bytes { .. } => true,
        Part::Image { .. } => false,
    }
}

/// Whether the element is on a buffer, or has two different layouts.
pub fn leaves_subpass(element: &Element) -> bool
    ensures { result ≡ spec.leaves_subpass element.now }
{
    match element.target {
        Some(target) => is_of_buffer(target.part) || are_two_layouts(target.layouts),
        None => false,
    }
}

/// The number of the usage of an access, or 0 where it is none of the usages.
fn usage_of(access: &Declared) -> u8
    ensures { result ≡ declared_usage access.now }
{
    match Usage::of(access.stage, access.access) {
        Some(usage) => usage.0,
        None => 0,
    }
}

fn is_attachment_usage(usage: u8) -> bool
    ensures { result ≡ is_attachment_usage usage }
{
    27 <= usage && usage <= 33
}

fn is_outside_usage(usage: u8) -> bool
    ensures { result ≡ is_outside_usage usage }
{
    (23 <= usage && usage <= 26) || (34 <= usage && usage <= 40)
}

fn is_host_usage(usage: u8) -> bool
    ensures { result ≡ is_host_usage usage }
{
    41 <= usage
}

/// Whether a `work` may not have the access there: inside a render scope, or outside of all.
pub fn is_misused_access(inside: bool, access: &Declared) -> bool
    ensures { result ≡ spec.is_misused_access inside access.now }
{
    let usage = usage_of(access);
    if inside {
        is_outside_usage(usage) || is_host_usage(usage)
    } else {
        is_attachment_usage(usage) || is_host_usage(usage)
    }
}
