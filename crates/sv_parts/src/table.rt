//! Tables of the names that stand in lines alone.
ghost use Rattle.std.specs.Prelude.{◌≡◌};
ghost use Rattle.sv_parts.specs.Names.{class_named, load_named, store_named, sharing_named, kind_named};
ghost use Rattle.sv_parts.specs.Names.{is_first as first, first_layout_named, later_layout_named};

use sv_mask::Layout;
use sv_model::line::{Class, Load, SemKind, Sharing, Store};

#[tactic(auto, unfolding(crate::specs::Names::class_named))]
pub fn class(text: &str) -> Option<Class>
    ensures { result ≡ class_named text.now }
{
    if text == "color" {
        Some(Class::Color)
    } else if text == "depth" {
        Some(Class::Depth)
    } else {
        None
    }
}

#[tactic(auto, unfolding(crate::specs::Names::load_named))]
pub fn load(text: &str) -> Option<Load>
    ensures { result ≡ load_named text.now }
{
    if text == "load" {
        Some(Load::Load)
    } else if text == "clear" {
        Some(Load::Clear)
    } else if text == "dont_care" {
        Some(Load::DontCare)
    } else {
        None
    }
}

#[tactic(auto, unfolding(crate::specs::Names::store_named))]
pub fn store(text: &str) -> Option<Store>
    ensures { result ≡ store_named text.now }
{
    if text == "store" {
        Some(Store::Store)
    } else if text == "dont_care" {
        Some(Store::DontCare)
    } else if text == "none" {
        Some(Store::Nothing)
    } else {
        None
    }
}

#[tactic(auto, unfolding(crate::specs::Names::sharing_named))]
pub fn sharing(text: &str) -> Option<Sharing>
    ensures { result ≡ sharing_named text.now }
{
    if text == "exclusive" {
        Some(Sharing::Exclusive)
    } else if text == "concurrent" {
        Some(Sharing::Concurrent)
    } else {
        None
    }
}

#[tactic(auto, unfolding(crate::specs::Names::kind_named))]
pub fn kind(text: &str) -> Option<SemKind>
    ensures { result ≡ kind_named text.now }
{
    if text == "binary" {
        Some(SemKind::Binary)
    } else if text == "timeline" {
        Some(SemKind::Timeline)
    } else {
        None
    }
}

fn is_first(layout: Layout) -> bool
    ensures { result ≡ first layout }
{
    matches!(layout, Layout::Undefined | Layout::Preinitialized)
}

#[tactic(auto, unfolding(crate::specs::Names::first_layout_named))]
pub fn first_layout(text: &str) -> Option<Layout>
    ensures { result ≡ first_layout_named text.now }
{
    match sv_name::layout(text) {
        Some(layout) => { if is_first(layout) { Some(layout) } else { None } }
        None => None,
    }
}

#[tactic(auto, unfolding(crate::specs::Names::later_layout_named))]
pub fn later_layout(text: &str) -> Option<Layout>
    ensures { result ≡ later_layout_named text.now }
{
    match sv_name::layout(text) {
        Some(layout) => { if is_first(layout) { None } else { Some(layout) } }
        None => None,
    }
}
