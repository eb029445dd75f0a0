//! The elements of `barrier` and `set_event`.
ghost use Rattle.std.specs.Prelude.{◌≡◌};
ghost use Rattle.serde_json.specs.View.{view};
ghost use Rattle.sv_parts.specs.Parts as spec;

use crate::mask::{accesses_at, stages_at};
use crate::name::{AnyLayout, LaterLayout};
use crate::number::Number;
use crate::range::{bytes_part, image_part};
use serde_json::Value;
use sv_json::{Flaw, Found, Part, has_member, pair_at, part_at};
use sv_mask::Layout;
use sv_model::line::{Element, Part as Place, Target};

type Range = (Place, Option<(Layout, Layout)>);

#[tactic(auto, unfolding(crate::specs::Parts::image_range))]
fn image_range(value: &Value) -> Found<Range>
    ensures { result ≡ spec.image_range (view value.now) }
{
    let part = image_part(value);
    let layouts = pair_at::<AnyLayout, LaterLayout>(value, "old", "new");
    Found {
        flaw: part.flaw.least(layouts.flaw),
        value: (part.value, layouts.value),
    }
}

#[tactic(auto, unfolding(crate::specs::Parts::bytes_range))]
fn bytes_range(value: &Value) -> Found<Range>
    ensures { result ≡ spec.bytes_range (view value.now) }
{
    let part = bytes_part(value);
    Found {
        flaw: part.flaw,
        value: (part.value, None),
    }
}

#[tactic(auto, unfolding(crate::specs::Parts::range))]
fn range(value: &Value) -> Found<Range>
    ensures { result ≡ spec.range (view value.now) }
{
    if has_member(value, "mip") {
        image_range(value)
    } else {
        bytes_range(value)
    }
}

#[tactic(auto, unfolding(crate::specs::Parts::limited))]
fn limited(value: &Value) -> Found<Target>
    ensures { result ≡ spec.limited (view value.now) }
{
    let res = part_at::<Number>(value, "res");
    let range = range(value);
    let families = pair_at::<Number, Number>(value, "src_family", "dst_family");
    Found {
        flaw: res.flaw.least(range.flaw).least(families.flaw),
        value: Target {
            res: res.value,
            part: range.value.0,
            layouts: range.value.1,
            families: families.value,
        },
    }
}

#[tactic(auto, unfolding(crate::specs::Parts::target))]
fn target(value: &Value) -> Found<Option<Target>>
    ensures { result ≡ spec.target (view value.now) }
{
    if has_member(value, "res") {
        let target = limited(value);
        Found {
            flaw: target.flaw,
            value: Some(target.value),
        }
    } else {
        Found {
            flaw: Flaw::Fine,
            value: None,
        }
    }
}

/// An element of a barrier or of an event's set.
pub struct ElementPart;

impl Part for ElementPart {
    type Made = Element;

    ghost form = { spec.element };

    #[tactic(auto, unfolding(crate::specs::Parts::element))]
    fn read(value: &Value) -> Found<Element> {
        let src = stages_at(value, "src");
        let src_access = accesses_at(value, "src_access");
        let dst = stages_at(value, "dst");
        let dst_access = accesses_at(value, "dst_access");
        let target = target(value);
        Found {
            flaw: src
                .flaw
                .least(src_access.flaw)
                .least(dst.flaw)
                .least(dst_access.flaw)
                .least(target.flaw),
            value: Element {
                src: src.value,
                src_access: src_access.value,
                dst: dst.value,
                dst_access: dst_access.value,
                target: target.value,
            },
        }
    }
}
