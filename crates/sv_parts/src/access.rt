//! The accesses of `work`.
ghost use Rattle.std.specs.Prelude.{◌≡◌};
ghost use Rattle.serde_json.specs.View.{view};
ghost use Rattle.sv_parts.specs.Parts as spec;

use crate::name::{AnyLayout, PlainAccess, PlainStage};
use crate::number::Number;
use crate::range::{bytes_part, image_part};
use serde_json::Value;
use sv_json::{Found, Part, has_member, part_at};
use sv_mask::Layout;
use sv_model::line::{Declared, Part as Place};

#[tactic(auto, unfolding(crate::specs::Parts::image_place))]
fn image_place(value: &Value) -> Found<(Place, Option<Layout>)>
    ensures { result ≡ spec.image_place (view value.now) }
{
    let part = image_part(value);
    let layout = part_at::<AnyLayout>(value, "layout");
    Found {
        flaw: part.flaw.least(layout.flaw),
        value: (part.value, Some(layout.value)),
    }
}

#[tactic(auto, unfolding(crate::specs::Parts::bytes_place))]
fn bytes_place(value: &Value) -> Found<(Place, Option<Layout>)>
    ensures { result ≡ spec.bytes_place (view value.now) }
{
    let part = bytes_part(value);
    Found {
        flaw: part.flaw,
        value: (part.value, None),
    }
}

#[tactic(auto, unfolding(crate::specs::Parts::place))]
fn place(value: &Value) -> Found<(Place, Option<Layout>)>
    ensures { result ≡ spec.place (view value.now) }
{
    if has_member(value, "mip") {
        image_place(value)
    } else {
        bytes_place(value)
    }
}

/// An access that a `work` declares.
pub struct AccessPart;

impl Part for AccessPart {
    type Made = Declared;

    ghost form = { spec.access };

    #[tactic(auto, unfolding(crate::specs::Parts::access))]
    fn read(value: &Value) -> Found<Declared> {
        let res = part_at::<Number>(value, "res");
        let stage = part_at::<PlainStage>(value, "stage");
        let access = part_at::<PlainAccess>(value, "access");
        let place = place(value);
        Found {
            flaw: res
                .flaw
                .least(stage.flaw)
                .least(access.flaw)
                .least(place.flaw),
            value: Declared {
                res: res.value,
                stage: stage.value,
                access: access.value,
                part: place.value.0,
                layout: place.value.1,
            },
        }
    }
}
