//! The ranges of accesses and of elements.
ghost use Rattle.std.specs.Prelude.{◌≡◌};
ghost use Rattle.serde_json.specs.View.{view};
ghost use Rattle.sv_parts.specs.Parts as spec;

use serde_json::Value;
use sv_json::{AnyNumber, Found, part_at};
use sv_model::line::Part as Place;

#[tactic(auto, unfolding(crate::specs::Parts::bytes_part))]
pub fn bytes_part(value: &Value) -> Found<Place>
    ensures { result ≡ spec.bytes_part (view value.now) }
{
    let start = part_at::<AnyNumber>(value, "start");
    let end = part_at::<AnyNumber>(value, "end");
    Found {
        flaw: start.flaw.least(end.flaw),
        value: Place::Bytes {
            start: start.value,
            end: end.value,
        },
    }
}

#[tactic(auto, unfolding(crate::specs::Parts::image_part))]
pub fn image_part(value: &Value) -> Found<Place>
    ensures { result ≡ spec.image_part (view value.now) }
{
    let mip = part_at::<AnyNumber>(value, "mip");
    let mips = part_at::<AnyNumber>(value, "mips");
    let layer = part_at::<AnyNumber>(value, "layer");
    let layers = part_at::<AnyNumber>(value, "layers");
    Found {
        flaw: mip
            .flaw
            .least(mips.flaw)
            .least(layer.flaw)
            .least(layers.flaw),
        value: Place::Image {
            mip: mip.value,
            mips: mips.value,
            layer: layer.value,
            layers: layers.value,
        },
    }
}
