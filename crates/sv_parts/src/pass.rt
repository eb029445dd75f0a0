//! The dependencies and subpasses of `render_pass`.
ghost use Rattle.std.specs.Prelude.{◌≡◌, IfOk};
ghost use Rattle.serde_json.specs.View.{view};
ghost use Rattle.sv_parts.specs.Parts as spec;

use crate::attachment::PassUsePart;
use crate::mask::{accesses_at, stages_at};
use crate::number::Index;
use serde_json::Value;
use std::alloc::{AllocError, Global};
use sv_json::{Flaw, Found, Part, Plain, Whole, list_at, part_at, unless};
use sv_model::line::{PassDep, PassUse};
use sv_range::List;

/// A subpass: its uses of attachments.
pub struct SubpassPart;

impl Whole for SubpassPart {
    type Made = List<PassUse>;

    ghost form = { spec.subpass };

    #[tactic(auto, unfolding(crate::specs::Parts::subpass))]
    fn read(alloc: Global, value: &Value) -> Result<Found<List<PassUse>>, AllocError> {
        list_at::<Plain<PassUsePart>>(alloc, value, "uses")
    }
}

/// An end of a dependency: None is external.
struct End;

#[tactic(auto, unfolding(crate::specs::Parts::is_external))]
fn is_external(value: &Value) -> bool
    ensures { result ≡ spec.is_external (view value.now) }
{
    match value.as_str() {
        Some(text) => text == "external",
        None => false,
    }
}

impl Part for End {
    type Made = Option<u32>;

    ghost form = { spec.end };

    #[tactic(auto, unfolding(crate::specs::Parts::end))]
    fn read(value: &Value) -> Found<Option<u32>> {
        if is_external(value) {
            Found {
                flaw: Flaw::Fine,
                value: None,
            }
        } else {
            let index = Index::read(value);
            Found {
                flaw: index.flaw,
                value: Some(index.value),
            }
        }
    }
}

/// Both ends, which are not both external.
#[tactic(auto, unfolding(crate::specs::Parts::ends))]
fn ends(value: &Value) -> Found<(Option<u32>, Option<u32>)>
    ensures { result ≡ spec.ends (view value.now) }
{
    let from = part_at::<End>(value, "from");
    let to = part_at::<End>(value, "to");
    let named = from.value.is_some() || to.value.is_some();
    Found {
        flaw: from.flaw.least(to.flaw).least(unless(named, Flaw::Shape)),
        value: (from.value, to.value),
    }
}

/// A dependency of a render pass.
pub struct PassDepPart;

impl Part for PassDepPart {
    type Made = PassDep;

    ghost form = { spec.pass_dep };

    #[tactic(auto, unfolding(crate::specs::Parts::pass_dep))]
    fn read(value: &Value) -> Found<PassDep> {
        let ends = ends(value);
        let src = stages_at(value, "src");
        let src_access = accesses_at(value, "src_access");
        let dst = stages_at(value, "dst");
        let dst_access = accesses_at(value, "dst_access");
        Found {
            flaw: ends
                .flaw
                .least(src.flaw)
                .least(src_access.flaw)
                .least(dst.flaw)
                .least(dst_access.flaw),
            value: PassDep {
                from: ends.value.0,
                to: ends.value.1,
                src: src.value,
                src_access: src_access.value,
                dst: dst.value,
                dst_access: dst_access.value,
            },
        }
    }
}
