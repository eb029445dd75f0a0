//! Attachments and views.
ghost use Rattle.std.specs.Prelude.{◌≡◌};
ghost use Rattle.serde_json.specs.View.{view};
ghost use Rattle.sv_parts.specs.Parts as spec;

use crate::name::{AnyLayout, ClassName, LaterLayout, LoadName, StoreName};
use crate::number::{Index, Number};
use serde_json::Value;
use sv_json::{AnyNumber, Found, Part, part_at};
use sv_model::line::{Attachment, PassAttachment, PassUse, View};

/// An attachment of `begin_rendering`.
pub struct AttachmentPart;

impl Part for AttachmentPart {
    type Made = Attachment;

    ghost form = { spec.attachment };

    #[tactic(auto, unfolding(crate::specs::Parts::attachment))]
    fn read(value: &Value) -> Found<Attachment> {
        let res = part_at::<Number>(value, "res");
        let class = part_at::<ClassName>(value, "class");
        let mip = part_at::<AnyNumber>(value, "mip");
        let layer = part_at::<AnyNumber>(value, "layer");
        let layers = part_at::<AnyNumber>(value, "layers");
        let layout = part_at::<AnyLayout>(value, "layout");
        let load = part_at::<LoadName>(value, "load");
        let store = part_at::<StoreName>(value, "store");
        Found {
            flaw: res
                .flaw
                .least(class.flaw)
                .least(mip.flaw)
                .least(layer.flaw)
                .least(layers.flaw)
                .least(layout.flaw)
                .least(load.flaw)
                .least(store.flaw),
            value: Attachment {
                res: res.value,
                class: class.value,
                mip: mip.value,
                layer: layer.value,
                layers: layers.value,
                layout: layout.value,
                load: load.value,
                store: store.value,
            },
        }
    }
}

/// A view of `begin_pass`.
pub struct ViewPart;

impl Part for ViewPart {
    type Made = View;

    ghost form = { spec.view };

    #[tactic(auto, unfolding(crate::specs::Parts::view))]
    fn read(value: &Value) -> Found<View> {
        let res = part_at::<Number>(value, "res");
        let mip = part_at::<AnyNumber>(value, "mip");
        let layer = part_at::<AnyNumber>(value, "layer");
        let layers = part_at::<AnyNumber>(value, "layers");
        Found {
            flaw: res
                .flaw
                .least(mip.flaw)
                .least(layer.flaw)
                .least(layers.flaw),
            value: View {
                res: res.value,
                mip: mip.value,
                layer: layer.value,
                layers: layers.value,
            },
        }
    }
}

/// An attachment of `render_pass`.
pub struct PassAttachmentPart;

impl Part for PassAttachmentPart {
    type Made = PassAttachment;

    ghost form = { spec.pass_attachment };

    #[tactic(auto, unfolding(crate::specs::Parts::pass_attachment))]
    fn read(value: &Value) -> Found<PassAttachment> {
        let class = part_at::<ClassName>(value, "class");
        let load = part_at::<LoadName>(value, "load");
        let store = part_at::<StoreName>(value, "store");
        let initial = part_at::<AnyLayout>(value, "initial");
        let becomes = part_at::<LaterLayout>(value, "final");
        Found {
            flaw: class
                .flaw
                .least(load.flaw)
                .least(store.flaw)
                .least(initial.flaw)
                .least(becomes.flaw),
            value: PassAttachment {
                class: class.value,
                load: load.value,
                store: store.value,
                initial: initial.value,
                becomes: becomes.value,
            },
        }
    }
}

/// A use of an attachment by a subpass.
pub struct PassUsePart;

impl Part for PassUsePart {
    type Made = PassUse;

    ghost form = { spec.pass_use };

    #[tactic(auto, unfolding(crate::specs::Parts::pass_use))]
    fn read(value: &Value) -> Found<PassUse> {
        let att = part_at::<Index>(value, "att");
        let layout = part_at::<AnyLayout>(value, "layout");
        Found {
            flaw: att.flaw.least(layout.flaw),
            value: PassUse {
                att: att.value,
                layout: layout.value,
            },
        }
    }
}
