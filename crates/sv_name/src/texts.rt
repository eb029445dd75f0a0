//! The printed names of usages.
ghost use Rattle.std.specs.Prelude.{◌≡◌, ◌<◌};
ghost use Rattle.sv_mask.specs.Names as spec;

use crate::accesses::PLAIN_ACCESSES;
use crate::stages::PLAIN_STAGES;
use crate::table::text_at;
use sv_mask::{Usage, access_of, stage_of};

/// The names of a usage's access and of its stage.
pub fn usage_text(usage: Usage) -> (&'static str, &'static str)
    requires { usage.0 < 43 }
    ensures access { result.0.now ≡ (spec.usage_text usage.0).0 }
    ensures stage { result.1.now ≡ (spec.usage_text usage.0).1 }
{
    let access = access_of(usage).number();
    let stage = stage_of(usage).number();
    (
        text_at(&PLAIN_ACCESSES, access as usize),
        text_at(&PLAIN_STAGES, stage as usize),
    )
}
