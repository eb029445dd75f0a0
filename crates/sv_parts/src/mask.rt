//! Masks: lists of names, whose value is their union.
ghost use Rattle.std.specs.Prelude.{◌≡◌};
ghost use Rattle.serde_json.specs.View.{view};
ghost use Rattle.sv_json.specs.Form.{member, word};
ghost use Rattle.sv_mask.specs.Names.{access_named, stage_named};
ghost use Rattle.sv_parts.specs.Names as spec;

use serde_json::Value;
use sv_json::{Found, Joined, mask_at, named, no_text};
use sv_mask::{AccessWord, Accesses, StageWord, Stages};

/// The name of stages in a mask.
struct StageName;

impl Joined for StageName {
    type Made = StageWord;

    ghost form = { word stage_named spec.no_stages };

    ghost none = { spec.no_stages };

    ghost join = { spec.join_stages };

    #[tactic(auto, unfolding(sv_json::specs::Form::word))]
    fn read(value: &Value) -> Found<StageWord> {
        match value.as_str() {
            Some(text) => named(sv_name::stage_bits(text), Self::none()),
            None => no_text(Self::none()),
        }
    }

    fn none() -> StageWord {
        StageWord {
            plain: Stages(0),
            top: false,
            bottom: false,
        }
    }

    #[tactic(auto, unfolding(crate::specs::Names::join_stages))]
    fn join(one: StageWord, two: StageWord) -> StageWord {
        StageWord {
            plain: Stages(one.plain.0 | two.plain.0),
            top: one.top || two.top,
            bottom: one.bottom || two.bottom,
        }
    }
}

/// The name of accesses in a mask.
struct AccessName;

impl Joined for AccessName {
    type Made = AccessWord;

    ghost form = { word access_named spec.no_accesses };

    ghost none = { spec.no_accesses };

    ghost join = { spec.join_accesses };

    #[tactic(auto, unfolding(sv_json::specs::Form::word))]
    fn read(value: &Value) -> Found<AccessWord> {
        match value.as_str() {
            Some(text) => named(sv_name::access_bits(text), Self::none()),
            None => no_text(Self::none()),
        }
    }

    fn none() -> AccessWord {
        AccessWord {
            plain: Accesses(0),
            memory_read: false,
            memory_write: false,
        }
    }

    #[tactic(auto, unfolding(crate::specs::Names::join_accesses))]
    fn join(one: AccessWord, two: AccessWord) -> AccessWord {
        AccessWord {
            plain: Accesses(one.plain.0 | two.plain.0),
            memory_read: one.memory_read || two.memory_read,
            memory_write: one.memory_write || two.memory_write,
        }
    }
}

/// The stages that the member of this name names.
pub fn stages_at(value: &Value, name: &str) -> Found<StageWord>
    ensures { result ≡ member name.now spec.stage_mask (view value.now) }
{
    mask_at::<StageName>(value, name)
}

/// The accesses that the member of this name names.
pub fn accesses_at(value: &Value, name: &str) -> Found<AccessWord>
    ensures { result ≡ member name.now spec.access_mask (view value.now) }
{
    mask_at::<AccessName>(value, name)
}
