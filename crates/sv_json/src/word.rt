//! Parts in the place of a name.
ghost use Rattle.std.specs.Prelude.{◌≡◌};
ghost use Rattle.std.specs.Option.{option_map_or};
ghost use Rattle.sv_json.specs.Form.{found};

use crate::found::{Flaw, Found};

/// What a text in the place of a name stands for: `named` is what its table has.
pub fn named<T: Drop>(named: Option<T>, default: T) -> Found<T>
    ensures { result ≡ option_map_or (found Flaw.Fine) named (found Flaw.Name default) }
{
    match named {
        Some(value) => Found {
            flaw: Flaw::Fine,
            value,
        },
        None => Found {
            flaw: Flaw::Name,
            value: default,
        },
    }
}

/// A part in the place of a name that is no text.
pub fn no_text<T: Drop>(default: T) -> Found<T>
    ensures { result ≡ found Flaw.Shape default }
{
    Found {
        flaw: Flaw::Shape,
        value: default,
    }
}
