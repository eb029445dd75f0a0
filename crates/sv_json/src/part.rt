//! A part of a line, and its form.
ghost use Rattle.std.specs.Prelude.{◌≡◌, IfOk};
ghost use Rattle.serde_json.specs.Data.{Data};
ghost use Rattle.serde_json.specs.View.{view};
ghost use Rattle.sv_json.specs.declared.found.Found.{Found};

use crate::found::Found;
use serde_json::Value;
use std::alloc::{AllocError, Global};

/// The form of a part of a line that is read without memory.
pub trait Part {
    type Made: Drop;

    ghost form: { Data → Found Self.Made };

    fn read(value: &Value) -> Found<Self::Made>
        ensures { result ≡ form (view value.now) };
}

/// The form of a part of a line that holds lists.
pub trait Whole {
    type Made: Drop;

    ghost form: { Data → Found Self.Made };

    fn read(alloc: Global, value: &Value) -> Result<Found<Self::Made>, AllocError>
        ensures { IfOk result (λ it. it ≡ form (view value.now)) };
}

/// The form of a name in a mask, where the names of a list are joined to one value.
pub trait Joined {
    type Made: Drop;

    ghost form: { Data → Found Self.Made };

    ghost none: { Self.Made };

    ghost join: { Self.Made → Self.Made → Self.Made };

    fn read(value: &Value) -> Found<Self::Made>
        ensures { result ≡ form (view value.now) };

    fn none() -> Self::Made
        ensures { result ≡ none };

    fn join(one: Self::Made, two: Self::Made) -> Self::Made
        ensures { result ≡ join one two };
}
