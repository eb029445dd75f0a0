//! The accesses of a `work`.
ghost use Rattle.std.specs.Prelude.{◌≡◌, map, IfOk, All, unwrap_or};
ghost use Rattle.sv_mask.specs.Usages.{usage_of, stage_number, access_number};
ghost use Rattle.sv_model.specs.Recordings as spec;
ghost use Rattle.sv_model.specs.LawfulCommands.{IsShort, declared_usage};
ghost use Rattle.sv_model.specs.Positions.{accesses_from};
ghost use Rattle.sv_model.specs.Plain.{AccessFits};

use crate::barriers::{area_of, place_of, subpass_of};
use std::alloc::{AllocError, Global};
use sv_mask::Usage;
use sv_model::line::Declared;
use sv_model::work::{Access, Here, What};
use sv_range::List;

/// The usage of an access. A trace is refused that declares none of the 43.
fn usage_of(declared: Declared) -> Usage
    ensures { result.0 ≡ declared_usage declared }
{
    match Usage::of(declared.stage, declared.access) {
        Some(usage) => usage,
        None => Usage(0),
    }
}

/// The access that a `work` declares at that position.
fn declared_access(here: Here, declared: Declared, pos: u32) -> Access
    requires { AccessFits declared }
    ensures { result ≡ record (spec.declared_access here declared) { step = here.step; pos = pos } }
{
    Access {
        area: area_of(declared.res, declared.part),
        what: What::Use(usage_of(declared)),
        queue: 0,
        sub: subpass_of(here),
        layout: declared.layout,
        place: place_of(here),
        step: here.step,
        pos,
    }
}

/// The accesses of a `work`, in order.
pub fn accesses(
    alloc: Global,
    declared: &[Declared],
    here: Here,
) -> Result<List<Access>, AllocError>
    requires short { IsShort declared.now }
    requires fit { All AccessFits declared.now }
    ensures { IfOk result (λ accesses. accesses ≡ accesses_from here.step 0
        (map (spec.declared_access here) declared.now)) }
{
    let mut accesses = List::with_capacity(alloc, declared.len())?;
    let mut pos = 0;
    for access in declared {
        accesses.push_or_drop(declared_access(here, *access, pos))?;
        pos += 1;
    }
    Ok(accesses)
}
