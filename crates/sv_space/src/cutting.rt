//! Pieces are cut where areas begin and end.
ghost use Rattle.std.specs.Prelude.{◌≤◌, ◌+◌, ◌*◌, OnOk};
ghost use Rattle.sv_rangemap.specs.Lines.{ArePartsOf};
ghost use Rattle.sv_space.specs.Counts.{pieces_on};
ghost use Rattle.sv_space.specs.Cut.{IsCutFor};
ghost use Rattle.sv_space.specs.Lines.{LiesOn};
ghost use Rattle.sv_space.specs.Pieces.{IsSameLine};
ghost use Rattle.sv_space.specs.Runs.{runs_of};

use crate::line::{Line, spans_of};
use std::alloc::{AllocError, Global};
use sv_model::work::Area;

/// Makes pieces begin and end where the area does.
pub fn cut(alloc: Global, line: &mut Line, area: Area) -> Result<(), AllocError>
    requires { LiesOn line.old.res line.old.shape line.old.pieces.size area }
    ensures line { IsSameLine line.old line.new }
    ensures parts { ArePartsOf line.new.pieces.parts.items line.old.pieces.parts.items }
    ensures cut { OnOk result (IsCutFor area line.old.res line.old.shape line.new.pieces.parts.items) }
    ensures few { OnOk result (pieces_on line.new ≤ pieces_on line.old + 2 * runs_of area) }
{
    let spans = spans_of(alloc, line.shape, area)?;
    let list = spans.as_slice();
    for span in list {
        line.pieces.split_span(*span)?;
    }
    Ok(())
}
