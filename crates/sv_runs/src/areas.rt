//! Areas of neighbouring cells that are joined.
ghost use Rattle.std.specs.Prelude.{◌≡◌, ◌↔◌, IsTrue};
ghost use Rattle.sv_model.specs.Cells.{EndsSmall};
ghost use Rattle.sv_model.specs.Reports.{Follows};
ghost use Rattle.sv_runs.specs.Joined.{joined_area};

use sv_model::work::Area;
use sv_range::{Cells, Span};

/// Whether the second area begins where the first one ends.
pub fn follows(first: Area, second: Area) -> bool
    ensures { IsTrue result ↔ Follows first second }
{
    match (first, second) {
        (Area::Bytes { res: a, span: s }, Area::Bytes { res: b, span: t }) => a == b
            && s.end == t.start,
        (Area::Image { res: a, cells: s }, Area::Image { res: b, cells: t }) => {
            a == b
                && s.mip == t.mip
                && u64::from(s.layer) + u64::from(s.layers) == u64::from(t.layer)
        }
        _ => false,
    }
}

/// One area of two of which the second begins where the first one ends.
pub fn joined_area(first: Area, second: Area) -> Area
    requires ends { EndsSmall second }
    requires next { Follows first second }
    ensures { result ≡ joined_area first second }
{
    match (first, second) {
        (Area::Bytes { res, span }, Area::Bytes { span: next, .. }) => Area::Bytes {
            res,
            span: Span {
                start: span.start,
                end: next.end,
            },
        },
        (Area::Image { res, cells }, Area::Image { cells: next, .. }) => Area::Image {
            res,
            cells: Cells {
                layers: cells.layers + next.layers,
                ..cells
            },
        },
        _ => first,
    }
}
