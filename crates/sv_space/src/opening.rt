//! The lines of the resources of a trace.
ghost use Rattle.std.specs.Prelude.{◌≡◌, ◌≢◌, ◌+◌, ◌<◌, ◌≤◌, ◌⊎◌, All, Contains, IfOk, OnOk, Some, false};
ghost use Rattle.std.specs.Prelude.{length, slice_index_or, true};
ghost use Rattle.sv_model.specs.Lawful.{AreOnce, IsLawfulResource, declared_number};
ghost use Rattle.sv_model.specs.declared.line.Line.{Line as Declared};
ghost use Rattle.sv_space.specs.AllLines.{AreFresh};
ghost use Rattle.sv_space.specs.Pieces.{IsFresh};
ghost use Rattle.sv_space.specs.Resources.{HasLineFor, IsLineFor};
ghost use Rattle.sv_space.specs.Sorted.{AreSorted};
ghost use Rattle.sv_space.specs.declared.line.Line.{Line};

use crate::line::Line;
use crate::lines::place_in;
use crate::shape::Shape;
use std::alloc::{AllocError, Global};
use sv_model::line::Line as Declared;

// Whether the line at that place is of the resource.
fn is_there(lines: &[Line], at: usize, res: u32) -> bool
    ensures absent { result ≡ false → (d : Line) → at < length lines.now
        → (slice_index_or lines.now at d).res ≢ res }
    ensures there { result ≡ true → (l : Line) × Contains lines.now l × (l.res ≡ res) }
{
    if at < lines.len() {
        lines[at].res == res
    } else {
        false
    }
}

// Puts the line of a resource where its number wants it, if no line has the number.
fn insert(lines: &mut Vec<Line>, line: Line) -> Result<(), AllocError>
    requires sorted { AreSorted lines.old.items }
    requires fresh { IsFresh line }
    ensures kept { OnOk result ((l : Line) → Contains lines.old.items l → Contains lines.new.items l) }
    ensures only { OnOk result ((l : Line) → Contains lines.new.items l → Contains lines.old.items l
        ⊎ (l ≡ line)) }
    ensures has { OnOk result (((l : Line) → Contains lines.old.items l → l.res ≢ line.res)
        → Contains lines.new.items line) }
    ensures sorted { OnOk result (AreSorted lines.new.items) }
    ensures fresh { OnOk result (AreFresh lines.old.items → AreFresh lines.new.items) }
    ensures few { OnOk result (length lines.new.items ≤ length lines.old.items + 1) }
{
    let at = place_in(lines, line.res);
    if is_there(lines, at, line.res) {
        return Ok(());
    }
    lines.insert(at, line)?;
    Ok(())
}

fn declare(alloc: Global, lines: &mut Vec<Line>, declared: &Declared) -> Result<(), AllocError>
    requires lawful { IsLawfulResource declared.now }
    requires sorted { AreSorted lines.old.items }
    ensures kept { OnOk result ((l : Line) → Contains lines.old.items l → Contains lines.new.items l) }
    ensures only { OnOk result ((l : Line) → Contains lines.new.items l → Contains lines.old.items l
        ⊎ IsLineFor declared.now l) }
    ensures has { OnOk result (((l : Line) → Contains lines.old.items l
        → declared_number declared.now ≢ Some l.res) → HasLineFor lines.new.items declared.now) }
    ensures sorted { OnOk result (AreSorted lines.new.items) }
    ensures fresh { OnOk result (AreFresh lines.old.items → AreFresh lines.new.items) }
    ensures few { OnOk result (length lines.new.items ≤ length lines.old.items + 1) }
{
    match declared {
        Declared::Buffer { res, size, .. } => {
            let line = Line::new(alloc, *res, Shape::Bytes, *size)?;
            insert(lines, line)
        }
        Declared::Image {
            res,
            mips,
            layers,
            ..
        } => {
            let shape = Shape::Mips {
                mips: *mips,
                layers: *layers,
            };
            let line = Line::new(alloc, *res, shape, u64::from(*mips) * u64::from(*layers))?;
            insert(lines, line)
        }
        _ => Ok(()),
    }
}

/// The lines of the resources, by their numbers, before any work.
pub fn open_all(alloc: Global, resources: &[Declared]) -> Result<Vec<Line>, AllocError>
    requires { All IsLawfulResource resources.now }
    ensures sorted { IfOk result (λ lines. AreSorted lines.items) }
    ensures fresh { IfOk result (λ lines. AreFresh lines.items) }
    ensures has { IfOk result (λ lines. AreOnce resources.now → (d : Declared) → Contains resources.now d
        → HasLineFor lines.items d) }
    ensures few { IfOk result (λ lines. length lines.items ≤ length resources.now) }
{
    let mut lines = Vec::new(alloc);
    for declared in resources {
        declare(alloc, &mut lines, declared)?;
    }
    Ok(lines)
}
