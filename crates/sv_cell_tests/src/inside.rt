//! Whether areas and cells are of the resources of a trace.
ghost use Rattle.std.specs.Prelude.{◌≡◌, IsTrue, find, is_some};
ghost use Rattle.std.specs.Option.{option_copied};
ghost use Rattle.sv_model.specs.Cells.{area_resource};
ghost use Rattle.sv_model.specs.Declarations.{says_resource};
ghost use Rattle.sv_model.specs.declared.work.Area.TheVariants as area;
ghost use Rattle.sv_step_laws.specs.Steps.{IsAccessOf, IsOfImage};
ghost use Rattle.sv_space.specs.Areas.{IsAreaOf, IsIn};
ghost use Rattle.sv_cell_tests.specs.Found.{IsImageCell, IsImageCellOf, IsResourceCell, IsResourceCellOf};

use sv_model::line::{Line, Trace};
use sv_model::work::{Access, Area};
use sv_range::{Cells, Span};

fn declares(line: &Line, res: u32) -> bool
    ensures { result ≡ is_some (says_resource res line.now) }
{
    match line {
        Line::Buffer { res: number, .. } => *number == res,
        Line::Image { res: number, .. } => *number == res,
        _ => false,
    }
}

// The first of the lines that declares the resource.
fn line_of(lines: &[Line], res: u32) -> Option<&Line>
    ensures { option_copied result ≡ find (λ l. is_some (says_resource res l)) lines.now }
{
    lines.iter().find(|line| declares(line, res))
}

fn has_bytes(line: &Line, res: u32, span: Span) -> bool
    ensures { IsTrue result → IsIn (says_resource res line.now) (area.Bytes res span) }
{
    match line {
        Line::Buffer {
            res: number,
            size,
            ..
        } => *number == res && span.start < span.end && span.end <= *size,
        _ => false,
    }
}

fn has_layers(line: &Line, res: u32, cells: Cells) -> bool
    ensures { IsTrue result → IsIn (says_resource res line.now) (area.Image res cells) }
{
    match line {
        Line::Image {
            res: number,
            mips,
            layers,
            ..
        } => *number == res
            && cells.mips > 0
            && u64::from(cells.mip) + u64::from(cells.mips) <= u64::from(*mips)
            && cells.layers > 0
            && u64::from(cells.layer) + u64::from(cells.layers) <= u64::from(*layers),
        _ => false,
    }
}

fn has_area(line: &Line, area: Area) -> bool
    ensures { IsTrue result → IsIn (says_resource (area_resource area) line.now) area }
{
    match area {
        Area::Bytes { res, span } => has_bytes(line, res, span),
        Area::Image { res, cells } => has_layers(line, res, cells),
    }
}

fn resource_of(area: Area) -> u32
    ensures { result ≡ area_resource area }
{
    match area {
        Area::Bytes { res, .. } => res,
        Area::Image { res, .. } => res,
    }
}

/// Whether the area is of cells of a declared resource, of which there are some.
pub fn is_inside(trace: &Trace, area: Area) -> bool
    ensures { IsTrue result → IsAreaOf trace.now area }
{
    match line_of(trace.resources.as_slice(), resource_of(area)) {
        None => false,
        Some(line) => has_area(line, area),
    }
}

/// Whether the area is of an image.
pub fn is_of_image(area: Area) -> bool
    ensures { IsTrue result → IsOfImage area }
{
    match area {
        Area::Bytes { .. } => false,
        Area::Image { .. } => true,
    }
}

/// Whether the access is of cells of a declared resource, and declares a layout of images alone.
pub fn is_access_inside(trace: &Trace, access: &Access) -> bool
    ensures { IsTrue result → IsAccessOf trace.now access.now }
{
    match access.layout {
        None => is_inside(trace, access.area),
        Some(_layout) => is_inside(trace, access.area) && is_of_image(access.area),
    }
}

fn is_cell_of_image(line: &Line, res: u32, number: u64) -> bool
    ensures { IsTrue result → IsImageCellOf (says_resource res line.now) number }
{
    match line {
        Line::Image {
            res: declared,
            mips,
            layers,
            ..
        } => *declared == res && number < u64::from(*mips) * u64::from(*layers),
        _ => false,
    }
}

fn is_cell_of(line: &Line, res: u32, number: u64) -> bool
    ensures { IsTrue result → IsResourceCellOf (says_resource res line.now) number }
{
    match line {
        Line::Buffer {
            res: declared,
            size,
            ..
        } => *declared == res && number < *size,
        Line::Image {
            res: declared,
            mips,
            layers,
            ..
        } => *declared == res && number < u64::from(*mips) * u64::from(*layers),
        _ => false,
    }
}

/// Whether the resource is an image that has a cell with this number.
pub fn is_image_cell(trace: &Trace, res: u32, number: u64) -> bool
    ensures { IsTrue result → IsImageCell trace.now res number }
{
    match line_of(trace.resources.as_slice(), res) {
        None => false,
        Some(line) => is_cell_of_image(line, res, number),
    }
}

/// Whether the resource has a cell with this number.
pub fn is_resource_cell(trace: &Trace, res: u32, number: u64) -> bool
    ensures { IsTrue result → IsResourceCell trace.now res number }
{
    match line_of(trace.resources.as_slice(), res) {
        None => false,
        Some(line) => is_cell_of(line, res, number),
    }
}
