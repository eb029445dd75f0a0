//! The cells of a resource by their numbers, and tables of the resources.
ghost use Rattle.std.specs.Prelude.{◌≡◌, ◌==◌, ◌<◌, ◌/◌, ◌^◌, ℕ, IfOk, OnOk, if◌then◌else◌, slice_get};
ghost use Rattle.std.specs.Prelude.{unwrap_or};
ghost use Rattle.sv_cellmap.specs.CellNumbers.{AddsLayers, HaveLayers, cell_numbered};

use std::alloc::{AllocError, Global};
use sv_model::line::Line;
use sv_model::work::Cell;

/// Puts a value at a place of a table, where places that it did not have come to have the other value.
pub fn put_at<X: Copy>(items: &mut Vec<X>, place: u32, value: X, other: X) -> Result<(), AllocError>
    ensures { OnOk result ((k : ℕ) → unwrap_or (slice_get items.new.items k) other
        ≡ (if k == place then value else unwrap_or (slice_get items.old.items k) other)) }
{
    let wanted = place as usize + 1;
    for number in items.len()..wanted {
        items.push(other)?;
    }
    items[place as usize] = value;
    Ok(())
}

// Puts in the layers of the resource that a line declares, if it does.
fn add_layers(table: &mut Vec<u32>, line: &Line) -> Result<(), AllocError>
    ensures { OnOk result (AddsLayers table.old.items table.new.items line.now) }
{
    match line {
        Line::Buffer { res, .. } => put_at(table, *res, 0, 0),
        Line::Image { res, layers, .. } => put_at(table, *res, *layers, 0),
        _ => Ok(()),
    }
}

/// The layers of the images that these lines declare, and 0 for each buffer: of each number the first line
/// counts.
pub fn layers_of(alloc: Global, lines: &[Line]) -> Result<Vec<u32>, AllocError>
    ensures { IfOk result (λ table. HaveLayers table.items lines.now) }
{
    let mut table = Vec::new(alloc);
    for number in 0..lines.len() {
        add_layers(&mut table, &lines[lines.len() - 1 - number])?;
    }
    Ok(table)
}

fn layers_at(table: &[u32], res: u32) -> u32
    ensures { result ≡ unwrap_or (slice_get table.now res) 0 }
{
    match table.get(res as usize) {
        Some(layers) => *layers,
        None => 0,
    }
}

/// The cell of a resource that has this number: the byte of a buffer, or `mip * layers + layer` of an
/// image. The table has the layers of the resources.
pub fn cell_numbered(table: &[u32], res: u32, number: u64) -> Cell
    requires { 0 < unwrap_or (slice_get table.now res) 0 → number / unwrap_or (slice_get table.now res) 0
        < 2 ^ 32 }
    ensures { result ≡ cell_numbered (unwrap_or (slice_get table.now res) 0) res number }
{
    let layers = u64::from(layers_at(table, res));
    if layers == 0 {
        Cell::Byte { res, at: number }
    } else {
        Cell::Texel {
            res,
            mip: (number / layers) as u32,
            layer: (number % layers) as u32,
        }
    }
}
