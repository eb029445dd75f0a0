//! How large a resource is.
ghost use Rattle.std.specs.Prelude.{◌≡◌, ◌+◌, ◌<◌, nat_lt, option_map};
ghost use Rattle.sv_lines.specs.Extents.{as_resource};
ghost use Rattle.sv_rules.specs.PartRules.{is_outside, is_without_cells};

use sv_model::line::Part;

/// The bytes of a buffer, or the mips and layers of an image.
#[derive(Clone, Copy, PartialEq)]
pub enum Extent {
    Bytes(u64),
    Image { mips: u32, layers: u32 },
}

/// Whether `start + count` is above `most`.
fn is_past(most: u64, start: u64, count: u64) -> bool
    ensures { result ≡ nat_lt most (start + count) }
{
    start > most || count > most - start
}

/// Whether the part has another form than the resource, or goes on past its end.
pub fn is_outside(extent: Option<Extent>, part: Part) -> bool
    ensures { result ≡ is_outside (option_map as_resource extent) part }
{
    match (extent, part) {
        (None, _) => false,
        (Some(Extent::Bytes(size)), Part::Bytes { end, .. }) => size < end,
        (
            Some(
                Extent::Image {
                    mips: most_mips,
                    layers: most_layers,
                },
            ),
            Part::Image {
                mip,
                mips,
                layer,
                layers,
            },
        ) => {
            is_past(u64::from(most_mips), mip, mips)
                || is_past(u64::from(most_layers), layer, layers)
        }
        (Some(Extent::Bytes(_)), Part::Image { .. }) => true,
        (Some(Extent::Image { .. }), Part::Bytes { .. }) => true,
    }
}

/// Whether the part has no cells.
pub fn is_without_cells(part: Part) -> bool
    ensures { result ≡ is_without_cells part }
{
    match part {
        Part::Bytes { start, end } => end <= start,
        Part::Image { mips, layers, .. } => mips == 0 || layers == 0,
    }
}
