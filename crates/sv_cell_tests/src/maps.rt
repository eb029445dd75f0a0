//! Values of the cells of a buffer and an image. The expected values are worked out by hand.
ghost use Rattle.std.specs.Prelude.{IfOk, IfSome, IsTrue};
ghost use Rattle.sv_model.specs.Cells.{alone};
ghost use Rattle.sv_cell_tests.specs.OnMap.{HasAll, IsOnMap};

use crate::areas::At;
use crate::number::Number;
use std::alloc::{AllocError, Global};
use std::test::Fail;
use sv_cellmap::{CellMap, Valued, cell_numbered, layers_of, put_at};
use sv_mask::Layout;
use sv_model::line::{Line, Sharing};
use sv_model::work::{Area, Cell};
use sv_range::List;

// The buffer 0 has 64 bytes of value 1, and the image 1 has 3 mips with 4 layers of value 2. Values that
// are put in, the runs of an area with their values then, and the values of some cells.
#[derive(Clone, Copy)]
struct Row {
    puts: &'static [(At, u64)],
    asked: At,
    found: &'static [(At, u64)],
    cells: &'static [(Cell, u64)],
}

static ROWS: [Row; 6] = [
    Row {
        puts: &[],
        asked: At::Bytes(0, 64),
        found: &[(At::Bytes(0, 64), 1)],
        cells: &[
            (Cell::Byte { res: 0, at: 63 }, 1),
            (
                Cell::Texel {
                    res: 1,
                    mip: 2,
                    layer: 3,
                },
                2,
            ),
        ],
    },
    Row {
        puts: &[],
        asked: At::Image(0, 3, 0, 4),
        found: &[
            (At::Image(0, 1, 0, 4), 2),
            (At::Image(1, 1, 0, 4), 2),
            (At::Image(2, 1, 0, 4), 2),
        ],
        cells: &[],
    },
    Row {
        puts: &[(At::Bytes(8, 24), 5)],
        asked: At::Bytes(4, 32),
        found: &[
            (At::Bytes(4, 8), 1),
            (At::Bytes(8, 24), 5),
            (At::Bytes(24, 32), 1),
        ],
        cells: &[
            (Cell::Byte { res: 0, at: 7 }, 1),
            (Cell::Byte { res: 0, at: 8 }, 5),
            (Cell::Byte { res: 0, at: 23 }, 5),
            (Cell::Byte { res: 0, at: 24 }, 1),
        ],
    },
    // what neighbours and has one value is one run, and a later value counts
    Row {
        puts: &[
            (At::Bytes(0, 16), 5),
            (At::Bytes(16, 32), 5),
            (At::Bytes(20, 24), 6),
        ],
        asked: At::Bytes(8, 30),
        found: &[
            (At::Bytes(8, 20), 5),
            (At::Bytes(20, 24), 6),
            (At::Bytes(24, 30), 5),
        ],
        cells: &[],
    },
    // two layers of two mips
    Row {
        puts: &[(At::Image(1, 2, 1, 2), 7)],
        asked: At::Image(0, 3, 0, 4),
        found: &[
            (At::Image(0, 1, 0, 4), 2),
            (At::Image(1, 1, 0, 1), 2),
            (At::Image(1, 1, 1, 2), 7),
            (At::Image(1, 1, 3, 1), 2),
            (At::Image(2, 1, 0, 1), 2),
            (At::Image(2, 1, 1, 2), 7),
            (At::Image(2, 1, 3, 1), 2),
        ],
        cells: &[
            (
                Cell::Texel {
                    res: 1,
                    mip: 0,
                    layer: 1,
                },
                2,
            ),
            (
                Cell::Texel {
                    res: 1,
                    mip: 1,
                    layer: 1,
                },
                7,
            ),
            (
                Cell::Texel {
                    res: 1,
                    mip: 2,
                    layer: 3,
                },
                2,
            ),
            (Cell::Byte { res: 0, at: 1 }, 1),
        ],
    },
    // a run stays in its mip
    Row {
        puts: &[(At::Image(0, 2, 0, 4), 7)],
        asked: At::Image(0, 2, 2, 2),
        found: &[(At::Image(0, 1, 2, 2), 7), (At::Image(1, 1, 2, 2), 7)],
        cells: &[],
    },
];

// Whether the map has the cells of the area.
fn is_on_map(area: Area) -> bool
    ensures { IsTrue result → IsOnMap area }
{
    match area {
        Area::Bytes { res, span } => res == 0 && span.start < span.end && span.end <= 64,
        Area::Image { res, cells } => {
            let some = cells.mips > 0 && cells.layers > 0;
            let few = cells.mip <= 3 && cells.mips <= 3 && cells.layer <= 4 && cells.layers <= 4;
            res == 1
                && some
                && few
                && cells.mip + cells.mips <= 3
                && cells.layer + cells.layers <= 4
        }
    }
}

fn has_cell(cell: Cell) -> bool
    ensures { IsTrue result → IsOnMap (alone cell) }
{
    match cell {
        Cell::Byte { res, at } => res == 0 && at < 64,
        Cell::Texel { res, mip, layer } => res == 1 && mip < 3 && layer < 4,
    }
}

fn open(alloc: Global) -> Result<CellMap<Number>, AllocError>
    ensures { IfOk result HasAll }
{
    let mut map = CellMap::new(alloc);
    map.add_buffer(alloc, 0, 64, Number { value: 1 })?;
    map.add_image(alloc, 1, 3, 4, Number { value: 2 })?;
    Ok(map)
}

// Puts the value in. Tells whether the map has the cells.
fn put(map: &mut CellMap<Number>, area: Area, value: u64) -> Result<bool, AllocError>
    requires { HasAll map.old }
    ensures { HasAll map.new }
{
    if !is_on_map(area) {
        return Ok(false);
    }
    map.put(area, Number { value })?;
    Ok(true)
}

// The map with these values. None where it does not have the cells of one of them.
fn map_with(alloc: Global, puts: &[(At, u64)]) -> Result<Option<CellMap<Number>>, AllocError>
    ensures { IfOk result (λ found. IfSome found HasAll) }
{
    let mut map = open(alloc)?;
    for (at, value) in puts {
        if !put(&mut map, at.area(), *value)? {
            return Ok(None);
        }
    }
    Ok(Some(map))
}

fn has_value(map: &CellMap<Number>, cell: Cell, value: u64) -> bool
    requires { HasAll map.now }
{
    has_cell(cell) && map.get(cell).value == value
}

fn have_values(map: &CellMap<Number>, cells: &[(Cell, u64)]) -> bool
    requires { HasAll map.now }
{
    for (cell, value) in cells {
        if !has_value(map, *cell, *value) {
            return false;
        }
    }
    true
}

fn are_runs(found: &[Valued<Number>], owed: &[(At, u64)]) -> bool {
    if found.len() != owed.len() {
        return false;
    }
    for index in 0..owed.len() {
        let (at, value) = owed[index];
        if found[index].area != at.area() || found[index].value.value != value {
            return false;
        }
    }
    true
}

fn has_runs(
    alloc: Global,
    map: &CellMap<Number>,
    area: Area,
    owed: &[(At, u64)],
) -> Result<bool, AllocError>
    requires { HasAll map.now }
{
    if !is_on_map(area) {
        return Ok(false);
    }
    let found = map.values(alloc, area)?;
    Ok(are_runs(found.as_slice(), owed))
}

fn agrees(alloc: Global, row: &Row) -> Result<bool, AllocError> {
    match map_with(alloc, row.puts)? {
        None => Ok(false),
        Some(map) => {
            let runs = has_runs(alloc, &map, row.asked.area(), row.found)?;
            Ok(runs && have_values(&map, row.cells))
        }
    }
}

#[test]
fn cells_have_the_values_that_were_put(rt: HostRuntime) -> Result<(), Fail> {
    for index in 0..ROWS.len() {
        let agrees = agrees(rt.alloc(), &ROWS[index])?;
        assert!(rt; agrees, "row {index}");
    }
    Ok(())
}

fn image(res: u32, mips: u32, layers: u32) -> Line {
    Line::Image {
        res,
        mips,
        layers,
        initial: Layout::Undefined,
        sharing: Sharing::Exclusive,
    }
}

// An image 2, a buffer 0, and an image 2 that is declared again.
fn layers(alloc: Global) -> Result<Vec<u32>, AllocError> {
    let buffer = Line::Buffer {
        res: 0,
        size: 64,
        sharing: Sharing::Exclusive,
    };
    let lines = vec![in alloc; image(2, 3, 4), buffer, image(2, 1, 5)]?;
    layers_of(alloc, lines.as_slice())
}

// The resources and numbers of cells.
static NUMBERED: [(u32, u64, Cell); 5] = [
    (0, 0, Cell::Byte { res: 0, at: 0 }),
    (0, 63, Cell::Byte { res: 0, at: 63 }),
    (
        2,
        3,
        Cell::Texel {
            res: 2,
            mip: 0,
            layer: 3,
        },
    ),
    (
        2,
        4,
        Cell::Texel {
            res: 2,
            mip: 1,
            layer: 0,
        },
    ),
    (
        2,
        11,
        Cell::Texel {
            res: 2,
            mip: 2,
            layer: 3,
        },
    ),
];

fn is_numbered(table: &[u32], res: u32, number: u64, cell: Cell) -> bool {
    number < 1 << 32 && cell_numbered(table, res, number) == cell
}

#[test]
fn cells_are_found_by_number(rt: HostRuntime) -> Result<(), Fail> {
    let table = layers(rt.alloc())?;
    assert!(rt; table.as_slice() == [0, 0, 4].as_slice());
    for (res, number, cell) in &NUMBERED {
        assert!(rt;
            is_numbered(table.as_slice(), *res, *number, *cell),
            "cell {number}"
        );
    }
    Ok(())
}

fn table_of(alloc: Global, puts: &[(u32, u64)]) -> Result<Vec<u64>, AllocError> {
    let mut items = Vec::new(alloc);
    for (place, value) in puts {
        put_at(&mut items, *place, *value, 9)?;
    }
    Ok(items)
}

#[test]
fn a_table_grows_to_the_place(rt: HostRuntime) -> Result<(), Fail> {
    let table = table_of(rt.alloc(), &[(3, 5), (0, 6), (3, 7), (4, 8)])?;
    assert!(rt; table.as_slice() == [6, 9, 9, 7, 8].as_slice());
    Ok(())
}
