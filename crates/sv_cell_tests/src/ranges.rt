//! Lines of 40 cells in pieces. The expected pieces are worked out by hand.
ghost use Rattle.std.specs.Prelude.{◌<◌, ◌≤◌, ◌↔◌, IsTrue};

use crate::number::Number;
use std::alloc::{AllocError, Global};
use std::test::Fail;
use sv_range::Span;
use sv_rangemap::RangeMap;

// What is done to a line.
#[derive(Clone, Copy)]
enum Edit {
    SplitAt(u64),
    SplitSpan(u64, u64),
    // The cells of the span get a value.
    Fill(u64, u64, u64),
    // The cells of each piece of the span get the piece's end as their value.
    FillWithEnds(u64, u64),
    // The piece at the place gets a value.
    Replace(usize, u64),
    Join,
}

// A line after some edits: its pieces, each with its start, end and value, and the places of some cells.
#[derive(Clone, Copy)]
struct Row {
    edits: &'static [Edit],
    pieces: &'static [(u64, u64, u64)],
    places: &'static [(u64, usize)],
}

static ROWS: [Row; 11] = [
    Row {
        edits: &[],
        pieces: &[(0, 40, 1)],
        places: &[(0, 0), (39, 0)],
    },
    Row {
        edits: &[Edit::SplitAt(0)],
        pieces: &[(0, 40, 1)],
        places: &[(0, 0)],
    },
    Row {
        edits: &[Edit::SplitAt(39), Edit::SplitAt(16), Edit::SplitAt(16)],
        pieces: &[(0, 16, 1), (16, 39, 1), (39, 40, 1)],
        places: &[(15, 0), (16, 1), (38, 1), (39, 2)],
    },
    Row {
        edits: &[Edit::SplitSpan(8, 24)],
        pieces: &[(0, 8, 1), (8, 24, 1), (24, 40, 1)],
        places: &[(7, 0), (8, 1), (23, 1), (24, 2)],
    },
    Row {
        edits: &[Edit::SplitSpan(0, 40)],
        pieces: &[(0, 40, 1)],
        places: &[(20, 0)],
    },
    Row {
        edits: &[Edit::Fill(8, 24, 2)],
        pieces: &[(0, 8, 1), (8, 24, 2), (24, 40, 1)],
        places: &[(7, 0), (8, 1), (23, 1), (24, 2)],
    },
    Row {
        edits: &[Edit::Fill(0, 16, 2), Edit::Fill(8, 24, 3)],
        pieces: &[(0, 8, 2), (8, 16, 3), (16, 24, 3), (24, 40, 1)],
        places: &[(7, 0), (8, 1), (16, 2), (39, 3)],
    },
    Row {
        edits: &[Edit::Fill(0, 16, 2), Edit::Fill(8, 24, 3), Edit::Join],
        pieces: &[(0, 8, 2), (8, 24, 3), (24, 40, 1)],
        places: &[(7, 0), (8, 1), (23, 1), (24, 2)],
    },
    Row {
        edits: &[Edit::SplitAt(16), Edit::FillWithEnds(8, 24)],
        pieces: &[(0, 8, 1), (8, 16, 16), (16, 24, 24), (24, 40, 1)],
        places: &[(8, 1), (23, 2)],
    },
    Row {
        edits: &[Edit::SplitSpan(10, 30), Edit::Replace(1, 5), Edit::Join],
        pieces: &[(0, 10, 1), (10, 30, 5), (30, 40, 1)],
        places: &[(9, 0), (29, 1), (30, 2)],
    },
    Row {
        edits: &[
            Edit::SplitSpan(10, 30),
            Edit::Replace(1, 5),
            Edit::Fill(10, 30, 1),
            Edit::Join,
        ],
        pieces: &[(0, 40, 1)],
        places: &[(39, 0)],
    },
];

// Whether the line has the cells, of which there are some.
fn has(line: &RangeMap<Number>, start: u64, end: u64) -> bool
    ensures { IsTrue result ↔ ((start < end) × (end ≤ line.now.size)) }
{
    start < end && end <= line.size()
}

fn split_at(line: &mut RangeMap<Number>, cell: u64) -> Result<bool, AllocError> {
    if cell >= line.size() {
        return Ok(false);
    }
    line.split_at(cell)?;
    Ok(true)
}

fn split_span(line: &mut RangeMap<Number>, start: u64, end: u64) -> Result<bool, AllocError> {
    if !has(line, start, end) {
        return Ok(false);
    }
    line.split_span(Span { start, end })?;
    Ok(true)
}

fn fill(line: &mut RangeMap<Number>, start: u64, end: u64, value: u64) -> Result<bool, AllocError> {
    if !has(line, start, end) {
        return Ok(false);
    }
    line.update(Span { start, end }, |_, number| {
        number.value = value;
        Ok(())
    })?;
    Ok(true)
}

fn fill_with_ends(line: &mut RangeMap<Number>, start: u64, end: u64) -> Result<bool, AllocError> {
    if !has(line, start, end) {
        return Ok(false);
    }
    line.update(Span { start, end }, |span, number| {
        number.value = span.end;
        Ok(())
    })?;
    Ok(true)
}

fn replace(line: &mut RangeMap<Number>, place: usize, value: u64) -> bool {
    if place >= line.len() {
        return false;
    }
    let (_, before) = line.piece(place);
    let before = before.value;
    let had = line.replace(place, Number { value });
    had.value == before
}

// Makes the edit. Tells whether it could be made.
fn make(line: &mut RangeMap<Number>, edit: Edit) -> Result<bool, AllocError> {
    match edit {
        Edit::SplitAt(cell) => split_at(line, cell),
        Edit::SplitSpan(start, end) => split_span(line, start, end),
        Edit::Fill(start, end, value) => fill(line, start, end, value),
        Edit::FillWithEnds(start, end) => fill_with_ends(line, start, end),
        Edit::Replace(place, value) => Ok(replace(line, place, value)),
        Edit::Join => {
            line.join_equal();
            Ok(true)
        }
    }
}

// The line after the edits, which is None where one could not be made.
fn line_after(alloc: Global, edits: &[Edit]) -> Result<Option<RangeMap<Number>>, AllocError> {
    let mut line = RangeMap::new(alloc, 40, Number { value: 1 })?;
    for edit in edits {
        if !make(&mut line, *edit)? {
            return Ok(None);
        }
    }
    Ok(Some(line))
}

fn has_piece(line: &RangeMap<Number>, index: usize, start: u64, end: u64, value: u64) -> bool {
    if index >= line.len() {
        return false;
    }
    let (span, number) = line.piece(index);
    span.start == start && span.end == end && number.value == value
}

fn has_pieces(line: &RangeMap<Number>, pieces: &[(u64, u64, u64)]) -> bool {
    if line.len() != pieces.len() {
        return false;
    }
    for index in 0..pieces.len() {
        let (start, end, value) = pieces[index];
        if !has_piece(line, index, start, end, value) {
            return false;
        }
    }
    true
}

// Whether the cell is found in the piece at that place, and has that piece's value.
fn is_at(line: &RangeMap<Number>, cell: u64, place: usize) -> bool {
    if cell >= line.size() {
        return false;
    }
    let found = line.index_of(cell);
    let (_, number) = line.piece(found);
    found == place && line.get(cell).value == number.value
}

fn are_at(line: &RangeMap<Number>, places: &[(u64, usize)]) -> bool {
    for (cell, place) in places {
        if !is_at(line, *cell, *place) {
            return false;
        }
    }
    true
}

fn agrees(alloc: Global, row: &Row) -> Result<bool, AllocError> {
    match line_after(alloc, row.edits)? {
        None => Ok(false),
        Some(line) => Ok(has_pieces(&line, row.pieces) && are_at(&line, row.places)),
    }
}

#[test]
fn pieces_are_cut_and_joined(rt: HostRuntime) -> Result<(), Fail> {
    for index in 0..ROWS.len() {
        let agrees = agrees(rt.alloc(), &ROWS[index])?;
        assert!(rt; agrees, "row {index}");
    }
    Ok(())
}
