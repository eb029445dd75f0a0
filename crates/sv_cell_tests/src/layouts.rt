//! Layouts, and the notes on them. The expected ones are worked out by hand.
ghost use Rattle.sv_cell_tests.specs.Standing.{AreCellsOf};

use crate::acts::{Act, Change, NOTHING, place_of};
use crate::areas::At;
use crate::cells::{Tried, take_all};
use crate::texts::{PLAIN, PREINITIALIZED};
use std::alloc::{AllocError, Global};
use std::test::Fail;
use sv_mask::{Layout, Usage};
use sv_model::work::{LayoutNote, Note, What};

// Reads and sampled reads of copies and of fragment shaders.
const COPY_READ: u8 = 34;

const SAMPLED_READ: u8 = 20;

const SAMPLED: Option<What> = Some(What::Use(Usage(SAMPLED_READ)));

const TRANSITION: Option<What> = Some(What::Transition);

const UNDEFINED: Layout = Layout::Undefined;

const GENERAL: Layout = Layout::General;

const READ_ONLY: Layout = Layout::ShaderReadOnlyOptimal;

const SOURCE: Layout = Layout::TransferSrcOptimal;

const TARGET: Layout = Layout::TransferDstOptimal;

// All cells of the image, and its first one.
const WHOLE: At = At::Image(0, 3, 0, 4);

const FIRST: At = At::Image(0, 1, 0, 1);

// A note: the number of its act, its cells, what was done, the layout that was declared, and the one that
// was found.
type Said = (u64, At, Option<What>, Layout, Layout);

// Acts, all notes on them, and the layouts of some cells then, by their resource and number.
#[derive(Clone, Copy)]
struct Row {
    text: &'static str,
    acts: &'static [Act],
    notes: &'static [Said],
    layouts: &'static [(u32, u64, Layout)],
}

static ROWS: [Row; 14] = [
    Row {
        text: PLAIN,
        acts: &[],
        notes: &[],
        layouts: &[(1, 0, UNDEFINED), (1, 11, UNDEFINED)],
    },
    Row {
        text: PREINITIALIZED,
        acts: &[],
        notes: &[],
        layouts: &[
            (1, 0, Layout::Preinitialized),
            (1, 11, Layout::Preinitialized),
        ],
    },
    // a declared layout that is not there
    Row {
        text: PLAIN,
        acts: &[Act::Use(0, SAMPLED_READ, FIRST, Some(READ_ONLY))],
        notes: &[(0, FIRST, SAMPLED, READ_ONLY, UNDEFINED)],
        layouts: &[(1, 0, UNDEFINED)],
    },
    // a run for each mip
    Row {
        text: PLAIN,
        acts: &[Act::Use(0, SAMPLED_READ, At::Image(0, 2, 1, 2), Some(GENERAL))],
        notes: &[
            (0, At::Image(0, 1, 1, 2), SAMPLED, GENERAL, UNDEFINED),
            (0, At::Image(1, 1, 1, 2), SAMPLED, GENERAL, UNDEFINED),
        ],
        layouts: &[],
    },
    // no layout is declared
    Row {
        text: PLAIN,
        acts: &[
            Act::Use(0, SAMPLED_READ, WHOLE, None),
            Act::Use(0, COPY_READ, At::Bytes(0, 16), None),
        ],
        notes: &[],
        layouts: &[(1, 0, UNDEFINED)],
    },
    // some layers of a mip get another layout
    Row {
        text: PLAIN,
        acts: &[
            Act::Element(NOTHING, WHOLE, Change::Layouts(0, UNDEFINED, TARGET)),
            Act::Element(
                NOTHING,
                At::Image(1, 1, 1, 2),
                Change::Layouts(0, GENERAL, READ_ONLY),
            ),
            Act::Use(0, SAMPLED_READ, WHOLE, Some(TARGET)),
        ],
        notes: &[
            (1, At::Image(1, 1, 1, 2), TRANSITION, GENERAL, TARGET),
            (2, At::Image(1, 1, 1, 2), SAMPLED, TARGET, READ_ONLY),
        ],
        layouts: &[
            (1, 3, TARGET),
            (1, 4, TARGET),
            (1, 5, READ_ONLY),
            (1, 6, READ_ONLY),
            (1, 7, TARGET),
            (1, 8, TARGET),
        ],
    },
    // and come back
    Row {
        text: PLAIN,
        acts: &[
            Act::Element(NOTHING, WHOLE, Change::Layouts(0, UNDEFINED, TARGET)),
            Act::Element(
                NOTHING,
                At::Image(1, 1, 1, 2),
                Change::Layouts(0, TARGET, READ_ONLY),
            ),
            Act::Element(
                NOTHING,
                At::Image(1, 1, 1, 2),
                Change::Layouts(0, READ_ONLY, TARGET),
            ),
            Act::Use(0, SAMPLED_READ, WHOLE, Some(GENERAL)),
        ],
        notes: &[
            (3, At::Image(0, 1, 0, 4), SAMPLED, GENERAL, TARGET),
            (3, At::Image(1, 1, 0, 4), SAMPLED, GENERAL, TARGET),
            (3, At::Image(2, 1, 0, 4), SAMPLED, GENERAL, TARGET),
        ],
        layouts: &[(1, 5, TARGET)],
    },
    // two halves of a mip that come to one layout, and then a layer to another
    Row {
        text: PLAIN,
        acts: &[
            Act::Element(
                NOTHING,
                At::Image(0, 1, 0, 2),
                Change::Layouts(0, UNDEFINED, GENERAL),
            ),
            Act::Element(
                NOTHING,
                At::Image(0, 1, 2, 2),
                Change::Layouts(0, UNDEFINED, GENERAL),
            ),
            Act::Use(0, SAMPLED_READ, At::Image(0, 1, 0, 4), Some(READ_ONLY)),
            Act::Element(
                NOTHING,
                At::Image(0, 1, 2, 1),
                Change::Layouts(0, GENERAL, SOURCE),
            ),
            Act::Use(0, SAMPLED_READ, At::Image(0, 1, 0, 4), Some(READ_ONLY)),
        ],
        notes: &[
            (2, At::Image(0, 1, 0, 4), SAMPLED, READ_ONLY, GENERAL),
            (4, At::Image(0, 1, 0, 2), SAMPLED, READ_ONLY, GENERAL),
            (4, At::Image(0, 1, 2, 1), SAMPLED, READ_ONLY, SOURCE),
            (4, At::Image(0, 1, 3, 1), SAMPLED, READ_ONLY, GENERAL),
        ],
        layouts: &[(1, 1, GENERAL), (1, 2, SOURCE), (1, 3, GENERAL)],
    },
    // an element without a transition
    Row {
        text: PLAIN,
        acts: &[Act::Element(NOTHING, FIRST, Change::Layouts(0, GENERAL, GENERAL))],
        notes: &[(0, FIRST, None, GENERAL, UNDEFINED)],
        layouts: &[(1, 0, UNDEFINED)],
    },
    // undefined takes what is there
    Row {
        text: PLAIN,
        acts: &[
            Act::Element(NOTHING, FIRST, Change::Layouts(0, UNDEFINED, GENERAL)),
            Act::Element(NOTHING, FIRST, Change::Layouts(0, UNDEFINED, TARGET)),
            Act::Element(
                NOTHING,
                FIRST,
                Change::Release(0, 1, Some((UNDEFINED, READ_ONLY))),
            ),
        ],
        notes: &[],
        layouts: &[(1, 0, TARGET), (1, 1, UNDEFINED)],
    },
    // a release leaves the layout, and its acquire changes it
    Row {
        text: PLAIN,
        acts: &[
            Act::Element(NOTHING, WHOLE, Change::Layouts(0, UNDEFINED, GENERAL)),
            Act::Element(
                NOTHING,
                FIRST,
                Change::Release(0, 1, Some((GENERAL, READ_ONLY))),
            ),
        ],
        notes: &[],
        layouts: &[(1, 0, GENERAL)],
    },
    Row {
        text: PLAIN,
        acts: &[
            Act::Element(NOTHING, WHOLE, Change::Layouts(0, UNDEFINED, GENERAL)),
            Act::Element(
                NOTHING,
                FIRST,
                Change::Release(0, 1, Some((GENERAL, READ_ONLY))),
            ),
            Act::Use(0, SAMPLED_READ, FIRST, Some(READ_ONLY)),
            Act::Element(
                NOTHING,
                FIRST,
                Change::Acquire(0, 1, Some((GENERAL, READ_ONLY))),
            ),
            Act::Use(1, SAMPLED_READ, FIRST, Some(READ_ONLY)),
        ],
        notes: &[(2, FIRST, SAMPLED, READ_ONLY, GENERAL)],
        layouts: &[(1, 0, READ_ONLY), (1, 1, GENERAL)],
    },
    // both with another old layout
    Row {
        text: PLAIN,
        acts: &[
            Act::Element(NOTHING, FIRST, Change::Layouts(0, UNDEFINED, GENERAL)),
            Act::Element(
                NOTHING,
                FIRST,
                Change::Release(0, 1, Some((TARGET, READ_ONLY))),
            ),
            Act::Element(
                NOTHING,
                FIRST,
                Change::Acquire(0, 1, Some((SOURCE, READ_ONLY))),
            ),
        ],
        notes: &[
            (1, FIRST, None, TARGET, GENERAL),
            (2, FIRST, TRANSITION, SOURCE, GENERAL),
        ],
        layouts: &[(1, 0, READ_ONLY)],
    },
    // bytes have no layouts
    Row {
        text: PLAIN,
        acts: &[
            Act::Element(NOTHING, At::Bytes(0, 16), Change::Nothing),
            Act::Element(NOTHING, At::Bytes(0, 16), Change::Release(0, 1, None)),
        ],
        notes: &[],
        layouts: &[],
    },
];

fn note_of(said: Said) -> Note {
    let (step, at, what, declared, found) = said;
    Note::Layout(LayoutNote {
        area: at.area(),
        what,
        place: place_of(step),
        declared,
        found,
        step,
        pos: 0,
        part: 0,
        reports_before: 0,
    })
}

fn are_notes(notes: &[Note], owed: &[Said]) -> bool {
    if notes.len() != owed.len() {
        return false;
    }
    for index in 0..owed.len() {
        if notes[index] != note_of(owed[index]) {
            return false;
        }
    }
    true
}

fn has_layouts(tried: &Tried, layouts: &[(u32, u64, Layout)]) -> bool
    requires { AreCellsOf tried.now.trace tried.now.cells.space tried.now.cells.layouts
        tried.now.cells.owners }
{
    for (res, number, layout) in layouts {
        if tried.layout(*res, *number) != Some(*layout) {
            return false;
        }
    }
    true
}

fn agrees(alloc: Global, row: &Row) -> Result<bool, AllocError> {
    match take_all(alloc, row.text, row.acts)? {
        None => Ok(false),
        Some(tried) => {
            let notes = are_notes(tried.answers.layout_notes.as_slice(), row.notes);
            Ok(notes && has_layouts(&tried, row.layouts))
        }
    }
}

#[test]
fn layouts_are_noted(rt: HostRuntime) -> Result<(), Fail> {
    for index in 0..ROWS.len() {
        let agrees = agrees(rt.alloc(), &ROWS[index])?;
        assert!(rt; agrees, "row {index}");
    }
    Ok(())
}
