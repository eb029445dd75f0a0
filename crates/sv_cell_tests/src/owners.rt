//! Owners, and the notes on them. The expected ones are worked out by hand.
ghost use Rattle.sv_cell_tests.specs.Standing.{AreCellsOf};

use crate::acts::{Act, Change, NOTHING, place_of};
use crate::areas::At;
use crate::cells::{Tried, take_all};
use crate::texts::{CONCURRENT, PLAIN};
use std::alloc::{AllocError, Global};
use std::test::Fail;
use sv_mask::{Layout, Usage};
use sv_model::work::{Note, Owner, OwnerNote, OwnerWhat};

// Reads and writes of copies, and sampled reads of fragment shaders.
const COPY_READ: u8 = 34;

const COPY_WRITE: u8 = 37;

const SAMPLED_READ: u8 = 20;

const READS: OwnerWhat = OwnerWhat::Use(Usage(COPY_READ));

const SAMPLES: OwnerWhat = OwnerWhat::Use(Usage(SAMPLED_READ));

const NOBODY: Owner = Owner::Nobody;

const ZERO: Owner = Owner::Family(0);

const ONE: Owner = Owner::Family(1);

// The first bytes of the buffer; all cells of the image, its second mip, and its first cell.
const BYTES: At = At::Bytes(0, 16);

const WHOLE: At = At::Image(0, 3, 0, 4);

const MIP: At = At::Image(1, 1, 0, 4);

const FIRST: At = At::Image(0, 1, 0, 1);

const LAYOUTS: Option<(Layout, Layout)> = Some((Layout::General, Layout::ShaderReadOnlyOptimal));

const WRITE: Act = Act::Use(0, COPY_WRITE, BYTES, None);

const READ_BY_ONE: Act = Act::Use(1, COPY_READ, BYTES, None);

const RELEASE: Act = Act::Element(NOTHING, BYTES, Change::Release(0, 1, None));

const ACQUIRE: Act = Act::Element(NOTHING, BYTES, Change::Acquire(0, 1, None));

// The other way round.
const RELEASE_BACK: Act = Act::Element(NOTHING, BYTES, Change::Release(1, 0, None));

// The image comes from undefined to general, on queue 0.
const BEGIN: Act = Act::Element(
    NOTHING,
    WHOLE,
    Change::Layouts(0, Layout::Undefined, Layout::General),
);

// A note: the number of its act, its cells, what was done, and the owner that was found.
type Said = (u64, At, OwnerWhat, Owner);

// Acts, all notes on them, and the owners of some cells then, by their resource and number.
#[derive(Clone, Copy)]
struct Row {
    text: &'static str,
    acts: &'static [Act],
    notes: &'static [Said],
    owners: &'static [(u32, u64, Owner)],
}

static ROWS: [Row; 19] = [
    Row {
        text: PLAIN,
        acts: &[],
        notes: &[],
        owners: &[(0, 0, NOBODY), (0, 63, NOBODY), (1, 11, NOBODY)],
    },
    // bytes that two families use, and then one of them
    Row {
        text: PLAIN,
        acts: &[
            Act::Use(0, COPY_WRITE, At::Bytes(0, 32), None),
            Act::Use(1, COPY_READ, At::Bytes(16, 48), None),
        ],
        notes: &[(1, At::Bytes(16, 32), READS, ZERO)],
        owners: &[(0, 15, ZERO), (0, 16, ONE), (0, 47, ONE), (0, 48, NOBODY)],
    },
    Row {
        text: PLAIN,
        acts: &[
            Act::Use(0, COPY_WRITE, At::Bytes(0, 32), None),
            Act::Use(1, COPY_READ, At::Bytes(16, 48), None),
            Act::Use(0, COPY_READ, At::Bytes(0, 64), None),
        ],
        notes: &[
            (1, At::Bytes(16, 32), READS, ZERO),
            (2, At::Bytes(16, 48), READS, ONE),
        ],
        owners: &[(0, 0, ZERO), (0, 40, ZERO), (0, 63, ZERO)],
    },
    // a run for each mip
    Row {
        text: PLAIN,
        acts: &[
            Act::Use(0, SAMPLED_READ, At::Image(0, 2, 0, 4), None),
            Act::Use(1, SAMPLED_READ, At::Image(0, 3, 1, 2), None),
        ],
        notes: &[
            (1, At::Image(0, 1, 1, 2), SAMPLES, ZERO),
            (1, At::Image(1, 1, 1, 2), SAMPLES, ZERO),
        ],
        owners: &[(1, 4, ZERO), (1, 5, ONE), (1, 8, NOBODY), (1, 9, ONE)],
    },
    // a release, and a use or an acquire behind it
    Row {
        text: PLAIN,
        acts: &[WRITE, RELEASE],
        notes: &[],
        owners: &[(0, 15, Owner::Released(0, 1)), (0, 16, NOBODY)],
    },
    Row {
        text: PLAIN,
        acts: &[WRITE, RELEASE, READ_BY_ONE],
        notes: &[(2, BYTES, READS, Owner::Released(0, 1))],
        owners: &[(0, 15, ONE)],
    },
    Row {
        text: PLAIN,
        acts: &[WRITE, RELEASE, ACQUIRE, READ_BY_ONE],
        notes: &[],
        owners: &[(0, 15, ONE)],
    },
    // an acquire without its release
    Row {
        text: PLAIN,
        acts: &[ACQUIRE],
        notes: &[(0, BYTES, OwnerWhat::Acquire, NOBODY)],
        owners: &[(0, 15, ONE), (0, 16, NOBODY)],
    },
    Row {
        text: PLAIN,
        acts: &[WRITE, ACQUIRE],
        notes: &[(1, BYTES, OwnerWhat::Acquire, ZERO)],
        owners: &[(0, 15, ONE)],
    },
    Row {
        text: PLAIN,
        acts: &[RELEASE_BACK, ACQUIRE],
        notes: &[(1, BYTES, OwnerWhat::Acquire, Owner::Released(1, 0))],
        owners: &[(0, 15, ONE)],
    },
    // a release of what another family owns, and of what is released
    Row {
        text: PLAIN,
        acts: &[WRITE, RELEASE_BACK, RELEASE],
        notes: &[
            (1, BYTES, OwnerWhat::Release, ZERO),
            (2, BYTES, OwnerWhat::Release, Owner::Released(1, 0)),
        ],
        owners: &[(0, 15, Owner::Released(0, 1))],
    },
    Row {
        text: PLAIN,
        acts: &[
            WRITE,
            Act::Use(1, COPY_READ, At::Bytes(16, 32), None),
            Act::Element(NOTHING, At::Bytes(8, 24), Change::Release(0, 1, None)),
        ],
        notes: &[(2, At::Bytes(16, 24), OwnerWhat::Release, ONE)],
        owners: &[
            (0, 7, ZERO),
            (0, 8, Owner::Released(0, 1)),
            (0, 23, Owner::Released(0, 1)),
            (0, 24, ONE),
        ],
    },
    // transitions: from undefined, from another layout, from undefined again
    Row {
        text: PLAIN,
        acts: &[
            BEGIN,
            Act::Element(
                NOTHING,
                MIP,
                Change::Layouts(1, Layout::General, Layout::TransferSrcOptimal),
            ),
        ],
        notes: &[(1, MIP, OwnerWhat::Transition, ZERO)],
        owners: &[(1, 3, ZERO), (1, 4, ONE), (1, 7, ONE), (1, 8, ZERO)],
    },
    Row {
        text: PLAIN,
        acts: &[
            BEGIN,
            Act::Element(
                NOTHING,
                MIP,
                Change::Layouts(1, Layout::Undefined, Layout::TransferSrcOptimal),
            ),
        ],
        notes: &[],
        owners: &[(1, 3, ZERO), (1, 4, ONE), (1, 7, ONE), (1, 8, ZERO)],
    },
    Row {
        text: PLAIN,
        acts: &[
            Act::Element(NOTHING, FIRST, Change::Release(0, 1, None)),
            Act::Element(
                NOTHING,
                FIRST,
                Change::Layouts(0, Layout::General, Layout::TransferSrcOptimal),
            ),
        ],
        notes: &[(1, FIRST, OwnerWhat::Transition, Owner::Released(0, 1))],
        owners: &[(1, 0, ZERO), (1, 1, NOBODY)],
    },
    // equal layouts, and a barrier on all, do nothing to owners
    Row {
        text: PLAIN,
        acts: &[
            BEGIN,
            Act::Element(
                NOTHING,
                WHOLE,
                Change::Layouts(1, Layout::General, Layout::General),
            ),
            Act::Barrier(NOTHING),
        ],
        notes: &[],
        owners: &[(1, 0, ZERO), (0, 0, NOBODY)],
    },
    // the transition of a transfer belongs to the transfer
    Row {
        text: PLAIN,
        acts: &[
            BEGIN,
            Act::Element(NOTHING, FIRST, Change::Release(0, 1, LAYOUTS)),
            Act::Element(NOTHING, FIRST, Change::Acquire(0, 1, LAYOUTS)),
        ],
        notes: &[],
        owners: &[(1, 0, ONE), (1, 1, ZERO)],
    },
    Row {
        text: PLAIN,
        acts: &[
            BEGIN,
            Act::Element(NOTHING, FIRST, Change::Acquire(0, 1, LAYOUTS)),
        ],
        notes: &[(1, FIRST, OwnerWhat::Acquire, ZERO)],
        owners: &[(1, 0, ONE), (1, 1, ZERO)],
    },
    // concurrent resources
    Row {
        text: CONCURRENT,
        acts: &[WRITE, READ_BY_ONE, ACQUIRE, RELEASE_BACK, RELEASE],
        notes: &[],
        owners: &[],
    },
];

fn note_of(said: Said) -> Note {
    let (step, at, what, found) = said;
    Note::Owner(OwnerNote {
        area: at.area(),
        what,
        place: place_of(step),
        found,
        step,
        pos: 0,
        part: 0,
        reports_before: 0,
    })
}

fn are_notes(notes: &[Note], owed: &[Said]) -> bool {
    if notes.len() != owed.len() {
        return false;
    }
    for index in 0..owed.len() {
        if notes[index] != note_of(owed[index]) {
            return false;
        }
    }
    true
}

fn has_owners(tried: &Tried, owners: &[(u32, u64, Owner)]) -> bool
    requires { AreCellsOf tried.now.trace tried.now.cells.space tried.now.cells.layouts
        tried.now.cells.owners }
{
    for (res, number, owner) in owners {
        if tried.owner(*res, *number) != Some(*owner) {
            return false;
        }
    }
    true
}

fn agrees(alloc: Global, row: &Row) -> Result<bool, AllocError> {
    match take_all(alloc, row.text, row.acts)? {
        None => Ok(false),
        Some(tried) => {
            let notes = are_notes(tried.answers.owner_notes.as_slice(), row.notes);
            Ok(notes && has_owners(&tried, row.owners))
        }
    }
}

#[test]
fn owners_are_noted(rt: HostRuntime) -> Result<(), Fail> {
    for index in 0..ROWS.len() {
        let agrees = agrees(rt.alloc(), &ROWS[index])?;
        assert!(rt; agrees, "row {index}");
    }
    Ok(())
}
