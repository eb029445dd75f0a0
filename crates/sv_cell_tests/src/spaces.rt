//! Reports of a space, and how far the states of its cells have come. The expected ones are worked out by
//! hand.
ghost use Rattle.sv_cell_tests.specs.Standing.{AreCellsOf};

use crate::acts::{Act, Change, NOTHING, Scopes};
use crate::areas::At;
use crate::cells::{Tried, take_all};
use crate::texts::{BUFFER, PLAIN};
use std::alloc::{AllocError, Global};
use std::test::Fail;
use sv_mask::Layout;
use sv_model::work::{Area, Kind, Report};

// Reads of copies and of blits, writes of copies and of clears.
const COPY_READ: u8 = 34;

const BLIT_READ: u8 = 36;

const COPY_WRITE: u8 = 37;

const CLEAR_WRITE: u8 = 40;

const BYTES: At = At::Bytes(0, 16);

const WRITE: Act = Act::Use(0, COPY_WRITE, BYTES, None);

const READ: Act = Act::Use(0, COPY_READ, BYTES, None);

// The writes of copies are made available and visible to their reads.
const WRITES_TO_READS: Scopes = Scopes {
    s1: 1 << 12,
    a1: 1 << 37,
    s2: 1 << 12,
    a2: 1 << 34,
};

const MEMORY: Act = Act::Barrier(WRITES_TO_READS);

// Copies behind copies, without memory.
const EXECUTION: Act = Act::Barrier(Scopes {
    s1: 1 << 12,
    a1: 0,
    s2: 1 << 12,
    a2: 0,
});

// Transitions: nothing is before them, and clears or fragment shaders are behind.
const TO_CLEARS: Scopes = Scopes {
    s1: 0,
    a1: 0,
    s2: 1 << 15 | 1 << 17,
    a2: 1 << 40,
};

const TO_FRAGMENTS: Scopes = Scopes {
    s1: 0,
    a1: 0,
    s2: 0x700 | 1 << 17,
    a2: 1 << 20,
};

// All cells of the image, and its first one.
const WHOLE: At = At::Image(0, 3, 0, 4);

const FIRST: At = At::Image(0, 1, 0, 1);

// A race: its cells, the numbers of the acts of the later and the earlier access, and the kind.
type Race = (At, u64, u64, Kind);

// Acts, all reports on them, and how many groups the states of some cells were given.
#[derive(Clone, Copy)]
struct Row {
    acts: &'static [Act],
    races: &'static [Race],
    upto: &'static [(At, u64)],
}

static ROWS: [Row; 13] = [
    Row {
        acts: &[],
        races: &[],
        upto: &[(At::Bytes(0, 1), 0), (At::Image(2, 1, 3, 1), 0)],
    },
    // a read behind a write: nothing between the two, a memory barrier, an execution barrier
    Row {
        acts: &[WRITE, READ],
        races: &[(BYTES, 1, 0, Kind::Raw)],
        upto: &[(At::Bytes(0, 1), 0)],
    },
    Row {
        acts: &[WRITE, MEMORY, READ],
        races: &[],
        upto: &[
            (At::Bytes(0, 1), 1),
            (At::Bytes(15, 16), 1),
            (At::Bytes(16, 17), 0),
            (At::Bytes(32, 33), 0),
        ],
    },
    Row {
        acts: &[WRITE, EXECUTION, READ],
        races: &[(BYTES, 2, 0, Kind::Raw)],
        upto: &[],
    },
    Row {
        acts: &[READ, EXECUTION, WRITE],
        races: &[],
        upto: &[],
    },
    // groups come to a cell with its next access
    Row {
        acts: &[WRITE, MEMORY, EXECUTION, MEMORY],
        races: &[],
        upto: &[(At::Bytes(0, 1), 0)],
    },
    Row {
        acts: &[WRITE, MEMORY, EXECUTION, MEMORY, READ],
        races: &[],
        upto: &[(At::Bytes(0, 1), 3), (At::Bytes(32, 33), 0)],
    },
    // two reads, and a write that races with both
    Row {
        acts: &[
            WRITE,
            READ,
            Act::Use(0, BLIT_READ, BYTES, None),
            Act::Use(0, COPY_WRITE, BYTES, None),
        ],
        races: &[(BYTES, 1, 0, Kind::Raw), (BYTES, 3, 2, Kind::War)],
        upto: &[],
    },
    // a barrier on some bytes
    Row {
        acts: &[
            Act::Use(0, COPY_WRITE, At::Bytes(0, 32), None),
            Act::Element(WRITES_TO_READS, BYTES, Change::Nothing),
            Act::Use(0, COPY_READ, At::Bytes(8, 48), None),
        ],
        races: &[(At::Bytes(16, 32), 2, 0, Kind::Raw)],
        upto: &[
            (At::Bytes(7, 8), 0),
            (At::Bytes(8, 9), 1),
            (At::Bytes(20, 21), 1),
            (At::Bytes(47, 48), 1),
            (At::Bytes(48, 49), 0),
        ],
    },
    // writes of two queues
    Row {
        acts: &[WRITE, Act::Use(1, COPY_WRITE, BYTES, None)],
        races: &[(BYTES, 1, 0, Kind::Waw)],
        upto: &[],
    },
    // a transition behind a write
    Row {
        acts: &[
            Act::Element(
                TO_CLEARS,
                FIRST,
                Change::Layouts(0, Layout::Undefined, Layout::TransferDstOptimal),
            ),
            Act::Use(0, CLEAR_WRITE, FIRST, Some(Layout::TransferDstOptimal)),
            Act::Element(
                TO_FRAGMENTS,
                FIRST,
                Change::Layouts(0, Layout::TransferDstOptimal, Layout::ShaderReadOnlyOptimal),
            ),
        ],
        races: &[(FIRST, 2, 1, Kind::Waw)],
        upto: &[(FIRST, 1), (At::Image(0, 1, 1, 1), 0)],
    },
    // a run for each mip
    Row {
        acts: &[
            Act::Use(0, COPY_WRITE, WHOLE, None),
            Act::Use(0, COPY_READ, At::Image(0, 2, 0, 4), None),
        ],
        races: &[
            (At::Image(0, 1, 0, 4), 1, 0, Kind::Raw),
            (At::Image(1, 1, 0, 4), 1, 0, Kind::Raw),
        ],
        upto: &[],
    },
    Row {
        acts: &[
            Act::Use(0, COPY_WRITE, WHOLE, None),
            Act::Use(0, COPY_READ, At::Image(1, 2, 2, 2), None),
        ],
        races: &[
            (At::Image(1, 1, 2, 2), 1, 0, Kind::Raw),
            (At::Image(2, 1, 2, 2), 1, 0, Kind::Raw),
        ],
        upto: &[],
    },
];

fn is_race(report: &Report, race: Race) -> bool {
    let (at, later, earlier, kind) = race;
    report.area == at.area()
        && report.later.step == later
        && report.earlier.step == earlier
        && report.kind == kind
}

fn are_races(reports: &[Report], races: &[Race]) -> bool {
    if reports.len() != races.len() {
        return false;
    }
    for index in 0..races.len() {
        if !is_race(&reports[index], races[index]) {
            return false;
        }
    }
    true
}

fn has_come(tried: &Tried, upto: &[(At, u64)]) -> bool
    requires { AreCellsOf tried.now.trace tried.now.cells.space tried.now.cells.layouts
        tried.now.cells.owners }
{
    for (at, groups) in upto {
        if tried.upto(at.area()) != Some(*groups) {
            return false;
        }
    }
    true
}

fn agrees(alloc: Global, row: &Row) -> Result<bool, AllocError> {
    match take_all(alloc, PLAIN, row.acts)? {
        None => Ok(false),
        Some(tried) => {
            let races = are_races(tried.answers.reports.as_slice(), row.races);
            Ok(races && has_come(&tried, row.upto))
        }
    }
}

#[test]
fn races_are_reported(rt: HostRuntime) -> Result<(), Fail> {
    for index in 0..ROWS.len() {
        let agrees = agrees(rt.alloc(), &ROWS[index])?;
        assert!(rt; agrees, "row {index}");
    }
    Ok(())
}

// Acts on the buffer alone, and then the number of pieces, of kept accesses and of groups that were given.
static COUNTS: [(&[Act], (u64, u64, u64)); 5] = [
    (&[], (1, 0, 0)),
    (&[WRITE], (2, 1, 0)),
    // the write and the read are kept, and the first piece was given the group
    (&[WRITE, MEMORY, READ], (2, 2, 1)),
    (&[WRITE, MEMORY, EXECUTION, MEMORY, READ], (2, 2, 3)),
    // cut at 8, 16, 32 and 48: a write, both, the read that raced, the read, nothing
    (
        &[
            Act::Use(0, COPY_WRITE, At::Bytes(0, 32), None),
            Act::Element(WRITES_TO_READS, BYTES, Change::Nothing),
            Act::Use(0, COPY_READ, At::Bytes(8, 48), None),
        ],
        (5, 5, 3),
    ),
];

// The numbers of the space behind these acts on the buffer.
fn counts(alloc: Global, acts: &[Act]) -> Result<Option<(u64, u64, u64)>, AllocError> {
    match take_all(alloc, BUFFER, acts)? {
        None => Ok(None),
        Some(tried) => {
            let space = &tried.cells.space;
            Ok(Some((space.pieces(), space.kept_total(), space.caught_up())))
        }
    }
}

#[test]
fn pieces_and_groups_are_counted(rt: HostRuntime) -> Result<(), Fail> {
    for index in 0..COUNTS.len() {
        let (acts, owed) = COUNTS[index];
        let found = counts(rt.alloc(), acts)?;
        assert!(rt; found == Some(owed), "row {index}");
    }
    Ok(())
}
