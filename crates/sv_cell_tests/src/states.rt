//! Small stories of one byte. The expected answers are worked out by hand.
use std::alloc::{AllocError, Global};
use std::test::Fail;
use sv_mask::{Stages, Usage, Usages};
use sv_model::work::{Access, Area, Dep, Group, Kind, Place, Track, What};
use sv_range::{List, Span};
use sv_state::CellState;

// Stages, and usages at them: reads and writes of copies, reads of blits, sampled reads and storage writes of
// fragment shaders.
const COPY: u32 = 1 << 12;

const BLIT: u32 = 1 << 14;

const COMPUTE: u32 = 1 << 11;

const COPY_READ: u8 = 34;

const BLIT_READ: u8 = 36;

const COPY_WRITE: u8 = 37;

const SAMPLED_READ: u8 = 20;

const STORAGE_WRITE: u8 = 22;

// What is done to a state.
#[derive(Clone, Copy)]
enum Move {
    // An access of the queue in each step from the first one up to the end.
    Use {
        queue: u32,
        usage: u8,
        first: u64,
        end: u64,
    },
    // A barrier of queue 0: the stages and usages of its two scopes.
    Barrier {
        step: u64,
        s1: u32,
        a1: u64,
        s2: u32,
        a2: u64,
    },
    Restart,
    // A copy takes the state's place.
    Copy,
}

// What is done to the state, how many accesses are kept then, and with which step a later access of queue 0
// races.
#[derive(Clone, Copy)]
struct Row {
    moves: &'static [Move],
    kept: usize,
    later: u8,
    races: Option<(u64, Kind)>,
}

const WRITE: Move = Move::Use {
    queue: 0,
    usage: COPY_WRITE,
    first: 0,
    end: 1,
};

const READ: Move = Move::Use {
    queue: 0,
    usage: COPY_READ,
    first: 0,
    end: 1,
};

const THEN_BLIT_READ: Move = Move::Use {
    queue: 0,
    usage: BLIT_READ,
    first: 1,
    end: 2,
};

// Behind these stages, whose writes are not made available, come copies.
const COPY_TO_COPY: Move = Move::Barrier {
    step: 2,
    s1: COPY,
    a1: 0,
    s2: COPY,
    a2: 0,
};

const BLIT_TO_COPY: Move = Move::Barrier {
    step: 2,
    s1: BLIT,
    a1: 0,
    s2: COPY,
    a2: 0,
};

const BOTH_TO_COPY: Move = Move::Barrier {
    step: 2,
    s1: COPY | BLIT,
    a1: 0,
    s2: COPY,
    a2: 0,
};

// The writes of copies are made available and visible to their reads.
const WRITES_TO_READS: Move = Move::Barrier {
    step: 1,
    s1: COPY,
    a1: 1 << 37,
    s2: COPY,
    a2: 1 << 34,
};

const WRITES_TO_COMPUTE: Move = Move::Barrier {
    step: 1,
    s1: COPY,
    a1: 1 << 37,
    s2: COMPUTE,
    a2: 0,
};

// To the sampled reads of fragment shaders and the stages behind: from compute shaders and indirect draws,
// and from vertex shaders and the stages before.
const COMPUTE_TO_FRAGMENT: Move = Move::Barrier {
    step: 2,
    s1: COMPUTE | 1,
    a1: 0,
    s2: 0x700,
    a2: 1 << 20,
};

const VERTEX_TO_FRAGMENT: Move = Move::Barrier {
    step: 2,
    s1: 0xf,
    a1: 0,
    s2: 0x700,
    a2: 1 << 20,
};

// From copies to vertex shaders and the graphics stages behind.
const COPY_TO_VERTEX: Move = Move::Barrier {
    step: 1,
    s1: COPY,
    a1: 1 << 37,
    s2: 0x7f8,
    a2: 1 << 6,
};

static ROWS: [Row; 18] = [
    Row {
        moves: &[],
        kept: 0,
        later: COPY_WRITE,
        races: None,
    },
    // of a thousand reads the last one is kept
    Row {
        moves: &[Move::Use {
            queue: 0,
            usage: COPY_READ,
            first: 0,
            end: 1000,
        }],
        kept: 1,
        later: COPY_WRITE,
        races: Some((999, Kind::War)),
    },
    Row {
        moves: &[Move::Use {
            queue: 0,
            usage: COPY_READ,
            first: 0,
            end: 1000,
        }],
        kept: 1,
        later: COPY_READ,
        races: None,
    },
    // reads of two queues
    Row {
        moves: &[
            READ,
            Move::Use {
                queue: 1,
                usage: COPY_READ,
                first: 1,
                end: 2,
            },
        ],
        kept: 2,
        later: COPY_WRITE,
        races: Some((1, Kind::War)),
    },
    // reads at two stages: none is ordered, one of the two, both
    Row {
        moves: &[READ, THEN_BLIT_READ],
        kept: 2,
        later: COPY_WRITE,
        races: Some((1, Kind::War)),
    },
    Row {
        moves: &[READ, THEN_BLIT_READ, COPY_TO_COPY],
        kept: 2,
        later: COPY_WRITE,
        races: Some((1, Kind::War)),
    },
    Row {
        moves: &[READ, THEN_BLIT_READ, BLIT_TO_COPY],
        kept: 2,
        later: COPY_WRITE,
        races: Some((0, Kind::War)),
    },
    Row {
        moves: &[READ, THEN_BLIT_READ, BOTH_TO_COPY],
        kept: 2,
        later: COPY_WRITE,
        races: None,
    },
    // the write takes the place of both
    Row {
        moves: &[
            READ,
            THEN_BLIT_READ,
            BOTH_TO_COPY,
            Move::Use {
                queue: 0,
                usage: COPY_WRITE,
                first: 3,
                end: 4,
            },
        ],
        kept: 1,
        later: COPY_READ,
        races: Some((3, Kind::Raw)),
    },
    // a write, and what comes behind a barrier
    Row {
        moves: &[WRITE],
        kept: 1,
        later: COPY_READ,
        races: Some((0, Kind::Raw)),
    },
    Row {
        moves: &[WRITE, WRITES_TO_READS],
        kept: 1,
        later: COPY_READ,
        races: None,
    },
    Row {
        moves: &[WRITE, WRITES_TO_READS],
        kept: 1,
        later: COPY_WRITE,
        races: Some((0, Kind::Waw)),
    },
    Row {
        moves: &[WRITE, COPY_TO_COPY],
        kept: 1,
        later: COPY_READ,
        races: Some((0, Kind::Raw)),
    },
    // two barriers, of which the second goes on from the first or does not
    Row {
        moves: &[WRITE, WRITES_TO_COMPUTE, COMPUTE_TO_FRAGMENT],
        kept: 1,
        later: SAMPLED_READ,
        races: None,
    },
    Row {
        moves: &[WRITE, WRITES_TO_COMPUTE, Move::Copy, VERTEX_TO_FRAGMENT],
        kept: 1,
        later: SAMPLED_READ,
        races: Some((0, Kind::Raw)),
    },
    // stages suffice for what was read, and not for what was written
    Row {
        moves: &[READ, Move::Copy, COPY_TO_VERTEX, Move::Copy],
        kept: 1,
        later: STORAGE_WRITE,
        races: None,
    },
    Row {
        moves: &[WRITE, COPY_TO_VERTEX, Move::Copy],
        kept: 1,
        later: STORAGE_WRITE,
        races: Some((0, Kind::Waw)),
    },
    Row {
        moves: &[WRITE, Move::Restart],
        kept: 0,
        later: COPY_READ,
        races: None,
    },
];

fn place() -> Place {
    Place {
        event: 0,
        batch: 0,
        slot: 0,
        rec: 0,
        cmd: 0,
    }
}

fn byte() -> Area {
    Area::Bytes {
        res: 0,
        span: Span { start: 8, end: 9 },
    }
}

fn access(queue: u32, usage: u8, step: u64) -> Access {
    Access {
        area: byte(),
        what: What::Use(Usage(usage)),
        queue,
        sub: None,
        layout: None,
        place: place(),
        step,
        pos: 0,
    }
}

fn group_of(alloc: Global, step: u64, dep: Dep) -> Result<Group, AllocError> {
    let deps = vec![in alloc; dep]?;
    Ok(Group {
        step,
        place: place(),
        deps: List::from_vec(deps),
        transitions: List::new(alloc),
        olds: List::new(alloc),
        transfer: None,
    })
}

fn barrier(s1: u32, a1: u64, s2: u32, a2: u64) -> Dep {
    Dep {
        from: Track::Queue(0),
        s1: Stages(s1),
        a1: Usages(a1),
        to: Track::Queue(0),
        s2: Stages(s2),
        a2: Usages(a2),
        range: None,
    }
}

fn record_each(
    state: &mut CellState,
    queue: u32,
    usage: u8,
    first: u64,
    end: u64,
) -> Result<(), AllocError> {
    for step in first..end {
        state.record(&[access(queue, usage, step)])?;
    }
    Ok(())
}

fn make(alloc: Global, state: &mut CellState, next: Move) -> Result<(), AllocError> {
    match next {
        Move::Use {
            queue,
            usage,
            first,
            end,
        } => record_each(state, queue, usage, first, end),
        Move::Barrier {
            step,
            s1,
            a1,
            s2,
            a2,
        } => {
            let group = group_of(alloc, step, barrier(s1, a1, s2, a2))?;
            state.extend(&group, &byte())
        }
        Move::Restart => {
            state.restart();
            Ok(())
        }
        Move::Copy => {
            let copied = state.copy()?;
            *state = copied;
            Ok(())
        }
    }
}

fn state_after(alloc: Global, moves: &[Move]) -> Result<CellState, AllocError> {
    let mut state = CellState::new(alloc);
    for next in moves {
        make(alloc, &mut state, *next)?;
    }
    Ok(state)
}

// The step and the kind of what the access races with.
fn races(state: &CellState, access: &Access) -> Option<(u64, Kind)> {
    match state.check(access, None) {
        None => None,
        Some(partner) => Some((partner.access.step, partner.kind)),
    }
}

fn agrees(alloc: Global, row: &Row) -> Result<bool, AllocError> {
    let state = state_after(alloc, row.moves)?;
    let later = access(0, row.later, 5000);
    Ok(state.kept() == row.kept && races(&state, &later) == row.races)
}

#[test]
fn races_are_found_among_what_is_kept(rt: HostRuntime) -> Result<(), Fail> {
    for index in 0..ROWS.len() {
        let agrees = agrees(rt.alloc(), &ROWS[index])?;
        assert!(rt; agrees, "row {index}");
    }
    Ok(())
}
