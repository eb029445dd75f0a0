//! Histories that are not whole: what is kept, and what is held.
use crate::breadth::CHAIN_OF_TWO_BARRIERS;
use crate::driver::validate;
use crate::frames::FRAME;
use crate::queues::SEMAPHORE_NARROW_SIGNAL;
use crate::rows::{L0, L1, REC0, REC1, Row, differing, joined};
use std::alloc::{AllocError, Global};
use std::sync::Wait;
use std::test::Fail;
use sv_check::read_text;
use sv_core::{Counts, Validator};
use sv_model::line::Mark;
use sv_model::work::{Held, Reply};

static ROWS: [Row; 4] = [
    Row {
        text: FRAME,
        order: &[],
        owed: &["total events 0 reports 0 notes 0 held 0"],
    },
    // the submit needs recordings 1 and 2
    Row {
        text: FRAME,
        order: &[L0, L0, REC0],
        owed: &[
            "event 0 lane 0 call 0 submit queue 0",
            "event 1 lane 0 call 1 wait_fence fence 0",
            "event 2 recorder 0 publish rec 1",
            "held lane 0 call 0",
            "held lane 0 call 1",
            "total events 3 reports 0 notes 0 held 2",
        ],
    },
    // the batch needs lane 1's signal, and stands before the fence signal
    Row {
        text: FRAME,
        order: &[L0, L0, REC1, REC0, REC1],
        owed: &[
            "event 0 lane 0 call 0 submit queue 0",
            "event 1 lane 0 call 1 wait_fence fence 0",
            "event 2 recorder 1 publish rec 0",
            "event 3 recorder 0 publish rec 1",
            "event 4 recorder 1 publish rec 2",
            "held lane 0 call 1",
            "held queue 0 event 0 batch 0",
            "held queue 0 event 0 fence",
            "total events 5 reports 0 notes 0 held 3",
        ],
    },
    Row {
        text: SEMAPHORE_NARROW_SIGNAL,
        order: &[REC1, L1, L0],
        owed: &[
            "event 0 recorder 1 publish rec 1",
            "event 1 lane 1 call 0 submit queue 1",
            "event 2 lane 0 call 0 submit queue 0",
            "held lane 0 call 0",
            "held queue 1 event 1 batch 0",
            "total events 3 reports 0 notes 0 held 2",
        ],
    },
];

#[test]
fn what_is_held_is_told(rt: HostRuntime) -> Result<(), Fail> {
    assert_eq!(rt; differing(&rt, rt.alloc(), &ROWS)?, None);
    Ok(())
}

// A history, and what its validator keeps: of each reply how many reports and how many notes it has.
#[derive(Clone, Copy)]
struct Kept {
    text: &'static [&'static str],
    order: &'static [u32],
    history: &'static [Mark],
    replies: &'static [(usize, usize)],
    held: &'static [Held],
    kept_total: u64,
    counts: Counts,
}

static KEPT: [Kept; 2] = [
    // The buffer is cut once, behind the accesses. The write and the read are kept for its first piece, and
    // the read finds two barriers there that came after the write.
    Kept {
        text: CHAIN_OF_TWO_BARRIERS,
        order: &[REC0, L0],
        history: &[Mark::Publish(0), Mark::Call { lane: 0, index: 0 }],
        replies: &[(0, 0), (0, 0)],
        held: &[],
        kept_total: 2,
        counts: Counts {
            pieces: 2,
            installed: 0,
            caught_up: 2,
        },
    },
    // No access was made, so the buffer is whole.
    Kept {
        text: SEMAPHORE_NARROW_SIGNAL,
        order: &[REC1, L1],
        history: &[Mark::Publish(1), Mark::Call { lane: 1, index: 0 }],
        replies: &[(0, 0), (0, 0)],
        held: &[Held::Batch {
            queue: 1,
            event: 1,
            batch: 0,
        }],
        kept_total: 0,
        counts: Counts {
            pieces: 1,
            installed: 0,
            caught_up: 0,
        },
    },
];

// Whether the replies have these numbers of reports and of notes.
fn have_lines(replies: &[Reply], lines: &[(usize, usize)]) -> bool {
    if replies.len() != lines.len() {
        return false;
    }
    for index in 0..replies.len() {
        let (reports, notes) = lines[index];
        if replies[index].reports.len() != reports || replies[index].notes.len() != notes {
            return false;
        }
    }
    true
}

fn keeps(validator: &Validator, kept: &Kept) -> Result<bool, AllocError> {
    let held = validator.held()?;
    Ok(
        validator.history().as_slice() == kept.history
            && have_lines(validator.replies().as_slice(), kept.replies)
            && held.as_slice() == kept.held
            && validator.kept_total() == kept.kept_total
            && validator.counts() == kept.counts,
    )
}

fn kept_agrees<R: Wait>(rt: &R, alloc: Global, kept: &Kept) -> Result<bool, AllocError> {
    let text = joined(alloc, kept.text)?;
    let Ok(trace) = read_text(alloc, text.as_slice()) else {
        return Ok(false);
    };
    let (validator, _) = validate(rt, alloc, &trace, kept.order)?;
    keeps(&validator, kept)
}

#[test]
fn what_is_kept_is_told(rt: HostRuntime) -> Result<(), Fail> {
    for kept in &KEPT {
        let agrees = kept_agrees(&rt, rt.alloc(), kept)?;
        assert!(rt; agrees, "held {}", kept.held.len());
    }
    Ok(())
}
