//! Worked examples.
ghost use Rattle.std.specs.Prelude.{◌<◌, All, IfOk};
ghost use Rattle.sv_runs.specs.Grouped.{HasNoteRun, HasRun};

use super::*;
use std::alloc::{AllocError, Global};
use std::test::Fail;
use sv_mask::Layout;
use sv_model::work::{Access, Area, FenceNote, Kind, LayoutNote, Note, Place, Reply, Report, What};
use sv_range::{Cells, List, Span};

const PLACE: Place = Place {
    event: 1,
    batch: 0,
    slot: 0,
    rec: 0,
    cmd: 0,
};

fn access(step: u64) -> Access {
    Access {
        area: Area::Bytes {
            res: 0,
            span: Span { start: 0, end: 64 },
        },
        what: What::Transition,
        queue: 0,
        sub: None,
        layout: None,
        place: PLACE,
        step,
        pos: 0,
    }
}

fn report(start: u64, end: u64, later: u64) -> Report
    requires { start < end }
    ensures { HasRun result }
{
    Report {
        area: Area::Bytes {
            res: 0,
            span: Span { start, end },
        },
        later: access(later),
        earlier: access(0),
        kind: Kind::Waw,
    }
}

fn note(layer: u32, reports_before: u64) -> Note
    requires { layer < 4 }
    ensures { HasNoteRun result }
{
    Note::Layout(LayoutNote {
        area: Area::Image {
            res: 1,
            cells: Cells {
                mip: 0,
                mips: 1,
                layer,
                layers: 1,
            },
        },
        what: None,
        place: PLACE,
        declared: Layout::General,
        found: Layout::Undefined,
        step: 1,
        pos: 0,
        part: 0,
        reports_before,
    })
}

fn fence(reports_before: u64) -> Note
    ensures { HasNoteRun result }
{
    Note::Fence(FenceNote {
        fence: 0,
        event: 1,
        reports_before,
    })
}

// The ends of the reports, and the numbers of reports before the notes.
fn shape(alloc: Global, reply: &Reply) -> Result<(Vec<u64>, Vec<u64>), AllocError> {
    let mut ends = Vec::new(alloc);
    for report in reply.reports.as_slice() {
        if let Area::Bytes { span, .. } = report.area {
            ends.push(span.end)?;
        }
    }
    let mut numbers = Vec::new(alloc);
    for note in reply.notes.as_slice() {
        match *note {
            Note::Layout(layout) => numbers.push(layout.reports_before)?,
            Note::Fence(fence) => numbers.push(fence.reports_before)?,
            _ => {}
        }
    }
    Ok((ends, numbers))
}

// Two bytes of one access, then one of a later access that goes on from them; two layers with one note, and
// a fence.
fn reply(alloc: Global) -> Result<Reply, AllocError>
    ensures reports { IfOk result (λ r. All HasRun r.reports) }
    ensures notes { IfOk result (λ r. All HasNoteRun r.notes) }
{
    let (first, second, later) = (report(0, 4, 1), report(4, 8, 1), report(8, 12, 2));
    let (low, high, last) = (note(0, 2), note(1, 2), fence(3));
    Ok(Reply {
        reports: List::from_vec(vec![in alloc; first, second, later]?),
        notes: List::from_vec(vec![in alloc; low, high, last]?),
    })
}

#[test]
fn joins_neighbours(rt: HostRuntime) -> Result<(), Fail> {
    let alloc = rt.alloc();
    let reply = reply(alloc)?;
    let grouped = group(alloc, &reply)?;
    let (ends, numbers) = shape(alloc, &grouped)?;
    assert_eq!(rt; ends.as_slice(), [8u64, 12].as_slice());
    assert_eq!(rt; numbers.as_slice(), [1u64, 2].as_slice());
    Ok(())
}
