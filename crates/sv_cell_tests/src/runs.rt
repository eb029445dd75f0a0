//! Reports and notes in greatest runs. The expected runs are worked out by hand.
ghost use Rattle.std.specs.Prelude.{IsTrue};
ghost use Rattle.sv_model.specs.Cells.{EndsSmall};
ghost use Rattle.sv_model.specs.Notes.{IsNoteRun};
ghost use Rattle.sv_model.specs.Reports.{IsRun};
ghost use Rattle.sv_runs.specs.Joined.{EndsWithin};

use crate::areas::At;
use std::alloc::{AllocError, Global};
use std::test::Fail;
use sv_mask::{Layout, Usage};
use sv_model::work::{
    Access, Area, EventNote, Kind, LayoutNote, Note, Owner, OwnerNote, OwnerWhat, Place, Report,
    What,
};
use sv_range::List;
use sv_runs::{add_note, add_run};

// A note on cells, of the command with that number, that found that layout, or cells of that queue family.
// Or a note on an event.
#[derive(Clone, Copy)]
enum Said {
    Layout(At, u32, Layout),
    Owner(At, u32, u32),
    Event(u32),
}

// Notes that are given one after another, and what they come to.
#[derive(Clone, Copy)]
struct Notes {
    given: &'static [Said],
    owed: &'static [Said],
}

const GENERAL: Layout = Layout::General;

const PRESENT: Layout = Layout::PresentSrc;

static NOTES: [Notes; 13] = [
    Notes {
        given: &[],
        owed: &[],
    },
    Notes {
        given: &[
            Said::Owner(At::Bytes(0, 8), 0, 1),
            Said::Owner(At::Bytes(8, 9), 0, 1),
            Said::Owner(At::Bytes(9, 20), 0, 1),
        ],
        owed: &[Said::Owner(At::Bytes(0, 20), 0, 1)],
    },
    // a byte between the two, and the other order
    Notes {
        given: &[
            Said::Owner(At::Bytes(0, 8), 0, 1),
            Said::Owner(At::Bytes(9, 16), 0, 1),
        ],
        owed: &[
            Said::Owner(At::Bytes(0, 8), 0, 1),
            Said::Owner(At::Bytes(9, 16), 0, 1),
        ],
    },
    Notes {
        given: &[
            Said::Owner(At::Bytes(8, 16), 0, 1),
            Said::Owner(At::Bytes(0, 8), 0, 1),
        ],
        owed: &[
            Said::Owner(At::Bytes(8, 16), 0, 1),
            Said::Owner(At::Bytes(0, 8), 0, 1),
        ],
    },
    // another owner, and another command
    Notes {
        given: &[
            Said::Owner(At::Bytes(0, 8), 0, 1),
            Said::Owner(At::Bytes(8, 16), 0, 2),
            Said::Owner(At::Bytes(16, 24), 0, 2),
        ],
        owed: &[
            Said::Owner(At::Bytes(0, 8), 0, 1),
            Said::Owner(At::Bytes(8, 24), 0, 2),
        ],
    },
    Notes {
        given: &[
            Said::Owner(At::Bytes(0, 8), 0, 1),
            Said::Owner(At::Bytes(8, 16), 1, 1),
        ],
        owed: &[
            Said::Owner(At::Bytes(0, 8), 0, 1),
            Said::Owner(At::Bytes(8, 16), 1, 1),
        ],
    },
    // layers of one mip
    Notes {
        given: &[
            Said::Layout(At::Image(1, 1, 0, 2), 0, GENERAL),
            Said::Layout(At::Image(1, 1, 2, 1), 0, GENERAL),
            Said::Layout(At::Image(1, 1, 3, 1), 0, GENERAL),
        ],
        owed: &[Said::Layout(At::Image(1, 1, 0, 4), 0, GENERAL)],
    },
    Notes {
        given: &[
            Said::Layout(At::Image(1, 1, 0, 2), 0, GENERAL),
            Said::Layout(At::Image(1, 1, 2, 1), 0, PRESENT),
        ],
        owed: &[
            Said::Layout(At::Image(1, 1, 0, 2), 0, GENERAL),
            Said::Layout(At::Image(1, 1, 2, 1), 0, PRESENT),
        ],
    },
    // the first layer of the next mip, and the next layer of the next mip
    Notes {
        given: &[
            Said::Layout(At::Image(0, 1, 2, 2), 0, GENERAL),
            Said::Layout(At::Image(1, 1, 0, 2), 0, GENERAL),
            Said::Layout(At::Image(1, 1, 2, 2), 0, GENERAL),
        ],
        owed: &[
            Said::Layout(At::Image(0, 1, 2, 2), 0, GENERAL),
            Said::Layout(At::Image(1, 1, 0, 4), 0, GENERAL),
        ],
    },
    Notes {
        given: &[
            Said::Layout(At::Image(0, 1, 0, 2), 0, GENERAL),
            Said::Layout(At::Image(1, 1, 2, 2), 0, GENERAL),
        ],
        owed: &[
            Said::Layout(At::Image(0, 1, 0, 2), 0, GENERAL),
            Said::Layout(At::Image(1, 1, 2, 2), 0, GENERAL),
        ],
    },
    // notes of two kinds
    Notes {
        given: &[
            Said::Layout(At::Image(0, 1, 0, 2), 0, GENERAL),
            Said::Owner(At::Image(0, 1, 2, 2), 0, 1),
        ],
        owed: &[
            Said::Layout(At::Image(0, 1, 0, 2), 0, GENERAL),
            Said::Owner(At::Image(0, 1, 2, 2), 0, 1),
        ],
    },
    Notes {
        given: &[Said::Event(0), Said::Event(0)],
        owed: &[Said::Event(0), Said::Event(0)],
    },
    Notes {
        given: &[
            Said::Owner(At::Bytes(0, 8), 0, 1),
            Said::Event(3),
            Said::Owner(At::Bytes(8, 16), 0, 1),
        ],
        owed: &[
            Said::Owner(At::Bytes(0, 8), 0, 1),
            Said::Event(3),
            Said::Owner(At::Bytes(8, 16), 0, 1),
        ],
    },
];

// Races on cells: the numbers of the commands of the later and the earlier access, and the kind.
type Race = (At, u32, u32, Kind);

#[derive(Clone, Copy)]
struct Races {
    given: &'static [Race],
    owed: &'static [Race],
}

static RACES: [Races; 5] = [
    Races {
        given: &[
            (At::Bytes(0, 8), 2, 0, Kind::Raw),
            (At::Bytes(8, 16), 2, 0, Kind::Raw),
            (At::Bytes(16, 17), 2, 0, Kind::Raw),
        ],
        owed: &[(At::Bytes(0, 17), 2, 0, Kind::Raw)],
    },
    // another partner, another access, another kind
    Races {
        given: &[
            (At::Bytes(0, 8), 2, 0, Kind::Raw),
            (At::Bytes(8, 16), 2, 1, Kind::Raw),
            (At::Bytes(16, 24), 3, 1, Kind::Raw),
            (At::Bytes(24, 32), 3, 1, Kind::War),
            (At::Bytes(32, 40), 3, 1, Kind::War),
        ],
        owed: &[
            (At::Bytes(0, 8), 2, 0, Kind::Raw),
            (At::Bytes(8, 16), 2, 1, Kind::Raw),
            (At::Bytes(16, 24), 3, 1, Kind::Raw),
            (At::Bytes(24, 40), 3, 1, Kind::War),
        ],
    },
    // a byte between the two
    Races {
        given: &[
            (At::Bytes(0, 8), 2, 0, Kind::Waw),
            (At::Bytes(9, 16), 2, 0, Kind::Waw),
        ],
        owed: &[
            (At::Bytes(0, 8), 2, 0, Kind::Waw),
            (At::Bytes(9, 16), 2, 0, Kind::Waw),
        ],
    },
    // two mips
    Races {
        given: &[
            (At::Image(0, 1, 0, 3), 2, 0, Kind::Waw),
            (At::Image(0, 1, 3, 1), 2, 0, Kind::Waw),
            (At::Image(1, 1, 0, 4), 2, 0, Kind::Waw),
        ],
        owed: &[
            (At::Image(0, 1, 0, 4), 2, 0, Kind::Waw),
            (At::Image(1, 1, 0, 4), 2, 0, Kind::Waw),
        ],
    },
    Races {
        given: &[
            (At::Image(0, 1, 0, 2), 2, 0, Kind::Waw),
            (At::Image(1, 1, 2, 2), 2, 0, Kind::Waw),
        ],
        owed: &[
            (At::Image(0, 1, 0, 2), 2, 0, Kind::Waw),
            (At::Image(1, 1, 2, 2), 2, 0, Kind::Waw),
        ],
    },
];

fn place(cmd: u32) -> Place {
    Place {
        event: 1,
        batch: 0,
        slot: 0,
        rec: 0,
        cmd,
    }
}

fn layout_note(at: At, cmd: u32, found: Layout) -> LayoutNote {
    LayoutNote {
        area: at.area(),
        what: Some(What::Transition),
        place: place(cmd),
        declared: Layout::TransferDstOptimal,
        found,
        step: 3,
        pos: 0,
        part: 0,
        reports_before: 0,
    }
}

fn owner_note(at: At, cmd: u32, family: u32) -> OwnerNote {
    OwnerNote {
        area: at.area(),
        what: OwnerWhat::Use(Usage(37)),
        place: place(cmd),
        found: Owner::Family(family),
        step: 3,
        pos: 0,
        part: 0,
        reports_before: 0,
    }
}

fn note_of(said: Said) -> Note {
    match said {
        Said::Layout(at, cmd, found) => Note::Layout(layout_note(at, cmd, found)),
        Said::Owner(at, cmd, family) => Note::Owner(owner_note(at, cmd, family)),
        Said::Event(event) => Note::Event(EventNote {
            event,
            place: place(0),
            other: None,
            reports_before: 0,
        }),
    }
}

fn access(at: At, cmd: u32) -> Access {
    Access {
        area: at.area(),
        what: What::Use(Usage(37)),
        queue: 0,
        sub: None,
        layout: None,
        place: place(cmd),
        step: 1,
        pos: 0,
    }
}

fn report_of(race: Race) -> Report {
    let (at, later, earlier, kind) = race;
    Report {
        area: at.area(),
        later: access(At::Bytes(0, 64), later),
        earlier: access(At::Bytes(0, 64), earlier),
        kind,
    }
}

// Whether the area is a run of neighbouring cells.
fn is_run(area: Area) -> bool
    ensures run { IsTrue result → IsRun area }
    ensures ends { IsTrue result → EndsSmall area }
{
    match area {
        Area::Bytes { span, .. } => span.start < span.end,
        Area::Image { cells, .. } => {
            cells.mips == 1
                && 0 < cells.layers
                && u64::from(cells.layer) + u64::from(cells.layers) < 1 << 32
        }
    }
}

fn is_note_run(note: &Note) -> bool
    ensures run { IsTrue result → IsNoteRun note.now }
    ensures ends { IsTrue result → EndsWithin note.now }
{
    match note {
        Note::Layout(n) => is_run(n.area),
        Note::Owner(n) => is_run(n.area),
        _ => true,
    }
}

// The notes in runs. None where one is on other cells than a run.
fn notes_in_runs(alloc: Global, given: &[Said]) -> Result<Option<List<Note>>, AllocError> {
    let mut notes = List::new(alloc);
    for said in given {
        let note = note_of(*said);
        if !is_note_run(&note) {
            return Ok(None);
        }
        add_note(&mut notes, note)?;
    }
    Ok(Some(notes))
}

fn reports_in_runs(alloc: Global, given: &[Race]) -> Result<Option<List<Report>>, AllocError> {
    let mut reports = List::new(alloc);
    for race in given {
        let report = report_of(*race);
        if !is_run(report.area) {
            return Ok(None);
        }
        add_run(&mut reports, report)?;
    }
    Ok(Some(reports))
}

fn are_notes(notes: &[Note], owed: &[Said]) -> bool {
    if notes.len() != owed.len() {
        return false;
    }
    for index in 0..owed.len() {
        if notes[index] != note_of(owed[index]) {
            return false;
        }
    }
    true
}

fn are_reports(reports: &[Report], owed: &[Race]) -> bool {
    if reports.len() != owed.len() {
        return false;
    }
    for index in 0..owed.len() {
        if reports[index] != report_of(owed[index]) {
            return false;
        }
    }
    true
}

fn notes_agree(alloc: Global, row: &Notes) -> Result<bool, AllocError> {
    match notes_in_runs(alloc, row.given)? {
        None => Ok(false),
        Some(notes) => Ok(are_notes(notes.as_slice(), row.owed)),
    }
}

fn races_agree(alloc: Global, row: &Races) -> Result<bool, AllocError> {
    match reports_in_runs(alloc, row.given)? {
        None => Ok(false),
        Some(reports) => Ok(are_reports(reports.as_slice(), row.owed)),
    }
}

#[test]
fn notes_are_joined(rt: HostRuntime) -> Result<(), Fail> {
    for index in 0..NOTES.len() {
        let agrees = notes_agree(rt.alloc(), &NOTES[index])?;
        assert!(rt; agrees, "row {index}");
    }
    Ok(())
}

#[test]
fn reports_are_joined(rt: HostRuntime) -> Result<(), Fail> {
    for index in 0..RACES.len() {
        let agrees = races_agree(rt.alloc(), &RACES[index])?;
        assert!(rt; agrees, "row {index}");
    }
    Ok(())
}
