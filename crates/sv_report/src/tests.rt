//! Worked examples.
ghost use Rattle.std.specs.Prelude.{◌≡◌, IfOk};

use super::*;
use std::alloc::{AllocError, Global};
use std::test::Fail;
use sv_index::RecordingIndex;
use sv_mask::{Access16, Layout, Stage, Usage};
use sv_model::line::{Line, Mark, Recording, Trace};
use sv_model::refusal::{Cause, LimitName, Refusal};
use sv_model::work::{
    Access, Area, EventNote, FenceNote, Held, Kind, LayoutNote, Note, Owner, OwnerNote, OwnerWhat,
    Place, Reply, Report, TimelineNote, What,
};
use sv_range::{Cells, List, Span};

const BYTES: Area = Area::Bytes {
    res: 0,
    span: Span { start: 0, end: 16 },
};

const LAYERS: Area = Area::Image {
    res: 1,
    cells: Cells {
        mip: 2,
        mips: 1,
        layer: 3,
        layers: 4,
    },
};

const PLACE: Place = Place {
    event: 9,
    batch: 8,
    slot: 7,
    rec: 6,
    cmd: 5,
};

fn copies(access: Access16) -> What {
    match Usage::of(Stage::Copy, access) {
        Some(usage) => What::Use(usage),
        None => What::Transition,
    }
}

fn access_at(cmd: u32, what: What) -> Access
    ensures { result.what ≡ what }
{
    Access {
        area: BYTES,
        what,
        queue: 0,
        sub: None,
        layout: None,
        place: Place {
            event: 1,
            batch: 0,
            slot: 0,
            rec: 0,
            cmd,
        },
        step: 0,
        pos: 0,
    }
}

#[test]
fn a_read_after_a_write(rt: HostRuntime) -> Result<(), Fail> {
    let mut text = String::new(rt.alloc());
    push_publish(&mut text, 0, 0, 0)?;
    let submit = Line::Submit {
        lane: 0,
        queue: 0,
        batches: List::new(rt.alloc()),
        fence: None,
    };
    push_call(&mut text, 1, 0, 0, &submit)?;
    let report = Report {
        area: BYTES,
        later: access_at(1, copies(Access16::TransferRead)),
        earlier: access_at(0, copies(Access16::TransferWrite)),
        kind: Kind::Raw,
    };
    push_report(&mut text, &report)?;
    push_total(&mut text, 2, 1, 0, 0)?;
    assert_eq!(rt;
        text.as_str(),
        "event 0 recorder 0 publish rec 0\nevent 1 lane 0 call 0 submit queue 0\n  raw res 0 bytes 0..16 transfer_read@copy 1.0.0 rec 0 cmd 1 after transfer_write@copy 1.0.0 rec 0 cmd 0\ntotal events 2 reports 1 notes 0 held 0\n"
    );
    Ok(())
}

#[test]
fn refusals_notes_and_held_items(rt: HostRuntime) -> Result<(), Fail> {
    let mut text = String::new(rt.alloc());
    let limit = Cause::Limit {
        name: LimitName::Accesses,
        number: 64,
    };
    for (line, cause) in [(1, Cause::BadJson), (6, Cause::Unfinished), (7, limit)] {
        push_refusal(&mut text, &Refusal { line, cause })?;
    }
    assert_eq!(rt;
        text.as_str(),
        "line 1 refused 1 BadJson\nline 6 refused 15 Unfinished\nline 7 refused 14 Limit accesses 64\n"
    );

    let refusal = Refusal {
        line: 1,
        cause: Cause::BadJson,
    };
    let line = refusal_text(rt.alloc(), &refusal)?;
    assert_eq!(rt; line.as_slice(), b"line 1 refused 1 BadJson\n".as_slice());

    let mut text = String::new(rt.alloc());
    let timeline = TimelineNote {
        sem: 0,
        event: 0,
        batch: 0,
        value: 0,
        current: 0,
        reports_before: 0,
    };
    push_note(&mut text, &Note::Timeline(timeline))?;
    push_note(
        &mut text,
        &Note::Fence(FenceNote {
            fence: 0,
            event: 1,
            reports_before: 0,
        }),
    )?;
    push_held(&mut text, Held::Call { lane: 0, index: 0 })?;
    assert_eq!(rt;
        text.as_str(),
        "  note timeline 0 0.0 value 0 current 0\n  note fence 0 1\nheld lane 0 call 0\n"
    );
    Ok(())
}

fn action(what: What) -> OwnerWhat {
    match what {
        What::Use(usage) => OwnerWhat::Use(usage),
        What::Transition => OwnerWhat::Transition,
    }
}

fn owner_note(what: OwnerWhat, found: Owner) -> OwnerNote
    ensures { result.what ≡ what }
{
    OwnerNote {
        area: LAYERS,
        what,
        place: PLACE,
        found,
        step: 0,
        pos: 0,
        part: 0,
        reports_before: 0,
    }
}

#[test]
fn notes_on_layouts(rt: HostRuntime) -> Result<(), Fail> {
    let mut text = String::new(rt.alloc());
    let transition = LayoutNote {
        area: LAYERS,
        what: Some(What::Transition),
        place: PLACE,
        declared: Layout::ShaderReadOnlyOptimal,
        found: Layout::TransferDstOptimal,
        step: 0,
        pos: 0,
        part: 0,
        reports_before: 0,
    };
    let barrier = LayoutNote {
        what: None,
        ..transition
    };
    push_note(&mut text, &Note::Layout(transition))?;
    push_note(&mut text, &Note::Layout(barrier))?;
    assert_eq!(rt;
        text.as_str(),
        "  note layout res 1 mip 2 layers 3..7 layout_transition 9.8.7 rec 6 cmd 5 declared shader_read_only_optimal found transfer_dst_optimal\n  note layout res 1 mip 2 layers 3..7 barrier 9.8.7 rec 6 cmd 5 declared shader_read_only_optimal found transfer_dst_optimal\n"
    );
    Ok(())
}

#[test]
fn notes_on_owners(rt: HostRuntime) -> Result<(), Fail> {
    let mut text = String::new(rt.alloc());
    let acquire = owner_note(OwnerWhat::Acquire, Owner::Nobody);
    let release = owner_note(OwnerWhat::Release, Owner::Family(3));
    let transition = owner_note(OwnerWhat::Transition, Owner::Family(4));
    let read = owner_note(
        action(copies(Access16::TransferRead)),
        Owner::Released(1, 2),
    );
    push_note(&mut text, &Note::Owner(acquire))?;
    push_note(&mut text, &Note::Owner(release))?;
    push_note(&mut text, &Note::Owner(transition))?;
    push_note(&mut text, &Note::Owner(read))?;
    assert_eq!(rt;
        text.as_str(),
        "  note owner res 1 mip 2 layers 3..7 acquire 9.8.7 rec 6 cmd 5 found none\n  note owner res 1 mip 2 layers 3..7 release 9.8.7 rec 6 cmd 5 found family 3\n  note owner res 1 mip 2 layers 3..7 layout_transition 9.8.7 rec 6 cmd 5 found family 4\n  note owner res 1 mip 2 layers 3..7 transfer_read@copy 9.8.7 rec 6 cmd 5 found released 1 2\n"
    );
    Ok(())
}

#[test]
fn notes_on_events(rt: HostRuntime) -> Result<(), Fail> {
    let mut text = String::new(rt.alloc());
    for other in [None, Some(2)] {
        let note = EventNote {
            event: 4,
            place: PLACE,
            other,
            reports_before: 0,
        };
        push_note(&mut text, &Note::Event(note))?;
    }
    assert_eq!(rt;
        text.as_str(),
        "  note event 4 9.8.7 rec 6 cmd 5 unset\n  note event 4 9.8.7 rec 6 cmd 5 set on queue 2\n"
    );
    Ok(())
}

fn race(kind: Kind, later: Access, earlier: Access) -> Report {
    Report {
        area: BYTES,
        later,
        earlier,
        kind,
    }
}

// A read after a write, a wait for an event that is unset, and a write after the read.
fn reply(alloc: Global) -> Result<Reply, AllocError> {
    let first = access_at(0, copies(Access16::TransferWrite));
    let read = access_at(1, copies(Access16::TransferRead));
    let last = access_at(3, copies(Access16::TransferWrite));
    let (raw, war) = (race(Kind::Raw, read, first), race(Kind::War, last, read));
    let note = Note::Event(EventNote {
        event: 4,
        place: access_at(2, What::Transition).place,
        other: None,
        reports_before: 1,
    });
    Ok(Reply {
        reports: List::from_vec(vec![in alloc; raw, war]?),
        notes: List::from_vec(vec![in alloc; note]?),
    })
}

fn nothing(alloc: Global) -> Reply {
    Reply {
        reports: List::new(alloc),
        notes: List::new(alloc),
    }
}

// Recorder 2 records recording 0. Lane 1 calls a submit without batches, and waits for a fence.
fn trace(alloc: Global) -> Result<Trace, AllocError> {
    let recording = Recording {
        rec: 0,
        recorder: 2,
        family: 0,
        commands: List::new(alloc),
    };
    let submit = Line::Submit {
        lane: 1,
        queue: 3,
        batches: List::new(alloc),
        fence: None,
    };
    let wait = Line::WaitFence { lane: 1, fence: 5 };
    let script = List::from_vec(vec![in alloc; submit, wait]?);
    Ok(Trace {
        queues: List::new(alloc),
        resources: List::new(alloc),
        semaphores: List::new(alloc),
        events: List::new(alloc),
        fences: List::new(alloc),
        passes: List::new(alloc),
        recordings: List::from_vec(vec![in alloc; recording]?),
        lane_scripts: List::from_vec(vec![in alloc; List::new(alloc), script]?),
        recorder_scripts: List::new(alloc),
        text_order: List::new(alloc),
    })
}

#[test]
fn a_history(rt: HostRuntime) -> Result<(), Fail> {
    let alloc = rt.alloc();
    let trace = trace(alloc)?;
    let marks = [
        Mark::Publish(0),
        Mark::Call { lane: 1, index: 0 },
        Mark::Call { lane: 1, index: 1 },
    ];
    let replies = [nothing(alloc), reply(alloc)?, nothing(alloc)];
    let held = [Held::Call { lane: 1, index: 1 }];
    let recordings = RecordingIndex::new(alloc, &trace)?;
    let mut text = String::new(alloc);
    push_history(&mut text, &trace, &recordings, &marks, &replies, &held)?;
    assert_eq!(rt;
        text.as_str(),
        "event 0 recorder 2 publish rec 0\nevent 1 lane 1 call 0 submit queue 3\n  raw res 0 bytes 0..16 transfer_read@copy 1.0.0 rec 0 cmd 1 after transfer_write@copy 1.0.0 rec 0 cmd 0\n  note event 4 1.0.0 rec 0 cmd 2 unset\n  war res 0 bytes 0..16 transfer_write@copy 1.0.0 rec 0 cmd 3 after transfer_read@copy 1.0.0 rec 0 cmd 1\nevent 2 lane 1 call 1 wait_fence fence 5\nheld lane 1 call 1\ntotal events 3 reports 2 notes 1 held 1\n"
    );
    Ok(())
}

#[test]
fn events_and_held_items(rt: HostRuntime) -> Result<(), Fail> {
    let trace = trace(rt.alloc())?;
    let index = RecordingIndex::new(rt.alloc(), &trace)?;
    let mut text = String::new(rt.alloc());
    push_event(&mut text, &trace, &index, 6, Mark::Publish(1))?;
    push_event(
        &mut text,
        &trace,
        &index,
        7,
        Mark::Call { lane: 1, index: 2 },
    )?;
    push_event(
        &mut text,
        &trace,
        &index,
        8,
        Mark::Call { lane: 2, index: 0 },
    )?;
    push_event(
        &mut text,
        &trace,
        &index,
        9,
        Mark::Call { lane: 1, index: 1 },
    )?;
    let batch = Held::Batch {
        queue: 3,
        event: 1,
        batch: 2,
    };
    let held = [
        Held::Call { lane: 0, index: 4 },
        batch,
        Held::Fence { queue: 3, event: 1 },
    ];
    push_all_held(&mut text, &held)?;
    assert_eq!(rt;
        text.as_str(),
        "event 9 lane 1 call 1 wait_fence fence 5\nheld lane 0 call 4\nheld queue 3 event 1 batch 2\nheld queue 3 event 1 fence\n"
    );
    Ok(())
}
