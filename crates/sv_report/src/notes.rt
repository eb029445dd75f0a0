//! The lines of notes and of held items.
ghost use Rattle.std.specs.Prelude.{◌≡◌, ◌++◌, OnOk, string_bytes};
ghost use Rattle.sv_report.specs.Notes.{element_text, action_text, owner_text, setter_text, note_start};
ghost use Rattle.sv_report.specs.Notes.{found_text, values_text, signal_text, layout_note_line};
ghost use Rattle.sv_report.specs.Notes.{owner_note_line, event_note_line, timeline_note_line};
ghost use Rattle.sv_report.specs.Notes.{fence_note_line, note_line, held_line};

use crate::pieces::{push_area, push_place, push_usage, push_what};
use std::alloc::AllocError;
use sv_mask::Layout;
use sv_model::work::{
    Area, EventNote, FenceNote, Held, LayoutNote, Note, Owner, OwnerNote, OwnerWhat, TimelineNote,
    What,
};
use sv_name::layout_text;

#[tactic(auto, unfolding(crate::specs::Notes::element_text))]
fn push_element(text: &mut String, what: Option<What>) -> Result<(), AllocError>
    ensures { OnOk result (string_bytes text.new ≡ string_bytes text.old ++ element_text what) }
{
    match what {
        None => text.push_str("barrier"),
        Some(what) => push_what(text, what),
    }
}

#[tactic(auto, unfolding(crate::specs::Notes::action_text))]
fn push_action(text: &mut String, action: OwnerWhat) -> Result<(), AllocError>
    ensures { OnOk result (string_bytes text.new ≡ string_bytes text.old ++ action_text action) }
{
    match action {
        OwnerWhat::Use(usage) => push_usage(text, usage),
        OwnerWhat::Transition => text.push_str("layout_transition"),
        OwnerWhat::Release => text.push_str("release"),
        OwnerWhat::Acquire => text.push_str("acquire"),
    }
}

#[tactic(auto, unfolding(crate::specs::Notes::owner_text))]
fn push_owner(text: &mut String, owner: Owner) -> Result<(), AllocError>
    ensures { OnOk result (string_bytes text.new ≡ string_bytes text.old ++ owner_text owner) }
{
    match owner {
        Owner::Nobody => text.push_str("none"),
        Owner::Family(family) => write!(text, "family {family}"),
        Owner::Released(from, to) => write!(text, "released {from} {to}"),
    }
}

// Appends the beginning of a note on an area.
#[tactic(auto, unfolding(crate::specs::Notes::note_start))]
fn push_note_start(text: &mut String, word: &str, area: Area) -> Result<(), AllocError>
    ensures { OnOk result (string_bytes text.new ≡ string_bytes text.old ++ note_start word.now area) }
{
    write!(text, "  note {word} ")?;
    push_area(text, area)?;
    text.push_str(" ")
}

#[tactic(auto, unfolding(crate::specs::Notes::found_text))]
fn push_found(text: &mut String, declared: Layout, found: Layout) -> Result<(), AllocError>
    ensures { OnOk result (string_bytes text.new ≡ string_bytes text.old ++ found_text declared found) }
{
    let declared = layout_text(declared);
    let found = layout_text(found);
    write!(text, " declared {declared} found {found}")
}

#[tactic(auto, unfolding(crate::specs::Notes::layout_note_line))]
fn push_layout_note(text: &mut String, note: &LayoutNote) -> Result<(), AllocError>
    ensures { OnOk result (string_bytes text.new ≡ string_bytes text.old ++ layout_note_line note.now) }
{
    push_note_start(text, "layout", note.area)?;
    push_element(text, note.what)?;
    text.push_str(" ")?;
    push_place(text, note.place)?;
    push_found(text, note.declared, note.found)?;
    text.push_str("\n")
}

#[tactic(auto, unfolding(crate::specs::Notes::owner_note_line))]
fn push_owner_note(text: &mut String, note: &OwnerNote) -> Result<(), AllocError>
    ensures { OnOk result (string_bytes text.new ≡ string_bytes text.old ++ owner_note_line note.now) }
{
    push_note_start(text, "owner", note.area)?;
    push_action(text, note.what)?;
    text.push_str(" ")?;
    push_place(text, note.place)?;
    text.push_str(" found ")?;
    push_owner(text, note.found)?;
    text.push_str("\n")
}

#[tactic(auto, unfolding(crate::specs::Notes::setter_text))]
fn push_setter(text: &mut String, other: Option<u32>) -> Result<(), AllocError>
    ensures { OnOk result (string_bytes text.new ≡ string_bytes text.old ++ setter_text other) }
{
    match other {
        None => text.push_str("unset"),
        Some(queue) => write!(text, "set on queue {queue}"),
    }
}

#[tactic(auto, unfolding(crate::specs::Notes::event_note_line))]
fn push_event_note(text: &mut String, note: &EventNote) -> Result<(), AllocError>
    ensures { OnOk result (string_bytes text.new ≡ string_bytes text.old ++ event_note_line note.now) }
{
    let event = note.event;
    write!(text, "  note event {event} ")?;
    push_place(text, note.place)?;
    text.push_str(" ")?;
    push_setter(text, note.other)?;
    text.push_str("\n")
}

#[tactic(auto, unfolding(crate::specs::Notes::values_text))]
fn push_values(text: &mut String, value: u64, current: u64) -> Result<(), AllocError>
    ensures { OnOk result (string_bytes text.new ≡ string_bytes text.old ++ values_text value current) }
{
    write!(text, " value {value} current {current}")
}

#[tactic(auto, unfolding(crate::specs::Notes::signal_text))]
fn push_signal(text: &mut String, sem: u32, event: u64, batch: u32) -> Result<(), AllocError>
    ensures { OnOk result (string_bytes text.new ≡ string_bytes text.old ++ signal_text sem event batch) }
{
    write!(text, "  note timeline {sem} {event}.{batch}")
}

#[tactic(auto, unfolding(crate::specs::Notes::timeline_note_line))]
fn push_timeline_note(text: &mut String, note: &TimelineNote) -> Result<(), AllocError>
    ensures { OnOk result (string_bytes text.new ≡ string_bytes text.old ++ timeline_note_line note.now) }
{
    push_signal(text, note.sem, note.event, note.batch)?;
    push_values(text, note.value, note.current)?;
    text.push_str("\n")
}

#[tactic(auto, unfolding(crate::specs::Notes::fence_note_line))]
fn push_fence_note(text: &mut String, note: &FenceNote) -> Result<(), AllocError>
    ensures { OnOk result (string_bytes text.new ≡ string_bytes text.old ++ fence_note_line note.now) }
{
    let (fence, event) = (note.fence, note.event);
    writeln!(text, "  note fence {fence} {event}")
}

/// Appends the line of a note.
#[tactic(auto, unfolding(crate::specs::Notes::note_line))]
pub fn push_note(text: &mut String, note: &Note) -> Result<(), AllocError>
    ensures { OnOk result (string_bytes text.new ≡ string_bytes text.old ++ note_line note.now) }
{
    match *note {
        Note::Layout(layout) => push_layout_note(text, &layout),
        Note::Owner(owner) => push_owner_note(text, &owner),
        Note::Event(event) => push_event_note(text, &event),
        Note::Timeline(timeline) => push_timeline_note(text, &timeline),
        Note::Fence(fence) => push_fence_note(text, &fence),
    }
}

/// Appends the line of an item that is still held at the end.
#[tactic(auto, unfolding(crate::specs::Notes::held_line))]
pub fn push_held(text: &mut String, held: Held) -> Result<(), AllocError>
    ensures { OnOk result (string_bytes text.new ≡ string_bytes text.old ++ held_line held) }
{
    match held {
        Held::Call { lane, index } => writeln!(text, "held lane {lane} call {index}"),
        Held::Batch {
            queue,
            event,
            batch,
        } => { writeln!(text, "held queue {queue} event {event} batch {batch}") }
        Held::Fence { queue, event } => writeln!(text, "held queue {queue} event {event} fence"),
    }
}
