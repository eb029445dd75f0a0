//! Notes behind the reports of a reply that was grouped.
ghost use Rattle.std.specs.Prelude.{◌≡◌, ℕ, All, IfOk, get_or, map};
ghost use Rattle.sv_model.specs.Notes.{cells_of_notes, IsNoteRun};
ghost use Rattle.sv_model.specs.Replies.{note_behind, reports_before};
ghost use Rattle.sv_runs.specs.Joined.{AreNoteRuns, EndsWithin};
ghost use Rattle.sv_runs.specs.Grouped.{HasNoteRun, moved};

use crate::notes::add_note;
use std::alloc::{AllocError, Global};
use sv_model::work::{EventNote, FenceNote, LayoutNote, Note, OwnerNote, TimelineNote};
use sv_range::List;

fn reports_before(note: Note) -> u64
    ensures { result ≡ reports_before note }
{
    match note {
        Note::Layout(layout) => layout.reports_before,
        Note::Owner(owner) => owner.reports_before,
        Note::Event(event) => event.reports_before,
        Note::Timeline(timeline) => timeline.reports_before,
        Note::Fence(fence) => fence.reports_before,
    }
}

fn note_behind(reports_before: u64, note: Note) -> Note
    ensures { result ≡ note_behind reports_before note }
{
    match note {
        Note::Layout(layout) => Note::Layout(LayoutNote {
            reports_before,
            ..layout
        }),
        Note::Owner(owner) => Note::Owner(OwnerNote {
            reports_before,
            ..owner
        }),
        Note::Event(event) => Note::Event(EventNote {
            reports_before,
            ..event
        }),
        Note::Timeline(timeline) => Note::Timeline(TimelineNote {
            reports_before,
            ..timeline
        }),
        Note::Fence(fence) => Note::Fence(FenceNote {
            reports_before,
            ..fence
        }),
    }
}

fn number_at(numbers: &[u64], place: u64) -> u64
    ensures { result ≡ get_or numbers.now place 0 }
{
    match numbers.get(place as usize) {
        Some(number) => *number,
        None => 0,
    }
}

fn moved(numbers: &[u64], note: Note) -> Note
    ensures { result ≡ moved (λ (k : ℕ). get_or numbers.now k 0) note }
{
    note_behind(number_at(numbers, reports_before(note)), note)
}

// The notes in greatest runs, each behind the number of reports that stands at its own number.
pub fn group_notes(alloc: Global, notes: &[Note], numbers: &[u64]) -> Result<List<Note>, AllocError>
    requires { All HasNoteRun notes.now }
    ensures whole { IfOk result (λ grouped. cells_of_notes grouped
        ≡ cells_of_notes (map (moved (λ (k : ℕ). get_or numbers.now k 0)) notes.now)) }
    ensures runs { IfOk result AreNoteRuns }
{
    let mut grouped = List::new(alloc);
    for note in notes {
        add_note(&mut grouped, moved(numbers, *note))?;
    }
    Ok(grouped)
}
