//! The lines of a reply.
ghost use Rattle.std.specs.Prelude.{◌≡◌, ◌++◌, OnOk, IfOk, length, string_bytes};
ghost use Rattle.std.specs.List.{flat_map};
ghost use Rattle.sv_model.specs.Replies.{reports_before};
ghost use Rattle.sv_report.specs.Notes.{note_line};
ghost use Rattle.sv_report.specs.Replies.{due, entries, reply_text};

use crate::lines::push_report;
use crate::notes::push_note;
use std::alloc::AllocError;
use sv_model::work::{Note, Reply};

fn number_before(note: &Note) -> u64
    ensures { result ≡ reports_before note.now }
{
    match *note {
        Note::Layout(layout) => layout.reports_before,
        Note::Owner(owner) => owner.reports_before,
        Note::Event(event) => event.reports_before,
        Note::Timeline(timeline) => timeline.reports_before,
        Note::Fence(fence) => fence.reports_before,
    }
}

// Appends the lines of the notes that are due before the report with this number, and answers how many they
// are.
fn push_due(text: &mut String, number: u64, notes: &[Note]) -> Result<usize, AllocError>
    ensures count { IfOk result (λ n. n ≡ length (due number notes.now)) }
    ensures lines { OnOk result (string_bytes text.new ≡ string_bytes text.old
        ++ flat_map note_line (due number notes.now)) }
{
    let mut count = 0;
    while count < notes.len() {
        let note = &notes[count];
        if number_before(note) > number {
            break;
        }
        push_note(text, note)?;
        count += 1;
    }
    Ok(count)
}

// Appends the lines of all these notes.
fn push_notes(text: &mut String, notes: &[Note]) -> Result<(), AllocError>
    ensures { OnOk result (string_bytes text.new ≡ string_bytes text.old ++ flat_map note_line notes.now) }
{
    for note in notes {
        push_note(text, note)?;
    }
    Ok(())
}

/// Appends the lines of a reply: its reports in order, and each note where it stands among them.
pub fn push_reply(text: &mut String, reply: &Reply) -> Result<(), AllocError>
    ensures { OnOk result (string_bytes text.new ≡ string_bytes text.old ++ reply_text reply.now) }
{
    let reports = reply.reports.as_slice();
    let notes = reply.notes.as_slice();
    let mut done = 0;
    for i in 0..reports.len() {
        done += push_due(text, i as u64, &notes[done..])?;
        push_report(text, &reports[i])?;
    }
    push_notes(text, &notes[done..])
}
