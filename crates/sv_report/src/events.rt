//! The lines of the events of a history.
ghost use Rattle.std.specs.Prelude.{◌≡◌, ◌++◌, IfOk, OnOk, length, string_bytes};
ghost use Rattle.std.specs.Option.{option_copied, option_map};
ghost use Rattle.sv_index.specs.Indexes.{IsIndexOf};
ghost use Rattle.sv_model.specs.Declarations.{recording_of, call_of};
ghost use Rattle.std.specs.List.{flat_map};
ghost use Rattle.sv_report.specs.Notes.{held_line};
ghost use Rattle.sv_report.specs.Text.{event_line, events_text, report_count as reports_of};
ghost use Rattle.sv_report.specs.Text.{note_count as notes_of, history_text};

use crate::lines::{push_call, push_publish, push_total};
use crate::notes::push_held;
use crate::replies::push_reply;
use std::alloc::{AllocError, Global};
use sv_index::RecordingIndex;
use sv_model::line::{Line, Mark, Trace};
use sv_model::work::{Held, Reply};
use sv_range::List;

// The recorder of the recording with this number.
fn recorder_of(trace: &Trace, recordings: &RecordingIndex, rec: u32) -> Option<u32>
    requires { IsIndexOf trace.now recordings.now }
    ensures { result ≡ option_map (λ r. r.recorder) (recording_of trace.now rec) }
{
    recordings
        .find(trace, rec)
        .map(|recording| recording.recorder)
}

// The call with this number in the lane's script.
fn call_in(trace: &Trace, lane: u32, index: u32) -> Option<&Line>
    ensures { option_copied result ≡ call_of trace.now lane index }
{
    match trace.lane_scripts.as_slice().get(lane as usize) {
        Some(script) => script.as_slice().get(index as usize),
        None => None,
    }
}

/// Appends the line of the event with this number, or nothing where the mark names a recording or call that
/// the trace does not have. The index is the trace's.
#[tactic(auto, unfolding(crate::specs::Text::event_line))]
pub fn push_event(
    text: &mut String,
    trace: &Trace,
    recordings: &RecordingIndex,
    number: u64,
    mark: Mark,
) -> Result<(), AllocError>
    requires { IsIndexOf trace.now recordings.now }
    ensures { OnOk result (string_bytes text.new ≡ string_bytes text.old
        ++ event_line trace.now number mark) }
{
    match mark {
        Mark::Publish(rec) => match recorder_of(trace, recordings, rec) {
            Some(recorder) => push_publish(text, number, recorder, rec),
            None => Ok(()),
        },
        Mark::Call { lane, index } => match call_in(trace, lane, index) {
            Some(call) => push_call(text, number, lane, index, call),
            None => Ok(()),
        },
    }
}

/// Appends each event's line, and its reply under it. The index is the trace's.
pub fn push_events(
    text: &mut String,
    trace: &Trace,
    recordings: &RecordingIndex,
    marks: &[Mark],
    replies: &[Reply],
) -> Result<(), AllocError>
    requires indexed { IsIndexOf trace.now recordings.now }
    requires one_each { length replies.now ≡ length marks.now }
    ensures { OnOk result (string_bytes text.new ≡ string_bytes text.old
        ++ events_text trace.now 0 marks.now replies.now) }
{
    for i in 0..marks.len() {
        push_event(text, trace, recordings, i as u64, marks[i])?;
        push_reply(text, &replies[i])?;
    }
    Ok(())
}

/// Appends the lines of the items that are still held at the end.
pub fn push_all_held(text: &mut String, held: &[Held]) -> Result<(), AllocError>
    ensures { OnOk result (string_bytes text.new ≡ string_bytes text.old ++ flat_map held_line held.now) }
{
    for item in held {
        push_held(text, *item)?;
    }
    Ok(())
}

/// How many reports the replies have together.
pub fn report_count(replies: &[Reply]) -> u128
    ensures { result ≡ reports_of replies.now }
{
    let mut count = 0;
    for reply in replies {
        count += reply.reports.len() as u128;
    }
    count
}

/// How many notes the replies have together.
pub fn note_count(replies: &[Reply]) -> u128
    ensures { result ≡ notes_of replies.now }
{
    let mut count = 0;
    for reply in replies {
        count += reply.notes.len() as u128;
    }
    count
}

/// Appends the text of a history: each event's line and its reply under it, the held items, and the total.
/// The index is the trace's.
#[tactic(auto, unfolding(crate::specs::Text::history_text))]
pub fn push_history(
    text: &mut String,
    trace: &Trace,
    recordings: &RecordingIndex,
    marks: &[Mark],
    replies: &[Reply],
    held: &[Held],
) -> Result<(), AllocError>
    requires indexed { IsIndexOf trace.now recordings.now }
    requires one_each { length replies.now ≡ length marks.now }
    ensures { OnOk result (string_bytes text.new ≡ string_bytes text.old
        ++ history_text trace.now marks.now replies.now held.now) }
{
    push_events(text, trace, recordings, marks, replies)?;
    push_all_held(text, held)?;
    push_total(
        text,
        marks.len() as u128,
        report_count(replies),
        note_count(replies),
        held.len() as u128,
    )
}

/// The text of a history of the trace, as bytes: each event's line and its reply under it, the held items,
/// and the total. There is one reply for each event.
pub fn text(
    alloc: Global,
    marks: &List<Mark>,
    replies: &List<Reply>,
    held: &List<Held>,
    trace: &Trace,
) -> Result<List<u8>, AllocError>
    requires { length replies.now ≡ length marks.now }
    ensures { IfOk result (λ text. text ≡ history_text trace.now marks.now replies.now held.now) }
{
    let mut text = String::new(alloc);
    let recordings = RecordingIndex::new(alloc, trace)?;
    push_history(
        &mut text,
        trace,
        &recordings,
        marks.as_slice(),
        replies.as_slice(),
        held.as_slice(),
    )?;
    Ok(List::from_vec(text.into_bytes()))
}
