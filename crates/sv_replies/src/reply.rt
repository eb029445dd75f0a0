//! What a reply says so far.
ghost use Rattle.std.specs.Prelude.{ℕ, ◌≡◌, ◌∷◌, ◌++◌, [], List, OnOk, length, map};
ghost use Rattle.std.specs.List.{All};
ghost use Rattle.sv_model.specs.Places.{Bound};
ghost use Rattle.sv_model.specs.Layouts.{layout_notes};
ghost use Rattle.sv_model.specs.Notes.{AreGreatestNotes};
ghost use Rattle.sv_model.specs.Owners.{owner_notes};
ghost use Rattle.sv_model.specs.Replies as spec;
ghost use Rattle.sv_model.specs.ReplyLaws.{before_end};
ghost use Rattle.sv_model.specs.Reports.{AreNumbered, AreReportsFrom, IsNumbered, spots_of};
ghost use Rattle.sv_model.specs.declared.line.Trace.{Trace};
ghost use Rattle.sv_runs.specs.Runs.{AreRuns};
ghost use Rattle.sv_replies.specs.Replying.{IsOnNone, IsReplySoFar, steps_in};

use std::alloc::{AllocError, Global};
use sv_model::work::{
    EventNote, FenceNote, LayoutNote, Note, OwnerNote, Reply, Report, TimelineNote,
};
use sv_range::List;

// Appends reports of a later step.
fn append_reports(reports: &mut List<Report>, more: List<Report>) -> Result<(), AllocError>
    ensures { OnOk result (reports.new ≡ reports.old ++ more) }
{
    for report in more.into_vec() {
        reports.push_or_drop(report)?;
    }
    Ok(())
}

// The note behind so many reports.
fn note_behind(number: u64, note: Note) -> Note
    ensures { result ≡ spec.note_behind number note }
{
    match note {
        Note::Layout(n) => Note::Layout(LayoutNote {
            reports_before: number,
            ..n
        }),
        Note::Owner(n) => Note::Owner(OwnerNote {
            reports_before: number,
            ..n
        }),
        Note::Event(n) => Note::Event(EventNote {
            reports_before: number,
            ..n
        }),
        Note::Timeline(n) => Note::Timeline(TimelineNote {
            reports_before: number,
            ..n
        }),
        Note::Fence(n) => Note::Fence(FenceNote {
            reports_before: number,
            ..n
        }),
    }
}

// Appends notes of a later step, which stand behind so many reports.
fn append_notes(notes: &mut List<Note>, more: List<Note>, number: u64) -> Result<(), AllocError>
    ensures { OnOk result (notes.new ≡ notes.old ++ map (spec.note_behind number) more) }
{
    for note in more.into_vec() {
        notes.push_or_drop(note_behind(number, note))?;
    }
    Ok(())
}

/// The reply of an event that released nothing so far.
pub fn empty_reply(alloc: Global) -> Reply
    ensures { result ≡ record { reports = []; notes = [] } }
{
    Reply {
        reports: List::new(alloc),
        notes: List::new(alloc),
    }
}

/// One more step: its reports are appended, and behind them its notes on layouts, on owners, and the given
/// ones, which are on no cells. All of them are in greatest runs.
pub fn add_step(
    reply: &mut Reply,
    reports: List<Report>,
    layouts: List<Note>,
    owners: List<Note>,
    notes: List<Note>,
) -> Result<(), AllocError>
    ensures { OnOk result ((t : Trace) (event : ℕ) (old more : List Bound) (b : Bound)
        → AreNumbered (steps_in (old ++ more)) → IsNumbered (length (old ++ more)) b.step
        → AreReportsFrom (length (old ++ more)) (steps_in (old ++ more) ++ b.step ∷ []) (spots_of reports)
        → AreRuns reports
        → AreGreatestNotes (layout_notes t (before_end t (old ++ more)).moved b.step) layouts
        → AreGreatestNotes (owner_notes t (before_end t (old ++ more)).actions b.step) owners
        → b.notes ≡ notes → All IsOnNone notes → b.event ≡ event → IsReplySoFar t event old more reply.old
        → IsReplySoFar t event old (more ++ b ∷ []) reply.new) }
{
    append_reports(&mut reply.reports, reports)?;
    let behind = reply.reports.len() as u64;
    append_notes(&mut reply.notes, layouts, behind)?;
    append_notes(&mut reply.notes, owners, behind)?;
    append_notes(&mut reply.notes, notes, behind)
}
