//! Replies in greatest runs of neighbouring cells.
ghost use Rattle.std.specs.Prelude.{◌≡◌, ℕ, All, IfOk, List, get_or};
ghost use Rattle.sv_model.specs.Replies.{IsReply};
ghost use Rattle.sv_model.specs.Reports.{spots_of};
ghost use Rattle.sv_model.specs.declared.line.Mark.{Mark};
ghost use Rattle.sv_model.specs.declared.line.Trace.{Trace};
ghost use Rattle.sv_runs.specs.Runs.{AreRuns};
ghost use Rattle.sv_runs.specs.Grouped.{HasNoteRun, HasRun, IsGrouped, Moves, StandsFor};

use crate::grouped_notes::group_notes;
use crate::reports::add_run;
use std::alloc::{AllocError, Global};
use sv_model::work::{Reply, Report};
use sv_range::List;

// The reports in greatest runs, and how many they are after each of those that were given.
fn group_reports(alloc: Global, reports: &[Report]) -> Result<(List<Report>, Vec<u64>), AllocError>
    requires { All HasRun reports.now }
    ensures whole { IfOk result (λ it. spots_of it.0 ≡ spots_of reports.now) }
    ensures runs { IfOk result (λ it. AreRuns it.0) }
    ensures moves { IfOk result (λ it. Moves reports.now it.0 (λ (k : ℕ). get_or it.1.items k 0)) }
{
    let mut grouped = List::new(alloc);
    let mut numbers = vec![in alloc; 0u64]?;
    for report in reports {
        add_run(&mut grouped, *report)?;
        numbers.push(grouped.len() as u64)?;
    }
    Ok((grouped, numbers))
}

/// The reply in greatest runs of neighbouring cells: reports of one access with the same partner and kind
/// are joined, and so are layout and owner notes of one access or element that declare and found the same.
/// Each of the reply's areas is one run of cells, which crosses no mip. Each note's number of reports
/// before it is put right for the joined reports. So a reply that stands for the reply to an event cell by
/// cell is then that reply.
pub fn group(alloc: Global, reply: &Reply) -> Result<Reply, AllocError>
    requires reports { All HasRun reply.now.reports }
    requires notes { All HasNoteRun reply.now.notes }
    ensures grouped { IfOk result (IsGrouped reply.now) }
    ensures stands { IfOk result (λ grouped. (t : Trace) (history : List Mark) (event : ℕ)
        → StandsFor t history event reply.now → IsReply t history event grouped) }
{
    let given = reply.reports.as_slice();
    let noted = reply.notes.as_slice();
    let (reports, numbers) = group_reports(alloc, given)?;
    let notes = group_notes(alloc, noted, numbers.as_slice())?;
    Ok(Reply { reports, notes })
}
