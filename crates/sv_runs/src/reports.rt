//! One report more, which goes on from the last one or begins a run.
ghost use Rattle.std.specs.Prelude.{◌≡◌, ◌↔◌, ◌++◌, OnOk, IsTrue};
ghost use Rattle.sv_model.specs.Cells.{EndsSmall};
ghost use Rattle.sv_model.specs.Reports.{Joins, IsRun, spots, spots_of};
ghost use Rattle.sv_runs.specs.Runs.{AreRuns, Grows};

use crate::areas::{follows, joined_area};
use std::alloc::AllocError;
use sv_model::same::is_same_access;
use sv_model::work::Report;
use sv_range::List;

// Whether the two reports have the same accesses and kind.
fn is_same_pair(first: &Report, second: &Report) -> bool
    ensures { IsTrue result ↔ ((first.now.later ≡ second.now.later)
        × (first.now.earlier ≡ second.now.earlier) × (first.now.kind ≡ second.now.kind)) }
{
    is_same_access(&first.later, &second.later)
        && is_same_access(&first.earlier, &second.earlier)
        && first.kind == second.kind
}

// Whether the two reports could be one.
fn joins(first: &Report, second: &Report) -> bool
    ensures { IsTrue result ↔ Joins first.now second.now }
{
    follows(first.area, second.area) && is_same_pair(first, second)
}

/// One more report: it goes on from the last one, or begins a run of its own.
pub fn add_run(reports: &mut List<Report>, report: Report) -> Result<(), AllocError>
    requires run { IsRun report.area }
    requires ends { EndsSmall report.area }
    requires runs { AreRuns reports.old }
    ensures whole { OnOk result (spots_of reports.new ≡ spots_of reports.old ++ spots report) }
    ensures runs { OnOk result (AreRuns reports.new) }
    ensures grown { OnOk result (Grows reports.old report reports.new) }
{
    match reports.pop() {
        None => reports.push_or_drop(report),
        Some(last) => {
            if joins(&last, &report) {
                let area = joined_area(last.area, report.area);
                reports.push_or_drop(Report { area, ..last })
            } else {
                reports.push_or_drop(last)?;
                reports.push_or_drop(report)
            }
        }
    }
}
