//! What a step reports, and what is recorded of it.
ghost use Rattle.std.specs.Prelude.{◌≡◌, [], ◌∷◌, ◌++◌, ◌<◌, ◌≤◌, ℕ, Contains, IfOk, List, OnOk, length};
ghost use Rattle.std.specs.Prelude.{slice_index_or};
ghost use Rattle.sv_model.specs.Reports.{AreReportsFrom, spots_of};
ghost use Rattle.sv_model.specs.declared.work.Access.{Access};
ghost use Rattle.sv_model.specs.declared.work.Area.{Area};
ghost use Rattle.sv_model.specs.declared.work.Step.{Step};
ghost use Rattle.sv_space.specs.AllLines.{AreAllCaught, AreAllCut, AreAllWithin, AreLinesOf, AreSameLines};
ghost use Rattle.sv_space.specs.AllLines.{IsRangeOf, LieIn};
ghost use Rattle.sv_space.specs.Growth.{pieces_over};
ghost use Rattle.sv_space.specs.Known.{groups_in};
ghost use Rattle.sv_space.specs.Marked.{IsLineMarked, IsStepOf};
ghost use Rattle.sv_space.specs.Own.{HaveOwnGroups};
ghost use Rattle.sv_runs.specs.Runs.{AreRuns};
ghost use Rattle.sv_space.specs.Sorted.{AreSorted};
ghost use Rattle.sv_space.specs.declared.line.Line.{Line};

use crate::finding::find;
use crate::line::Line;
use crate::lines::place_of;
use crate::log::Log;
use crate::own::own_group;
use crate::recording::record;
use std::alloc::{AllocError, Global};
use sv_model::work::{Access, Group, Report};
use sv_range::List;

/// What the accesses of a step report, in greatest runs.
pub fn find_all(
    alloc: Global,
    lines: &[Line],
    accesses: &[Access],
    groups: &[Group],
) -> Result<List<Report>, AllocError>
    requires sorted { AreSorted lines.now }
    requires lies { LieIn lines.now accesses.now }
    requires cut { (x : Access) → Contains accesses.now x → AreAllCut x.area lines.now }
    requires own { HaveOwnGroups groups.now accesses.now }
    ensures runs { IfOk result AreRuns }
    ensures reports { IfOk result (λ reports. (work : List Step) (step : Step)
        → IsStepOf work step accesses.now groups.now
        → ((x : Access) → Contains accesses.now x → AreAllCaught x.area (length (groups_in work)) lines.now)
        → AreLinesOf work lines.now
        → AreReportsFrom (length work) (work ++ step ∷ []) (spots_of reports)) }
{
    let mut reports = List::new(alloc);
    for access in accesses {
        let at = place_of(lines, access.area);
        let line = &lines[at];
        let own = own_group(groups, access);
        find(alloc, line, access, own, &mut reports)?;
    }
    Ok(reports)
}

// Records the access with that number.
fn record_one(
    alloc: Global,
    lines: &mut Vec<Line>,
    accesses: &[Access],
    groups: &[Group],
    number: usize,
) -> Result<(), AllocError>
    requires number { number < length accesses.now }
    requires sorted { AreSorted lines.old.items }
    requires lies { LieIn lines.old.items accesses.now }
    requires cut { (x : Access) → Contains accesses.now x → AreAllCut x.area lines.old.items }
    requires own { HaveOwnGroups groups.now accesses.now }
    ensures same { AreSameLines lines.old.items lines.new.items }
    ensures within { (n : ℕ) → AreAllWithin n lines.old.items → AreAllWithin n lines.new.items }
    ensures marked { OnOk result ((k : ℕ) (d : Line) → k < length lines.old.items
        → IsLineMarked accesses.now groups.now number (slice_index_or lines.old.items k d)
        (slice_index_or lines.new.items k d)) }
{
    let at = place_of(lines, accesses[number].area);
    let line = &mut lines[at];
    record(alloc, line, accesses, groups, number)
}

/// Records the accesses of a step.
pub fn record_all(
    alloc: Global,
    lines: &mut Vec<Line>,
    accesses: &[Access],
    groups: &[Group],
) -> Result<(), AllocError>
    requires sorted { AreSorted lines.old.items }
    requires lies { LieIn lines.old.items accesses.now }
    requires cut { (x : Access) → Contains accesses.now x → AreAllCut x.area lines.old.items }
    requires own { HaveOwnGroups groups.now accesses.now }
    ensures same { AreSameLines lines.old.items lines.new.items }
    ensures within { (n : ℕ) → AreAllWithin n lines.old.items → AreAllWithin n lines.new.items }
    ensures stands { OnOk result ((work : List Step) (step : Step)
        → IsStepOf work step accesses.now groups.now
        → ((x : Access) → Contains accesses.now x
        → AreAllCaught x.area (length (groups_in work)) lines.old.items)
        → ((area : Area) → IsRangeOf groups.now area → AreAllCut area lines.old.items)
        → AreLinesOf work lines.old.items → AreLinesOf (work ++ step ∷ []) lines.new.items) }
    ensures upto { OnOk result ((at : Area) (n : ℕ) → AreAllCaught at n lines.old.items
        → AreAllCaught at n lines.new.items) }
    ensures few { OnOk result (pieces_over lines.new.items ≡ pieces_over lines.old.items) }
{
    for number in 0..accesses.len() {
        record_one(alloc, lines, accesses, groups, number)?;
    }
    Ok(())
}

/// Puts the groups of a step into the log.
pub fn append(alloc: Global, log: &mut Log, groups: &[Group]) -> Result<(), AllocError>
    ensures all { OnOk result (log.new ≡ log.old ++ groups.now) }
    ensures longer { length log.old ≤ length log.new }
{
    for group in groups {
        log.push(alloc, group)?;
    }
    Ok(())
}
