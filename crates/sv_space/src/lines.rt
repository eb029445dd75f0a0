//! All lines: the line of an area, and what is done to its pieces.
ghost use Rattle.std.specs.Prelude.{◌≡◌, ◌<◌, ◌≤◌, ℕ, Contains, IfOk, List, OnOk, Some, length};
ghost use Rattle.std.specs.Prelude.{slice_index_or, sum_by};
ghost use Rattle.sv_model.specs.Cells.{area_resource};
ghost use Rattle.sv_model.specs.Reports.{AreNumbered};
ghost use Rattle.sv_model.specs.declared.work.Access.{Access};
ghost use Rattle.sv_model.specs.declared.work.Area.{Area};
ghost use Rattle.sv_model.specs.declared.work.Dep.{Dep};
ghost use Rattle.sv_model.specs.declared.work.Step.{Step};
ghost use Rattle.sv_space.specs.AllLines.{AreAllCaught, AreAllCut, AreAllLater, AreAllPartsOf};
ghost use Rattle.sv_space.specs.AllLines.{AreAllWithin, AreLinesOf, AreSameLines, IsRangeOf, LieIn, LiesAt};
ghost use Rattle.sv_space.specs.AllLines.{LiesIn};
ghost use Rattle.sv_space.specs.Cut.{AreApart};
ghost use Rattle.sv_space.specs.Growth.{GrowBy};
ghost use Rattle.sv_space.specs.Known.{groups_in};
ghost use Rattle.sv_space.specs.Runs.{access_runs, group_runs, range_runs, runs_of};
ghost use Rattle.sv_space.specs.Sorted.{AreSorted, IsPlaceOf};
ghost use Rattle.sv_space.specs.declared.line.Line.{Line};

use crate::cutting::cut;
use crate::line::Line;
use crate::log::Log;
use std::alloc::{AllocError, Global};
use sv_model::work::{Access, Area, Group};

fn res_of(area: Area) -> u32
    ensures { result ≡ area_resource area }
{
    match area {
        Area::Bytes { res, .. } => res,
        Area::Image { res, .. } => res,
    }
}

/// The number of lines of resources with a smaller number.
pub fn place_in(lines: &[Line], res: u32) -> usize
    ensures listed { result ≤ length lines.now }
    ensures place { AreSorted lines.now → IsPlaceOf res lines.now result }
{
    let mut low = 0;
    let mut high = lines.len();
    while low < high {
        let middle = low + (high - low) / 2;
        if lines[middle].res < res {
            low = middle + 1;
        } else {
            high = middle;
        }
    }
    low
}

/// The place of the line that has the area.
pub fn place_of(lines: &[Line], area: Area) -> usize
    requires sorted { AreSorted lines.now }
    requires lies { LiesIn lines.now area }
    ensures listed { result < length lines.now }
    ensures lies { (d : Line) → LiesAt (slice_index_or lines.now result d) area }
{
    place_in(lines, res_of(area))
}

// The pieces of the area are cut and caught up. Tells how many groups were given.
fn prepare_area(
    alloc: Global,
    lines: &mut Vec<Line>,
    log: &Log,
    area: Area,
) -> Result<u64, AllocError>
    requires sorted { AreSorted lines.old.items }
    requires lies { LiesIn lines.old.items area }
    requires within { AreAllWithin (length log.now) lines.old.items }
    ensures same { AreSameLines lines.old.items lines.new.items }
    ensures within { AreAllWithin (length log.now) lines.new.items }
    ensures stands { OnOk result ((work : List Step) → AreNumbered work → log.now ≡ groups_in work
        → AreLinesOf work lines.old.items → AreLinesOf work lines.new.items) }
    ensures later { OnOk result (AreAllLater (length log.now) lines.new.items lines.old.items) }
    ensures cut { OnOk result (AreAllCut area lines.new.items) }
    ensures caught { OnOk result (AreAllCaught area (length log.now) lines.new.items) }
    ensures others { OnOk result ((at : Area) (n : ℕ) → AreApart area at → AreAllCaught at n lines.old.items
        → AreAllCaught at n lines.new.items) }
    ensures few { OnOk result (GrowBy (runs_of area) lines.old.items lines.new.items) }
    ensures none { IfOk result (λ given. AreAllCaught area (length log.now) lines.old.items → given ≡ 0) }
{
    let at = place_of(lines, area);
    let line = &mut lines[at];
    line.prepare(alloc, log, area)
}

/// The pieces of each access are cut and caught up. Tells how many groups were given.
pub fn prepare(
    alloc: Global,
    lines: &mut Vec<Line>,
    log: &Log,
    accesses: &[Access],
) -> Result<u64, AllocError>
    requires sorted { AreSorted lines.old.items }
    requires lies { LieIn lines.old.items accesses.now }
    requires within { AreAllWithin (length log.now) lines.old.items }
    ensures same { AreSameLines lines.old.items lines.new.items }
    ensures within { AreAllWithin (length log.now) lines.new.items }
    ensures stands { OnOk result ((work : List Step) → AreNumbered work → log.now ≡ groups_in work
        → AreLinesOf work lines.old.items → AreLinesOf work lines.new.items) }
    ensures cut { OnOk result ((x : Access) → Contains accesses.now x → AreAllCut x.area lines.new.items) }
    ensures caught { OnOk result ((x : Access) → Contains accesses.now x
        → AreAllCaught x.area (length log.now) lines.new.items) }
    ensures others { OnOk result ((at : Area) (n : ℕ)
        → ((x : Access) → Contains accesses.now x → AreApart x.area at)
        → AreAllCaught at n lines.old.items → AreAllCaught at n lines.new.items) }
    ensures few { OnOk result (GrowBy (sum_by access_runs accesses.now) lines.old.items lines.new.items) }
    ensures none { IfOk result (λ given. ((x : Access) → Contains accesses.now x
        → AreAllCaught x.area (length log.now) lines.old.items) → given ≡ 0) }
{
    let mut given = 0u64;
    for access in accesses {
        let more = prepare_area(alloc, lines, log, access.area)?;
        given = given.saturating_add(more);
    }
    Ok(given)
}

// The pieces of the area are cut.
fn cut_area(alloc: Global, lines: &mut Vec<Line>, area: Area) -> Result<(), AllocError>
    requires sorted { AreSorted lines.old.items }
    requires lies { LiesIn lines.old.items area }
    ensures same { AreSameLines lines.old.items lines.new.items }
    ensures parts { AreAllPartsOf lines.new.items lines.old.items }
    ensures cut { OnOk result (AreAllCut area lines.new.items) }
    ensures few { OnOk result (GrowBy (runs_of area) lines.old.items lines.new.items) }
{
    let at = place_of(lines, area);
    let line = &mut lines[at];
    cut(alloc, line, area)
}

fn cut_range(alloc: Global, lines: &mut Vec<Line>, range: Option<Area>) -> Result<(), AllocError>
    requires sorted { AreSorted lines.old.items }
    requires lies { (area : Area) → range ≡ Some area → LiesIn lines.old.items area }
    ensures same { AreSameLines lines.old.items lines.new.items }
    ensures parts { AreAllPartsOf lines.new.items lines.old.items }
    ensures cut { OnOk result ((area : Area) → range ≡ Some area → AreAllCut area lines.new.items) }
    ensures few { OnOk result (GrowBy (range_runs range) lines.old.items lines.new.items) }
{
    match range {
        None => Ok(()),
        Some(area) => cut_area(alloc, lines, area),
    }
}

// The pieces of what the dependencies of a group are limited to are cut.
fn cut_group(alloc: Global, lines: &mut Vec<Line>, group: &Group) -> Result<(), AllocError>
    requires sorted { AreSorted lines.old.items }
    requires lies { (d : Dep) (area : Area) → Contains group.now.deps d → d.range ≡ Some area
        → LiesIn lines.old.items area }
    ensures same { AreSameLines lines.old.items lines.new.items }
    ensures parts { AreAllPartsOf lines.new.items lines.old.items }
    ensures cut { OnOk result ((d : Dep) (area : Area) → Contains group.now.deps d → d.range ≡ Some area
        → AreAllCut area lines.new.items) }
    ensures few { OnOk result (GrowBy (group_runs group.now) lines.old.items lines.new.items) }
{
    let deps = group.deps.as_slice();
    for dep in deps {
        cut_range(alloc, lines, dep.range)?;
    }
    Ok(())
}

/// The pieces of what the dependencies of the groups are limited to are cut.
pub fn cut_groups(alloc: Global, lines: &mut Vec<Line>, groups: &[Group]) -> Result<(), AllocError>
    requires sorted { AreSorted lines.old.items }
    requires lies { (area : Area) → IsRangeOf groups.now area → LiesIn lines.old.items area }
    ensures same { AreSameLines lines.old.items lines.new.items }
    ensures parts { AreAllPartsOf lines.new.items lines.old.items }
    ensures cut { OnOk result ((area : Area) → IsRangeOf groups.now area → AreAllCut area lines.new.items) }
    ensures few { OnOk result (GrowBy (sum_by group_runs groups.now) lines.old.items lines.new.items) }
{
    for group in groups {
        cut_group(alloc, lines, group)?;
    }
    Ok(())
}
