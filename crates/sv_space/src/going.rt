//! A state goes through the groups of a log, and passes over those that add nothing to it.
ghost use Rattle.std.specs.Prelude.{◌≡◌, ◌-◌, ◌<◌, ◌≤◌, ℕ, Contains, IfOk, OnOk, drop, length, take};
ghost use Rattle.std.specs.Prelude.{slice_index_or};
ghost use Rattle.sv_model.specs.Cells.{IsOnly};
ghost use Rattle.sv_model.specs.declared.work.Cell.{Cell};
ghost use Rattle.sv_model.specs.declared.work.Group.{Group};
ghost use Rattle.sv_state.specs.Contents.{contents_of};
ghost use Rattle.sv_state.specs.Outlines.{AddsNothing};
ghost use Rattle.sv_state.specs.States.{entries_of};
ghost use Rattle.sv_state.specs.declared.entry.Entry.{Entry};
ghost use Rattle.sv_space.specs.Known.{HasGone, MayFollow};
ghost use Rattle.sv_space.specs.Patterns.{AreFullPatterns, HavePatterns};

use crate::marks::Block;
use crate::passing::next_in;
use crate::pattern::Pattern;
use std::alloc::AllocError;
use sv_model::work::{Area, Group};
use sv_state::CellState;

// The number of the next group, from that one on, that the state has to be given: those before add nothing
// to it. To a state without accesses none does.
fn next_of(
    groups: &Vec<Group>,
    patterns: &Vec<Pattern>,
    numbers: &Vec<u8>,
    blocks: &Vec<Block>,
    state: &CellState,
    from: usize,
    full: &mut u64,
) -> usize
    requires from { from < length groups.now.items }
    requires have { HavePatterns groups.now.items patterns.now.items numbers.now.items blocks.now.items }
    requires known { AreFullPatterns state.now patterns.now.items full.old }
    ensures known { AreFullPatterns state.now patterns.now.items full.new }
    ensures first { from ≤ result }
    ensures listed { result ≤ length groups.now.items }
    ensures passed { (number : ℕ) (d : Group) → from ≤ number → number < result
        → AddsNothing state.now (slice_index_or groups.now.items number d) }
    ensures late { (d : Group) (e : Entry) → from < result → Contains (entries_of state.now) e
        → e.access.step < (slice_index_or groups.now.items from d).step }
{
    if state.kept() == 0 {
        return groups.len();
    }
    if groups[from].step <= state.newest() {
        from
    } else {
        next_in(state, patterns, numbers, blocks, from, full)
    }
}

// Gives the state the next group that may add to it, and passes over those before. Tells how many groups were
// given so far.
fn go_on(
    groups: &Vec<Group>,
    patterns: &Vec<Pattern>,
    numbers: &Vec<u8>,
    blocks: &Vec<Block>,
    state: &mut CellState,
    done: usize,
    at: &Area,
    full: &mut u64,
) -> Result<usize, AllocError>
    requires done { done < length groups.now.items }
    requires have { HavePatterns groups.now.items patterns.now.items numbers.now.items blocks.now.items }
    requires known { AreFullPatterns state.old patterns.now.items full.old }
    ensures known { OnOk result (AreFullPatterns state.new patterns.now.items full.new) }
    ensures further { IfOk result (λ next. (done < next) × (next ≤ length groups.now.items)) }
    ensures gone { IfOk result (λ next. (cell : Cell) → IsOnly at.now cell
        → MayFollow state.old.step (drop done groups.now.items)
        → HasGone cell (take (next - done) (drop done groups.now.items)) (contents_of state.old)
        (contents_of state.new)) }
{
    let next = next_of(groups, patterns, numbers, blocks, state, done, full);
    if next < groups.len() {
        let group = &groups[next];
        state.come_to(group.step)?;
        state.extend_in_place(group, at)?;
        Ok(next + 1)
    } else {
        state.come_to(groups[next - 1].step)?;
        Ok(next)
    }
}

/// Gives the state the groups from that number on, on one cell. What it holds of a pattern it holds from then
/// on, so that it is asked for that once.
pub fn go_through(
    groups: &Vec<Group>,
    patterns: &Vec<Pattern>,
    numbers: &Vec<u8>,
    blocks: &Vec<Block>,
    state: &mut CellState,
    from: usize,
    at: &Area,
) -> Result<(), AllocError>
    requires from { from ≤ length groups.now.items }
    requires have { HavePatterns groups.now.items patterns.now.items numbers.now.items blocks.now.items }
    ensures { OnOk result ((cell : Cell) → IsOnly at.now cell
        → MayFollow state.old.step (drop from groups.now.items)
        → HasGone cell (drop from groups.now.items) (contents_of state.old) (contents_of state.new)) }
{
    let mut full = 0u64;
    let mut done = from;
    while done < groups.len() {
        let next = go_on(
            groups, patterns, numbers, blocks, state, done, at, &mut full,
        )?;
        done = next;
    }
    Ok(())
}
