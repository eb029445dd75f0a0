//! A step's accesses on a cell.
ghost use Rattle.std.specs.Prelude.{◌≡◌, ◌<◌, ℕ, Bool, Contains, OnOk, true, false};
ghost use Rattle.sv_model.specs.Order.{Story};
ghost use Rattle.sv_model.specs.Reports.{on_cell};
ghost use Rattle.sv_model.specs.declared.work.Access.{Access};
ghost use Rattle.sv_state.specs.States.{StandsFor};
ghost use Rattle.sv_state.specs.Contents.{Contents, contents_of};
ghost use Rattle.sv_space.specs.Own.{HaveOwnGroups, own_of};
ghost use Rattle.sv_space.specs.Recorded.{IsRecording, TellsRaces};

use crate::own::{all_on, on_cell, own_group};
use std::alloc::{AllocError, Global};
use sv_model::work::{Access, Cell, Group};
use sv_state::CellState;

// Whether one of the accesses races with an earlier one.
fn races(state: &CellState, accesses: &[Access], groups: &[Group]) -> bool
    requires { HaveOwnGroups groups.now accesses.now }
    ensures { TellsRaces (own_of groups.now) accesses.now result (contents_of state.now) }
{
    for access in accesses {
        let own = own_group(groups, access);
        if let Some(_partner) = state.check(access, own) {
            return true;
        }
    }
    false
}

// The epoch begins anew where an access raced.
fn restart_if(state: &mut CellState, raced: bool)
    ensures step { state.new.step ≡ state.old.step }
    ensures kept { raced ≡ false → (story : Story) (epoch : ℕ) → StandsFor story epoch state.old
        → StandsFor story epoch state.new }
    ensures restarts { raced ≡ true → (story : Story) (epoch next : ℕ) → StandsFor story epoch state.old
        → ((a : Access) → Contains story.accesses a → a.step < next) → StandsFor story next state.new }
{
    if raced {
        state.restart();
    }
}

// Records these accesses in the state of a cell that each of them touches.
fn record_these(state: &mut CellState, here: &[Access], groups: &[Group]) -> Result<(), AllocError>
    requires { HaveOwnGroups groups.now here.now }
    ensures { OnOk result ((raced : Bool) × (mid : Contents)
        × IsRecording (own_of groups.now) here.now raced (contents_of state.old) mid
        (contents_of state.new)) }
{
    let raced = races(state, here, groups);
    restart_if(state, raced);
    state.record(here)
}

/// Records a step's accesses in the state of a cell. Its epoch begins anew where one of them races.
pub fn record_on(
    alloc: Global,
    state: &mut CellState,
    cell: Cell,
    accesses: &[Access],
    groups: &[Group],
) -> Result<(), AllocError>
    requires { HaveOwnGroups groups.now accesses.now }
    ensures { OnOk result ((raced : Bool) × (mid : Contents)
        × IsRecording (own_of groups.now) (on_cell cell accesses.now) raced (contents_of state.old) mid
        (contents_of state.new)) }
{
    if all_on(accesses, cell) {
        return record_these(state, accesses, groups);
    }
    let list = on_cell(alloc, accesses, cell)?;
    record_these(state, list.as_slice(), groups)
}
