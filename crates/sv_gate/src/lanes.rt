//! The lanes: each holds its calls in the order in which they came.
ghost use Rattle.std.specs.Prelude.{◌≡◌, ◌++◌, ◌∷◌, [], map, IfOk, OnOk, OnErr, slice_index_or};
ghost use Rattle.sv_model.specs.declared.work.Held.TheVariants as held;
ghost use Rattle.sv_gate.specs.declared.waiting.Waiting.{Waiting};
ghost use Rattle.sv_gate.specs.Gates.{added, Pops};

use crate::waiting::Waiting;
use std::alloc::AllocError;
use std::collections::VecDeque;
use std::marker::Model;
use sv_model::work::Held;
use sv_range::List;

/// The calls that a lane holds.
#[derive(Drop)]
pub struct Lane {
    pub calls: VecDeque<Waiting>,
}

impl Model for Lane {
    ghost use Rattle.std.specs.Prelude.{List};
    ghost use Rattle.sv_gate.specs.declared.waiting.Waiting.{Waiting};

    ghost Value = { List Waiting };

    ghost view = { λ lane. lane.calls.items };
}

fn push_back(lane: &mut Lane, waiting: Waiting) -> Result<(), AllocError>
    ensures ok { OnOk result (lane.new ≡ lane.old ++ waiting ∷ []) }
    ensures fault { OnErr result (lane.new ≡ lane.old) }
{
    match lane.calls.push_back(waiting) {
        Ok(()) => Ok(()),
        Err(_) => Err(AllocError),
    }
}

/// A call comes to its lane. Where memory is missing, nothing changes.
pub fn push_call(lanes: &mut [Lane], lane: u32, waiting: Waiting) -> Result<(), AllocError>
    ensures ok { OnOk result (lanes.new ≡ added lanes.old lane (waiting ∷ [])) }
    ensures fault { OnErr result (lanes.new ≡ lanes.old) }
{
    let at = lane as usize;
    if at < lanes.len() {
        push_back(&mut lanes[at], waiting)
    } else {
        Ok(())
    }
}

/// Takes the first call of a lane.
pub fn pop_call(lanes: &mut [Lane], lane: u32) -> Option<Waiting>
    ensures { Pops lanes.old lanes.new lane result }
{
    let at = lane as usize;
    if at < lanes.len() {
        let held = &mut lanes[at];
        held.calls.pop_front()
    } else {
        None
    }
}

/// Appends the calls that a lane holds.
pub fn push_held(list: &mut List<Held>, lane: u32, calls: &Lane) -> Result<(), AllocError>
    ensures { OnOk result (list.new ≡ list.old ++ map (λ (x : Waiting). held.Call lane x.index) calls.now) }
{
    for waiting in &calls.calls {
        list.push_or_drop(Held::Call {
            lane,
            index: waiting.index,
        })?;
    }
    Ok(())
}
