//! The calls of the lanes.
ghost use Rattle.std.specs.Prelude.{◌≡◌, IfOk, map};
ghost use Rattle.sv_gate.specs.Calls.{call_in, queue_by};

use std::alloc::{AllocError, Global};
use sv_model::line::{Batch, Line};
use sv_range::{Duplicate, List};

/// A call of a lane. `Other` is a line that is no call.
#[derive(Drop)]
pub enum Call {
    Submit {
        queue: u32,
        batches: List<Batch>,
        fence: Option<u32>,
    },
    WaitFence(u32),
    ResetFence(u32),
    WaitQueue(u32),
    WaitDevice,
    Other,
}

fn call_of(line: &Line) -> Result<Call, AllocError>
    ensures { IfOk result (λ call. call ≡ call_in line.now) }
{
    match line {
        Line::Submit {
            queue,
            batches,
            fence,
            ..
        } => Ok(Call::Submit {
            queue: *queue,
            batches: batches.copy()?,
            fence: *fence,
        }),
        Line::WaitFence { fence, .. } => Ok(Call::WaitFence(*fence)),
        Line::ResetFence { fence, .. } => Ok(Call::ResetFence(*fence)),
        Line::WaitQueue { queue, .. } => Ok(Call::WaitQueue(*queue)),
        Line::WaitDevice { .. } => Ok(Call::WaitDevice),
        _ => Ok(Call::Other),
    }
}

/// The calls of a script, in order.
pub fn calls_of(alloc: Global, script: &List<Line>) -> Result<List<Call>, AllocError>
    ensures { IfOk result (λ calls. calls ≡ map call_in script.now) }
{
    let mut calls = List::new(alloc);
    for line in script.as_slice() {
        calls.push_or_drop(call_of(line)?)?;
    }
    Ok(calls)
}

/// The calls of all scripts, by lane.
pub fn scripts_of(alloc: Global, scripts: &List<List<Line>>) -> Result<List<List<Call>>, AllocError>
    ensures { IfOk result (λ lanes. lanes ≡ map (map call_in) scripts.now) }
{
    let mut lanes = List::new(alloc);
    for script in scripts.as_slice() {
        lanes.push_or_drop(calls_of(alloc, script)?)?;
    }
    Ok(lanes)
}

/// The queue of a submit.
pub fn queue_of(call: &Call) -> Option<u32>
    ensures { result ≡ queue_by call.now }
{
    match call {
        Call::Submit { queue, .. } => Some(*queue),
        _ => None,
    }
}
