//! The end of a text.
ghost use Rattle.std.specs.Prelude.{◌≡◌, IfOk};
ghost use Rattle.sv_rules.specs.Ends.{EndsWith};

use crate::recordings::Recordings;
use crate::register::Register;
use crate::scripts::Scripts;
use crate::taken::TakenLines;
use std::alloc::{AllocError, Global};
use sv_model::line::{Line, Trace};
use sv_model::refusal::{Cause, Fault, Refusal};
use sv_range::List;

fn lines_in<V: Copy + Drop>(register: Register<V>) -> List<Line>
    ensures { result ≡ register.lines.items }
{
    let Register { lines, .. } = register;
    List::from_vec(lines)
}

fn trace_of(taken: TakenLines) -> Result<Trace, AllocError>
    ensures { IfOk result (λ trace. trace ≡ taken.trace) }
{
    let TakenLines {
        alloc,
        queues,
        resources,
        semaphores,
        events,
        fences,
        passes,
        recordings,
        scripts,
        ..
    } = taken;
    let Recordings { list, .. } = recordings;
    let Scripts {
        lanes,
        recorders,
        order,
    } = scripts;
    Ok(Trace {
        queues: lines_in(queues),
        resources: lines_in(resources),
        semaphores: lines_in(semaphores),
        events: lines_in(events),
        fences: lines_in(fences),
        passes: lines_in(passes),
        recordings: List::from_vec(list),
        lane_scripts: List::from_vec(Vec::from_array(alloc, lanes)?),
        recorder_scripts: List::from_vec(Vec::from_array(alloc, recorders)?),
        text_order: List::from_vec(order),
    })
}

impl TakenLines {
    /// The trace that the lines make. Where a recording is open, the line after the last one is refused.
    pub fn end(self) -> Result<Trace, Fault>
        ensures { EndsWith self result }
    {
        if self.is_unfinished() {
            return Err(Fault::Refused(Refusal {
                line: self.lines() + 1,
                cause: Cause::Unfinished,
            }));
        }
        match trace_of(self) {
            Ok(trace) => Ok(trace),
            Err(_) => Err(Fault::Memory),
        }
    }
}
