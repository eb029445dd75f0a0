//! The answer to a text in a history that its lanes and recorders make in threads.
ghost use Rattle.std.specs.Prelude.{IfOk};
ghost use Rattle.sv_model.specs.Lawful.{IsLawful};
ghost use Rattle.sv_app.specs.Answer.{InSomeOrder, IsAnswerTo};

use crate::answer::{Answer, history_answer, refusal_answer};
use std::alloc::{AllocError, Global};
use std::sync::Wait;
use std::thread::Threads;
use sv_check::read_text;
use sv_device::replay;
use sv_io::Pace;
use sv_model::line::Trace;
use sv_model::refusal::Fault;

// The text of a trace in the history of its replay, whichever that is.
fn replayed_trace<P: Pace + Sync, R: Threads + Wait + Sync>(
    rt: &R,
    alloc: Global,
    trace: &Trace,
    pace: &P,
) -> Result<Answer, AllocError>
    requires { IsLawful trace.now }
    ensures { IfOk result (λ it. InSomeOrder trace.now it.status it.text it.reports) }
{
    let validator = replay(rt, alloc, trace, pace)?;
    let answer = history_answer(alloc, trace, &validator)?;
    Ok(answer)
}

/// The answer to the bytes of a text, in the history of its replay.
pub fn replayed_answer<P: Pace + Sync, R: Threads + Wait + Sync>(
    rt: &R,
    alloc: Global,
    bytes: &[u8],
    pace: &P,
) -> Result<Answer, AllocError>
    ensures { IfOk result (λ it. IsAnswerTo InSomeOrder bytes.now it.status it.text it.reports) }
{
    match read_text(alloc, bytes) {
        Ok(trace) => replayed_trace(rt, alloc, &trace, pace),
        Err(Fault::Memory) => Err(AllocError),
        Err(Fault::Refused(refusal)) => refusal_answer(alloc, &refusal),
    }
}
