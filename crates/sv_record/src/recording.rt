//! Whole recordings.
ghost use Rattle.std.specs.Prelude.{◌≡◌, IfOk, IsTrue, is_some};
ghost use Rattle.sv_model.specs.Declarations.{commands_of, recording_of};
ghost use Rattle.sv_model.specs.Lawful.{IsLawful};
ghost use Rattle.sv_index.specs.Indexes as recordings;
ghost use Rattle.sv_record.specs.Indexed.{IsIndexOf};

use crate::context::RecordContext;
use crate::index::Index;
use std::alloc::{AllocError, Global};
use sv_index::RecordingIndex;
use sv_model::line::{Command, Trace};
use sv_model::recorded::Recorded;

// The commands of the recording with this number.
fn commands_of<'a>(trace: &'a Trace, index: &RecordingIndex, number: u32) -> &'a [Command]
    requires { recordings.IsIndexOf trace.now index.now }
    ensures { result.now ≡ commands_of trace.now number }
{
    match index.find(trace, number) {
        Some(recording) => recording.commands.as_slice(),
        None => &[],
    }
}

/// The recording of that number, which the trace has, finished: each of its commands is lowered. The index
/// is the trace's. Fails only for want of memory.
pub fn record(
    alloc: Global,
    trace: &Trace,
    index: &Index,
    number: u32,
) -> Result<Recorded, AllocError>
    requires indexed { IsIndexOf trace.now index.now }
    requires lawful { IsLawful trace.now }
    requires declared { IsTrue (is_some (recording_of trace.now number)) }
    ensures trace { IfOk result (λ recorded. recorded.of.value ≡ trace.now) }
    ensures number { IfOk result (λ recorded. recorded.number ≡ number) }
{
    let mut context = RecordContext::new(alloc, trace, &index.recordings, number)?;
    for command in commands_of(trace, &index.recordings, number) {
        context.push(&index.passes, command)?;
    }
    Ok(context.finish())
}
