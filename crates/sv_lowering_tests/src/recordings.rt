//! Finished recordings.
ghost use Rattle.std.specs.Prelude.{◌≡◌, IfOk, IfSome, is_some};
ghost use Rattle.sv_model.specs.Declarations.{recording_of};
ghost use Rattle.sv_model.specs.Lawful.{IsLawful};
ghost use Rattle.sv_record.specs.Indexed.{IsIndexOf};

use std::alloc::{AllocError, Global};
use sv_model::line::Trace;
use sv_model::recorded::Recorded;
use sv_record::index::Index;
use sv_record::record as whole_recording;

fn is_declared(trace: &Trace, index: &Index, number: u32) -> bool
    requires { IsIndexOf trace.now index.now }
    ensures { result ≡ is_some (recording_of trace.now number) }
{
    index.recordings.find(trace, number).is_some()
}

/// The recording with this number, finished: each of its commands is lowered. None where the trace has no
/// such recording.
pub fn record(alloc: Global, trace: &Trace, number: u32) -> Result<Option<Recorded>, AllocError>
    requires { IsLawful trace.now }
    ensures { IfOk result (λ found. IfSome found (λ recorded. recorded.of.value ≡ trace.now)) }
{
    let index = Index::new(alloc, trace)?;
    if is_declared(trace, &index, number) {
        let recorded = whole_recording(alloc, trace, &index, number)?;
        return Ok(Some(recorded));
    }
    Ok(None)
}
