//! The events of the actors. A recorder fills its own context.
ghost use Rattle.std.specs.Prelude.{◌≡◌, ◌<◌, IfOk, length};
ghost use Rattle.sv_model.specs.Lawful.{IsLawful};
ghost use Rattle.sv_record.specs.Indexed.{IsIndexOf};
ghost use Rattle.sv_core.specs.Marks.{IsOwn, mark_of};
ghost use Rattle.sv_device.specs.Actors.{mark_at, script_of};

use crate::who::Who;
use std::alloc::AllocError;
use sv_model::line::Trace;
use sv_model::recorded::Event;
use sv_record::index::Index;
use sv_record::record;

/// The event at that place of the actor's script; the index is that of the trace. A recorder fills a
/// context of its own for it. Fails only for want of memory.
pub fn event_at(trace: &Trace, index: &Index, who: Who, place: u32) -> Result<Event, AllocError>
    requires lawful { IsLawful trace.now }
    requires indexed { IsIndexOf trace.now index.now }
    requires left { place < length (script_of trace.now who) }
    ensures mark { IfOk result (λ event. mark_of event ≡ mark_at trace.now who place) }
    ensures own { IfOk result (λ event. IsOwn trace.now event) }
{
    match who {
        Who::Lane(lane) => Ok(Event::Call { lane, index: place }),
        Who::Recorder(recorder) => {
            let script = trace.recorder_scripts.get(recorder as usize);
            let alloc = trace.recordings.allocator();
            let recorded = record(alloc, trace, index, *script.get(place as usize))?;
            Ok(Event::Publish(recorded))
        }
    }
}
