//! An answer goes to the listeners and to the sink.
ghost use Rattle.std.specs.Prelude.{◌≡◌, ◌≢◌, [], Err, length, OnOk, IsErrOf};
ghost use Rattle.std.specs.Io.KnownBytes.{Appends};
ghost use Rattle.sv_hub.specs.Attachments.{HasHeard, HasRoom};
ghost use Rattle.sv_io.specs.Causes.{Rose};
ghost use Rattle.sv_app.specs.Run.{AppendsPart};

use crate::answer::Answer;
use sv_hub::Audience;
use sv_io::{Sink, write_all};
use sv_model::work::Report;

/// Why an answer was not written.
#[derive(Clone, Copy)]
pub enum WriteStop {
    /// A listener has no memory for the reports. Nothing was heard or written.
    Memory,
    /// A write failed.
    Failed,
}

// The audience hears the reports, for which it has room.
fn tell<H: Audience>(hub: &mut H, reports: &[Report])
    requires { HasRoom (length reports.now) (H.attachments hub.old) }
    ensures { HasHeard reports.now (H.attachments hub.old) (H.attachments hub.new) }
{
    for report in reports {
        hub.deliver(report);
    }
}

/// Tells the audience all reports, and then writes the text. Before there is room for all reports none is
/// heard.
pub fn deliver<K: Sink, H: Audience>(
    sink: &mut K,
    hub: &mut H,
    answer: &Answer,
) -> Result<(), WriteStop>
    ensures ok { OnOk result (Appends (K.written sink.old) (K.written sink.new) answer.now.text) }
    ensures failed { IsErrOf result WriteStop.Failed
        → AppendsPart (K.written sink.old) (K.written sink.new) answer.now.text
        × Rose (K.faults sink.old) (K.faults sink.new) }
    ensures no_fault { result ≢ Err WriteStop.Failed → K.faults sink.new ≡ K.faults sink.old }
    ensures heard { result ≢ Err WriteStop.Memory
        → HasHeard answer.now.reports (H.attachments hub.old) (H.attachments hub.new) }
    ensures memory { IsErrOf result WriteStop.Memory
        → (sink.new ≡ sink.old) × HasHeard [] (H.attachments hub.old) (H.attachments hub.new) }
{
    if hub.reserve(answer.reports.len()).is_err() {
        return Err(WriteStop::Memory);
    }
    tell(hub, answer.reports.as_slice());
    if write_all(sink, answer.text.as_slice()).is_err() {
        return Err(WriteStop::Failed);
    }
    Ok(())
}
