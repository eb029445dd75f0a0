//! One more event of a history.
ghost use Rattle.std.specs.Prelude.{◌≡◌, ◌∷◌, ◌++◌, [], List, length, IfOk, OnOk, OnErr};
ghost use Rattle.sv_model.specs.Replies.{IsReply};
ghost use Rattle.sv_core.specs.Going.{AreReady, MayTakeIn};
ghost use Rattle.sv_core.specs.Marks.{IsOwn, mark_of};

use crate::parts::Parts;
use std::alloc::AllocError;
use sv_model::line::{Mark, Trace};
use sv_model::recorded::Event;
use sv_model::work::Reply;
use sv_range::{Duplicate, List};

/// The number of events that the scripts have. It only serves to reserve their places.
pub fn event_count(trace: &Trace) -> usize {
    let mut count = 0usize;
    for script in trace.lane_scripts.as_slice() {
        count = count.saturating_add(script.len());
    }
    for script in trace.recorder_scripts.as_slice() {
        count = count.saturating_add(script.len());
    }
    count
}

fn mark_of(event: &Event) -> Mark
    ensures { result ≡ mark_of event.now }
{
    match event {
        Event::Publish(recorded) => Mark::Publish(recorded.number()),
        Event::Call { lane, index } => Mark::Call {
            lane: *lane,
            index: *index,
        },
    }
}

// The reply to the last event of the history, which is kept too.
fn reply_to(
    trace: &Trace,
    history: &[Mark],
    replies: &mut List<Reply>,
    parts: &mut Parts,
    number: u64,
    event: Event,
) -> Result<Reply, AllocError>
    requires { MayTakeIn trace.now history.now number event parts.old }
    ensures reply { IfOk result (IsReply trace.now history.now number) }
    ensures kept { IfOk result (λ reply. replies.new ≡ replies.old ++ reply ∷ []) }
    ensures ready { OnOk result (AreReady trace.now history.now parts.new) }
    ensures fault { OnErr result (replies.new ≡ replies.old) }
{
    let reply = parts.take_in(trace, history, number, event)?;
    let kept = reply.copy()?;
    replies.push_or_drop(kept)?;
    Ok(reply)
}

/// One more event of the history, and its reply. Where memory is missing both lists stay as they were.
pub fn go_on(
    trace: &Trace,
    history: &mut List<Mark>,
    replies: &mut List<Reply>,
    parts: &mut Parts,
    event: Event,
) -> Result<Reply, AllocError>
    requires own { IsOwn trace.now event }
    requires ready { AreReady trace.now history.old parts.old }
    ensures history { OnOk result (history.new ≡ history.old ++ mark_of event ∷ []) }
    ensures reply { IfOk result (IsReply trace.now history.new (length history.old)) }
    ensures kept { IfOk result (λ reply. replies.new ≡ replies.old ++ reply ∷ []) }
    ensures ready { OnOk result (AreReady trace.now history.new parts.new) }
    ensures fault { OnErr result ((history.new ≡ history.old) × (replies.new ≡ replies.old)) }
{
    let number = history.len() as u64;
    history.push_or_drop(mark_of(&event))?;
    match reply_to(trace, history.as_slice(), replies, parts, number, event) {
        Ok(reply) => Ok(reply),
        Err(refused) => {
            history.pop();
            Err(refused)
        }
    }
}
