//! A history goes on by one event. Each function does nothing: its contract is the law.
//!
//! - knows histories, their items and replies, and no code
//! - definitions: `Ways`, `Queued`: laws
//! - used by `sv_core`
#![tactic(auto)]

ghost use Rattle.sv_history_laws.specs.Queued.{TakenAreQueued};
ghost use Rattle.sv_history_laws.specs.Ways.{RepliesAreWhole, RepliesGoOn, WaysBegin, WaysEnd, WaysGoOn};
ghost use Rattle.sv_history_laws.specs.Ways.{WaysHaveEvents};

/// Before any item of the latest event is taken, the work is that of the history before it.
pub fn ways_begin()
    ensures { WaysBegin }
{}

/// One more item adds its steps, and what it leaves.
pub fn ways_go_on()
    ensures { WaysGoOn }
{}

/// Where no item is enabled, the flow and the work are those of the longer history.
pub fn ways_end()
    ensures { WaysEnd }
{}

/// While items are taken, the events are those of the longer history.
pub fn ways_have_events()
    ensures { WaysHaveEvents }
{}

/// What was said of all steps that the latest event released is the reply to it.
pub fn replies_are_whole()
    ensures { RepliesAreWhole }
{}

/// With the reply to the latest event, the replies are those to the longer history.
pub fn replies_go_on()
    ensures { RepliesGoOn }
{}

/// Of a lawful trace, a batch that is taken has published recordings, and a fence signal a declared fence.
pub fn taken_are_queued()
    ensures { TakenAreQueued }
{}
