//! Laws of the definitions: what the processed items left, and what is counted over them, are one
//! account. Each function does nothing: its contract is the law.
ghost use Rattle.sv_gate.specs.FlowLaws.{FlowHasItsEvents, LaterEventsLeave, TakingKeepsEvents};
ghost use Rattle.sv_gate.specs.Kept.{LawfulBatchesFit, LawfulPastsAgree};
ghost use Rattle.sv_gate.specs.ReadyLaws.{BatchesKeep, FencesStay, ReadySignalsFindRoom};
ghost use Rattle.sv_gate.specs.ReadyLaws.{ReadyWaitsFindSignals, SemaphoresStay, TakenBatchesAreReady};
ghost use Rattle.sv_gate.specs.Accounts.{FencesAgree, TimelinesAgree, PairsAgree, BinariesAgree};
ghost use Rattle.sv_gate.specs.Accounts.{BatchesAgree};

/// A fence is signalled, counted over the items, exactly where its state has a signal.
pub fn fences_agree()
    ensures { FencesAgree }
{}

/// A timeline serves a value, counted over the batches, exactly where its current value is not below it.
pub fn timelines_agree()
    ensures { TimelinesAgree }
{}

/// The current value of a timeline is not below a value exactly where the value at first serves it, or
/// a signal.
pub fn pairs_agree()
    ensures { PairsAgree }
{}

/// The signals of a binary semaphore that the batches made, and the waits that they processed, are
/// those that are kept.
pub fn binaries_agree()
    ensures { BinariesAgree }
{}

/// A batch may run, counted over the processed items, exactly where it may by what they left.
pub fn batches_agree()
    ensures { BatchesAgree }
{}

/// In a lawful trace each use in a batch has a value exactly where its semaphore is a timeline.
pub fn lawful_batches_fit()
    ensures { LawfulBatchesFit }
{}

/// In a lawful trace a fence is signalled, and a batch may run, counted over the processed items,
/// exactly where that is so by what they left.
pub fn lawful_pasts_agree()
    ensures { LawfulPastsAgree }
{}

/// In a lawful trace a batch that is taken may run by what the processed items left.
pub fn taken_batches_are_ready()
    ensures { TakenBatchesAreReady }
{}

/// In a batch that may run each wait for a binary semaphore finds a signal when its turn comes.
pub fn ready_waits_find_signals()
    ensures { ReadyWaitsFindSignals }
{}

/// In a batch that may run each signal of a binary semaphore finds it free when its turn comes.
pub fn ready_signals_find_room()
    ensures { ReadySignalsFindRoom }
{}

/// Recordings signal nothing and wait for nothing, and a batch changes no fence.
pub fn batches_keep()
    ensures { BatchesKeep }
{}

/// Semaphores stand for what was processed also after what signals none and waits for none.
pub fn semaphores_stay()
    ensures { SemaphoresStay }
{}

/// Fences stand for what was processed also after what signals and resets none.
pub fn fences_stay()
    ensures { FencesStay }
{}

/// The events of a flow are those of its history.
pub fn flow_has_its_events()
    ensures { FlowHasItsEvents }
{}

/// Taking an item leaves the events.
pub fn taking_keeps_events()
    ensures { TakingKeepsEvents }
{}

/// One more event changes nothing of what the items before it left.
pub fn later_events_leave()
    ensures { LaterEventsLeave }
{}
