//! Batches: their waits, their recordings, their signals (Vulkan 1.3, "Queue Submission").
ghost use Rattle.std.specs.Prelude.{ℕ, ◌≡◌, ◌∷◌, ◌++◌, [], List, true, OnOk, fold, length, unwrap_or};
ghost use Rattle.std.specs.List.{All};
ghost use Rattle.sv_mask.specs.Scopes as scopes;
ghost use Rattle.sv_model.specs.Semaphores as spec;
ghost use Rattle.sv_model.specs.Batches as batches;
ghost use Rattle.sv_model.specs.Places.{Bound};
ghost use Rattle.sv_model.specs.Semaphores.{batch_ready, raises, signaled, waited};
ghost use Rattle.sv_model.specs.Lists.{gather};
ghost use Rattle.sv_model.specs.Primitives.{Made};
ghost use Rattle.sv_model.specs.QueueGroups as queue_groups;
ghost use Rattle.sv_model.specs.Work.{numbered};
ghost use Rattle.sv_model.specs.declared.line.Trace.{Trace};
ghost use Rattle.sv_model.specs.declared.work.Note.TheVariants as note;
ghost use Rattle.sv_model.specs.declared.work.Step.TheVariants as step;
ghost use Rattle.sv_binding.specs.Runs.{run_for};
ghost use Rattle.sv_sema.specs.Stands.{IsUseOf};
ghost use Rattle.sv_gate.specs.Kept.{IsBatchOf, past_of};
ghost use Rattle.sv_step_laws.specs.Steps.{IsGroupOf};
ghost use Rattle.sv_replies.specs.Replying.{IsOnNone};
ghost use Rattle.sv_processed.specs.Works.{IsAt, IsLeft, MayTake, WorkFits, bound_as};
ghost use Rattle.sv_batch.specs.Running.{AreOf, AreSignalsReady, AreWaitsReady, FindsRoom, FindsSignal};
ghost use Rattle.sv_batch.specs.Running.{IsThere, MayRun, pairing_groups};

use crate::recordings::{Recordings, take_recordings};
use std::alloc::{AllocError, Global};
use sv_binding::{Run, Side, from_token, place_in, signal_scope, sum, to_token};
use sv_expand::{second_sync, usages_at};
use sv_model::line::{Batch, SemaphoreUse};
use sv_model::work::{Group, Note, TimelineNote, Track};
use sv_processed::Work;
use sv_range::List;
use sv_sema::{Pairing, Signalled};

// The group of a wait from the token that it is paired with, if there is one.
fn push_wait(
    alloc: Global,
    run: Run,
    wait: &SemaphoreUse,
    pairing: Pairing,
    groups: &mut List<Group>,
) -> Result<(), AllocError>
    ensures { OnOk result (groups.new ≡ groups.old ++ pairing_groups run wait.now pairing) }
{
    match pairing {
        Pairing::Token(token) => {
            let to = Side {
                track: Track::Queue(run.queue),
                stages: second_sync(wait.stages),
                usages: usages_at(wait.stages),
            };
            groups.push_or_drop(from_token(alloc, place_in(run), token, to)?)
        }
        Pairing::Initial => Ok(()),
        Pairing::NotYet => Ok(()),
    }
}

// One wait.
fn take_wait_on(
    work: &mut Work,
    run: Run,
    wait: &SemaphoreUse,
    groups: &mut List<Group>,
) -> Result<(), AllocError>
    ensures checks { work.new.checks ≡ work.old.checks }
    ensures events { work.new.events ≡ work.old.events }
    ensures left { OnOk result ((t : Trace) (m : Made) → FindsSignal t m wait.now → IsLeft t m work.old
        → IsLeft t (waited m wait.now) work.new) }
    ensures groups { OnOk result ((t : Trace) (event : ℕ) (m : Made) → IsUseOf t wait.now.sem wait.now.value
        → IsLeft t m work.old → groups.new ≡ groups.old ++ spec.wait_given t (run_for event run) m wait.now) }
    ensures fit { OnOk result ((t : Trace) → All (IsGroupOf t) groups.old → All (IsGroupOf t) groups.new) }
{
    let pairing = work.semaphores.pair(wait.sem, wait.value);
    push_wait(work.alloc, run, wait, pairing, groups)?;
    work.semaphores.take(wait.sem);
    Ok(())
}

// The step of the waits.
fn take_waits(work: &mut Work, run: Run, waits: &[SemaphoreUse]) -> Result<(), AllocError>
    requires { MayTake work.old (step.Groups []) }
    ensures fits { OnOk result ((t : Trace) → WorkFits t work.old → WorkFits t work.new) }
    ensures at { OnOk result ((t : Trace) (event : ℕ) (old more : List Bound) (m : Made)
        → AreWaitsReady t m waits.now → IsAt t event old more m work.old
        → IsAt t event old (more ++ bound_as (length (old ++ more)) event
        (step.Groups (gather waited (spec.wait_given t (run_for event run)) m waits.now)) [] ∷ [])
        (fold waited m waits.now) work.new) }
{
    let mut groups = List::new(work.alloc);
    for wait in waits {
        take_wait_on(work, run, wait, &mut groups)?;
    }
    work.take_groups(groups, List::new(work.alloc))
}

// The group of a signal to a fresh token.
fn push_signal(
    alloc: Global,
    run: Run,
    signal: &SemaphoreUse,
    token: u64,
    groups: &mut List<Group>,
) -> Result<(), AllocError>
    ensures { OnOk result (groups.new ≡ groups.old
        ++ queue_groups.to_token (queue_groups.place_in (run_for 0 run)) run.queue
        (spec.signal_scope signal.now.stages) (scopes.usages_at signal.now.stages) token ∷ []) }
{
    let from = Side {
        track: Track::Queue(run.queue),
        stages: signal_scope(signal.stages),
        usages: usages_at(signal.stages),
    };
    groups.push_or_drop(to_token(alloc, place_in(run), from, token)?)
}

// The note of a signal that doesn't raise its timeline.
fn timeline_note(run: Run, signal: &SemaphoreUse, current: u64) -> Note
    ensures { result ≡ note.Timeline (record {
      sem = signal.now.sem;
      event = run.event;
      batch = run.batch;
      value = unwrap_or signal.now.value 0;
      current = current;
      reports_before = 0;
    }) }
{
    Note::Timeline(TimelineNote {
        sem: signal.sem,
        event: run.event,
        batch: run.batch,
        value: signal.value.unwrap_or(0),
        current,
        reports_before: 0,
    })
}

// One signal: the group to a fresh token, or a note.
fn take_signal(
    work: &mut Work,
    run: Run,
    signal: &SemaphoreUse,
    groups: &mut List<Group>,
    notes: &mut List<Note>,
) -> Result<(), AllocError>
    ensures checks { work.new.checks ≡ work.old.checks }
    ensures events { work.new.events ≡ work.old.events }
    ensures left { OnOk result ((t : Trace) (m : Made) → IsUseOf t signal.now.sem signal.now.value
        → FindsRoom t m signal.now → IsLeft t m work.old → IsLeft t (signaled t m signal.now) work.new) }
    ensures groups { OnOk result ((t : Trace) (event : ℕ) (m : Made)
        → IsUseOf t signal.now.sem signal.now.value → IsLeft t m work.old → groups.new ≡ groups.old
        ++ spec.signal_given t (run_for event run) m signal.now) }
    ensures notes { OnOk result ((t : Trace) (event : ℕ) (m : Made)
        → IsUseOf t signal.now.sem signal.now.value → IsLeft t m work.old → notes.new ≡ notes.old
        ++ spec.timeline_notes t (run_for event run) m signal.now) }
    ensures fit { OnOk result ((t : Trace) → All (IsGroupOf t) groups.old → All (IsGroupOf t) groups.new) }
    ensures none { OnOk result (All IsOnNone notes.old → All IsOnNone notes.new) }
{
    match work
        .semaphores
        .signal(signal.sem, signal.value, work.tokens)?
    {
        Signalled::Done => {
            push_signal(work.alloc, run, signal, work.tokens, groups)?;
            work.tokens = sum(work.tokens, 1)?;
            Ok(())
        }
        Signalled::NotRaised { current } => {
            notes.push_or_drop(timeline_note(run, signal, current))
        }
    }
}

// The step of the signals.
fn take_signals(work: &mut Work, run: Run, signals: &[SemaphoreUse]) -> Result<(), AllocError>
    requires { MayTake work.old (step.Groups []) }
    ensures fits { OnOk result ((t : Trace) → WorkFits t work.old → WorkFits t work.new) }
    ensures at { OnOk result ((t : Trace) (event : ℕ) (old more : List Bound) (m : Made)
        → AreSignalsReady t m signals.now → IsAt t event old more m work.old
        → IsAt t event old (more ++ bound_as (length (old ++ more)) event
        (step.Groups (gather (signaled t) (spec.signal_given t (run_for event run)) m signals.now))
        (gather (signaled t) (spec.timeline_notes t (run_for event run)) m signals.now) ∷ [])
        (fold (signaled t) m signals.now) work.new) }
{
    let mut groups = List::new(work.alloc);
    let mut notes = List::new(work.alloc);
    for signal in signals {
        take_signal(work, run, signal, &mut groups, &mut notes)?;
    }
    work.take_groups(groups, notes)
}

/// A batch, all of whose recordings are published, and whose waits and signals may run by what the items
/// left.
pub fn take_batch(
    work: &mut Work,
    recordings: &Recordings,
    run: Run,
    batch: &Batch,
) -> Result<(), AllocError>
    requires { MayRun work.old recordings.now }
    ensures fits { OnOk result ((t : Trace) → AreOf t recordings.now → WorkFits t work.old
        → WorkFits t work.new) }
    ensures at { OnOk result ((t : Trace) (event : ℕ) (old more : List Bound) (m : Made)
        → IsBatchOf t batch.now → batch_ready (past_of t m) batch.now ≡ true
        → All (IsThere t recordings.now) batch.now.recs
        → IsAt t event old more m work.old → IsAt t event old
        (more ++ numbered (length (old ++ more)) (batches.batch_given t (run_for event run) m batch.now))
        (batches.batch_made t (run_for event run) m batch.now) work.new) }
{
    take_waits(work, run, batch.waits.as_slice())?;
    take_recordings(work, recordings, run, batch.recs.as_slice())?;
    take_signals(work, run, batch.signals.as_slice())
}
