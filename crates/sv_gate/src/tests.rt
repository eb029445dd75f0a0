//! Worked examples.
use crate::Gate;
use std::alloc::{AllocError, Global};
use std::test::Fail;
use sv_fence::Fences;
use sv_mask::{StageWord, Stages};
use sv_model::line::{Batch, Line, Mark, SemKind, SemaphoreUse, Trace};
use sv_model::work::{Held, Item, Taken};
use sv_range::List;
use sv_sema::Semaphores;

const STAGES: StageWord = StageWord {
    plain: Stages(1),
    top: false,
    bottom: false,
};

// Semaphore 0 is a timeline from 0.
fn timeline(value: u64) -> SemaphoreUse {
    SemaphoreUse {
        sem: 0,
        value: Some(value),
        stages: STAGES,
    }
}

// Semaphore 1 is binary.
const BINARY: SemaphoreUse = SemaphoreUse {
    sem: 1,
    value: None,
    stages: STAGES,
};

fn semaphores(alloc: Global) -> Result<List<Line>, AllocError> {
    let mut semaphores = List::new(alloc);
    semaphores.push_or_drop(Line::Semaphore {
        sem: 0,
        kind: SemKind::Timeline,
        initial: None,
    })?;
    semaphores.push_or_drop(Line::Semaphore {
        sem: 1,
        kind: SemKind::Binary,
        initial: None,
    })?;
    Ok(semaphores)
}

// Fence 0 is not signalled.
fn fences(alloc: Global) -> Result<List<Line>, AllocError> {
    let mut fences = List::new(alloc);
    fences.push_or_drop(Line::Fence {
        fence: 0,
        signaled: false,
    })?;
    Ok(fences)
}

// Three lanes have no calls yet.
fn declared(alloc: Global) -> Result<Trace, AllocError> {
    let mut lane_scripts = List::new(alloc);
    for _ in 0..3 {
        lane_scripts.push_or_drop(List::new(alloc))?;
    }
    Ok(Trace {
        queues: List::new(alloc),
        resources: List::new(alloc),
        semaphores: semaphores(alloc)?,
        events: List::new(alloc),
        fences: fences(alloc)?,
        passes: List::new(alloc),
        recordings: List::new(alloc),
        lane_scripts,
        recorder_scripts: List::new(alloc),
        text_order: List::new(alloc),
    })
}

// One more call of the lane.
fn add(trace: &mut Trace, lane: u32, line: Line) -> Result<(), AllocError> {
    let scripts = trace.lane_scripts.as_mut_slice();
    let at = lane as usize;
    if at < scripts.len() {
        scripts[at].push_or_drop(line)
    } else {
        Ok(())
    }
}

fn list<T: Copy>(alloc: Global, items: &[T]) -> Result<List<T>, AllocError> {
    let items = items.iter().copied().collect(alloc)?;
    Ok(List::from_vec(items))
}

// A call of a lane. A submit has one batch, comes by the lane of its queue's number, and signals fence
// 0 or none.
#[derive(Clone, Copy)]
enum Planned<'a> {
    Submit {
        queue: u32,
        waits: &'a [SemaphoreUse],
        recs: &'a [u32],
        signals: &'a [SemaphoreUse],
        fence: Option<u32>,
    },
    WaitFence(u32),
    ResetFence(u32),
    WaitQueue(u32),
    WaitDevice(u32),
}

const fn send<'a>(
    queue: u32,
    waits: &'a [SemaphoreUse],
    signals: &'a [SemaphoreUse],
) -> Planned<'a> {
    Planned::Submit {
        queue,
        waits,
        recs: &[],
        signals,
        fence: None,
    }
}

const fn send_fence(queue: u32, recs: &[u32]) -> Planned<'_> {
    Planned::Submit {
        queue,
        waits: &[],
        recs,
        signals: &[],
        fence: Some(0),
    }
}

fn batches_of(
    alloc: Global,
    waits: &[SemaphoreUse],
    recs: &[u32],
    signals: &[SemaphoreUse],
) -> Result<List<Batch>, AllocError> {
    let batch = Batch {
        waits: list(alloc, waits)?,
        recs: list(alloc, recs)?,
        signals: list(alloc, signals)?,
    };
    let mut batches = List::new(alloc);
    batches.push_or_drop(batch)?;
    Ok(batches)
}

fn plan(alloc: Global, trace: &mut Trace, planned: Planned<'_>) -> Result<(), AllocError> {
    match planned {
        Planned::Submit {
            queue,
            waits,
            recs,
            signals,
            fence,
        } => {
            let batches = batches_of(alloc, waits, recs, signals)?;
            let line = Line::Submit {
                lane: queue,
                queue,
                batches,
                fence,
            };
            add(trace, queue, line)
        }
        Planned::WaitFence(lane) => add(trace, lane, Line::WaitFence { lane, fence: 0 }),
        Planned::ResetFence(lane) => add(trace, lane, Line::ResetFence { lane, fence: 0 }),
        Planned::WaitQueue(lane) => add(trace, lane, Line::WaitQueue { lane, queue: 0 }),
        Planned::WaitDevice(lane) => add(trace, lane, Line::WaitDevice { lane }),
    }
}

fn trace_of(alloc: Global, calls: &[Planned<'_>]) -> Result<Trace, AllocError> {
    let mut trace = declared(alloc)?;
    for call in calls {
        plan(alloc, &mut trace, *call)?;
    }
    Ok(trace)
}

fn line_of(trace: &Trace, mark: Mark) -> Option<&Line> {
    match mark {
        Mark::Publish(_) => None,
        Mark::Call { lane, index } => match trace.lane_scripts.as_slice().get(lane as usize) {
            None => None,
            Some(script) => script.as_slice().get(index as usize),
        },
    }
}

fn batch_of(trace: &Trace, mark: Mark, batch: u32) -> Option<&Batch> {
    match line_of(trace, mark) {
        Some(Line::Submit { batches, .. }) => batches.as_slice().get(batch as usize),
        _ => None,
    }
}

// What the items are given to, as a validator gives them.
#[derive(Drop)]
struct Given {
    sema: Semaphores,
    fences: Fences,
    tokens: u64,
}

impl Given {
    fn open(alloc: Global, trace: &Trace) -> Result<Given, AllocError> {
        Ok(Given {
            sema: Semaphores::open(alloc, trace)?,
            fences: Fences::open(alloc, trace)?,
            tokens: 0,
        })
    }

    fn take(&mut self, trace: &Trace, marks: &[Mark], item: Item) -> Result<(), AllocError> {
        match item {
            Item::Call { lane, index } => {
                self.call(line_of(trace, Mark::Call { lane, index }));
                Ok(())
            }
            Item::Fence { fence, .. } => {
                self.fences.signal(fence, self.tokens);
                self.tokens = self.tokens.wrapping_add(1);
                Ok(())
            }
            Item::Batch { event, batch, .. } => match marks.get(event as usize) {
                None => Ok(()),
                Some(mark) => self.batch(batch_of(trace, *mark, batch)),
            },
        }
    }

    fn call(&mut self, line: Option<&Line>) {
        if let Some(Line::ResetFence { fence, .. }) = line {
            self.fences.reset(*fence);
        }
    }

    fn batch(&mut self, batch: Option<&Batch>) -> Result<(), AllocError> {
        if let Some(batch) = batch {
            for wait in batch.waits.as_slice() {
                self.sema.take(wait.sem);
            }
            for signal in batch.signals.as_slice() {
                self.sema.signal(signal.sem, signal.value, self.tokens)?;
                self.tokens = self.tokens.wrapping_add(1);
            }
        }
        Ok(())
    }
}

// The items that the latest event releases.
fn settle(
    gate: &mut Gate,
    given: &mut Given,
    trace: &Trace,
    marks: &[Mark],
    taken: &mut List<Taken>,
) -> Result<(), AllocError> {
    for _ in 0..99 {
        match gate.next(&given.sema, &given.fences) {
            None => return Ok(()),
            Some(item) => {
                given.take(trace, marks, item)?;
                let event = marks.len() as u64;
                let event = event.wrapping_sub(1);
                taken.push_or_drop(Taken { item, event })?;
            }
        }
    }
    Ok(())
}

// The items of a history, with the events that release them, and what is held after it.
fn flow(
    alloc: Global,
    trace: &Trace,
    history: &[Mark],
) -> Result<(List<Taken>, List<Held>), AllocError> {
    let mut gate = Gate::open(alloc, trace)?;
    let mut given = Given::open(alloc, trace)?;
    let mut taken = List::new(alloc);
    for event in 0..history.len() {
        gate.arrive(history[event], event as u64)?;
        settle(
            &mut gate,
            &mut given,
            trace,
            &history[..event + 1],
            &mut taken,
        )?;
    }
    let held = gate.held()?;
    Ok((taken, held))
}

// Whether a history of these calls gives these items, and holds these at its end.
fn gives(
    alloc: Global,
    calls: &[Planned<'_>],
    history: &[Mark],
    items: &[Taken],
    rest: &[Held],
) -> Result<bool, AllocError> {
    let trace = trace_of(alloc, calls)?;
    let (taken, held) = flow(alloc, &trace, history)?;
    Ok(taken.as_slice() == items && held.as_slice() == rest)
}

const fn call(lane: u32, index: u32) -> Mark {
    Mark::Call { lane, index }
}

const fn went(event: u64, lane: u32, index: u32) -> Taken {
    Taken {
        item: Item::Call { lane, index },
        event,
    }
}

// The batch of the submit that came as event `of`.
const fn ran(event: u64, queue: u32, of: u64) -> Taken {
    Taken {
        item: Item::Batch {
            queue,
            event: of,
            batch: 0,
        },
        event,
    }
}

const fn fenced(event: u64, queue: u32, of: u64) -> Taken {
    Taken {
        item: Item::Fence {
            queue,
            event: of,
            fence: 0,
        },
        event,
    }
}

const fn held_call(lane: u32, index: u32) -> Held {
    Held::Call { lane, index }
}

const fn held_batch(queue: u32, event: u64) -> Held {
    Held::Batch {
        queue,
        event,
        batch: 0,
    }
}

// Queue 1 waits for value 1 of the timeline, which queue 0 signals later.
#[test]
fn a_batch_is_held_until_its_timeline_is_served(rt: HostRuntime) -> Result<(), Fail> {
    let one = [timeline(1)];
    let calls = [send(0, &[], &one), send(1, &one, &[])];
    let history = [call(1, 0), call(0, 0)];
    let early = [went(0, 1, 0)];
    let late = [went(0, 1, 0), went(1, 0, 0), ran(1, 0, 1), ran(1, 1, 0)];
    assert!(rt;
        gives(
            rt.alloc(),
            &calls,
            &history[..1],
            &early,
            &[held_batch(1, 0)]
        )?
    );
    assert!(rt; gives(rt.alloc(), &calls, &history, &late, &[])?);
    Ok(())
}

// The signal of value 0 does not raise the timeline from 0. A wait for 0 is served at first, one for 1
// is held for ever, and what comes behind it in its queue.
#[test]
fn a_timeline_that_does_not_rise_serves_no_more(rt: HostRuntime) -> Result<(), Fail> {
    let (zero, one) = ([timeline(0)], [timeline(1)]);
    let calls = [
        send(0, &zero, &zero),
        send(1, &one, &[]),
        send_fence(1, &[]),
    ];
    let history = [call(1, 0), call(1, 1), call(0, 0)];
    let want = [went(0, 1, 0), went(1, 1, 1), went(2, 0, 0), ran(2, 0, 2)];
    let fence = Held::Fence { queue: 1, event: 1 };
    let rest = [held_batch(1, 0), held_batch(1, 1), fence];
    assert!(rt; gives(rt.alloc(), &calls, &history, &want, &rest)?);
    Ok(())
}

// The second batch waits for the binary signal and signals it again, so the third, which waits, finds one.
#[test]
fn a_batch_waits_for_and_signals_one_binary_semaphore(rt: HostRuntime) -> Result<(), Fail> {
    let one = [BINARY];
    let calls = [send(0, &[], &one), send(1, &one, &one), send(2, &one, &[])];
    let history = [call(1, 0), call(0, 0), call(2, 0)];
    let want = [
        went(0, 1, 0),
        went(1, 0, 0),
        ran(1, 0, 1),
        ran(1, 1, 0),
        went(2, 2, 0),
        ran(2, 2, 2),
    ];
    assert!(rt; gives(rt.alloc(), &calls, &history, &want, &[])?);
    Ok(())
}

// One signal serves one of the two batches that wait for it, and neither of two waits in one batch.
#[test]
fn two_waits_do_not_share_a_signal(rt: HostRuntime) -> Result<(), Fail> {
    let (one, two) = ([BINARY], [BINARY, BINARY]);
    let calls = [
        send(0, &[], &one),
        send(0, &[], &one),
        send(1, &one, &[]),
        send(2, &two, &[]),
    ];
    let history = [call(0, 0), call(2, 0), call(1, 0), call(0, 1)];
    let want = [
        went(0, 0, 0),
        ran(0, 0, 0),
        went(1, 2, 0),
        went(2, 1, 0),
        ran(2, 1, 2),
        went(3, 0, 1),
        ran(3, 0, 3),
    ];
    assert!(rt; gives(rt.alloc(), &calls, &history, &want, &[held_batch(2, 1)])?);
    Ok(())
}

// Both queues signal the binary semaphore: the second signal is held while the first stands.
#[test]
fn a_second_signal_of_a_binary_semaphore_is_held(rt: HostRuntime) -> Result<(), Fail> {
    let one = [BINARY];
    let calls = [send(0, &[], &one), send(1, &[], &one), send(2, &one, &[])];
    let history = [call(0, 0), call(1, 0), call(2, 0)];
    let want = [
        went(0, 0, 0),
        ran(0, 0, 0),
        went(1, 1, 0),
        went(2, 2, 0),
        ran(2, 2, 2),
        ran(2, 1, 1),
    ];
    assert!(rt; gives(rt.alloc(), &calls, &history, &want, &[])?);
    assert!(rt;
        gives(
            rt.alloc(),
            &calls,
            &history[..2],
            &want[..3],
            &[held_batch(1, 1)]
        )?
    );
    Ok(())
}

// A fence is signalled twice before its wait, and the reset leaves no signal.
#[test]
fn a_fence_signalled_twice_is_reset_once(rt: HostRuntime) -> Result<(), Fail> {
    let sent = send_fence(0, &[]);
    let waits = Planned::WaitFence(1);
    let calls = [sent, sent, waits, waits, Planned::ResetFence(2)];
    let history = [call(0, 0), call(0, 1), call(1, 0), call(2, 0), call(1, 1)];
    let want = [
        went(0, 0, 0),
        ran(0, 0, 0),
        fenced(0, 0, 0),
        went(1, 0, 1),
        ran(1, 0, 1),
        fenced(1, 0, 1),
        went(2, 1, 0),
        went(3, 2, 0),
    ];
    assert!(rt; gives(rt.alloc(), &calls, &history, &want, &[held_call(1, 1)])?);
    Ok(())
}

// Lane 1's reset goes on while lane 0 waits for the fence, and the later signal ends the wait. The
// reset behind the wait in lane 0 comes after it.
#[test]
fn a_reset_goes_on_while_a_wait_is_held(rt: HostRuntime) -> Result<(), Fail> {
    let (waits, behind) = (Planned::WaitFence(0), Planned::ResetFence(0));
    let calls = [waits, behind, Planned::ResetFence(1), send_fence(2, &[])];
    let history = [call(0, 0), call(0, 1), call(1, 0), call(2, 0)];
    let want = [
        went(2, 1, 0),
        went(3, 2, 0),
        ran(3, 2, 3),
        fenced(3, 2, 3),
        went(3, 0, 0),
        went(3, 0, 1),
    ];
    let rest = [held_call(0, 0), held_call(0, 1)];
    assert!(rt; gives(rt.alloc(), &calls, &history[..3], &want[..1], &rest)?);
    assert!(rt; gives(rt.alloc(), &calls, &history, &want, &[])?);
    Ok(())
}

// The device is not idle while queue 1 holds a batch. Queue 0 is, so lane 0's wait for it goes on.
#[test]
fn a_wait_for_the_device_is_held_while_one_queue_is(rt: HostRuntime) -> Result<(), Fail> {
    let (seven, nine) = ([timeline(7)], [timeline(9)]);
    let (queue, device) = (Planned::WaitQueue(0), Planned::WaitDevice(0));
    let calls = [queue, device, send(1, &seven, &[]), send(2, &[], &nine)];
    let history = [call(1, 0), call(0, 0), call(0, 1), call(2, 0)];
    let want = [
        went(0, 1, 0),
        went(1, 0, 0),
        went(3, 2, 0),
        ran(3, 2, 3),
        ran(3, 1, 0),
        went(3, 0, 1),
    ];
    let rest = [held_call(0, 1), held_batch(1, 0)];
    assert!(rt; gives(rt.alloc(), &calls, &history[..3], &want[..2], &rest)?);
    assert!(rt; gives(rt.alloc(), &calls, &history, &want, &[])?);
    Ok(())
}

// Nothing signals the fence.
#[test]
fn a_wait_for_a_fence_is_held_for_ever(rt: HostRuntime) -> Result<(), Fail> {
    let history = [call(0, 0), Mark::Publish(0)];
    let rest = [held_call(0, 0)];
    assert!(rt; gives(rt.alloc(), &[Planned::WaitFence(0)], &history, &[], &rest)?);
    Ok(())
}

// The submit of recordings 3 and 4 waits for both publications, and the call behind it waits with it.
// Lanes go before queues: the call behind the submit is taken before its batch.
#[test]
fn a_submit_is_held_until_its_recordings_are_published(rt: HostRuntime) -> Result<(), Fail> {
    let behind = Planned::ResetFence(0);
    let calls = [send_fence(0, &[3, 4]), behind, Planned::WaitFence(1)];
    let (early, late) = (Mark::Publish(4), Mark::Publish(3));
    let history = [call(0, 0), call(1, 0), call(0, 1), early, late];
    let want = [
        went(4, 0, 0),
        went(4, 0, 1),
        ran(4, 0, 0),
        fenced(4, 0, 0),
        went(4, 1, 0),
    ];
    let rest = [held_call(0, 0), held_call(0, 1), held_call(1, 0)];
    assert!(rt; gives(rt.alloc(), &calls, &history[..4], &[], &rest)?);
    assert!(rt; gives(rt.alloc(), &calls, &history, &want, &[])?);
    Ok(())
}
