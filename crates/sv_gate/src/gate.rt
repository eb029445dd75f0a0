//! The gate: which item is taken next.
ghost use Rattle.std.specs.Prelude.{◌≡◌, ◌++◌, ◌∷◌, ℕ, List, [], length, map, option_map, IfOk, IfSome};
ghost use Rattle.std.specs.Prelude.{OnOk, OnErr, Some, slice_get, slice_index_or, position, ◌+◌, ◌<◌, ◌^◌};
ghost use Rattle.std.specs.BTreeSet.{contains};
ghost use Rattle.std.specs.List.{list_all};
ghost use Rattle.std.specs.Ordering.{nat_cmp};
ghost use Rattle.sv_model.specs.declared.line.Batch.{Batch};
ghost use Rattle.sv_model.specs.declared.line.Trace.{Trace};
ghost use Rattle.sv_model.specs.declared.line.Mark.{Mark};
ghost use Rattle.sv_model.specs.declared.line.Mark.TheVariants as mark;
ghost use Rattle.sv_model.specs.declared.work.Held.TheVariants as held;
ghost use Rattle.sv_model.specs.declared.work.Taken.{Taken};
ghost use Rattle.sv_model.specs.Primitives.{Past, Made};
ghost use Rattle.sv_model.specs.Holding.{past, call_ready, item_ready, Holding, start, starts, arrived};
ghost use Rattle.sv_model.specs.Holding.{first_calls, from_lane, from_queue, next, flow, held_items};
ghost use Rattle.sv_model.specs.Holding.{items_of};
ghost use Rattle.sv_model.specs.Laws.{left_by_items};
ghost use Rattle.sv_model.specs.Lawful.{IsLawful};
ghost use Rattle.sv_model.specs.Fences.{has_signal};
ghost use Rattle.sv_sema.specs.Stands.{SemaphoresStandFor};
ghost use Rattle.sv_fence.specs.Stands.{FencesStandFor};
ghost use Rattle.sv_gate.specs.declared.waiting.Waiting.{Waiting};
ghost use Rattle.sv_gate.specs.Calls.{NamesItsFence, batches_by, kept_call, kept_of_mark, ready_call};
ghost use Rattle.sv_gate.specs.Kept.{Agrees};
ghost use Rattle.sv_gate.specs.Gates.{IsGateOf, IsMadeOf, Takes, added, first_in};

use crate::calls::{Call, queue_of, scripts_of};
use crate::lanes::{Lane, pop_call, push_call};
use crate::queues::{are_idle, first_item, is_idle, pop_item, send};
use crate::ready::batch_is_ready;
use crate::waiting::{Waiting, sent};
use crate::{lanes, queues};
use std::alloc::{AllocError, Global};
use std::collections::{BTreeSet, LinkedList, VecDeque};
use sv_fence::Fences;
use sv_model::line::{Batch, Mark, Trace};
use sv_model::work::{FenceState, Held, Item};
use sv_range::List;
use sv_sema::Semaphores;

// The lanes, and the device queues.
const MANY: u32 = 16;

// No more can be held.
const LIMIT: usize = 1 << 62;

/// The calls that the lanes hold, and the batches and fence signals that the device queues hold (Vulkan
/// 1.3, "Queue Submission"). `total` is at least the number of items that can still be taken.
#[derive(Drop)]
pub struct Gate {
    alloc: Global,
    pub scripts: List<List<Call>>,
    pub events: Vec<Mark>,
    pub published: BTreeSet<u32>,
    pub lanes: Vec<Lane>,
    pub queues: Vec<LinkedList<Item>>,
    pub total: usize,
}

impl Gate {
    /// The gate of a trace, before any event.
    pub fn open(alloc: Global, trace: &Trace) -> Result<Gate, AllocError>
        ensures { IfOk result (λ gate. IsGateOf trace.now start.holding gate) }
    {
        let scripts = scripts_of(alloc, &trace.lane_scripts)?;
        let mut lanes = Vec::with_capacity(alloc, MANY as usize)?;
        let mut queues = Vec::with_capacity(alloc, MANY as usize)?;
        for _ in 0..MANY {
            lanes.push(Lane {
                calls: VecDeque::new(alloc),
            })?;
            queues.push(LinkedList::new(alloc))?;
        }
        Ok(Gate {
            alloc,
            scripts,
            events: Vec::new(alloc),
            published: BTreeSet::new(alloc),
            lanes,
            queues,
            total: 0,
        })
    }

    /// One event comes in, with its number. Where memory is missing, nothing changes.
    pub fn arrive(&mut self, mark: Mark, event: u64) -> Result<(), AllocError>
        ensures arrived { (t : Trace) (h : Holding) → IsGateOf t h self.old → event ≡ length h.events
            → OnOk result (IsGateOf t (arrived (record { done = []; holding = h }) mark).holding self.new) }
        ensures fault { (t : Trace) (h : Holding) → IsGateOf t h self.old
            → OnErr result (IsGateOf t h self.new) }
    {
        match mark {
            Mark::Publish(rec) => self.publish(rec),
            Mark::Call { lane, index } => self.come(lane, index, event),
        }
    }

    /// Takes the next item: a call of the lowest lane whose first call may go on, else the first item
    /// of the lowest queue whose first item may. None exactly where nothing is enabled. The trace is
    /// lawful, and the semaphores and fences stand for all items that were taken before. Takes no
    /// memory.
    pub fn next(&mut self, sema: &Semaphores, fences: &Fences) -> Option<Item>
        ensures takes { (t : Trace) (h : Holding) (done : List Taken) → IsLawful t → IsGateOf t h self.old
            → SemaphoresStandFor t (left_by_items t h.events done) sema.now
            → FencesStandFor t (left_by_items t h.events done) fences.now
            → Takes t h (next t (past t h.events (items_of done)) h) result self.new }
        ensures falls { (t : Trace) (h : Holding) → IsGateOf t h self.old
            → IfSome result (λ item. self.new.total < self.old.total) }
    {
        match self.first_lane(fences) {
            Some(lane) => self.take_call(lane),
            None => match self.first_queue(sema) {
                Some(queue) => self.take_item(queue),
                None => None,
            },
        }
    }

    /// What is held: the calls by lane, then the items by queue.
    pub fn held(&self) -> Result<List<Held>, AllocError>
        ensures { (t : Trace) (history : List Mark) → IsGateOf t (flow t history).holding self.now
            → IfOk result (λ list. list ≡ held_items t history) }
    {
        let mut list = List::new(self.alloc);
        for lane in 0..MANY {
            self.push_calls(&mut list, lane)?;
        }
        for queue in &self.queues {
            queues::push_held(&mut list, queue)?;
        }
        Ok(list)
    }

    // A recording is published.
    fn publish(&mut self, rec: u32) -> Result<(), AllocError>
        ensures arrived { (t : Trace) (h : Holding) → IsGateOf t h self.old
            → OnOk result (IsGateOf t (arrived (record { done = []; holding = h }) (mark.Publish rec)).holding
            self.new) }
        ensures fault { (t : Trace) (h : Holding) → IsGateOf t h self.old
            → OnErr result (IsGateOf t h self.new) }
    {
        self.events.reserve(1)?;
        self.published.insert(rec)?;
        self.events.push(Mark::Publish(rec)).unwrap();
        Ok(())
    }

    // A call comes to its lane.
    fn come(&mut self, lane: u32, index: u32, event: u64) -> Result<(), AllocError>
        ensures arrived { (t : Trace) (h : Holding) → IsGateOf t h self.old → event ≡ length h.events
            → OnOk result (IsGateOf t (arrived (record { done = []; holding = h })
            (mark.Call lane index)).holding self.new) }
        ensures fault { (t : Trace) (h : Holding) → IsGateOf t h self.old
            → OnErr result (IsGateOf t h self.new) }
    {
        self.events.reserve(1)?;
        let waiting = self.waiting(lane, index, event)?;
        self.total = hold(&mut self.lanes, self.total, lane, waiting)?;
        self.events.push(Mark::Call { lane, index }).unwrap();
        Ok(())
    }

    // The calls that a lane holds.
    fn push_calls(&self, list: &mut List<Held>, lane: u32) -> Result<(), AllocError>
        ensures { OnOk result (list.new ≡ list.old
            ++ map (λ (x : Waiting). held.Call lane x.index) (slice_index_or self.now.lanes.items lane [])) }
    {
        match self.lanes.get(lane as usize) {
            None => Ok(()),
            Some(calls) => lanes::push_held(list, lane, calls),
        }
    }

    // The call of that number, with what it will send.
    fn waiting(&self, lane: u32, index: u32, event: u64) -> Result<Waiting, AllocError>
        ensures { IfOk result (λ waiting. IsMadeOf
            (kept_call self.now.scripts lane index) index event waiting) }
    {
        match self.call_of(lane, index) {
            None => Ok(Waiting {
                index,
                event,
                queue: None,
                sent: LinkedList::new(self.alloc),
            }),
            Some(call) => Ok(Waiting {
                index,
                event,
                queue: queue_of(call),
                sent: sent(self.alloc, event, call)?,
            }),
        }
    }

    fn call_of(&self, lane: u32, index: u32) -> Option<&Call>
        ensures { option_map (λ call. call.now) result ≡ kept_call self.now.scripts lane index }
    {
        match self.scripts.as_slice().get(lane as usize) {
            None => None,
            Some(script) => script.as_slice().get(index as usize),
        }
    }

    // The call that came as that event.
    fn call_at(&self, event: u64) -> Option<&Call>
        ensures { option_map (λ call. call.now) result
            ≡ kept_of_mark self.now.scripts (slice_get self.now.events.items event) }
    {
        match self.events.get(event as usize) {
            None => None,
            Some(Mark::Publish(_)) => None,
            Some(Mark::Call { lane, index }) => self.call_of(*lane, *index),
        }
    }

    // The batch of the submit that came as that event.
    fn batch_of(&self, event: u64, batch: u32) -> Option<&Batch>
        ensures { option_map (λ b. b.now) result ≡ slice_get
            (batches_by (kept_of_mark self.now.scripts (slice_get self.now.events.items event))) batch }
    {
        match self.call_at(event) {
            None => None,
            Some(call) => batch_in(call, batch),
        }
    }

    // The lowest lane whose first call may go on.
    fn first_lane(&self, fences: &Fences) -> Option<u32>
        ensures { (t : Trace) (h : Holding) (m : Made) (p : Past) → IsLawful t → IsGateOf t h self.now
            → FencesStandFor t m fences.now → Agrees t h.events m p → result
            ≡ position (starts (call_ready p h.events h.queues)) (first_calls t 0 h.lanes) }
    {
        for lane in 0..MANY {
            if self.lane_starts(lane, fences) {
                return Some(lane);
            }
        }
        None
    }

    // The first call that a lane holds.
    fn first_call(&self, lane: u32) -> Option<&Call>
        ensures { option_map (λ call. call.now) result
            ≡ first_in self.now.scripts lane (slice_index_or self.now.lanes.items lane []) }
    {
        match self.lanes.get(lane as usize) {
            None => None,
            Some(held) => match held.calls.front() {
                None => None,
                Some(waiting) => self.call_of(lane, waiting.index),
            },
        }
    }

    fn lane_starts(&self, lane: u32, fences: &Fences) -> bool
        ensures { (t : Trace) (h : Holding) (m : Made) (p : Past) → IsLawful t → IsGateOf t h self.now
            → FencesStandFor t m fences.now → Agrees t h.events m p → result
            ≡ starts (call_ready p h.events h.queues) (slice_index_or (first_calls t 0 h.lanes) lane []) }
    {
        match self.first_call(lane) {
            None => false,
            Some(call) => self.call_is_ready(call, fences),
        }
    }

    fn call_is_ready(&self, call: &Call, fences: &Fences) -> bool
        ensures { (t : Trace) (h : Holding) (m : Made) (p : Past) → IsGateOf t h self.now
            → FencesStandFor t m fences.now → Agrees t h.events m p → NamesItsFence t call.now → result
            ≡ ready_call p h.events h.queues call.now }
    {
        match call {
            Call::Submit { batches, .. } => are_published(&self.published, batches.as_slice()),
            Call::WaitFence(fence) => is_signaled(fences.state(*fence)),
            Call::ResetFence(_) => true,
            Call::WaitQueue(queue) => is_idle(&self.queues, *queue),
            Call::WaitDevice => are_idle(&self.queues),
            Call::Other => false,
        }
    }

    // The lowest queue whose first item may be taken.
    fn first_queue(&self, sema: &Semaphores) -> Option<usize>
        ensures { (t : Trace) (h : Holding) (m : Made) (p : Past) → IsLawful t → IsGateOf t h self.now
            → SemaphoresStandFor t m sema.now → Agrees t h.events m p → result
            ≡ position (starts (item_ready t p h.events)) h.queues }
    {
        for queue in 0..self.queues.len() {
            if self.queue_starts(queue, sema) {
                return Some(queue);
            }
        }
        None
    }

    fn queue_starts(&self, queue: usize, sema: &Semaphores) -> bool
        ensures { (t : Trace) (h : Holding) (m : Made) (p : Past) → IsLawful t → IsGateOf t h self.now
            → SemaphoresStandFor t m sema.now → Agrees t h.events m p → result
            ≡ starts (item_ready t p h.events) (slice_index_or h.queues queue []) }
    {
        match first_item(&self.queues, queue) {
            None => false,
            Some(item) => self.item_is_ready(item, sema),
        }
    }

    fn item_is_ready(&self, item: Item, sema: &Semaphores) -> bool
        ensures { (t : Trace) (h : Holding) (m : Made) (p : Past) → IsLawful t → IsGateOf t h self.now
            → SemaphoresStandFor t m sema.now → Agrees t h.events m p → result
            ≡ item_ready t p h.events item }
    {
        match item {
            Item::Call { .. } => false,
            Item::Fence { .. } => true,
            Item::Batch { event, batch, .. } => match self.batch_of(event, batch) {
                None => true,
                Some(batch) => batch_is_ready(sema, batch),
            },
        }
    }

    // The first call of the lane is taken, and sends what it has to send.
    fn take_call(&mut self, lane: u32) -> Option<Item>
        ensures takes { (t : Trace) (h : Holding) → IsGateOf t h self.old
            → Takes t h (from_lane t h lane (slice_index_or h.lanes lane [])) result self.new }
        ensures falls { (t : Trace) (h : Holding) → IsGateOf t h self.old
            → IfSome result (λ item. self.new.total < self.old.total) }
    {
        match pop_call(&mut self.lanes, lane) {
            None => None,
            Some(waiting) => {
                let Waiting {
                    index,
                    queue,
                    sent,
                    ..
                } = waiting;
                send(&mut self.queues, queue, sent);
                self.total = self.total.saturating_sub(1);
                Some(Item::Call { lane, index })
            }
        }
    }

    // The first item of the queue is taken.
    fn take_item(&mut self, queue: usize) -> Option<Item>
        ensures takes { (t : Trace) (h : Holding) → IsGateOf t h self.old
            → Takes t h (from_queue h queue (slice_index_or h.queues queue [])) result self.new }
        ensures falls { (t : Trace) (h : Holding) → IsGateOf t h self.old
            → IfSome result (λ item. self.new.total < self.old.total) }
    {
        match pop_item(&mut self.queues, queue) {
            None => None,
            Some(item) => {
                self.total = self.total.saturating_sub(1);
                Some(item)
            }
        }
    }
}

// A call comes to its lane. What it is and sends is added to the total. Where memory is missing,
// nothing changes.
fn hold(lanes: &mut [Lane], total: usize, lane: u32, waiting: Waiting) -> Result<usize, AllocError>
    ensures held { OnOk result (lanes.new ≡ added lanes.old lane (waiting ∷ [])) }
    ensures sum { IfOk result (λ sum. sum ≡ total + (1 + length waiting.sent)) }
    ensures small { IfOk result (λ sum. sum < 2 ^ 62) }
    ensures fault { OnErr result (lanes.new ≡ lanes.old) }
{
    let cost = 1 + waiting.sent.len();
    if cost >= LIMIT || total >= LIMIT - cost {
        return Err(AllocError);
    }
    push_call(lanes, lane, waiting)?;
    Ok(total + cost)
}

// The batch of that number of a submit.
fn batch_in(call: &Call, batch: u32) -> Option<&Batch>
    ensures { option_map (λ b. b.now) result ≡ slice_get (batches_by (Some call.now)) batch }
{
    match call {
        Call::Submit { batches, .. } => batches.as_slice().get(batch as usize),
        Call::WaitFence(_) => None,
        Call::ResetFence(_) => None,
        Call::WaitQueue(_) => None,
        Call::WaitDevice => None,
        Call::Other => None,
    }
}

fn are_recs_published(published: &BTreeSet<u32>, recs: &[u32]) -> bool
    ensures { result ≡ list_all (contains nat_cmp published.now) recs.now }
{
    for rec in recs {
        if !published.contains(rec) {
            return false;
        }
    }
    true
}

fn are_published(published: &BTreeSet<u32>, batches: &[Batch]) -> bool
    ensures { result ≡ list_all (λ (b : Batch). list_all (contains nat_cmp published.now) b.recs)
        batches.now }
{
    for batch in batches {
        if !are_recs_published(published, batch.recs.as_slice()) {
            return false;
        }
    }
    true
}

fn is_signaled(state: FenceState) -> bool
    ensures { result ≡ has_signal state }
{
    match state {
        FenceState::Unsignalled => false,
        FenceState::Initial => true,
        FenceState::Token(_) => true,
    }
}
