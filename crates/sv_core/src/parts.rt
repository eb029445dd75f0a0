//! What the validator keeps of a history.
ghost use Rattle.std.specs.Prelude.{ℕ, ◌≡◌, ◌∷◌, ◌++◌, ◌<◌, [], List, true, length, IfOk, OnOk};
ghost use Rattle.sv_model.specs.Holding.{Holding, arrived};
ghost use Rattle.sv_model.specs.Lawful.{IsLawful};
ghost use Rattle.sv_model.specs.Replies.{IsReply};
ghost use Rattle.sv_model.specs.declared.line.Mark.{Mark};
ghost use Rattle.sv_model.specs.declared.line.Trace.{Trace};
ghost use Rattle.sv_gate.specs.Gates.{IsGateOf};

use crate::items::take_item;
use std::alloc::{AllocError, Global};
use std::mem;
use sv_batch::Recordings;
use sv_gate::Gate;
use sv_model::line::{Mark, Trace};
use sv_model::recorded::Event;
use sv_model::work::Reply;
use sv_processed::Work;
use sv_replies::empty_reply;

/// The items that are held, the published recordings, and the work of the items that were taken.
#[derive(Drop)]
pub struct Parts {
    pub gate: Gate,
    pub recordings: Recordings,
    pub work: Work,
}

impl Parts {
    ghost use Rattle.sv_core.specs.Going.{AreReady, GoesOnOrHasCome, HasCome, IsGoing, MayTakeIn};
    ghost use Rattle.sv_core.specs.Marks.{IsOwn, mark_of};
    ghost use Rattle.sv_batch.specs.Running.{ArePublished};

    /// Before any event.
    pub fn open(alloc: Global, trace: &Trace) -> Result<Parts, AllocError>
        requires { IsLawful trace.now }
        ensures { IfOk result (AreReady trace.now []) }
    {
        Ok(Parts {
            gate: Gate::open(alloc, trace)?,
            recordings: Recordings::new(alloc, trace)?,
            work: Work::open(alloc, trace)?,
        })
    }

    // The event comes in.
    fn arrive(&mut self, trace: &Trace, number: u64, event: Event) -> Result<(), AllocError>
        ensures gate { OnOk result ((t : Trace) (h : Holding) → IsGateOf t h self.old.gate → number
            ≡ length h.events → IsGateOf t (arrived (record { done = []; holding = h })
            (mark_of event)).holding self.new.gate) }
        ensures recordings { OnOk result ((history : List Mark) → IsOwn trace.now event
            → ArePublished trace.now history self.old.recordings
            → ArePublished trace.now (history ++ mark_of event ∷ []) self.new.recordings) }
        ensures work { OnOk result (self.new.work ≡ self.old.work) }
    {
        match event {
            Event::Publish(recorded) => {
                let mark = Mark::Publish(recorded.number());
                self.recordings.publish(recorded)?;
                self.gate.arrive(mark, number)
            }
            Event::Call { lane, index } => self.gate.arrive(Mark::Call { lane, index }, number),
        }
    }

    // Takes the next item, where one is enabled.
    fn take_next(
        &mut self,
        trace: &Trace,
        history: &[Mark],
        number: u64,
    ) -> Result<bool, AllocError>
        requires { IsGoing trace.now history.now number self.old }
        ensures goes { IfOk result (λ more. GoesOnOrHasCome more trace.now history.now number self.new) }
        ensures falls { IfOk result (λ more. more ≡ true → self.new.gate.total < self.old.gate.total) }
    {
        match self.gate.next(&self.work.semaphores, &self.work.fences) {
            None => Ok(false),
            Some(item) => {
                take_item(
                    &mut self.work,
                    trace,
                    history,
                    &self.recordings,
                    number,
                    item,
                )?;
                Ok(true)
            }
        }
    }

    // Items are taken until none is enabled.
    fn settle(&mut self, trace: &Trace, history: &[Mark], number: u64) -> Result<(), AllocError>
        requires { IsGoing trace.now history.now number self.old }
        ensures { OnOk result (HasCome trace.now history.now number self.new) }
    {
        loop {
            if !self.take_next(trace, history, number)? {
                return Ok(());
            }
        }
    }

    /// Takes in an event, which is the last of the history and has that number, and gives its reply. Where
    /// memory is missing the parts are only to be dropped.
    pub fn take_in(
        &mut self,
        trace: &Trace,
        history: &[Mark],
        number: u64,
        event: Event,
    ) -> Result<Reply, AllocError>
        requires { MayTakeIn trace.now history.now number event self.old }
        ensures reply { IfOk result (IsReply trace.now history.now number) }
        ensures ready { OnOk result (AreReady trace.now history.now self.new) }
    {
        self.work.checks.reply = empty_reply(self.work.alloc);
        self.arrive(trace, number, event)?;
        self.settle(trace, history, number)?;
        Ok(mem::replace(&mut self.work.checks.reply, empty_reply(self.work.alloc)))
    }
}
