//! The one-thread validator.
ghost use Rattle.std.specs.Prelude.{◌≡◌, ◌≤◌, ◌∷◌, ◌++◌, ◌+◌, ◌*◌, [], ℕ, List, true, false, length, IfOk};
ghost use Rattle.std.specs.Prelude.{IfErr, OnErr, OnOk};
ghost use Rattle.sv_model.specs.History.{IsHistory, IsWhole};
ghost use Rattle.sv_model.specs.Replies.{AreReplies, IsReply};
ghost use Rattle.sv_model.specs.Work.{work_steps};
ghost use Rattle.sv_model.specs.declared.line.Mark.{Mark};
ghost use Rattle.sv_space.specs.Runs.{runs_in};

use crate::going::{event_count, go_on};
use crate::parts::Parts;
use crate::stop::{Spent, Stop};
use std::alloc::{AllocError, Global};
use std::marker::Model;
use sv_model::line::{Mark, Trace};
use sv_model::recorded::Event;
use sv_model::work::{Held, Reply};
use sv_range::{Duplicate, List};

/// The validator of a trace: it takes in the events of a history one by one, and answers the reports and
/// notes of the steps that each of them releases. Contracts see its trace, its history, its replies, whether
/// it is spent, and the numbers of its space, which, unless it is spent, stands for the work of the history.
#[derive(Drop)]
pub struct Validator {
    trace: Trace,
    history: List<Mark>,
    replies: List<Reply>,
    spent: bool,
    parts: Parts,
}

impl Model for Validator {
    ghost use Rattle.sv_space.specs.Space.{pieces_in, kept_in, given_in};
    ghost use Rattle.sv_core.specs.State.{State, Holds};

    ghost Value = { State };

    ghost view = { λ v. record {
      trace = v.trace;
      history = v.history;
      replies = v.replies;
      spent = v.spent;
      pieces = pieces_in v.parts.work.checks.space;
      kept = kept_in v.parts.work.checks.space;
      given = given_in v.parts.work.checks.space;
    } };

    ghost invariant = { λ v. Holds v.trace v.history v.replies v.spent v.parts };
}

/// The numbers of pieces of the space, of merged recordings, and of groups that were given to states late.
#[derive(Clone, Copy, PartialEq)]
pub struct Counts {
    pub pieces: u64,
    pub installed: u64,
    pub caught_up: u64,
}

impl Validator {
    ghost use Rattle.sv_model.specs.Holding.{held_items};
    ghost use Rattle.sv_model.specs.Lawful.{IsLawful};
    ghost use Rattle.sv_core.specs.Marks.{IsNextEvent, IsOwn, IsStop, mark_of};
    ghost use Rattle.sv_core.specs.State.{HasItsSpace};
    ghost use Rattle.sv_step_laws.specs.Bounded.{HasNoScopes};
    ghost use Rattle.std.specs.Prelude.{◌≤◌, ◌+◌, ◌*◌};

    /// The validator before any event. The places of the history and of the replies are reserved for all
    /// events.
    pub fn open(alloc: Global, trace: &Trace) -> Result<Validator, AllocError>
        requires { IsLawful trace.now }
        ensures trace { IfOk result (λ v. v.trace ≡ trace.now) }
        ensures empty { IfOk result (λ v. (v.history ≡ []) × (v.replies ≡ [])) }
        ensures unspent { IfOk result (λ v. v.spent ≡ false) }
    {
        let count = event_count(trace);
        Ok(Validator {
            trace: trace.copy()?,
            history: List::with_capacity(alloc, count)?,
            replies: List::with_capacity(alloc, count)?,
            spent: false,
            parts: Parts::open(alloc, trace)?,
        })
    }

    /// Takes in the next event of its actor, and gives its reply. A recording in it is of the validator's
    /// trace. After a stop the history is as it was, and the validator is spent.
    pub fn apply(&mut self, event: Event) -> Result<Reply, Stop>
        requires next { IsNextEvent self.old.trace self.old.history event }
        requires own { IsOwn self.old.trace event }
        ensures trace { self.new.trace ≡ self.old.trace }
        ensures history { OnOk result (self.new.history ≡ self.old.history ++ mark_of event ∷ []) }
        ensures reply { IfOk result (IsReply self.new.trace self.new.history (length self.old.history)) }
        ensures kept { IfOk result (λ reply. self.new.replies ≡ self.old.replies ++ reply ∷ []) }
        ensures unspent { OnOk result ((self.old.spent ≡ false) × (self.new.spent ≡ false)) }
        ensures stopped { OnErr result ((self.new.history ≡ self.old.history)
            × (self.new.replies ≡ self.old.replies) × (self.new.spent ≡ true)) }
        ensures cause { IfErr result (IsStop (length self.old.history) self.old.spent) }
    {
        if self.spent {
            let number = self.history.len() as u64;
            return Err(Stop::Spent(Spent { number }));
        }
        self.spent = true;
        let answer = go_on(
            &self.trace,
            &mut self.history,
            &mut self.replies,
            &mut self.parts,
            event,
        );
        match answer {
            Ok(reply) => {
                self.spent = false;
                Ok(reply)
            }
            Err(AllocError) => Err(Stop::Memory),
        }
    }

    /// The events so far. Of a spent validator they are not whole: the event that it stopped at was the
    /// next of its actor.
    pub fn history(&self) -> &List<Mark>
        ensures kept { result.now ≡ self.now.history }
        ensures history { IsHistory self.now.trace self.now.history }
        ensures unspent { IsWhole self.now.trace self.now.history → self.now.spent ≡ false }
    {
        &self.history
    }

    /// The replies to them: the n-th is the reply to event n.
    pub fn replies(&self) -> &List<Reply>
        ensures kept { result.now ≡ self.now.replies }
        ensures answered { AreReplies self.now.trace self.now.history result.now }
    {
        &self.replies
    }

    /// What is held after the events so far.
    pub fn held(&self) -> Result<List<Held>, AllocError>
        ensures { self.now.spent ≡ false → IfOk result
            (λ list. list ≡ held_items self.now.trace self.now.history) }
    {
        self.parts.gate.held()
    }

    /// The number of accesses that are kept for the pieces of the space, or 2^64 - 1 where it is above that.
    /// In a trace without render scopes these are, for each piece, at most the accesses of one step on a
    /// cell, of which there are up to 64, and of each queue a read of each of the 17 stages.
    pub fn kept_total(&self) -> u64
        ensures stands { HasItsSpace self.now }
        ensures number { result ≡ self.now.kept }
        ensures few { self.now.spent ≡ false → HasNoScopes self.now.trace
            → result ≤ (64 + 17 * length self.now.trace.queues) * self.now.pieces }
    {
        self.parts.work.checks.space.kept_total()
    }

    /// The counts of the space.
    pub fn counts(&self) -> Counts
        ensures stands { HasItsSpace self.now }
        ensures numbers { result ≡ record {
          pieces = self.now.pieces;
          installed = 0;
          caught_up = self.now.given;
        } }
        ensures few { self.now.spent ≡ false → result.pieces ≤ length self.now.trace.resources
            + 2 * runs_in (work_steps self.now.trace self.now.history) }
    {
        let space = &self.parts.work.checks.space;
        Counts {
            pieces: space.pieces(),
            installed: 0,
            caught_up: space.caught_up(),
        }
    }
}
