//! What the items left that were taken so far.
ghost use Rattle.std.specs.Prelude.{ℕ, ◌≡◌, ◌∷◌, ◌++◌, [], List, IfOk, OnOk, length};
ghost use Rattle.std.specs.List.{All};
ghost use Rattle.sv_model.specs.Places.{Bound};
ghost use Rattle.sv_model.specs.Lawful.{IsLawful};
ghost use Rattle.sv_model.specs.Primitives.{Made, nothing_made};
ghost use Rattle.sv_model.specs.declared.line.Trace.{Trace};
ghost use Rattle.sv_model.specs.declared.work.Step.TheVariants as step;
ghost use Rattle.sv_replies.specs.Replying.{IsOnNone};
ghost use Rattle.sv_steps.specs.Checked.{StandForSteps};

use std::alloc::{AllocError, Global};
use sv_binding::{number_accesses, number_groups};
use sv_event::Events;
use sv_fence::Fences;
use sv_model::line::Trace;
use sv_model::work::{Access, Group, Note, Step};
use sv_range::List;
use sv_sema::Semaphores;
use sv_steps::Checks;

/// What the items left that were taken so far: semaphores, fences and events, the numbers of instances and
/// tokens, and what their steps did.
#[derive(Drop)]
pub struct Work {
    pub alloc: Global,
    pub semaphores: Semaphores,
    pub fences: Fences,
    pub events: Events,
    pub instances: u64,
    pub tokens: u64,
    pub checks: Checks,
}

impl Work {
    ghost use Rattle.sv_processed.specs.Works.{IsAt, IsLeft, MayTake, WorkFits, bound_as};

    /// Before any item.
    pub fn open(alloc: Global, trace: &Trace) -> Result<Work, AllocError>
        requires { IsLawful trace.now }
        ensures left { IfOk result (IsLeft trace.now nothing_made) }
        ensures steps { IfOk result (λ work. StandForSteps trace.now [] work.checks) }
        ensures fits { IfOk result (WorkFits trace.now) }
    {
        Ok(Work {
            alloc,
            semaphores: Semaphores::open(alloc, trace)?,
            fences: Fences::open(alloc, trace)?,
            events: Events::open(alloc, trace)?,
            instances: 0,
            tokens: 0,
            checks: Checks::open(alloc, trace)?,
        })
    }

    /// A step of these accesses.
    pub fn take_accesses(&mut self, accesses: &[Access]) -> Result<(), AllocError>
        requires { MayTake self.old (step.Accesses accesses.now) }
        ensures fits { OnOk result ((t : Trace) → WorkFits t self.old → WorkFits t self.new) }
        ensures at { OnOk result ((t : Trace) (event : ℕ) (old more : List Bound) (m : Made)
            → IsAt t event old more m self.old
            → IsAt t event old (more ++ bound_as (length (old ++ more)) event (step.Accesses accesses.now)
            [] ∷ []) m self.new) }
    {
        let list = number_accesses(self.alloc, self.checks.steps, 0, accesses)?;
        let step = Step::Accesses(list);
        self.checks.take(&step, List::new(self.alloc))
    }

    /// A step of these groups, with these notes.
    pub fn take_groups(&mut self, groups: List<Group>, notes: List<Note>) -> Result<(), AllocError>
        requires groups { MayTake self.old (step.Groups groups) }
        requires notes { All IsOnNone notes }
        ensures fits { OnOk result ((t : Trace) → WorkFits t self.old → WorkFits t self.new) }
        ensures at { OnOk result ((t : Trace) (event : ℕ) (old more : List Bound) (m : Made)
            → IsAt t event old more m self.old
            → IsAt t event old (more ++ bound_as (length (old ++ more)) event (step.Groups groups) notes
            ∷ []) m self.new) }
    {
        let list = number_groups(self.alloc, self.checks.steps, groups)?;
        let step = Step::Groups(list);
        self.checks.take(&step, notes)
    }
}
