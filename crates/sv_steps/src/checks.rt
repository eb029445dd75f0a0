//! What a step of the work reports, and its notes.
ghost use Rattle.std.specs.Prelude.{◌≡◌, ◌∷◌, ◌++◌, ◌+◌, [], ℕ, List, IfOk, OnOk, length};
ghost use Rattle.sv_model.specs.Places.{Bound};
ghost use Rattle.sv_model.specs.Lawful.{IsLawful};
ghost use Rattle.sv_model.specs.declared.line.Trace.{Trace};
ghost use Rattle.sv_model.specs.declared.work.Note.{Note};
ghost use Rattle.std.specs.List.{All};
ghost use Rattle.sv_space.specs.Steps.{IsNext};
ghost use Rattle.sv_replies.specs.Replying.{IsOnNone, IsReplySoFar};

use std::alloc::{AllocError, Global};
use sv_binding::sum;
use sv_layout::Layouts;
use sv_model::line::Trace;
use sv_model::work::{Note, Reply, Step};
use sv_owner::Owners;
use sv_range::List;
use sv_replies::{add_step, empty_reply};
use sv_space::Space;

/// The space, the layouts and the owners of all cells after so many steps, and what the steps of the latest
/// event report so far.
#[derive(Drop)]
pub struct Checks {
    pub space: Space,
    pub layouts: Layouts,
    pub owners: Owners,
    pub steps: u64,
    pub reply: Reply,
}

impl Checks {
    ghost use Rattle.sv_steps.specs.Checked as spec;

    /// Before any step.
    pub fn open(alloc: Global, trace: &Trace) -> Result<Checks, AllocError>
        requires { IsLawful trace.now }
        ensures stands { IfOk result (spec.StandForSteps trace.now []) }
        ensures areas { IfOk result (spec.HaveAreas trace.now) }
    {
        Ok(Checks {
            space: Space::open(alloc, trace)?,
            layouts: Layouts::open(alloc, trace)?,
            owners: Owners::open(alloc, trace)?,
            steps: 0,
            reply: empty_reply(alloc),
        })
    }

    /// One more step, which has the next number: its reports and notes are appended to the reply, the given
    /// notes behind those on layouts and owners.
    pub fn take(&mut self, step: &Step, notes: List<Note>) -> Result<(), AllocError>
        requires { spec.Fits self.old step.now }
        ensures areas { OnOk result ((t : Trace) → spec.HaveAreas t self.old → spec.HaveAreas t self.new) }
        ensures stands { OnOk result ((t : Trace) (steps : List Bound) (b : Bound)
            → spec.StandForSteps t steps self.old → IsNext (length steps) b.step → b.step ≡ step.now
            → spec.StandForSteps t (steps ++ b ∷ []) self.new) }
        ensures reply { OnOk result ((t : Trace) (event : ℕ) (old more : List Bound) (b : Bound)
            → spec.StandForSteps t (old ++ more) self.old → IsReplySoFar t event old more self.old.reply
            → IsNext (length (old ++ more)) b.step → b.step ≡ step.now → b.notes ≡ notes
            → All IsOnNone notes → b.event ≡ event
            → IsReplySoFar t event old (more ++ b ∷ []) self.new.reply) }
    {
        let reports = self.space.touch(step)?;
        let layouts = self.layouts.apply(step)?;
        let owners = self.owners.apply(step)?;
        self.steps = sum(self.steps, 1)?;
        add_step(&mut self.reply, reports, layouts, owners, notes)
    }
}
