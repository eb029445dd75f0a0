//! The steps of a recording, and what they do to events (Vulkan 1.3, "Events").
ghost use Rattle.std.specs.Prelude.{ℕ, ◌≡◌, ◌∷◌, ◌++◌, [], List, IfOk, OnOk, length, map};
ghost use Rattle.std.specs.List.{All};
ghost use Rattle.sv_model.specs.Events as spec;
ghost use Rattle.sv_model.specs.Primitives.{Made};
ghost use Rattle.sv_model.specs.Events.{event_set, in_force};
ghost use Rattle.sv_model.specs.Work.{numbered};
ghost use Rattle.sv_model.specs.declared.line.Trace.{Trace};
ghost use Rattle.sv_model.specs.declared.work.Step.TheVariants as step;
ghost use Rattle.sv_binding.specs.Runs.{run_for};
ghost use Rattle.sv_step_laws.specs.Steps.{IsGroupOf, IsStepOf};
ghost use Rattle.sv_replies.specs.Replying.{IsOnNone};

use crate::work::Work;
use std::alloc::AllocError;
use sv_binding::{Run, bind_accesses, bind_groups, bind_place, set_halves, sum, wait_halves};
use sv_event::Waited;
use sv_model::work::{EventNote, Group, Note, Place, Step};
use sv_range::List;

fn event_note(event: u32, place: Place, other: Option<u32>) -> Note
    ensures { result ≡ spec.event_note event place other }
{
    Note::Event(EventNote {
        event,
        place,
        other,
        reports_before: 0,
    })
}

impl Work {
    ghost use Rattle.sv_processed.specs.Works.{IsAt, IsLeft, MayTake, WorkFits, halves_of, is_step_after};

    /// One more step of the recording that runs there.
    pub fn take_step(&mut self, run: Run, step: &Step) -> Result<(), AllocError>
        requires { MayTake self.old step.now }
        ensures fits { OnOk result ((t : Trace) → IsStepOf t step.now → WorkFits t self.old
            → WorkFits t self.new) }
        ensures at { OnOk result (is_step_after run step.now self.old self.new) }
    {
        match step {
            Step::Accesses(accesses) => {
                let bound = bind_accesses(self.alloc, run, accesses.as_slice())?;
                self.take_accesses(bound.as_slice())
            }
            Step::Groups(groups) => {
                let bound = bind_groups(self.alloc, run, groups.as_slice())?;
                self.take_groups(bound, List::new(self.alloc))
            }
            Step::SetEvent { event, groups, .. } => self.take_set(run, *event, groups.as_slice()),
            Step::WaitEvent { event, place } => self.take_wait(run, *event, *place),
            Step::ResetEvent { event, .. } => self.take_reset(*event),
        }
    }

    fn take_reset(&mut self, event: u32) -> Result<(), AllocError>
        requires { MayTake self.old (step.Groups []) }
        ensures fits { OnOk result ((t : Trace) → WorkFits t self.old → WorkFits t self.new) }
        ensures at { OnOk result ((run : Run) (place : Place)
            → is_step_after run (step.ResetEvent event place) self.old self.new) }
    {
        self.events.reset(event);
        self.take_groups(List::new(self.alloc), List::new(self.alloc))
    }

    // A set: it has effect where none is in force, and then takes a token for each group.
    fn take_set(&mut self, run: Run, event: u32, groups: &[Group]) -> Result<(), AllocError>
        requires { MayTake self.old (step.Groups groups.now) }
        ensures fits { OnOk result ((t : Trace) → All (IsGroupOf t) groups.now → WorkFits t self.old
            → WorkFits t self.new) }
        ensures at { OnOk result ((place : Place) (list : List Group) → list ≡ groups.now
            → is_step_after run (step.SetEvent event place list) self.old self.new) }
    {
        let bound = bind_groups(self.alloc, run, groups)?;
        let halves = self.set_event(run, event, &bound)?;
        self.take_groups(halves, List::new(self.alloc))
    }

    // What a set does to its event: the halves of its groups, where it has effect.
    fn set_event(
        &mut self,
        run: Run,
        event: u32,
        groups: &List<Group>,
    ) -> Result<List<Group>, AllocError>
        ensures checks { self.new.checks ≡ self.old.checks }
        ensures left { IfOk result (λ halves. (t : Trace) (m : Made) → IsLeft t m self.old
            → IsLeft t (event_set m event run.queue groups.now) self.new) }
        ensures halves { IfOk result (λ halves. (t : Trace) (m : Made) → IsLeft t m self.old → halves
            ≡ halves_of m event groups.now) }
        ensures fits { IfOk result (λ halves. (t : Trace) → All (IsGroupOf t) groups.now
            → WorkFits t self.old → WorkFits t self.new × All (IsGroupOf t) halves) }
    {
        let first = self.tokens;
        if self.events.set(event, run.queue, groups, first)? {
            self.tokens = sum(first, groups.len() as u64)?;
            set_halves(self.alloc, first, groups.as_slice())
        } else {
            Ok(List::new(self.alloc))
        }
    }

    // A wait: it has the groups of the set in force, where the same queue made it, and else a note.
    fn take_wait(&mut self, run: Run, event: u32, place: Place) -> Result<(), AllocError>
        requires { MayTake self.old (step.Groups []) }
        ensures fits { OnOk result ((t : Trace) → WorkFits t self.old → WorkFits t self.new) }
        ensures at { OnOk result (is_step_after run (step.WaitEvent event place) self.old self.new) }
    {
        let place = bind_place(run, place);
        let groups = self.waited_groups(run, event, place)?;
        let notes = self.waited_notes(run, event, place)?;
        self.take_groups(groups, notes)
    }

    fn waited_groups(&self, run: Run, event: u32, place: Place) -> Result<List<Group>, AllocError>
        ensures groups { IfOk result (λ groups. (t : Trace) (m : Made) → IsLeft t m self.now → groups
            ≡ spec.wait_groups (run_for 0 run) place (in_force m event)) }
        ensures fit { IfOk result (λ groups. (t : Trace) → WorkFits t self.now → All (IsGroupOf t) groups) }
    {
        match self.events.wait(event, run.queue) {
            Waited::Set(half) => {
                wait_halves(self.alloc, place, half.token, half.groups.as_slice())
            }
            Waited::Unset => Ok(List::new(self.alloc)),
            Waited::OtherQueue(_) => Ok(List::new(self.alloc)),
        }
    }

    fn waited_notes(&self, run: Run, event: u32, place: Place) -> Result<List<Note>, AllocError>
        ensures notes { IfOk result (λ notes. (t : Trace) (m : Made) → IsLeft t m self.now → notes
            ≡ spec.event_notes (run_for 0 run) event place (in_force m event)) }
        ensures none { IfOk result (All IsOnNone) }
    {
        let mut notes = List::new(self.alloc);
        match self.events.wait(event, run.queue) {
            Waited::Set(_) => (),
            Waited::Unset => notes.push_or_drop(event_note(event, place, None))?,
            Waited::OtherQueue(other) => {
                notes.push_or_drop(event_note(event, place, Some(other)))?
            }
        }
        Ok(notes)
    }
}
