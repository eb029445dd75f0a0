//! The context of a recording: its steps so far, and the render scope that is open.
use crate::command_steps::steps_of;
use crate::families::family_of;
use crate::here::{begins, begun_after, instance_at, subpass_after, subpass_in};
use crate::passes::Passes;
use crate::scope::Open;
use std::alloc::{AllocError, Global};
use std::marker::Model;
use std::snapshot::Snapshot;
use sv_index::RecordingIndex;
use sv_model::line::{Command, Trace};
use sv_model::recorded::Recorded;
use sv_model::work::{Here, Step};
use sv_range::List;

/// A recording whose commands are pushed one after another. It is lent the passes that the trace declares,
/// and keeps of an open render pass what its commands need.
#[derive(Drop)]
pub struct RecordContext {
    alloc: Global,
    of: Snapshot<Trace>,
    number: u32,
    family: u32,
    pushed: u32,
    begun: u64,
    scope: Open,
    subpass: u32,
    steps: Vec<Step>,
}

impl Model for RecordContext {
    ghost use Rattle.sv_record.specs.Contexts.{Context, Stands};

    ghost Value = { Context };

    ghost view = { λ it. record { trace = it.of.value; number = it.number; pushed = it.pushed } };

    ghost invariant = { λ it. Stands it.of.value it.number it.family it.pushed it.begun it.scope it.subpass
        it.steps.items };
}

impl RecordContext {
    ghost use Rattle.std.specs.Prelude.{◌≡◌, ◌+◌, IfOk, IsTrue, OnErr, OnOk, Some, is_some, length};
    ghost use Rattle.std.specs.Prelude.{option_map};
    ghost use Rattle.sv_model.specs.Declarations.{recording_of};
    ghost use Rattle.sv_model.specs.Lawful.{IsLawful};
    ghost use Rattle.sv_index.specs.Indexes.{IsIndexOf};
    ghost use Rattle.sv_record.specs.Contexts.{IsNext, IsWhole};

    /// The context of that recording of the trace, which has the recording, before its first command. The
    /// index is that of the trace. Fails only for want of memory.
    pub fn new(
        alloc: Global,
        trace: &Trace,
        recordings: &RecordingIndex,
        number: u32,
    ) -> Result<RecordContext, AllocError>
        requires indexed { IsIndexOf trace.now recordings.now }
        requires lawful { IsLawful trace.now }
        requires declared { IsTrue (is_some (recording_of trace.now number)) }
        ensures { IfOk result (λ context. context
            ≡ record { trace = trace.now; number = number; pushed = 0 }) }
    {
        let family = family_of(trace, recordings, number);
        Ok(RecordContext {
            alloc,
            of: Snapshot::of(trace),
            number,
            family,
            pushed: 0,
            begun: 0,
            scope: Open::Outside,
            subpass: 0,
            steps: Vec::new(alloc),
        })
    }

    /// Pushes the recording's next command; the passes are those of its trace. Fails only for want of
    /// memory, and is then as it was.
    pub fn push(&mut self, passes: &Passes, command: &Command) -> Result<(), AllocError>
        requires passes { passes.now ≡ self.old.trace.passes }
        requires next { IsNext self.old command.now }
        ensures ok { OnOk result (self.new ≡ record self.old { pushed = self.old.pushed + 1 }) }
        ensures fault { OnErr result (self.new ≡ self.old) }
    {
        let begins = begins(command);
        let here = Here {
            rec: self.number,
            family: self.family,
            cmd: self.pushed,
            step: self.steps.len() as u64,
            instance: instance_at(&self.scope, begins, self.begun),
            subpass: subpass_in(&self.scope, self.subpass),
        };
        let (after, steps) = steps_of(
            self.alloc,
            passes,
            &self.scope,
            self.subpass,
            command,
            here,
        )?;
        let begun = begun_after(begins, self.begun);
        let subpass = subpass_after(command, self.subpass);
        let mut steps = steps.into_vec();
        self.steps.append(&mut steps)?;
        self.pushed += 1;
        self.begun = begun;
        self.subpass = subpass;
        if let Some(scope) = after {
            self.scope = scope;
        }
        Ok(())
    }

    /// The finished recording, once all of its commands were pushed.
    pub fn finish(self) -> Recorded
        requires whole { IsWhole self }
        ensures trace { result.of.value ≡ self.trace }
        ensures number { result.number ≡ self.number }
    {
        let RecordContext {
            of,
            number,
            steps,
            ..
        } = self;
        Recorded::new(of, number, List::from_vec(steps))
    }
}
