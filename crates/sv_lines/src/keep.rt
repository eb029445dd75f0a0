//! A line is taken.
ghost use Rattle.std.specs.Prelude.{◌≡◌, ◌+◌, ◌<◌, ◌≤◌, true, false, length, OnOk, OnErr};
ghost use Rattle.sv_rules.specs.Causes.{rule_cause};
ghost use Rattle.sv_trace.specs.Formed.{IsFormed};
ghost use Rattle.sv_rules.specs.Laws.{IsLawfulNext};
ghost use Rattle.sv_rules.specs.Places.{is_recording, submits_wrongly};
ghost use Rattle.sv_rules.specs.Named.{is_new_queue, is_new_resource, is_new_semaphore, is_new_event};
ghost use Rattle.sv_rules.specs.Named.{is_new_fence, is_new_pass, is_new_recording};
ghost use Rattle.sv_rules.specs.Taken.{taken_with, has_ended};
ghost use Rattle.sv_rules.specs.Trace.{called, recorded};

use crate::commands::{command_size, standing_after};
use crate::extent::Extent;
use crate::measure::sizes_of;
use crate::sizes::{both, call_size};
use crate::taken::TakenLines;
use std::alloc::AllocError;
use sv_mask::Layout;
use sv_model::line::{Command, Line, PassAttachment, PassDep, PassUse, SemKind, Sharing};
use sv_range::List;
use sv_rules::laws::lines_are_lawful;

impl TakenLines {
    fn keep_begin(&mut self, rec: u32, recorder: u32, family: u32) -> Result<(), AllocError>
        requires few { self.old.lines < 1000000 }
        requires first { is_new_recording self.old.trace rec ≡ true }
        requires recorder { recorder < 16 }
        requires idle { is_recording self.old.trace recorder ≡ false }
        ensures ok { OnOk result (self.new ≡ taken_with self.old (Line.Begin rec recorder family)) }
        ensures fault { OnErr result (self.new ≡ self.old) }
    {
        self.recordings.begin(self.alloc, rec, recorder, family)?;
        self.lines += 1;
        self.begun = true;
        Ok(())
    }

    fn keep_blank(&mut self)
        requires { self.old.lines < 1000000 }
        ensures { self.new ≡ taken_with self.old Line.Blank }
    {
        self.lines += 1;
    }

    fn keep_version(&mut self, number: u64)
        requires { self.old.lines < 1000000 }
        ensures { self.new ≡ taken_with self.old (Line.Version number) }
    {
        self.lines += 1;
        self.begun = true;
    }

    fn keep_command(&mut self, rec: u32, command: Command) -> Result<(), AllocError>
        requires few { self.old.lines < 1000000 }
        requires begun { is_new_recording self.old.trace rec ≡ false }
        requires not_ended { has_ended self.old.trace rec ≡ false }
        requires lawful { IsLawfulNext self.old.trace rec command }
        ensures ok { OnOk result (self.new ≡ record
            { lines = self.old.lines + 1; begun = true; trace = recorded self.old.trace rec command }) }
        ensures fault { OnErr result (self.new ≡ self.old) }
    {
        let place = self.place_of(rec);
        let known = self.recordings.known[place];
        let added = command_size(self, known.family, known.standing, &command);
        let standing = standing_after(known.standing, &command);
        let size = both(known.size, added);
        self.recordings.push(place, command, standing, size)?;
        self.lines += 1;
        self.begun = true;
        Ok(())
    }

    fn keep_end(&mut self, rec: u32) -> Result<(), AllocError>
        requires few { self.old.lines < 1000000 }
        requires begun { is_new_recording self.old.trace rec ≡ false }
        requires not_ended { has_ended self.old.trace rec ≡ false }
        ensures ok { OnOk result (self.new ≡ taken_with self.old (Line.End rec)) }
        ensures fault { OnErr result (self.new ≡ self.old) }
    {
        let place = self.place_of(rec);
        let recorder = self.recordings.known[place].recorder;
        self.scripts.publish(recorder, rec)?;
        self.recordings.end(place, recorder);
        self.lines += 1;
        self.begun = true;
        Ok(())
    }

    fn keep_call(&mut self, lane: u32, line: Line) -> Result<(), AllocError>
        requires few { self.old.lines < 1000000 }
        requires lane { lane < 16 }
        requires ended { submits_wrongly self.old.trace line ≡ false }
        ensures ok { OnOk result (self.new ≡ record
            { lines = self.old.lines + 1; begun = true; trace = called self.old.trace lane line }) }
        ensures fault { OnErr result (self.new ≡ self.old) }
    {
        let size = self.size().saturating_add(call_size(self, &line));
        self.scripts.call(lane, line)?;
        self.size = size;
        self.lines += 1;
        self.begun = true;
        Ok(())
    }

    fn keep_queue(&mut self, queue: u32, family: u32, lane: u32) -> Result<(), AllocError>
        requires few { self.old.lines < 1000000 }
        requires first { is_new_queue self.old.trace queue ≡ true }
        ensures ok { OnOk result (self.new ≡ taken_with self.old (Line.Queue queue family lane)) }
        ensures fault { OnErr result (self.new ≡ self.old) }
    {
        let line = Line::Queue {
            queue,
            family,
            lane,
        };
        self.queues.push(queue, (family, lane), line)?;
        self.lines += 1;
        self.begun = true;
        Ok(())
    }

    fn keep_buffer(&mut self, res: u32, size: u64, sharing: Sharing) -> Result<(), AllocError>
        requires few { self.old.lines < 1000000 }
        requires first { is_new_resource self.old.trace res ≡ true }
        ensures ok { OnOk result (self.new ≡ taken_with self.old (Line.Buffer res size sharing)) }
        ensures fault { OnErr result (self.new ≡ self.old) }
    {
        let line = Line::Buffer { res, size, sharing };
        self.resources.push(res, Extent::Bytes(size), line)?;
        self.lines += 1;
        self.begun = true;
        Ok(())
    }

    fn keep_image(
        &mut self,
        res: u32,
        mips: u32,
        layers: u32,
        initial: Layout,
        sharing: Sharing,
    ) -> Result<(), AllocError>
        requires few { self.old.lines < 1000000 }
        requires first { is_new_resource self.old.trace res ≡ true }
        ensures ok { OnOk result (self.new ≡ taken_with self.old
            (Line.Image res mips layers initial sharing)) }
        ensures fault { OnErr result (self.new ≡ self.old) }
    {
        let line = Line::Image {
            res,
            mips,
            layers,
            initial,
            sharing,
        };
        self.resources
            .push(res, Extent::Image { mips, layers }, line)?;
        self.lines += 1;
        self.begun = true;
        Ok(())
    }

    fn keep_semaphore(
        &mut self,
        sem: u32,
        kind: SemKind,
        initial: Option<u64>,
    ) -> Result<(), AllocError>
        requires few { self.old.lines < 1000000 }
        requires first { is_new_semaphore self.old.trace sem ≡ true }
        ensures ok { OnOk result (self.new ≡ taken_with self.old (Line.Semaphore sem kind initial)) }
        ensures fault { OnErr result (self.new ≡ self.old) }
    {
        let line = Line::Semaphore { sem, kind, initial };
        self.semaphores.push(sem, kind, line)?;
        self.lines += 1;
        self.begun = true;
        Ok(())
    }

    fn keep_event(&mut self, event: u32) -> Result<(), AllocError>
        requires few { self.old.lines < 1000000 }
        requires first { is_new_event self.old.trace event ≡ true }
        ensures ok { OnOk result (self.new ≡ taken_with self.old (Line.Event event)) }
        ensures fault { OnErr result (self.new ≡ self.old) }
    {
        self.events.push(event, event, Line::Event { event })?;
        self.lines += 1;
        self.begun = true;
        Ok(())
    }

    fn keep_fence(&mut self, fence: u32, signaled: bool) -> Result<(), AllocError>
        requires few { self.old.lines < 1000000 }
        requires first { is_new_fence self.old.trace fence ≡ true }
        ensures ok { OnOk result (self.new ≡ taken_with self.old (Line.Fence fence signaled)) }
        ensures fault { OnErr result (self.new ≡ self.old) }
    {
        self.fences
            .push(fence, signaled, Line::Fence { fence, signaled })?;
        self.lines += 1;
        self.begun = true;
        Ok(())
    }

    fn keep_pass(
        &mut self,
        pass: u32,
        attachments: List<PassAttachment>,
        subpasses: List<List<PassUse>>,
        deps: List<PassDep>,
    ) -> Result<(), AllocError>
        requires few { self.old.lines < 1000000 }
        requires first { is_new_pass self.old.trace pass ≡ true }
        requires attachments { length attachments ≤ 16 }
        requires subpasses { length subpasses ≤ 32 }
        ensures ok { OnOk result (self.new ≡ taken_with self.old
            (Line.RenderPass pass attachments subpasses deps)) }
        ensures fault { OnErr result (self.new ≡ self.old) }
    {
        let place = self.passes.lines.len();
        let (attachment_count, subpass_count) = (attachments.len(), subpasses.len());
        let line = Line::RenderPass {
            pass,
            attachments,
            subpasses,
            deps,
        };
        let sizes = sizes_of(self.alloc, &line, pass, attachment_count, subpass_count)?;
        self.sizes.insert(pass, sizes)?;
        self.passes.push(pass, place, line)?;
        self.lines += 1;
        self.begun = true;
        Ok(())
    }

    /// Takes a line that breaks no rule. After a fault the lines are as before.
    pub fn keep_line(&mut self, line: Line) -> Result<(), AllocError>
        requires passes { rule_cause self.old line ≡ None }
        requires formed { IsFormed line }
        ensures ok { OnOk result (self.new ≡ taken_with self.old line) }
        ensures fault { OnErr result (self.new ≡ self.old) }
    {
        lines_are_lawful();
        match line {
            Line::Blank => {
                self.keep_blank();
                Ok(())
            }
            Line::Version { number } => {
                self.keep_version(number);
                Ok(())
            }
            Line::Begin {
                rec,
                recorder,
                family,
            } => self.keep_begin(rec, recorder, family),
            Line::End { rec } => self.keep_end(rec),
            Line::Work { rec, accesses } => { self.keep_command(rec, Command::Work { accesses }) }
            Line::Barrier { rec, deps } => self.keep_command(rec, Command::Barrier { deps }),
            Line::SetEvent { rec, event, deps } => {
                self.keep_command(rec, Command::SetEvent { event, deps })
            }
            Line::WaitEvent { rec, event } => {
                self.keep_command(rec, Command::WaitEvent { event })
            }
            Line::ResetEvent { rec, event } => {
                self.keep_command(rec, Command::ResetEvent { event })
            }
            Line::BeginRendering { rec, attachments } => {
                self.keep_command(rec, Command::BeginRendering { attachments })
            }
            Line::EndRendering { rec } => self.keep_command(rec, Command::EndRendering),
            Line::BeginPass { rec, pass, views } => {
                self.keep_command(rec, Command::BeginPass { pass, views })
            }
            Line::NextSubpass { rec } => self.keep_command(rec, Command::NextSubpass),
            Line::EndPass { rec } => self.keep_command(rec, Command::EndPass),
            Line::Submit {
                lane,
                queue,
                batches,
                fence,
            } => self.keep_call(
                lane,
                Line::Submit {
                    lane,
                    queue,
                    batches,
                    fence,
                },
            ),
            Line::WaitFence { lane, fence } => {
                self.keep_call(lane, Line::WaitFence { lane, fence })
            }
            Line::ResetFence { lane, fence } => {
                self.keep_call(lane, Line::ResetFence { lane, fence })
            }
            Line::WaitQueue { lane, queue } => {
                self.keep_call(lane, Line::WaitQueue { lane, queue })
            }
            Line::WaitDevice { lane } => self.keep_call(lane, Line::WaitDevice { lane }),
            Line::Queue {
                queue,
                family,
                lane,
            } => self.keep_queue(queue, family, lane),
            Line::Buffer { res, size, sharing } => self.keep_buffer(res, size, sharing),
            Line::Image {
                res,
                mips,
                layers,
                initial,
                sharing,
            } => self.keep_image(res, mips, layers, initial, sharing),
            Line::Semaphore { sem, kind, initial } => self.keep_semaphore(sem, kind, initial),
            Line::Event { event } => self.keep_event(event),
            Line::Fence { fence, signaled } => self.keep_fence(fence, signaled),
            Line::RenderPass {
                pass,
                attachments,
                subpasses,
                deps,
            } => self.keep_pass(pass, attachments, subpasses, deps),
        }
    }
}
