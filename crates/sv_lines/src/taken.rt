//! The lines taken so far, with tables of what they declare.
ghost use Rattle.std.specs.Prelude.{◌≡◌, ◌≤◌, false, true, option_map, slice_get};
ghost use Rattle.sv_model.specs.Declarations.{is_pass, pass_of, recording_of};
ghost use Rattle.sv_model.specs.Size.{capped};
ghost use Rattle.sv_rules.specs.Limits.{size_so_far};
ghost use Rattle.sv_lines.specs.Extents.{as_resource, as_pass};
ghost use Rattle.sv_lines.specs.Measures.{HasMeasure};
ghost use Rattle.sv_rules.specs.Named.{is_new_queue, is_new_resource, is_new_semaphore, is_new_event};
ghost use Rattle.sv_rules.specs.Named.{is_new_fence, is_new_pass, is_new_recording};
ghost use Rattle.sv_rules.specs.Taken.{nothing_taken, family_of_queue, lane_of_queue, resource_in, kind_in};
ghost use Rattle.sv_rules.specs.Taken.{pass_in, family_of_recording, has_ended, standing_in, size_in};
ghost use Rattle.sv_rules.specs.Ends.{is_unfinished};
ghost use Rattle.sv_rules.specs.Places.{is_recording};
ghost use Rattle.sv_lines.specs.Sound.{known_in};

use crate::extent::Extent;
use crate::known::{Known, ended_of, family_of, size_of, standing_of};
use crate::measure::PassSizes;
use crate::pairs::{first_of, second_of};
use crate::passes::{Pass, line_at, pass_of};
use crate::recordings::Recordings;
use crate::register::Register;
use crate::scripts::Scripts;
use std::alloc::Global;
use std::collections::BTreeMap;
use std::marker::Model;
use sv_model::line::SemKind;
use sv_rules::standing::Standing;

/// The trace that the lines so far make, and what its rules ask of the next line. Contracts see how many
/// lines there are, whether one of them is not blank, and the trace.
#[derive(Drop)]
pub struct TakenLines {
    pub(crate) alloc: Global,
    pub(crate) lines: u64,
    pub(crate) begun: bool,
    pub(crate) size: u64,
    pub(crate) queues: Register<(u32, u32)>,
    pub(crate) resources: Register<Extent>,
    pub(crate) semaphores: Register<SemKind>,
    pub(crate) events: Register<u32>,
    pub(crate) fences: Register<bool>,
    pub(crate) passes: Register<usize>,
    pub(crate) sizes: BTreeMap<u32, PassSizes>,
    pub(crate) recordings: Recordings,
    pub(crate) scripts: Scripts,
}

impl Model for TakenLines {
    ghost use Rattle.sv_rules.specs.Taken.{Taken};
    ghost use Rattle.sv_lines.specs.Sound.{IsSound, trace_from};

    ghost Value = { Taken };

    ghost view = { λ it. record {
      lines = it.lines;
      begun = it.begun;
      trace = trace_from it.queues.lines.items it.resources.lines.items it.semaphores.lines.items
          it.events.lines.items it.fences.lines.items it.passes.lines.items
          it.recordings.list.items it.scripts.lanes it.scripts.recorders it.scripts.order.items;
    } };

    ghost invariant = { λ it. IsSound it.lines
        (trace_from it.queues.lines.items it.resources.lines.items it.semaphores.lines.items
        it.events.lines.items it.fences.lines.items it.passes.lines.items
        it.recordings.list.items it.scripts.lanes it.scripts.recorders it.scripts.order.items)
        it.size it.queues.table it.resources.table it.semaphores.table it.events.table it.fences.table
        it.passes.table it.sizes
        it.recordings.known.items it.recordings.places it.recordings.busy };
}

impl TakenLines {
    /// No line yet. Takes no memory.
    pub fn new(alloc: Global) -> TakenLines
        ensures { result ≡ nothing_taken }
    {
        TakenLines {
            alloc,
            lines: 0,
            begun: false,
            size: 0,
            queues: Register::new(alloc),
            resources: Register::new(alloc),
            semaphores: Register::new(alloc),
            events: Register::new(alloc),
            fences: Register::new(alloc),
            passes: Register::new(alloc),
            sizes: BTreeMap::new(alloc),
            recordings: Recordings::new(alloc),
            scripts: Scripts::new(alloc),
        }
    }

    /// The size of the whole work so far.
    pub fn size(&self) -> u64
        ensures { result ≡ capped (size_so_far self.now) }
    {
        self.size
    }

    /// How many lines there are so far.
    pub fn lines(&self) -> u64
        ensures count { result ≡ self.now.lines }
        ensures few { result ≤ 1000000 }
    {
        self.lines
    }

    /// Whether a line so far is not blank.
    pub fn has_begun(&self) -> bool
        ensures { result ≡ self.now.begun }
    {
        self.begun
    }

    /// Whether no line so far declares the queue.
    pub fn is_new_queue(&self, queue: u32) -> bool
        ensures { result ≡ is_new_queue self.now.trace queue }
    {
        self.queues.get(queue).is_none()
    }

    /// The family of a queue, where it is declared.
    pub fn family_of_queue(&self, queue: u32) -> Option<u32>
        ensures { result ≡ family_of_queue self.now.trace queue }
    {
        first_of(self.queues.get(queue))
    }

    /// The lane of a queue, where it is declared.
    pub fn lane_of_queue(&self, queue: u32) -> Option<u32>
        ensures { result ≡ lane_of_queue self.now.trace queue }
    {
        second_of(self.queues.get(queue))
    }

    /// Whether no line so far declares the resource.
    pub fn is_new_resource(&self, res: u32) -> bool
        ensures { result ≡ is_new_resource self.now.trace res }
    {
        self.extent(res).is_none()
    }

    /// How large a resource is, where it is declared.
    pub fn extent(&self, res: u32) -> Option<Extent>
        ensures { option_map as_resource result ≡ resource_in self.now.trace res }
    {
        self.resources.get(res)
    }

    /// Whether no line so far declares the semaphore.
    pub fn is_new_semaphore(&self, sem: u32) -> bool
        ensures { result ≡ is_new_semaphore self.now.trace sem }
    {
        self.semaphores.get(sem).is_none()
    }

    /// The kind of a semaphore, where it is declared.
    pub fn kind(&self, sem: u32) -> Option<SemKind>
        ensures { result ≡ kind_in self.now.trace sem }
    {
        self.semaphores.get(sem)
    }

    /// Whether no line so far declares the event.
    pub fn is_new_event(&self, event: u32) -> bool
        ensures { result ≡ is_new_event self.now.trace event }
    {
        self.events.get(event).is_none()
    }

    /// Whether no line so far declares the fence.
    pub fn is_new_fence(&self, fence: u32) -> bool
        ensures { result ≡ is_new_fence self.now.trace fence }
    {
        self.fences.get(fence).is_none()
    }

    /// Whether no line so far declares the render pass.
    pub fn is_new_pass(&self, pass: u32) -> bool
        ensures { result ≡ is_new_pass self.now.trace pass }
    {
        self.passes.get(pass).is_none()
    }

    /// A render pass, or one without anything where it is not declared.
    pub fn pass(&self, pass: u32) -> Pass<'_>
        ensures { as_pass result ≡ pass_in self.now.trace pass }
    {
        let place = self.passes.get(pass);
        pass_of(line_at(self.passes.lines.as_slice(), place))
    }

    /// The sizes of the commands of a render pass, where it is declared.
    pub fn pass_sizes(&self, pass: u32) -> Option<PassSizes>
        ensures { is_pass self.now.trace pass ≡ true → HasMeasure (pass_of self.now.trace pass) result }
    {
        self.sizes.get(&pass).copied()
    }

    /// The place of a recording that has begun.
    pub fn place_of(&self, rec: u32) -> usize
        requires { is_new_recording self.now.trace rec ≡ false }
        ensures { slice_get self.now.trace.recordings result ≡ recording_of self.now.trace rec }
    {
        match self.recordings.place(rec) {
            Some(place) => place,
            None => 0,
        }
    }

    /// What is known of a recording, where one of that number begins.
    pub fn recording(&self, rec: u32) -> Option<Known>
        ensures { result ≡ known_in self.now.trace rec }
    {
        self.recordings.get(rec)
    }

    /// Whether no line so far begins the recording.
    pub fn is_new_recording(&self, rec: u32) -> bool
        ensures { result ≡ is_new_recording self.now.trace rec }
    {
        self.recording(rec).is_none()
    }

    /// The family of a recording, where it has begun.
    pub fn family_of_recording(&self, rec: u32) -> Option<u32>
        ensures { result ≡ family_of_recording self.now.trace rec }
    {
        family_of(self.recording(rec))
    }

    /// Whether a recording has ended.
    pub fn has_ended(&self, rec: u32) -> bool
        ensures { result ≡ has_ended self.now.trace rec }
    {
        ended_of(self.recordings.get(rec))
    }

    /// Where the next command of a recording stands.
    pub fn standing(&self, rec: u32) -> Standing
        ensures { result ≡ standing_in self.now.trace rec }
    {
        standing_of(self.recording(rec))
    }

    /// The size of a recording so far.
    pub fn size_of_recording(&self, rec: u32) -> u64
        ensures { result ≡ capped (size_in self.now.trace rec) }
    {
        size_of(self.recording(rec))
    }

    /// Whether a recording is open.
    pub fn is_unfinished(&self) -> bool
        ensures { result ≡ is_unfinished self.now.trace }
    {
        self.recordings.is_unfinished()
    }

    /// Whether the recorder has an open recording.
    pub fn is_recording(&self, recorder: u32) -> bool
        ensures { result ≡ is_recording self.now.trace recorder }
    {
        self.recordings.is_recording(recorder)
    }
}
