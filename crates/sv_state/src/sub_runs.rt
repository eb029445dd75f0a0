//! What is reached on one subpass of the render pass instances of a queue.
ghost use Rattle.sv_state.specs.Turns.{AreInTurn, HaveNumbers, IsUnion};

use crate::mask::{Mask, leads, shows};
use crate::runs::{Run, add_at, end_by, mask_at};
use std::alloc::{AllocError, Global};
use sv_mask::{Stages, Usage};
use sv_model::work::{Access, Dep, Track};

/// Runs of the instances of that queue, on each of which this subpass is reached.
///
/// `stages` are those of all runs together, so that one look tells of all.
#[derive(Drop)]
pub struct SubRuns {
    pub queue: u32,
    pub subpass: u32,
    pub runs: Vec<Run>,
    pub stages: Stages,
    pub ghost in_turn: { AreInTurn runs.items },
    pub ghost have_numbers: { HaveNumbers runs.items },
    pub ghost is_union: { IsUnion stages.0 runs.items },
}

impl SubRuns {
    ghost use Rattle.std.specs.Prelude.{◌≡◌, [], IsTrue, true, ◌↔◌, IfOk, OnOk, MatchOption, Some};
    ghost use Rattle.sv_model.specs.declared.work.Track.{Track};
    ghost use Rattle.sv_state.specs.Masks.{Adds, LeadsInto, mark_for, ShownTo};
    ghost use Rattle.sv_state.specs.Numbers.{IsNoneOn, IsOnlyOn, on_sub, sub_masks};
    ghost use Rattle.sv_state.specs.Turns.{EndBy};

    /// No instance is reached yet.
    pub fn new(alloc: Global, queue: u32, subpass: u32) -> SubRuns
        ensures none { sub_masks result ≡ [] }
        ensures runs { result.runs.items ≡ [] }
        ensures queue { result.queue ≡ queue }
        ensures subpass { result.subpass ≡ subpass }
    {
        SubRuns {
            queue,
            subpass,
            runs: Vec::new(alloc),
            stages: Stages(0),
        }
    }

    /// The same is reached.
    pub fn copy(&self) -> Result<SubRuns, AllocError>
        ensures { IfOk result (λ copied. sub_masks copied ≡ sub_masks self.now) }
    {
        let runs = Vec::from_slice(*self.runs.allocator(), self.runs.as_slice())?;
        Ok(SubRuns {
            queue: self.queue,
            subpass: self.subpass,
            runs,
            stages: self.stages,
        })
    }

    /// Whether the runs are of this subpass of the instances of that queue.
    pub fn is_of(&self, queue: u32, subpass: u32) -> bool
        ensures { IsTrue result ↔ ((self.now.queue ≡ queue) × (self.now.subpass ≡ subpass)) }
    {
        self.queue == queue && self.subpass == subpass
    }

    /// Whether no run ends behind the instance.
    pub fn end_by(&self, instance: u64) -> bool
        ensures { result ≡ true → EndBy instance self.now.runs.items }
    {
        end_by(&self.runs, instance)
    }

    /// Adds what is reached on an instance behind which no run ends. Where memory is missing nothing is kept.
    pub fn add(&mut self, instance: u64, more: Mask) -> Result<(), AllocError>
        requires by { EndBy instance self.old.runs.items }
        requires track { more.track ≡ on_sub self.old instance }
        ensures { OnOk result (Adds (sub_masks self.old) (sub_masks self.new) more) }
    {
        match add_at(&mut self.runs, instance, more) {
            Ok(()) => {
                self.stages = self.stages.union(more.stages);
                Ok(())
            }
            Err(e) => {
                self.runs.clear();
                self.stages = Stages(0);
                Err(e)
            }
        }
    }

    /// Whether d, which comes from this queue, may follow what is reached.
    fn leads_on_queue(&self, queue: u32, d: &Dep) -> bool
        requires { d.now.from ≡ Track.Queue queue }
        ensures { IsTrue result ↔ LeadsInto (sub_masks self.now) d.now }
    {
        if self.queue == queue {
            self.stages.meets(d.s1)
        } else {
            false
        }
    }

    /// What is reached on the instance, whose track is given.
    fn mask_at(&self, instance: u64, track: Track) -> Option<Mask>
        requires { track ≡ on_sub self.now instance }
        ensures { MatchOption result (IsNoneOn (sub_masks self.now) track)
            (IsOnlyOn (sub_masks self.now) track) }
    {
        mask_at(&self.runs, instance, track)
    }

    /// Whether d, which comes from this subpass of the instance, may follow what is reached.
    fn leads_on_sub(&self, instance: u64, d: &Dep) -> bool
        requires { d.now.from ≡ on_sub self.now instance }
        ensures { IsTrue result ↔ LeadsInto (sub_masks self.now) d.now }
    {
        match self.mask_at(instance, d.from) {
            Some(m) => leads(m, d),
            None => false,
        }
    }

    /// Whether d may follow what is reached.
    pub fn leads_into(&self, d: &Dep) -> bool
        ensures { IsTrue result ↔ LeadsInto (sub_masks self.now) d.now }
    {
        match d.from {
            Track::Queue(queue) => self.leads_on_queue(queue, d),
            Track::Sub {
                queue,
                instance,
                subpass,
            } => {
                if self.is_of(queue, subpass) {
                    self.leads_on_sub(instance, d)
                } else {
                    false
                }
            }
            Track::Token(_) => false,
        }
    }

    /// Whether the instance is reached with the usage, or its stage, for an access in it.
    fn marked_at(&self, instance: u64, x: &Access, write: bool, u: Usage) -> bool
        requires queue { x.now.queue ≡ self.now.queue }
        requires sub { x.now.sub ≡ Some (instance, self.now.subpass) }
        ensures { IsTrue result ↔ ShownTo x.now (mark_for write u.0) (sub_masks self.now) }
    {
        let track = Track::Sub {
            queue: self.queue,
            instance,
            subpass: self.subpass,
        };
        match self.mask_at(instance, track) {
            Some(m) => shows(m, x, write, u),
            None => false,
        }
    }

    /// Whether a track of x is reached with the usage, or its stage.
    pub fn marked_on(&self, x: &Access, write: bool, u: Usage) -> bool
        ensures { IsTrue result ↔ ShownTo x.now (mark_for write u.0) (sub_masks self.now) }
    {
        match x.sub {
            None => false,
            Some(s) => {
                if self.is_of(x.queue, s.1) {
                    self.marked_at(s.0, x, write, u)
                } else {
                    false
                }
            }
        }
    }
}
