//! What is reached by the steps before the present one.
ghost use Rattle.sv_state.specs.Turns.{AreInTurn, HaveNumbers};

use crate::mask::{Mask, Masks, add, cover, leads_into, marked_on};
use crate::runs::{Run, add_at, end_by, tokens_lead};
use crate::sub_runs::SubRuns;
use crate::subs::{add_pair, add_to, copies_of, place_of, subs_lead, subs_marked};
use std::alloc::{AllocError, Global};
use sv_mask::Usage;
use sv_model::work::{Access, Dep, Track};

/// Masks of queues, and runs of tokens and of the render pass instances of each queue and subpass, in their
/// order. Tokens and instances are numbered in the order in which they are made, and mostly the same is
/// reached on each, so a run goes on with the next number. One that comes out of turn has a mask.
#[derive(Drop)]
pub struct Settled {
    pub masks: Masks,
    pub runs: Vec<Run>,
    pub subs: Vec<SubRuns>,
    pub ghost in_turn: { AreInTurn runs.items },
    pub ghost have_numbers: { HaveNumbers runs.items },
}

impl Settled {
    ghost use Rattle.std.specs.Prelude.{◌≡◌, ◌<◌, [], ◌++◌, IsTrue, true, ◌↔◌, IfOk, OnOk, length};
    ghost use Rattle.std.specs.Prelude.{slice_index_or};
    ghost use Rattle.sv_model.specs.declared.work.Track.{Track};
    ghost use Rattle.sv_state.specs.Masks.{Adds, Holds, Joins, LeadsInto, Mark, Marked, mark_for, ShownTo};
    ghost use Rattle.sv_state.specs.Numbers.{masks_of, on_sub, on_token, runs_masks, subs_masks};
    ghost use Rattle.sv_state.specs.declared.sub_runs.SubRuns.{SubRuns};

    /// Nothing is reached yet.
    pub fn new(alloc: Global) -> Settled
        ensures { masks_of result ≡ [] }
    {
        Settled {
            masks: Masks::new(alloc),
            runs: Vec::new(alloc),
            subs: Vec::new(alloc),
        }
    }

    /// The same is reached.
    pub fn copy(&self) -> Result<Settled, AllocError>
        ensures { IfOk result (λ copied. masks_of copied ≡ masks_of self.now) }
    {
        let masks = Masks::from_slice(*self.masks.allocator(), self.masks.as_slice())?;
        let runs = Vec::from_slice(*self.runs.allocator(), self.runs.as_slice())?;
        let subs = copies_of(*self.subs.allocator(), self.subs.as_slice())?;
        Ok(Settled { masks, runs, subs })
    }

    /// Adds what is reached on a track.
    pub fn add(&mut self, more: Mask) -> Result<(), AllocError>
        ensures { OnOk result (Adds (masks_of self.old) (masks_of self.new) more) }
    {
        match more.track {
            Track::Queue(_) => self.add_plain(more),
            Track::Token(token) => self.add_on(token, more),
            Track::Sub {
                queue,
                instance,
                subpass,
            } => self.add_sub(queue, instance, subpass, more),
        }
    }

    /// Adds what is reached on a track to the masks.
    fn add_plain(&mut self, more: Mask) -> Result<(), AllocError>
        ensures { OnOk result (Adds (masks_of self.old) (masks_of self.new) more) }
    {
        add(&mut self.masks, more)
    }

    /// Adds what is reached on a token: to the runs where it is not before their end.
    fn add_on(&mut self, token: u64, more: Mask) -> Result<(), AllocError>
        requires { more.track ≡ Track.Token token }
        ensures { OnOk result (Adds (masks_of self.old) (masks_of self.new) more) }
    {
        if end_by(&self.runs, token) {
            add_at(&mut self.runs, token, more)
        } else {
            self.add_plain(more)
        }
    }

    /// Adds what is reached on an instance: to those runs where it is not before their end.
    fn add_in(&mut self, i: usize, instance: u64, more: Mask) -> Result<(), AllocError>
        requires within { i < length self.old.subs.items }
        requires track { (d : SubRuns) → more.track
            ≡ on_sub (slice_index_or self.old.subs.items i d) instance }
        ensures { OnOk result (Adds (masks_of self.old) (masks_of self.new) more) }
    {
        if self.subs[i].end_by(instance) {
            add_to(&mut self.subs, i, instance, more)
        } else {
            self.add_plain(more)
        }
    }

    /// Adds what is reached on a subpass of an instance.
    fn add_sub(
        &mut self,
        queue: u32,
        instance: u64,
        subpass: u32,
        more: Mask,
    ) -> Result<(), AllocError>
        requires { more.track ≡ Track.Sub queue instance subpass }
        ensures { OnOk result (Adds (masks_of self.old) (masks_of self.new) more) }
    {
        match place_of(&self.subs, queue, subpass) {
            Some(i) => self.add_in(i, instance, more),
            None => add_pair(&mut self.subs, queue, instance, subpass, more),
        }
    }

    /// Adds each mask of the others.
    pub fn add_all(&mut self, more: &[Mask]) -> Result<(), AllocError>
        ensures { OnOk result (Joins (masks_of self.old) more.now (masks_of self.new)) }
    {
        for m in more {
            self.add(*m)?;
        }
        Ok(())
    }

    /// Whether d may follow what is reached on a token or an instance.
    fn leads_by_number(&self, d: &Dep) -> bool
        ensures { IsTrue result ↔ LeadsInto
            (runs_masks on_token self.now.runs.items ++ subs_masks self.now.subs.items) d.now }
    {
        tokens_lead(&self.runs, d) || subs_lead(&self.subs, d)
    }

    /// Whether d may follow what is reached.
    pub fn leads_into(&self, d: &Dep) -> bool
        ensures { IsTrue result ↔ LeadsInto (masks_of self.now) d.now }
    {
        leads_into(&self.masks, d) || self.leads_by_number(d)
    }

    /// Whether some mask is on a track of x and has the usage, or its stage. No access is on a token.
    pub fn marked_on(&self, x: &Access, write: bool, u: Usage) -> bool
        ensures { IsTrue result ↔ ShownTo x.now (mark_for write u.0) (masks_of self.now) }
    {
        marked_on(&self.masks, x, write, u) || subs_marked(&self.subs, x, write, u)
    }

    /// Whether all that m has is reached by one mask. Runs are not looked at.
    pub fn cover(&self, m: Mask) -> bool
        ensures { result ≡ true → (k : Mark) → Marked m k → Holds (masks_of self.now) m.track k }
    {
        cover(&self.masks, m)
    }
}
