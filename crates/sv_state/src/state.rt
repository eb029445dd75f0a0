//! The state of a cell.
ghost use Rattle.std.specs.Prelude.{◌≡◌, [], ◌++◌, ◌<◌, ◌≤◌, ◌+◌, ◌*◌, true, false, ℕ, List, length};
ghost use Rattle.std.specs.Prelude.{IsTrue, Contains, IfSome, MatchOption, OnOk, IfErr, IfOk};
ghost use Rattle.std.specs.Option.{option_copied};
ghost use Rattle.sv_model.specs.Cells.{covers, IsOnly};
ghost use Rattle.sv_model.specs.Dependencies.{Placed, IsOwn, own_deps, writes};
ghost use Rattle.sv_model.specs.Composition.{AreChained, IsLatestUnchained, IsWithoutScopes};
ghost use Rattle.sv_model.specs.Order.{Story, IsClear, IsPartner, NoRaces, IsBelow, extended, recorded};
ghost use Rattle.sv_model.specs.Order.{conflict_kind};
ghost use Rattle.sv_model.specs.declared.work.Access.{Access};
ghost use Rattle.sv_model.specs.declared.work.Cell.{Cell};
ghost use Rattle.sv_model.specs.declared.work.Dep.{Dep};

use crate::copying::copies_of;
use crate::entry::{
    Entry, advance_from, all_full, extend_from, last_racing, last_racing_alike, newest_of, some_add,
};
use crate::keeping::{all_alike, entries_of, last_of_keys, some_writes, take_place};
use std::alloc::{AllocError, Global};
use sv_model::work::{Access, Area, Cell, Dep, Group, Partner};

/// What is kept of the accesses of a cell since its epoch began, each with what dependency chains reach
/// from it: the accesses of the last step that writes, and of the reads at later steps the last of each
/// key. All others of the epoch are ordered where these are.
///
/// `step` is the step of the last group that it went through, or 0. `alike` says that the accesses of the
/// step that writes are alike: then chains reach the same from each, and only the last one keeps it.
#[derive(Drop)]
pub struct CellState {
    written: Vec<Entry>,
    alike: bool,
    reads: Vec<Entry>,
    step: u64,
}

/// The only cell of an area of one cell.
fn cell_of(at: &Area) -> Cell
    ensures { (cell : Cell) → IsOnly at.now cell → result ≡ cell }
{
    match *at {
        Area::Bytes { res, span } => Cell::Byte {
            res,
            at: span.start,
        },
        Area::Image { res, cells } => Cell::Texel {
            res,
            mip: cells.mip,
            layer: cells.layer,
        },
    }
}

impl CellState {
    ghost use Rattle.sv_state.specs.States.{StandsFor, IsBounded, SomeWrites, AreNext, HasComeTo, HasGrown};
    ghost use Rattle.sv_state.specs.States.{RangesHold, AreLikeLast, IsEarlier, EachStands, AllDirected};
    ghost use Rattle.sv_state.specs.States.{IsLastUndirected};
    ghost use Rattle.sv_state.specs.States as spec;
    ghost use Rattle.sv_state.specs.Contents.{contents_of};
    ghost use Rattle.sv_state.specs.Outlines.{AreFull, ArePassed, AreQuiet, AreUpTo};

    /// The state of a cell before any work. It takes no memory.
    pub fn new(alloc: Global) -> CellState
        ensures step { result.step ≡ 0 }
        ensures stands { (cell : Cell) → StandsFor
            (record { cell = cell; accesses = []; deps = [] }) 0 result }
    {
        CellState {
            written: Vec::new(alloc),
            alike: false,
            reads: Vec::new(alloc),
            step: 0,
        }
    }

    /// A state that holds the same.
    pub fn copy(&self) -> Result<CellState, AllocError>
        ensures { IfOk result (λ copied. contents_of copied ≡ contents_of self.now) }
    {
        let alloc = *self.written.allocator();
        let written = copies_of(alloc, &self.written)?;
        let reads = copies_of(alloc, &self.reads)?;
        Ok(CellState {
            written,
            alike: self.alike,
            reads,
            step: self.step,
        })
    }

    /// The number of kept accesses. Outside render scopes these are the accesses of one step, and of each
    /// queue at most one read of each of the 17 stages.
    pub fn kept(&self) -> usize
        ensures number { result ≡ length (spec.entries_of self.now) }
        ensures few { (story : Story) (epoch : ℕ) (queues : List ℕ) (most : ℕ)
            → StandsFor story epoch self.now → IsBounded story.accesses queues most
            → result ≤ most + 17 * length queues }
    {
        self.written.len() + self.reads.len()
    }

    /// The latest of the earlier accesses of the epoch with which the access races, or None where it
    /// races with none. A transition is given with its own group. In traces without render scopes these
    /// are the accesses that conflict with it and from which no chain leads to it.
    pub fn check(&self, access: &Access, group: Option<&Group>) -> Option<Partner>
        requires own { IfSome group (λ g. IsOwn access.now g.now) }
        requires held { IfSome group (λ g. RangesHold g.now access.now.area) }
        ensures partner { (story : Story) (epoch : ℕ) → StandsFor story epoch self.now → NoRaces story epoch
            → IsBelow access.now.step story
            → IsTrue (covers access.now.area story.cell)
            → MatchOption result
            (IsClear (extended story (own_deps (option_copied group.entry))) epoch access.now)
            (λ p. IsPartner (extended story (own_deps (option_copied group.entry))) epoch access.now p.access
            × (p.kind ≡ conflict_kind (writes p.access.what) (writes access.now.what))) }
        ensures chains { (story : Story) (epoch : ℕ) → StandsFor story epoch self.now → NoRaces story epoch
            → IsBelow access.now.step story
            → IsTrue (covers access.now.area story.cell)
            → IsWithoutScopes (extended story (own_deps (option_copied group.entry)))
            → MatchOption result
            (AreChained (extended story (own_deps (option_copied group.entry))) epoch access.now)
            (λ p. IsLatestUnchained (extended story (own_deps (option_copied group.entry))) epoch access.now
            p.access) }
    {
        match last_racing(&self.reads, access, group) {
            Some(partner) => Some(partner),
            None => self.racing_written(access, group),
        }
    }

    /// The last of the accesses of the step that writes that races with the access, as far as the direct
    /// order tells.
    fn racing_written(&self, access: &Access, group: Option<&Group>) -> Option<Partner>
        requires { IfSome group (λ g. IsOwn access.now g.now) }
        ensures { (self.now.alike ≡ true → AreLikeLast self.now.written.items)
            → (cell : Cell) (deps : List Placed) (step : ℕ)
            → IsEarlier deps cell access.now (option_copied group.entry)
            → EachStands cell deps step (spec.live_written self.now)
            → MatchOption result
            (AllDirected (deps ++ own_deps (option_copied group.entry)) cell access.now
            self.now.written.items)
            (λ p. IsLastUndirected (deps ++ own_deps (option_copied group.entry)) cell access.now
            self.now.written.items p.access
            × (p.kind ≡ conflict_kind (writes p.access.what) (writes access.now.what))) }
    {
        if self.alike {
            last_racing_alike(&self.written, access, group)
        } else {
            last_racing(&self.written, access, group)
        }
    }

    /// The first of the accesses of the step that writes that keeps what is reached from it.
    fn first_live(&self) -> usize
        ensures place { result ≡ spec.first_live self.now }
        ensures listed { result ≤ length self.now.written.items }
    {
        let count = self.written.len();
        if self.alike && count > 0 {
            count - 1
        } else {
            0
        }
    }

    /// The accesses of a step that writes take the place of all that was kept.
    fn take_writes(&mut self, accesses: &[Access]) -> Result<(), AllocError>
        requires { SomeWrites accesses.now }
        ensures step { self.new.step ≡ self.old.step }
        ensures stands { OnOk result ((story : Story) (epoch : ℕ) → AreNext story epoch accesses.now
            → StandsFor story epoch self.old
            → StandsFor (recorded story accesses.now) epoch self.new) }
        ensures fault { IfErr result (λ e. self.new ≡ self.old) }
    {
        let alloc = *self.written.allocator();
        let written = entries_of(alloc, accesses)?;
        self.written = written;
        self.alike = all_alike(accesses);
        self.reads.clear();
        Ok(())
    }

    /// Reads of one step come to those that are kept, each in the place of the one with its key.
    fn take_each(&mut self, accesses: &[Access]) -> Result<(), AllocError>
        ensures step { self.new.step ≡ self.old.step }
        ensures stands { OnOk result (¬ SomeWrites accesses.now → (story : Story) (epoch : ℕ)
            → AreNext story epoch accesses.now → StandsFor story epoch self.old
            → StandsFor (recorded story accesses.now) epoch self.new) }
        ensures fault { IfErr result (λ e. spec.entries_of self.new ≡ spec.entries_of self.old) }
    {
        self.reads.reserve(accesses.len())?;
        for a in accesses {
            take_place(&mut self.reads, a)?;
        }
        Ok(())
    }

    /// The accesses of a step that only reads come to those that are kept: of each key the last one.
    fn take_reads(&mut self, accesses: &[Access]) -> Result<(), AllocError>
        requires { ¬ SomeWrites accesses.now }
        ensures step { self.new.step ≡ self.old.step }
        ensures stands { OnOk result ((story : Story) (epoch : ℕ) → AreNext story epoch accesses.now
            → StandsFor story epoch self.old
            → StandsFor (recorded story accesses.now) epoch self.new) }
        ensures fault { IfErr result (λ e. spec.entries_of self.new ≡ spec.entries_of self.old) }
    {
        let alloc = *self.reads.allocator();
        let last = last_of_keys(alloc, accesses)?;
        self.take_each(last.as_slice())
    }

    /// Adds the accesses of one step on the cell. Where memory is missing the state is as before.
    pub fn record(&mut self, accesses: &[Access]) -> Result<(), AllocError>
        ensures step { self.new.step ≡ self.old.step }
        ensures stands { OnOk result ((story : Story) (epoch : ℕ) → AreNext story epoch accesses.now
            → StandsFor story epoch self.old
            → StandsFor (recorded story accesses.now) epoch self.new) }
        ensures fault { IfErr result (λ e. spec.entries_of self.new ≡ spec.entries_of self.old) }
    {
        if some_writes(accesses) {
            self.take_writes(accesses)
        } else {
            self.take_reads(accesses)
        }
    }

    /// A step after which no access of the state is.
    pub fn newest(&self) -> u64
        ensures { AreUpTo result (spec.entries_of self.now) }
    {
        let newest = newest_of(&self.written, 0);
        newest_of(&self.reads, newest)
    }

    /// Whether a group that is later than all accesses of the state, with dependencies of these outlines,
    /// may add to what they reach.
    pub fn adds(&self, outlines: &[Dep]) -> bool
        ensures { result ≡ false → AreQuiet (spec.live_of self.now) outlines.now }
    {
        let first = self.first_live();
        let written = self.written.as_slice();
        some_add(&written[first..], outlines) || some_add(&self.reads, outlines)
    }

    /// Whether all that dependencies of these outlines may give is reached from each access. Then they add
    /// nothing, now and later.
    pub fn is_full(&self, outlines: &[Dep]) -> bool
        ensures { result ≡ true → AreFull (spec.live_of self.now) outlines.now }
    {
        let first = self.first_live();
        let written = self.written.as_slice();
        all_full(&written[first..], outlines) && all_full(&self.reads, outlines)
    }

    /// A later step begins. Dependencies that add nothing may be passed over up to there. Where memory is
    /// missing the state is only to be dropped.
    pub fn come_to(&mut self, step: u64) -> Result<(), AllocError>
        ensures comes { OnOk result (self.old.step ≤ step → HasComeTo step self.old self.new) }
        ensures passes { OnOk result (self.old.step ≤ step
            → (story : Story) (epoch : ℕ) (more : List Placed) → StandsFor story epoch self.old
            → ArePassed story step self.old more → StandsFor (extended story more) epoch self.new) }
        ensures keeps { OnOk result ((outlines : List Dep) → AreFull (spec.live_of self.old) outlines
            → AreFull (spec.live_of self.new) outlines) }
    {
        if self.step < step {
            let first = self.first_live();
            advance_from(&mut self.written, first)?;
            advance_from(&mut self.reads, 0)?;
            self.step = step;
        }
        Ok(())
    }

    /// Goes through the dependencies of a group on one cell. Where memory is missing the state is as before.
    pub fn extend(&mut self, group: &Group, at: &Area) -> Result<(), AllocError>
        ensures grows { OnOk result ((cell : Cell) → IsOnly at.now cell → self.old.step ≤ group.now.step
            → HasGrown cell group.now self.old self.new) }
        ensures fault { IfErr result (λ e. self.new ≡ self.old) }
    {
        let mut next = self.copy()?;
        next.extend_in_place(group, at)?;
        *self = next;
        Ok(())
    }

    /// As `extend`, and no copy is made: where memory is missing the state is only to be dropped.
    pub fn extend_in_place(&mut self, group: &Group, at: &Area) -> Result<(), AllocError>
        ensures grows { OnOk result ((cell : Cell) → IsOnly at.now cell → self.old.step ≤ group.now.step
            → HasGrown cell group.now self.old self.new) }
        ensures keeps { OnOk result ((outlines : List Dep) → AreFull (spec.live_of self.old) outlines
            → AreFull (spec.live_of self.new) outlines) }
    {
        self.come_to(group.step)?;
        let cell = cell_of(at);
        let first = self.first_live();
        extend_from(&mut self.written, first, group, cell)?;
        extend_from(&mut self.reads, 0, group, cell)?;
        Ok(())
    }

    /// Forgets all accesses: the epoch begins anew.
    pub fn restart(&mut self)
        ensures step { self.new.step ≡ self.old.step }
        ensures none { spec.entries_of self.new ≡ [] }
        ensures stands { (story : Story) (epoch next : ℕ) → StandsFor story epoch self.old
            → ((a : Access) → Contains story.accesses a → a.step < next)
            → StandsFor story next self.new }
    {
        self.written.clear();
        self.alike = false;
        self.reads.clear();
    }
}
