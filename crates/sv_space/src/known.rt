//! What is kept for the cells of a piece.
ghost use Rattle.std.specs.Prelude.{◌≡◌, ◌+◌, ◌-◌, ◌*◌, ◌<◌, ◌≤◌, ℕ, Bool, Contains, List, [], false, length};
ghost use Rattle.std.specs.Prelude.{drop, slice_index_or, take, IfOk, IfSome, IsTrue, MatchOption, OnOk};
ghost use Rattle.std.specs.Option.{option_copied};
ghost use Rattle.sv_model.specs.Cells.{covers, IsOnly};
ghost use Rattle.sv_model.specs.Dependencies.{IsOwn, own_deps, writes};
ghost use Rattle.sv_model.specs.Order.{Story, IsBelow, IsClear, IsPartner, NoRaces, extended, conflict_kind};
ghost use Rattle.sv_model.specs.Reports.{on_cell};
ghost use Rattle.sv_model.specs.declared.work.Cell.{Cell};
ghost use Rattle.sv_model.specs.declared.work.Group.{Group};
ghost use Rattle.sv_state.specs.Contents.{Contents, contents_of};
ghost use Rattle.sv_state.specs.Outlines.{AddsNothing};
ghost use Rattle.sv_state.specs.States.{IsBounded, RangesHold, entries_of};
ghost use Rattle.sv_state.specs.declared.entry.Entry.{Entry};
ghost use Rattle.sv_space.specs.Meant.{StandsFor};
ghost use Rattle.sv_space.specs.Known.{HasGone, MayFollow};
ghost use Rattle.sv_space.specs.Own.{HaveOwnGroups, own_of};
ghost use Rattle.sv_space.specs.Recorded.{IsRecording};

use crate::log::Log;
use crate::stepping::record_on;
use std::alloc::{AllocError, Global};
use std::marker::Model;
use sv_model::work::{Access, Area, Cell, Group, Partner};
use sv_rangemap::Piece;
use sv_state::CellState;

/// The state of cells that are alike, and how many groups of the work it was given. Contracts see what the
/// state holds, so that a copy is equal.
#[derive(Drop)]
pub struct Known {
    state: CellState,
    upto: u64,
}

impl Model for Known {
    ghost use Rattle.sv_state.specs.Contents.{contents_of};
    ghost use Rattle.sv_space.specs.Meant.{Meant};

    ghost Value = { Meant };

    ghost view = { λ it. record { state = contents_of it.state; upto = it.upto } };
}

impl Known {
    /// What is known of a cell before any work.
    pub fn new(alloc: Global) -> Known
        ensures upto { result.upto ≡ 0 }
        ensures step { result.state.step ≡ 0 }
        ensures stands { (cell : Cell) → StandsFor
            (record { cell = cell; accesses = []; deps = [] }) 0 result.state }
    {
        Known {
            state: CellState::new(alloc),
            upto: 0,
        }
    }

    /// The number of groups that the state was given.
    pub fn upto(&self) -> u64
        ensures { result ≡ self.now.upto }
    {
        self.upto
    }

    /// The number of kept accesses. Outside render scopes these are the accesses of one step, and of each
    /// queue at most one read of each of the 17 stages.
    pub fn kept(&self) -> usize
        ensures number { result ≡ length self.now.state.written + length self.now.state.reads }
        ensures few { (story : Story) (epoch : ℕ) (queues : List ℕ) (most : ℕ)
            → StandsFor story epoch self.now.state → IsBounded story.accesses queues most
            → result ≤ most + 17 * length queues }
    {
        self.state.kept()
    }

    /// The latest of the earlier accesses of the epoch with which the access races, or None where it races
    /// with none. A transition is given with its own group.
    pub fn check(&self, access: &Access, group: Option<&Group>) -> Option<Partner>
        requires own { IfSome group (λ g. IsOwn access.now g.now) }
        requires held { IfSome group (λ g. RangesHold g.now access.now.area) }
        ensures { (story : Story) (epoch : ℕ) → StandsFor story epoch self.now.state → NoRaces story epoch
            → IsBelow access.now.step story
            → IsTrue (covers access.now.area story.cell)
            → MatchOption result
            (IsClear (extended story (own_deps (option_copied group.entry))) epoch access.now)
            (λ p. IsPartner (extended story (own_deps (option_copied group.entry))) epoch access.now p.access
            × (p.kind ≡ conflict_kind (writes p.access.what) (writes access.now.what))) }
    {
        self.state.check(access, group)
    }

    /// Gives the state the groups that it lacks, on one cell, and tells how many those were. Where memory is
    /// missing it is only to be dropped.
    pub fn catch_up(&mut self, log: &Log, at: &Area) -> Result<u64, AllocError>
        requires { self.old.upto ≤ length log.now }
        ensures upto { OnOk result (self.new.upto ≡ length log.now) }
        ensures gone { OnOk result ((cell : Cell) → IsOnly at.now cell
            → MayFollow self.old.state.step (drop self.old.upto log.now)
            → HasGone cell (drop self.old.upto log.now) self.old.state self.new.state) }
        ensures given { IfOk result (λ given. given + self.old.upto ≡ length log.now) }
    {
        let given = log.len() as u64 - self.upto;
        log.catch_up(&mut self.state, self.upto as usize, at)?;
        self.upto = log.len() as u64;
        Ok(given)
    }

    /// Records a step's accesses on a cell. Its epoch begins anew where one of them races.
    pub fn record(
        &mut self,
        alloc: Global,
        cell: Cell,
        accesses: &[Access],
        groups: &[Group],
    ) -> Result<(), AllocError>
        requires { HaveOwnGroups groups.now accesses.now }
        ensures upto { self.new.upto ≡ self.old.upto }
        ensures recorded { OnOk result ((raced : Bool) × (mid : Contents)
            × IsRecording (own_of groups.now) (on_cell cell accesses.now) raced self.old.state mid
            self.new.state) }
    {
        record_on(alloc, &mut self.state, cell, accesses, groups)
    }
}

impl Piece for Known {
    ghost use Rattle.sv_space.specs.Known.{none_same};

    ghost is_same = { λ a b. false };

    fn copy(&self) -> Result<Known, AllocError> {
        let state = self.state.copy()?;
        Ok(Known {
            state,
            upto: self.upto,
        })
    }

    fn same(&self, _other: &Known) -> bool {
        false
    }

    ghost same_are_equal = { none_same };
}
