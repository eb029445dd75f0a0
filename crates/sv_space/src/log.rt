//! The groups of the work, which pieces go through late.
ghost use Rattle.std.specs.Prelude.{◌≡◌, ◌∷◌, ◌++◌, ◌<◌, ◌≤◌, [], ℕ, IfOk, OnErr, OnOk, drop, length};
ghost use Rattle.std.specs.Prelude.{slice_index_or};
ghost use Rattle.sv_model.specs.Cells.{IsOnly};
ghost use Rattle.sv_model.specs.declared.work.Cell.{Cell};
ghost use Rattle.sv_model.specs.declared.work.Group.{Group};
ghost use Rattle.sv_state.specs.Contents.{contents_of};
ghost use Rattle.sv_space.specs.Known.{HasGone, MayFollow};

use crate::going::go_through;
use crate::marks::{Block, mark};
use crate::pattern::{Pattern, number_of};
use std::alloc::{AllocError, Global};
use std::marker::Model;
use sv_model::work::{Area, Group};
use sv_range::Duplicate;
use sv_state::CellState;

/// The groups of the work, in order, which contracts see. By the numbers of their patterns a state passes
/// over what adds nothing to it.
#[derive(Drop)]
pub struct Log {
    groups: Vec<Group>,
    patterns: Vec<Pattern>,
    numbers: Vec<u8>,
    blocks: Vec<Block>,
}

impl Model for Log {
    ghost use Rattle.std.specs.Prelude.{List};
    ghost use Rattle.sv_model.specs.declared.work.Group.{Group};
    ghost use Rattle.sv_space.specs.Patterns.{HavePatterns};

    ghost Value = { List Group };

    ghost view = { λ it. it.groups.items };

    ghost invariant = { λ it. HavePatterns it.groups.items it.patterns.items it.numbers.items
        it.blocks.items };
}

impl Log {
    /// No group yet.
    pub fn new(alloc: Global) -> Log
        ensures { result ≡ [] }
    {
        Log {
            groups: Vec::new(alloc),
            patterns: Vec::new(alloc),
            numbers: Vec::new(alloc),
            blocks: Vec::new(alloc),
        }
    }

    /// The number of groups.
    pub fn len(&self) -> usize
        ensures { result ≡ length self.now }
    {
        self.groups.len()
    }

    /// The group with that number.
    pub fn group(&self, number: usize) -> &Group
        requires { number < length self.now }
        ensures { (d : Group) → result.now ≡ slice_index_or self.now number d }
    {
        &self.groups[number]
    }

    /// Puts a group at the end.
    pub fn push(&mut self, alloc: Global, group: &Group) -> Result<(), AllocError>
        ensures all { OnOk result (self.new ≡ self.old ++ group.now ∷ []) }
        ensures longer { length self.old ≤ length self.new }
    {
        let number = number_of(alloc, &mut self.patterns, group)?;
        let copied = group.copy()?;
        keep(&mut self.groups, copied)?;
        // Where a number was lost for want of memory, the later ones would be of other groups.
        if self.numbers.len() + 1 == self.groups.len() {
            mark(&mut self.blocks, self.numbers.len(), number)?;
            self.numbers.push(number)?;
        }
        Ok(())
    }

    /// Gives the state the groups from that number on, on one cell.
    pub fn catch_up(&self, state: &mut CellState, from: usize, at: &Area) -> Result<(), AllocError>
        requires { from ≤ length self.now }
        ensures { OnOk result ((cell : Cell) → IsOnly at.now cell
            → MayFollow state.old.step (drop from self.now)
            → HasGone cell (drop from self.now) (contents_of state.old) (contents_of state.new)) }
    {
        go_through(
            &self.groups,
            &self.patterns,
            &self.numbers,
            &self.blocks,
            state,
            from,
            at,
        )
    }
}

// Puts a group at the end. A group is large, so that the room grows by a quarter and not by its double.
fn keep(groups: &mut Vec<Group>, group: Group) -> Result<(), AllocError>
    ensures ok { OnOk result (groups.new.items ≡ groups.old.items ++ group ∷ []) }
    ensures err { OnErr result (groups.new.items ≡ groups.old.items) }
{
    if groups.len() == groups.capacity() {
        groups.reserve_exact(groups.len() / 4 + 4)?;
    }
    groups.push(group)?;
    Ok(())
}
