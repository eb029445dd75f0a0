//! What dependency chains from one access reach.
ghost use Rattle.std.specs.Prelude.{◌≡◌, [], ◌∷◌, ◌++◌, ◌<◌, ◌≤◌, ℕ, true, false, IsTrue, ◌↔◌, ◌⊎◌, IfOk};
ghost use Rattle.std.specs.Prelude.{OnOk, List, Contains};
ghost use Rattle.sv_mask.specs.Sets.{Has};
ghost use Rattle.sv_model.specs.Cells.{Within};
ghost use Rattle.sv_model.specs.Dependencies.{Placed, IsOwn, InFirst, Starts, StartsByUse, Enters, Chain};
ghost use Rattle.sv_model.specs.Dependencies.{placed};
ghost use Rattle.sv_model.specs.Dependencies as chain;
ghost use Rattle.sv_model.specs.declared.work.Access.{Access};
ghost use Rattle.sv_model.specs.declared.work.Cell.{Cell};
ghost use Rattle.sv_model.specs.declared.work.What.{What};
ghost use Rattle.sv_state.specs.Masks.{IsHeld, KeepsHeld, LeadsInto, Mark, Marked, Stands};
ghost use Rattle.sv_state.specs.Outlines.{IsFull, IsQuiet, outline};
ghost use Rattle.sv_state.specs.Numbers.{masks_of};

use crate::mask::{Mask, Masks, add, cover, is_on, leads_into, marked_on, mask_of, within};
use crate::set::{has_stage_of, has_usage};
use crate::settled::Settled;
use std::alloc::{AllocError, Global};
use sv_mask::{Usage, is_write};
use sv_model::same::is_same_access;
use sv_model::work::{Access, Cell, Dep, Group, Track, What};

/// What chains from one access reach: by the steps before the one that its state has come to, and
/// by that step itself. They are kept apart since the groups of one step are not linked.
#[derive(Drop)]
pub struct Reached {
    pub settled: Settled,
    pub fresh: Masks,
}

/// Whether an access writes.
pub fn writes(what: What) -> bool
    ensures { result ≡ chain.writes what }
{
    match what {
        What::Use(u) => is_write(u),
        What::Transition => true,
    }
}

fn is_listed(accesses: &[Access], a: &Access) -> bool
    ensures { IsTrue result ↔ Contains accesses.now a.now }
{
    for x in accesses {
        if is_same_access(x, a) {
            return true;
        }
    }
    false
}

/// Whether the transition is one of the group's own.
fn is_own(a: &Access, group: &Group) -> bool
    ensures { IsTrue result ↔ IsOwn a.now group.now }
{
    a.step == group.step && is_listed(group.transitions.as_slice(), a)
}

fn starts_scope(d: &Dep, held: bool, u: Usage) -> bool
    ensures { (cell : Cell) → IsTrue held ↔ Within d.now.range cell → IsTrue result ↔ InFirst cell d.now u.0 }
{
    if is_write(u) {
        has_usage(d.a1, u) && held
    } else {
        has_stage_of(d.s1, u)
    }
}

fn starts_by_use(a: &Access, group: &Group, d: &Dep, held: bool, u: Usage) -> bool
    ensures { (cell : Cell) → IsTrue held ↔ Within d.now.range cell
        → IsTrue result ↔ StartsByUse cell a.now u.0 (record { group = group.now; dep = d.now }) }
{
    a.step < group.step && is_on(a, d.from) && starts_scope(d, held, u)
}

/// Whether a chain from the access may begin with this dependency of the group, on a cell that its
/// range holds, or does not hold.
fn starts(a: &Access, group: &Group, d: &Dep, held: bool) -> bool
    ensures { (cell : Cell) → IsTrue held ↔ Within d.now.range cell
        → IsTrue result ↔ Starts cell a.now (record { group = group.now; dep = d.now }) }
{
    match a.what {
        What::Use(u) => starts_by_use(a, group, d, held, u),
        What::Transition => is_own(a, group),
    }
}

/// Whether a chain from the access may begin with a dependency from a queue, of a group that is later,
/// which has this outline.
fn may_start(a: &Access, d: &Dep) -> bool
    ensures { result ≡ false → (cell : Cell) (n : Placed) → d.now.from ≡ n.dep.from → d.now ≡ outline n.dep
        → a.now.step < n.group.step → Starts cell a.now n → ⊥ }
{
    match a.what {
        What::Use(u) => is_on(a, d.from) && starts_scope(d, true, u),
        What::Transition => false,
    }
}

impl Reached {
    ghost use Rattle.sv_model.specs.Dependencies.{AllAlike, Alike, Ends, EndsByUse, Path, UpTo};

    /// Nothing is reached yet.
    pub fn new(alloc: Global) -> Reached
        ensures settled { masks_of result.settled ≡ [] }
        ensures fresh { result.fresh.items ≡ [] }
    {
        Reached {
            settled: Settled::new(alloc),
            fresh: Masks::new(alloc),
        }
    }

    /// The same is reached.
    pub fn copy(&self) -> Result<Reached, AllocError>
        ensures settled { IfOk result (λ copied. masks_of copied.settled ≡ masks_of self.now.settled) }
        ensures fresh { IfOk result (λ copied. copied.fresh.items ≡ self.now.fresh.items) }
    {
        let settled = self.settled.copy()?;
        let fresh = Masks::from_slice(*self.fresh.allocator(), self.fresh.as_slice())?;
        Ok(Reached { settled, fresh })
    }

    /// Whether a chain leads from the access to a usage of x, which is later than all that was gone
    /// through.
    pub fn reaches_use(&self, a: &Access, x: &Access, u: Usage) -> bool
        requires { x.now.what ≡ What.Use u }
        ensures { (cell : Cell) (deps : List Placed) (step : ℕ)
            → ((d : Placed) → Contains deps d → d.group.step < x.now.step)
            → Stands cell a.now deps step self.now → IsTrue result ↔ Chain deps cell a.now x.now }
    {
        let write = writes(a.what);
        let earlier = self.settled.marked_on(x, write, u);
        let now = marked_on(&self.fresh, x, write, u);
        earlier || now
    }

    /// A later step begins: what was reached is of earlier steps.
    pub fn advance(&mut self) -> Result<(), AllocError>
        ensures stands { OnOk result ((cell : Cell) (a : Access) (deps : List Placed) (step next : ℕ)
            → step < next → Stands cell a deps step self.old → Stands cell a deps next self.new) }
        ensures keeps { OnOk result (KeepsHeld self.old self.new) }
    {
        self.settled.add_all(&self.fresh)?;
        self.fresh.clear();
        Ok(())
    }

    /// Whether a chain from the access goes into this dependency of a group of the present step.
    fn enters(&self, a: &Access, group: &Group, d: &Dep, held: bool) -> bool
        ensures { (cell : Cell) → IsTrue held ↔ Within d.now.range cell → (deps : List Placed)
            → Stands cell a.now deps group.now.step self.now
            → IsTrue result ↔ Enters deps (Starts cell a.now) (record { group = group.now; dep = d.now }) }
    {
        let first = starts(a, group, d, held);
        let next = self.settled.leads_into(d);
        first || next
    }

    /// Goes through one dependency of a group of the present step.
    fn take_dep(&mut self, a: &Access, group: &Group, d: &Dep, held: bool) -> Result<(), AllocError>
        ensures stands { OnOk result ((cell : Cell) → IsTrue held ↔ Within d.now.range cell
            → (deps : List Placed) → Stands cell a.now deps group.now.step self.old
            → Stands cell a.now (deps ++ record { group = group.now; dep = d.now } ∷ []) group.now.step
            self.new) }
        ensures keeps { OnOk result (KeepsHeld self.old self.new) }
    {
        if self.enters(a, group, d, held) {
            add(&mut self.fresh, mask_of(d, held))?;
        }
        Ok(())
    }

    /// Goes through the dependencies of a group of the present step, on a cell.
    pub fn extend(&mut self, a: &Access, group: &Group, at: Cell) -> Result<(), AllocError>
        ensures stands { OnOk result ((cell : Cell) → AllAlike group.now at cell → (deps : List Placed)
            → Stands cell a.now deps group.now.step self.old
            → Stands cell a.now (deps ++ placed group.now) group.now.step self.new) }
        ensures keeps { OnOk result (KeepsHeld self.old self.new) }
    {
        for d in group.deps.as_slice() {
            let held = within(d.range, at);
            self.take_dep(a, group, d, held)?;
        }
        Ok(())
    }

    /// Whether d may follow what is reached by whichever step.
    fn leads(&self, d: &Dep) -> bool
        ensures { IsTrue result ↔ (LeadsInto (masks_of self.now.settled) d.now
            ⊎ LeadsInto self.now.fresh.items d.now) }
    {
        let earlier = self.settled.leads_into(d);
        let now = leads_into(&self.fresh, d);
        earlier || now
    }

    /// Whether a chain from the access goes into this dependency of a group of a later step, whose
    /// range holds the cell.
    fn enters_later(&self, a: &Access, group: &Group, d: &Dep) -> bool
        ensures { (cell : Cell) (deps : List Placed) (step : ℕ) → Within d.now.range cell
            → ((e : Placed) → Contains deps e → e.group.step < group.now.step)
            → Stands cell a.now deps step self.now
            → IsTrue result ↔ Enters deps (Starts cell a.now) (record { group = group.now; dep = d.now }) }
    {
        let first = starts(a, group, d, true);
        let next = self.leads(d);
        first || next
    }

    /// Whether a chain leads from the access to a transition x of a later step, by its own group.
    pub fn reaches_own(&self, a: &Access, x: &Access, group: &Group) -> bool
        requires transition { x.now.what ≡ What.Transition }
        requires own { IsOwn x.now group.now }
        ensures { (cell : Cell) (deps : List Placed) (step : ℕ)
            → ((d : Placed) → Contains deps d → d.group.step < x.now.step)
            → ((d : Placed) → Contains (placed group.now) d → Within d.dep.range cell)
            → Stands cell a.now deps step self.now
            → IsTrue result ↔ Chain (deps ++ placed group.now) cell a.now x.now }
    {
        for d in group.deps.as_slice() {
            if self.enters_later(a, group, d) {
                return true;
            }
        }
        false
    }

    /// Whether a chain from the access may go into a dependency of a later group which has this outline.
    fn may_enter(&self, a: &Access, d: &Dep) -> bool
        ensures { result ≡ false → (cell : Cell) (deps : List Placed) (step : ℕ) (n : Placed) → d.now
            ≡ outline n.dep → a.now.step < n.group.step
            → Stands cell a.now deps step self.now → Enters deps (Starts cell a.now) n → ⊥ }
    {
        match d.from {
            Track::Queue(_) => may_start(a, d) || self.leads(d),
            _ => true,
        }
    }

    /// Whether all that the mask has is reached.
    fn cover(&self, m: Mask) -> bool
        ensures { result ≡ true → (k : Mark) → Marked m k → IsHeld self.now m.track k }
    {
        self.settled.cover(m) || cover(&self.fresh, m)
    }

    /// Whether a dependency of a later group which has this outline may add to what is reached.
    pub fn adds(&self, a: &Access, d: &Dep) -> bool
        ensures { result ≡ false → IsQuiet a.now self.now d.now }
    {
        !self.cover(mask_of(d, true)) && self.may_enter(a, d)
    }

    /// Whether all that a dependency of this outline may give is reached. What has a range is no outline.
    pub fn is_full(&self, d: &Dep) -> bool
        ensures { result ≡ true → IsFull self.now d.now }
    {
        match d.range {
            None => self.cover(mask_of(d, true)),
            Some(_) => false,
        }
    }
}
