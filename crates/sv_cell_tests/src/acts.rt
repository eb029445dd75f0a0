//! Steps of one access or of one group, as tables write them.
ghost use Rattle.std.specs.Prelude.{◌≡◌, ◌∷◌, [], IfOk, IfSome, IsSome, IsTrue, Some, option_to_list};
ghost use Rattle.sv_step_laws.specs.Steps.{IsAccessOf, IsOfImage};
ghost use Rattle.sv_space.specs.Areas.{IsAreaOf};
ghost use Rattle.sv_cell_tests.specs.NextSteps.{IsNextOf, IsTransitionOn};

use crate::areas::At;
use crate::inside::{is_access_inside, is_inside, is_of_image};
use std::alloc::{AllocError, Global};
use sv_mask::{Layout, Stages, Usage, Usages};
use sv_model::line::Trace;
use sv_model::steps::push_some;
use sv_model::work::{Access, Area, Dep, Group, Old, Place, Step, Track, Transfer, What};
use sv_range::List;

/// The stages and usages of the two scopes of a barrier, both of queue 0.
#[derive(Clone, Copy)]
pub struct Scopes {
    pub s1: u32,
    pub a1: u64,
    pub s2: u32,
    pub a2: u64,
}

/// Nothing is in the scopes.
pub const NOTHING: Scopes = Scopes {
    s1: 0,
    a1: 0,
    s2: 0,
    a2: 0,
};

/// What an element of a barrier does besides: nothing, it names old and new layouts on a queue, or it is a
/// release or an acquire, of the first family to the second, which may name layouts too.
#[derive(Clone, Copy)]
pub enum Change {
    Nothing,
    Layouts(u32, Layout, Layout),
    Release(u32, u32, Option<(Layout, Layout)>),
    Acquire(u32, u32, Option<(Layout, Layout)>),
}

/// A step. A use of a queue, by that usage, on some cells, and the layout that it declares; a barrier on all
/// resources; or a barrier with one element on some cells.
#[derive(Clone, Copy)]
pub enum Act {
    Use(u32, u8, At, Option<Layout>),
    Barrier(Scopes),
    Element(Scopes, At, Change),
}

impl Change {
    // The family of a queue is its number. An acquire is recorded on a queue of the family that acquires.
    fn queue(self) -> u32 {
        match self {
            Change::Nothing => 0,
            Change::Layouts(queue, _, _) => queue,
            Change::Release(from, _, _) => from,
            Change::Acquire(_, to, _) => to,
        }
    }

    fn layouts(self) -> Option<(Layout, Layout)> {
        match self {
            Change::Nothing => None,
            Change::Layouts(_, was, becomes) => Some((was, becomes)),
            Change::Release(_, _, layouts) => layouts,
            Change::Acquire(_, _, layouts) => layouts,
        }
    }

    fn is_release(self) -> bool {
        matches!(self, Change::Release(_, _, _))
    }

    fn transfer(self, area: Area) -> Option<Transfer>
        ensures { IfSome result (λ x. x.area ≡ area) }
    {
        match self {
            Change::Release(from, to, _) => Some(Transfer {
                release: true,
                from,
                to,
                area,
            }),
            Change::Acquire(from, to, _) => Some(Transfer {
                release: false,
                from,
                to,
                area,
            }),
            Change::Nothing => None,
            Change::Layouts(_, _, _) => None,
        }
    }
}

/// The place of what the step with that number does: a command of that number.
pub fn place_of(number: u64) -> Place {
    Place {
        event: 1,
        batch: 0,
        slot: 0,
        rec: 0,
        cmd: (number % 1000) as u32,
    }
}

fn use_of(number: u64, queue: u32, usage: u8, area: Area, layout: Option<Layout>) -> Access
    ensures step { result.step ≡ number }
    ensures pos { result.pos ≡ 0 }
{
    Access {
        area,
        what: What::Use(Usage(usage)),
        queue,
        sub: None,
        layout,
        place: place_of(number),
        step: number,
        pos: 0,
    }
}

fn dep_of(scopes: Scopes, range: Option<Area>) -> Dep
    ensures { result.range ≡ range }
{
    Dep {
        from: Track::Queue(0),
        s1: Stages(scopes.s1),
        a1: Usages(scopes.a1),
        to: Track::Queue(0),
        s2: Stages(scopes.s2),
        a2: Usages(scopes.a2),
        range,
    }
}

fn old_of(area: Area, layouts: Option<(Layout, Layout)>) -> Option<Old>
    ensures is { IfSome result (λ o. o.area ≡ area) }
    ensures there { IsSome layouts → IsSome result }
{
    match layouts {
        None => None,
        Some((was, becomes)) => Some(Old { area, was, becomes }),
    }
}

// An element has a transition where its layouts differ and it is no release.
fn transition_of(number: u64, area: Area, change: Change, old: Option<Old>) -> Option<Access>
    ensures is { IfSome result (IsTransitionOn area number) }
    ensures paired { IsSome result → IsSome old }
{
    let Some(Old { was, becomes, .. }) = old else {
        return None;
    };
    if change.is_release() || was == becomes {
        return None;
    }
    Some(Access {
        area,
        what: What::Transition,
        queue: change.queue(),
        sub: None,
        layout: None,
        place: place_of(number),
        step: number,
        pos: 0,
    })
}

fn list_of<T: Drop>(alloc: Global, item: Option<T>) -> Result<List<T>, AllocError>
    ensures { IfOk result (λ list. list ≡ option_to_list item) }
{
    let mut list = List::new(alloc);
    push_some(&mut list, item)?;
    Ok(list)
}

fn group_of(
    alloc: Global,
    number: u64,
    dep: Dep,
    transition: Option<Access>,
    old: Option<Old>,
    transfer: Option<Transfer>,
) -> Result<Group, AllocError>
    ensures step { IfOk result (λ g. g.step ≡ number) }
    ensures deps { IfOk result (λ g. g.deps ≡ dep ∷ []) }
    ensures transitions { IfOk result (λ g. g.transitions ≡ option_to_list transition) }
    ensures olds { IfOk result (λ g. g.olds ≡ option_to_list old) }
    ensures transfer { IfOk result (λ g. g.transfer ≡ transfer) }
{
    Ok(Group {
        step: number,
        place: place_of(number),
        deps: list_of(alloc, Some(dep))?,
        transitions: list_of(alloc, transition)?,
        olds: list_of(alloc, old)?,
        transfer,
    })
}

fn use_step(alloc: Global, trace: &Trace, access: Access) -> Result<Option<Step>, AllocError>
    requires { access.pos ≡ 0 }
    ensures { IfOk result (λ found. IfSome found (IsNextOf trace.now access.step)) }
{
    if !is_access_inside(trace, &access) {
        return Ok(None);
    }
    let list = list_of(alloc, Some(access))?;
    Ok(Some(Step::Accesses(list)))
}

fn barrier_step(alloc: Global, number: u64, scopes: Scopes) -> Result<Step, AllocError>
    ensures { IfOk result (λ step. (t : _) → IsNextOf t number step) }
{
    let dep = dep_of(scopes, None);
    let group = group_of(alloc, number, dep, None, None, None)?;
    let groups = list_of(alloc, Some(group))?;
    Ok(Step::Groups(groups))
}

// Whether the element is on cells of a declared resource, and names layouts of images alone.
fn is_element_inside(trace: &Trace, area: Area, old: Option<Old>) -> bool
    ensures inside { IsTrue result → IsAreaOf trace.now area }
    ensures image { IsTrue result → IsSome old → IsOfImage area }
{
    is_inside(trace, area) && (old.is_none() || is_of_image(area))
}

fn element_step(
    alloc: Global,
    trace: &Trace,
    number: u64,
    scopes: Scopes,
    area: Area,
    change: Change,
) -> Result<Option<Step>, AllocError>
    ensures { IfOk result (λ found. IfSome found (IsNextOf trace.now number)) }
{
    let old = old_of(area, change.layouts());
    if !is_element_inside(trace, area, old) {
        return Ok(None);
    }
    let dep = dep_of(scopes, Some(area));
    let transition = transition_of(number, area, change, old);
    let group = group_of(alloc, number, dep, transition, old, change.transfer(area))?;
    let groups = list_of(alloc, Some(group))?;
    Ok(Some(Step::Groups(groups)))
}

/// The step with that number that the act stands for. None where it is not inside the resources of the trace.
pub fn step_of(
    alloc: Global,
    trace: &Trace,
    number: u64,
    act: Act,
) -> Result<Option<Step>, AllocError>
    ensures { IfOk result (λ found. IfSome found (IsNextOf trace.now number)) }
{
    match act {
        Act::Use(queue, usage, at, layout) => {
            let access = use_of(number, queue, usage, at.area(), layout);
            use_step(alloc, trace, access)
        }
        Act::Barrier(scopes) => {
            let step = barrier_step(alloc, number, scopes)?;
            Ok(Some(step))
        }
        Act::Element(scopes, at, change) => {
            element_step(alloc, trace, number, scopes, at.area(), change)
        }
    }
}
