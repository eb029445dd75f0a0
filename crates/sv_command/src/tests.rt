//! Answers on ample memory. The expected values are worked out by hand from the tables of stages and
//! accesses.
ghost use Rattle.std.specs.Prelude.{◌≡◌, [], ◌∷◌, IfOk};
ghost use Rattle.sv_model.specs.Plain.{ElementFits};

use crate::lower;
use std::alloc::{AllocError, Global};
use std::test::Fail;
use sv_mask::{Access16, AccessWord, Accesses, Layout, Stage, StageWord, Stages, Usage, Usages};
use sv_model::line::{Command, Declared, Element, Part, Target};
use sv_model::work::{Access, Area, Dep, Here, Place, Step, Track, Transfer, What};
use sv_range::{Cells, List, Span};

fn one<T: Drop>(alloc: Global, item: T) -> Result<List<T>, AllocError>
    ensures { IfOk result (λ items. items ≡ item ∷ []) }
{
    let mut items = List::new(alloc);
    items.push_or_drop(item)?;
    Ok(items)
}

fn here(subpass: Option<u32>) -> Here {
    Here {
        rec: 7,
        family: 0,
        cmd: 2,
        step: 5,
        instance: 3,
        subpass,
    }
}

fn place() -> Place {
    Place {
        event: 0,
        batch: 0,
        slot: 0,
        rec: 7,
        cmd: 2,
    }
}

fn stages(bits: u32) -> StageWord {
    StageWord {
        plain: Stages(bits),
        top: false,
        bottom: false,
    }
}

fn kinds(bits: u32) -> AccessWord {
    AccessWord {
        plain: Accesses(bits),
        memory_read: false,
        memory_write: false,
    }
}

#[test]
fn work_has_its_accesses(rt: HostRuntime) -> Result<(), Fail> {
    let declared = Declared {
        res: 0,
        stage: Stage::Copy,
        access: Access16::TransferWrite,
        part: Part::Bytes { start: 8, end: 16 },
        layout: None,
    };
    let command = Command::Work {
        accesses: one(rt.alloc(), declared)?,
    };
    let expected = Access {
        area: Area::Bytes {
            res: 0,
            span: Span { start: 8, end: 16 },
        },
        what: What::Use(Usage(37)),
        queue: 0,
        sub: Some((3, 1)),
        layout: None,
        place: place(),
        step: 5,
        pos: 0,
    };
    let steps = lower(rt.alloc(), &command, &here(Some(1)))?;
    match steps.as_slice() {
        [Step::Accesses(accesses)] => match accesses.as_slice() {
            [access] => assert!(rt; *access == expected),
            _ => assert!(rt; false, "one access"),
        },
        _ => assert!(rt; false, "one step of accesses"),
    }
    Ok(())
}

/// Whether a barrier of this element gives one group with this dependency and this transfer, and
/// with a transition at the position 0 or with none.
fn gives(
    alloc: Global,
    element: Element,
    here: Here,
    dep: Dep,
    transfer: Option<Transfer>,
    transition: bool,
) -> Result<bool, AllocError>
    requires { ElementFits element }
{
    let command = Command::Barrier {
        deps: one(alloc, element)?,
    };
    let steps = lower(alloc, &command, &here)?;
    match steps.as_slice() {
        [Step::Groups(groups)] => match groups.as_slice() {
            [group] => {
                let same_dep = match group.deps.as_slice() {
                    [only] => *only == dep,
                    _ => false,
                };
                let same_transitions = match group.transitions.as_slice() {
                    [] => !transition,
                    [only] => transition && only.step == 5 && only.pos == 0,
                    _ => false,
                };
                Ok(same_dep && same_transitions && group.transfer == transfer && group.step == 5)
            }
            _ => Ok(false),
        },
        _ => Ok(false),
    }
}

#[test]
fn barriers_give_groups(rt: HostRuntime) -> Result<(), Fail> {
    // copy, transfer_write to copy, transfer_read
    let global = Element {
        src: stages(4096),
        src_access: kinds(8192),
        dst: stages(4096),
        dst_access: kinds(4096),
        target: None,
    };
    let dep = Dep {
        from: Track::Queue(0),
        s1: Stages(4096),
        a1: Usages(1 << 37),
        to: Track::Queue(0),
        s2: Stages(4096),
        a2: Usages(1 << 34),
        range: None,
    };
    assert!(rt;
        gives(rt.alloc(), global, here(None), dep, None, false)?,
        "a global element"
    );
    let sub = Track::Sub {
        queue: 0,
        instance: 3,
        subpass: 1,
    };
    let inside = Dep {
        from: sub,
        to: sub,
        ..dep
    };
    assert!(rt;
        gives(rt.alloc(), global, here(Some(1)), inside, None, false)?,
        "in a subpass"
    );
    let mut target = Target {
        res: 1,
        part: Part::Image {
            mip: 0,
            mips: 1,
            layer: 2,
            layers: 3,
        },
        layouts: Some((Layout::Undefined, Layout::TransferSrcOptimal)),
        families: None,
    };
    let area = Area::Image {
        res: 1,
        cells: Cells {
            mip: 0,
            mips: 1,
            layer: 2,
            layers: 3,
        },
    };
    let moved = Element {
        target: Some(target),
        ..global
    };
    let opened = Dep {
        s2: Stages(4096 + 131072),
        range: Some(area),
        ..dep
    };
    assert!(rt;
        gives(rt.alloc(), moved, here(None), opened, None, true)?,
        "a transition"
    );
    target.families = Some((0, 1));
    let released = Element {
        target: Some(target),
        ..global
    };
    let half = Dep {
        a2: Usages(0),
        range: Some(area),
        ..dep
    };
    let release = Transfer {
        release: true,
        from: 0,
        to: 1,
        area,
    };
    assert!(rt;
        gives(rt.alloc(), released, here(None), half, Some(release), false)?,
        "a release"
    );
    target.families = Some((1, 0));
    let acquired = Element {
        target: Some(target),
        ..global
    };
    let other_half = Dep {
        a1: Usages(0),
        ..opened
    };
    let acquire = Transfer {
        release: false,
        from: 1,
        to: 0,
        area,
    };
    assert!(rt;
        gives(
            rt.alloc(),
            acquired,
            here(None),
            other_half,
            Some(acquire),
            true
        )?,
        "an acquire"
    );
    Ok(())
}
