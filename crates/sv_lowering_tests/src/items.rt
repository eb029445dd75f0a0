//! What steps hold, one item after another.
use crate::record;
use std::alloc::{AllocError, Global};
use sv_check::read_text;
use sv_model::work::{Access, Dep, Group, Old, Place, Step, Transfer};

/// An item of a step. A step begins with its kind, and each of its groups with its own number.
#[derive(Clone, Copy, PartialEq)]
pub enum Item {
    Accesses,
    Groups,
    Set(u32, Place),
    Wait(u32, Place),
    Reset(u32, Place),
    Access(Access),
    Group(u64, Place),
    Dep(Dep),
    Transition(Access),
    Old(Old),
    Transfer(Transfer),
}

fn put_accesses(items: &mut Vec<Item>, accesses: &[Access]) -> Result<(), AllocError> {
    for access in accesses {
        items.push(Item::Access(*access))?;
    }
    Ok(())
}

fn put_group(items: &mut Vec<Item>, group: &Group) -> Result<(), AllocError> {
    items.push(Item::Group(group.step, group.place))?;
    for dep in group.deps.as_slice() {
        items.push(Item::Dep(*dep))?;
    }
    for transition in group.transitions.as_slice() {
        items.push(Item::Transition(*transition))?;
    }
    for old in group.olds.as_slice() {
        items.push(Item::Old(*old))?;
    }
    if let Some(transfer) = group.transfer {
        items.push(Item::Transfer(transfer))?;
    }
    Ok(())
}

fn put_groups(items: &mut Vec<Item>, groups: &[Group]) -> Result<(), AllocError> {
    for group in groups {
        put_group(items, group)?;
    }
    Ok(())
}

fn put_step(items: &mut Vec<Item>, step: &Step) -> Result<(), AllocError> {
    match step {
        Step::Accesses(accesses) => {
            items.push(Item::Accesses)?;
            put_accesses(items, accesses.as_slice())
        }
        Step::Groups(groups) => {
            items.push(Item::Groups)?;
            put_groups(items, groups.as_slice())
        }
        Step::SetEvent {
            event,
            place,
            groups,
        } => {
            items.push(Item::Set(*event, *place))?;
            put_groups(items, groups.as_slice())
        }
        Step::WaitEvent { event, place } => Ok(items.push(Item::Wait(*event, *place))?),
        Step::ResetEvent { event, place } => Ok(items.push(Item::Reset(*event, *place))?),
    }
}

/// The items of steps, in order.
pub fn items_of(alloc: Global, steps: &[Step]) -> Result<Vec<Item>, AllocError> {
    let mut items = Vec::new(alloc);
    for step in steps {
        put_step(&mut items, step)?;
    }
    Ok(items)
}

/// The items of the recording with this number of a text. None where the text is refused or has no such
/// recording.
pub fn items_in(alloc: Global, text: &str, number: u32) -> Result<Option<Vec<Item>>, AllocError> {
    let Ok(trace) = read_text(alloc, text.as_bytes()) else {
        return Ok(None);
    };
    let Some(recorded) = record(alloc, &trace, number)? else {
        return Ok(None);
    };
    if recorded.number() != number {
        return Ok(None);
    }
    let items = items_of(alloc, recorded.steps().as_slice())?;
    Ok(Some(items))
}
