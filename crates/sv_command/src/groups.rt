//! The groups of a barrier, one for each of its elements.
ghost use Rattle.std.specs.Prelude.{◌≡◌, ◌<◌, ◌≤◌, ◌^◌, [], ◌∷◌, map, length, option_to_list, IfOk, All};
ghost use Rattle.sv_model.specs.Barriers as spec;
ghost use Rattle.sv_model.specs.Positions.{groups_from, numbered_group};
ghost use Rattle.sv_model.specs.LawfulCommands.{IsShort};
ghost use Rattle.sv_model.specs.Plain.{ElementFits};

use crate::barriers::{
    area_of, dependency, moving, old_of, place_of, track_of, transfer_for, transfer_half,
    transition, with_transition_stage,
};
use std::alloc::{AllocError, Global};
use sv_model::line::Element;
use sv_model::work::{Dep, Group, Here, Old, Transfer};
use sv_range::List;

/// The group of a dependency with a pair of layouts and a transfer. Its transition has that position.
fn group_with(
    alloc: Global,
    here: Here,
    dep: Dep,
    old: Option<Old>,
    transfer: Option<Transfer>,
    pos: u32,
) -> Result<Group, AllocError>
    ensures { IfOk result (λ group. group ≡ numbered_group here.step pos
        (spec.group_with (spec.place_of here) dep (option_to_list old) transfer)) }
{
    let moving = moving(transfer, old);
    let mut deps = List::new(alloc);
    let mut transitions = List::new(alloc);
    let mut olds = List::new(alloc);
    deps.push_or_drop(with_transition_stage(moving, transfer_half(transfer, dep)))?;
    if let Some(old) = moving {
        transitions.push_or_drop(transition(here, old, pos))?;
    }
    if let Some(old) = old {
        olds.push_or_drop(old)?;
    }
    Ok(Group {
        step: here.step,
        place: place_of(here),
        deps,
        transitions,
        olds,
        transfer,
    })
}

/// The group of an element.
fn element_group(alloc: Global, here: Here, element: Element, pos: u32) -> Result<Group, AllocError>
    requires { ElementFits element }
    ensures { IfOk result (λ group. group ≡ numbered_group here.step pos (spec.element_group here element)) }
{
    let track = track_of(here);
    match element.target {
        None => group_with(
            alloc,
            here,
            dependency(track, element, None),
            None,
            None,
            pos,
        ),
        Some(target) => {
            let area = area_of(target.res, target.part);
            group_with(
                alloc,
                here,
                dependency(track, element, Some(area)),
                old_of(area, target.layouts),
                transfer_for(here.family, area, target.families),
                pos,
            )
        }
    }
}

/// The groups of these elements. They are of one step, so they are not linked with each other.
pub fn groups(alloc: Global, elements: &[Element], here: Here) -> Result<List<Group>, AllocError>
    requires short { IsShort elements.now }
    requires fit { All ElementFits elements.now }
    ensures { IfOk result (λ groups. groups ≡ groups_from here.step 0
        (map (spec.element_group here) elements.now)) }
{
    let mut groups = List::with_capacity(alloc, elements.len())?;
    let mut pos = 0;
    for element in elements {
        let group = element_group(alloc, here, *element, pos)?;
        pos += group.transitions.len() as u32;
        groups.push_or_drop(group)?;
    }
    Ok(groups)
}
