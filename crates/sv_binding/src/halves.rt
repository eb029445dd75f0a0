//! The halves of an event's groups: of its set and of a wait on it (Vulkan 1.3, "Events").
ghost use Rattle.std.specs.Prelude.{ℕ, ◌≡◌, IfOk, map};
ghost use Rattle.sv_mask.specs.Scopes.{signal, no_usages};
ghost use Rattle.sv_model.specs.Events as spec;
ghost use Rattle.sv_model.specs.declared.work.Access.{Access};
ghost use Rattle.sv_model.specs.declared.work.Dep.{Dep};
ghost use Rattle.sv_model.specs.declared.work.Track.TheVariants as track;

use crate::groups::signal_alone;
use crate::sums::sum;
use std::alloc::{AllocError, Global};
use sv_mask::Usages;
use sv_model::work::{Access, Dep, Group, Place, Track};
use sv_range::{Duplicate, List};

fn set_deps(token: u64, deps: &[Dep], alloc: Global) -> Result<List<Dep>, AllocError>
    ensures { IfOk result (λ half. half ≡ map (λ (d : Dep). record d
        { to = track.Token token; s2 = signal; a2 = no_usages }) deps.now) }
{
    let mut half = List::with_capacity(alloc, deps.len())?;
    for dep in deps {
        half.push_or_drop(Dep {
            to: Track::Token(token),
            s2: signal_alone(),
            a2: Usages::NONE,
            ..*dep
        })?;
    }
    Ok(half)
}

fn set_half(alloc: Global, token: u64, group: &Group) -> Result<Group, AllocError>
    ensures { IfOk result (λ half. half ≡ spec.set_half token group.now) }
{
    Ok(Group {
        step: group.step,
        place: group.place,
        deps: set_deps(token, group.deps.as_slice(), alloc)?,
        transitions: List::new(alloc),
        olds: List::new(alloc),
        transfer: group.transfer,
    })
}

/// The set's halves of the groups, each with a token of its own, from that token on.
pub fn set_halves(alloc: Global, token: u64, groups: &[Group]) -> Result<List<Group>, AllocError>
    ensures { IfOk result (λ halves. halves ≡ spec.with_tokens spec.set_half token groups.now) }
{
    let mut halves = List::with_capacity(alloc, groups.len())?;
    let mut next = token;
    for group in groups {
        halves.push_or_drop(set_half(alloc, next, group)?)?;
        next = sum(next, 1)?;
    }
    Ok(halves)
}

fn wait_deps(token: u64, deps: &[Dep], alloc: Global) -> Result<List<Dep>, AllocError>
    ensures { IfOk result (λ half. half ≡ map (λ (d : Dep). record d
        { from = track.Token token; s1 = signal; a1 = no_usages }) deps.now) }
{
    let mut half = List::with_capacity(alloc, deps.len())?;
    for dep in deps {
        half.push_or_drop(Dep {
            from: Track::Token(token),
            s1: signal_alone(),
            a1: Usages::NONE,
            ..*dep
        })?;
    }
    Ok(half)
}

fn wait_transitions(
    place: Place,
    list: &[Access],
    alloc: Global,
) -> Result<List<Access>, AllocError>
    ensures { IfOk result (λ half. half ≡ map (λ (a : Access). record a { place = place }) list.now) }
{
    let mut half = List::with_capacity(alloc, list.len())?;
    for access in list {
        half.push_or_drop(Access { place, ..*access })?;
    }
    Ok(half)
}

fn wait_half(alloc: Global, place: Place, token: u64, group: &Group) -> Result<Group, AllocError>
    ensures { IfOk result (λ half. half ≡ spec.wait_half place token group.now) }
{
    Ok(Group {
        step: group.step,
        place,
        deps: wait_deps(token, group.deps.as_slice(), alloc)?,
        transitions: wait_transitions(place, group.transitions.as_slice(), alloc)?,
        olds: group.olds.copy()?,
        transfer: group.transfer,
    })
}

/// The wait's halves of the groups, at the wait's place, each with a token of its own, from that token on.
pub fn wait_halves(
    alloc: Global,
    place: Place,
    token: u64,
    groups: &[Group],
) -> Result<List<Group>, AllocError>
    ensures { IfOk result (λ halves. halves ≡ spec.with_tokens (spec.wait_half place) token groups.now) }
{
    let mut halves = List::with_capacity(alloc, groups.len())?;
    let mut next = token;
    for group in groups {
        halves.push_or_drop(wait_half(alloc, place, next, group)?)?;
        next = sum(next, 1)?;
    }
    Ok(halves)
}
