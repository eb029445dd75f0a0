//! The steps of a recording in a batch: queue, instances and places are bound (Vulkan 1.3, "Command Buffer
//! Submission").
ghost use Rattle.std.specs.Prelude.{ℕ, ◌≡◌, ◌+◌, IfOk, map, option_map};
ghost use Rattle.sv_model.specs.Places as spec;
ghost use Rattle.sv_binding.specs.Runs.{run_for};

use crate::run::Run;
use crate::sums::sum;
use std::alloc::{AllocError, Global};
use sv_model::work::{Access, Dep, Group, Place, Track};
use sv_range::{Duplicate, List};

/// The place of a command of the recording that runs there.
pub fn bind_place(run: Run, place: Place) -> Place
    ensures { result ≡ spec.bind_place (run_for 0 run) place }
{
    Place {
        event: run.event,
        batch: run.batch,
        slot: run.slot,
        ..place
    }
}

fn bind_track(run: Run, track: Track) -> Result<Track, AllocError>
    ensures { IfOk result (λ bound. bound ≡ spec.bind_track (run_for 0 run) track) }
{
    match track {
        Track::Queue(_) => Ok(Track::Queue(run.queue)),
        Track::Sub {
            instance,
            subpass,
            ..
        } => {
            let instance = sum(run.instance, instance)?;
            Ok(Track::Sub {
                queue: run.queue,
                instance,
                subpass,
            })
        }
        Track::Token(token) => Ok(Track::Token(token)),
    }
}

fn bind_sub(run: Run, sub: Option<(u64, u32)>) -> Result<Option<(u64, u32)>, AllocError>
    ensures { IfOk result (λ bound. bound ≡ option_map (λ (s : ℕ × ℕ). (run.instance + s.0, s.1)) sub) }
{
    match sub {
        None => Ok(None),
        Some((instance, subpass)) => {
            let instance = sum(run.instance, instance)?;
            Ok(Some((instance, subpass)))
        }
    }
}

fn bind_access(run: Run, access: Access) -> Result<Access, AllocError>
    ensures { IfOk result (λ bound. bound ≡ spec.bind_access (run_for 0 run) access) }
{
    let sub = bind_sub(run, access.sub)?;
    Ok(Access {
        queue: run.queue,
        sub,
        place: bind_place(run, access.place),
        ..access
    })
}

/// The accesses of the recording that runs there.
pub fn bind_accesses(
    alloc: Global,
    run: Run,
    accesses: &[Access],
) -> Result<List<Access>, AllocError>
    ensures { IfOk result (λ bound. bound ≡ map (spec.bind_access (run_for 0 run)) accesses.now) }
{
    let mut bound = List::with_capacity(alloc, accesses.len())?;
    for access in accesses {
        bound.push_or_drop(bind_access(run, *access)?)?;
    }
    Ok(bound)
}

fn bind_dep(run: Run, dep: Dep) -> Result<Dep, AllocError>
    ensures { IfOk result (λ bound. bound ≡ spec.bind_dep (run_for 0 run) dep) }
{
    let from = bind_track(run, dep.from)?;
    let to = bind_track(run, dep.to)?;
    Ok(Dep { from, to, ..dep })
}

fn bind_deps(alloc: Global, run: Run, deps: &[Dep]) -> Result<List<Dep>, AllocError>
    ensures { IfOk result (λ bound. bound ≡ map (spec.bind_dep (run_for 0 run)) deps.now) }
{
    let mut bound = List::with_capacity(alloc, deps.len())?;
    for dep in deps {
        bound.push_or_drop(bind_dep(run, *dep)?)?;
    }
    Ok(bound)
}

fn bind_group(alloc: Global, run: Run, group: &Group) -> Result<Group, AllocError>
    ensures { IfOk result (λ bound. bound ≡ spec.bind_group (run_for 0 run) group.now) }
{
    Ok(Group {
        step: group.step,
        place: bind_place(run, group.place),
        deps: bind_deps(alloc, run, group.deps.as_slice())?,
        transitions: bind_accesses(alloc, run, group.transitions.as_slice())?,
        olds: group.olds.copy()?,
        transfer: group.transfer,
    })
}

/// The groups of the recording that runs there.
pub fn bind_groups(alloc: Global, run: Run, groups: &[Group]) -> Result<List<Group>, AllocError>
    ensures { IfOk result (λ bound. bound ≡ map (spec.bind_group (run_for 0 run)) groups.now) }
{
    let mut bound = List::with_capacity(alloc, groups.len())?;
    for group in groups {
        bound.push_or_drop(bind_group(alloc, run, group)?)?;
    }
    Ok(bound)
}
