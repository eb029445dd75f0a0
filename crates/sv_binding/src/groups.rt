//! Groups that no command stands for: of semaphores, fences and host waits (Vulkan 1.3, "Semaphores",
//! "Fences").
ghost use Rattle.std.specs.Prelude.{ℕ, ◌≡◌, IfOk, map};
ghost use Rattle.std.specs.List.{flat_map};
ghost use Rattle.sv_mask.specs.Scopes as scopes;
ghost use Rattle.sv_model.specs.Semaphores.{signal_scope};
ghost use Rattle.sv_model.specs.Declarations.{queues_of, queue_number};
ghost use Rattle.sv_model.specs.HostWaits as calls;
ghost use Rattle.sv_model.specs.QueueGroups as spec;
ghost use Rattle.sv_model.specs.declared.work.Track.TheVariants as track;
ghost use Rattle.sv_binding.specs.Runs.{run_for};

use crate::run::Run;
use std::alloc::{AllocError, Global};
use sv_expand::{first_sync, names_all};
use sv_mask::{StageWord, Stages, Usages};
use sv_model::line::Line;
use sv_model::work::{Dep, Group, Place, Track};
use sv_range::List;

/// The pseudo stage `signal` alone.
pub fn signal_alone() -> Stages
    ensures { result ≡ scopes.signal }
{
    Stages::SIGNAL
}

/// All plain stages but that of the host.
pub fn device_stages() -> Stages
    ensures { result ≡ scopes.device_stages }
{
    Stages(0xffff)
}

/// All usages but those of the host.
pub fn device_usages() -> Usages
    ensures { result ≡ scopes.device_usages }
{
    Usages(0x1ff_ffff_ffff)
}

/// What a semaphore signal with that mask covers.
pub fn signal_scope(word: StageWord) -> Stages
    ensures { result ≡ signal_scope word }
{
    if names_all(word) {
        first_sync(word).with_signal()
    } else {
        first_sync(word)
    }
}

/// The place of what the batch or the call does by itself.
pub fn place_in(run: Run) -> Place
    ensures { result ≡ spec.place_in (run_for 0 run) }
{
    Place {
        event: run.event,
        batch: run.batch,
        slot: 0,
        rec: 0,
        cmd: 0,
    }
}

/// The scopes of a dependency on one side.
#[derive(Clone, Copy)]
pub struct Side {
    pub track: Track,
    pub stages: Stages,
    pub usages: Usages,
}

/// The group of one dependency.
pub fn group_from(alloc: Global, place: Place, from: Side, to: Side) -> Result<Group, AllocError>
    ensures { IfOk result (λ group. group ≡ spec.group_from place from.track from.stages from.usages
        to.track to.stages to.usages) }
{
    let mut deps = List::new(alloc);
    deps.push_or_drop(Dep {
        from: from.track,
        s1: from.stages,
        a1: from.usages,
        to: to.track,
        s2: to.stages,
        a2: to.usages,
        range: None,
    })?;
    Ok(Group {
        step: 0,
        place,
        deps,
        transitions: List::new(alloc),
        olds: List::new(alloc),
        transfer: None,
    })
}

/// From a token to the later commands of a queue.
pub fn from_token(alloc: Global, place: Place, token: u64, to: Side) -> Result<Group, AllocError>
    ensures { IfOk result (λ group. group ≡ spec.group_from place
        (track.Token token) scopes.signal scopes.no_usages to.track to.stages to.usages) }
{
    let from = Side {
        track: Track::Token(token),
        stages: signal_alone(),
        usages: Usages::NONE,
    };
    group_from(alloc, place, from, to)
}

/// From the earlier commands of a queue to a token.
pub fn to_token(alloc: Global, place: Place, from: Side, token: u64) -> Result<Group, AllocError>
    ensures { IfOk result (λ group. group ≡ spec.group_from place from.track from.stages from.usages
        (track.Token token) scopes.signal scopes.no_usages) }
{
    let to = Side {
        track: Track::Token(token),
        stages: signal_alone(),
        usages: Usages::NONE,
    };
    group_from(alloc, place, from, to)
}

/// The number of the queue that the line declares.
pub fn queue_number(line: &Line) -> Option<u32>
    ensures { result ≡ queue_number line.now }
{
    match line {
        Line::Queue { queue, .. } => Some(*queue),
        _ => None,
    }
}

/// The device side of a queue.
pub fn device_side(queue: u32) -> Side
    ensures { result ≡ record {
      track = track.Queue queue;
      stages = scopes.device_stages;
      usages = scopes.device_usages;
    } }
{
    Side {
        track: Track::Queue(queue),
        stages: device_stages(),
        usages: device_usages(),
    }
}
