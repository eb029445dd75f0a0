//! The actors of a trace, and the lengths of their scripts.
ghost use Rattle.std.specs.Prelude.{◌≡◌, ◌≤◌, ◌==◌, ◌++◌, ◌∷◌, [], IfOk, OnOk, if◌then◌else◌, length};
ghost use Rattle.sv_model.specs.Lawful.{IsLawful};
ghost use Rattle.sv_device.specs.Actors.{actors_of, script_of, with_events};
ghost use Rattle.sv_device.specs.declared.who.Who.TheVariants as who;

use crate::who::Who;
use std::alloc::{AllocError, Global};
use sv_model::line::{Line, Trace};
use sv_range::List;

// Adds the actor, unless its script has no events.
fn push_actor(actors: &mut List<Who>, actor: Who, events: usize) -> Result<(), AllocError>
    ensures { OnOk result (actors.new ≡ actors.old ++ (if events == 0 then [] else actor ∷ [])) }
{
    if events == 0 {
        return Ok(());
    }
    actors.push_or_drop(actor)
}

// Adds the lanes that have calls.
fn push_lanes(scripts: &[List<Line>], actors: &mut List<Who>) -> Result<(), AllocError>
    requires { length scripts.now ≤ 16 }
    ensures { OnOk result (actors.new ≡ actors.old ++ with_events who.Lane 0 scripts.now) }
{
    let mut lane = 0u32;
    for script in scripts {
        push_actor(actors, Who::Lane(lane), script.len())?;
        lane += 1;
    }
    Ok(())
}

// Adds the recorders that have recordings.
fn push_recorders(scripts: &[List<u32>], actors: &mut List<Who>) -> Result<(), AllocError>
    requires { length scripts.now ≤ 16 }
    ensures { OnOk result (actors.new ≡ actors.old ++ with_events who.Recorder 0 scripts.now) }
{
    let mut recorder = 0u32;
    for script in scripts {
        push_actor(actors, Who::Recorder(recorder), script.len())?;
        recorder += 1;
    }
    Ok(())
}

/// An actor for each script of a lawful trace that is not empty, lanes by number and then recorders by
/// number. Fails only for want of memory.
pub fn actors(alloc: Global, trace: &Trace) -> Result<List<Who>, AllocError>
    requires { IsLawful trace.now }
    ensures actors { IfOk result (λ list. list ≡ actors_of trace.now) }
    ensures few { IfOk result (λ list. length list ≤ 32) }
{
    let mut actors = List::new(alloc);
    push_lanes(trace.lane_scripts.as_slice(), &mut actors)?;
    push_recorders(trace.recorder_scripts.as_slice(), &mut actors)?;
    Ok(actors)
}

/// The length of an actor's script.
pub fn script_length(trace: &Trace, who: Who) -> u32
    requires { IsLawful trace.now }
    ensures { result ≡ length (script_of trace.now who) }
{
    match who {
        Who::Lane(lane) => match trace.lane_scripts.as_slice().get(lane as usize) {
            Some(script) => script.len() as u32,
            None => 0,
        },
        Who::Recorder(recorder) => match trace.recorder_scripts.as_slice().get(recorder as usize) {
            Some(script) => script.len() as u32,
            None => 0,
        },
    }
}
