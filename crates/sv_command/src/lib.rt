//! The lowering of the commands that begin, go on in and end no render scope.
//!
//! - knows one command outside of every render scope
//! - definitions: `Recordings` and `Barriers` of `sv_model`
//! - used by `sv_record`
#![tactic(auto)]

ghost use Rattle.std.specs.Prelude.{◌≡◌, IfOk};
ghost use Rattle.sv_model.specs.declared.line.Trace.{Trace};
ghost use Rattle.sv_model.specs.Recordings.{Scope};
ghost use Rattle.sv_model.specs.Recordings as definition;
ghost use Rattle.sv_model.specs.Plain.{IsPlain};

mod accesses;
mod barriers;
mod groups;
#[cfg(test)]
mod tests;

use std::alloc::{AllocError, Global};
use sv_model::line::Command;
use sv_model::work::{Here, Step};
use sv_range::List;

/// The steps of a command that stands there, with relative queue, tokens and place
/// (Vulkan 1.3, "Command Buffer Recording").
///
/// A barrier gives a group for each of its elements, a set of an event the groups that a barrier of
/// the same elements would have.
///
/// The command begins, goes on in and ends no render scope, and it has what every such command of a
/// lawful trace has: at most 64 accesses or elements, and areas whose numbers fit. Whichever trace
/// and scope it stands in, the steps are those of the definition. Fails only for want of memory.
pub fn lower(alloc: Global, command: &Command, here: &Here) -> Result<List<Step>, AllocError>
    requires { IsPlain command.now }
    ensures { IfOk result (λ steps. (t : Trace) (scope : Scope) → steps
        ≡ definition.lower t here.now scope command.now) }
{
    let place = barriers::place_of(*here);
    let mut steps = List::new(alloc);
    let step = match command {
        Command::Work { accesses } => {
            Step::Accesses(accesses::accesses(alloc, accesses.as_slice(), *here)?)
        }
        Command::Barrier { deps } => Step::Groups(groups::groups(alloc, deps.as_slice(), *here)?),
        Command::SetEvent { event, deps } => Step::SetEvent {
            event: *event,
            place,
            groups: groups::groups(alloc, deps.as_slice(), *here)?,
        },
        Command::WaitEvent { event } => Step::WaitEvent {
            event: *event,
            place,
        },
        Command::ResetEvent { event } => Step::ResetEvent {
            event: *event,
            place,
        },
        _ => return Ok(steps),
    };
    steps.push_or_drop(step)?;
    Ok(steps)
}
