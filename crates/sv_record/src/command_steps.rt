//! The steps of the next command of a recording, and the scope that it opens or ends.
ghost use Rattle.std.specs.Prelude.{ℕ, ◌≡◌, ◌+◌, ◌<◌, ◌^◌, ◌∷◌, IfOk, List, unwrap_or};
ghost use Rattle.sv_model.specs.declared.line.Command.{Command};
ghost use Rattle.sv_model.specs.declared.line.Trace.{Trace};
ghost use Rattle.sv_model.specs.Recordings as definition;
ghost use Rattle.sv_record.specs.Contexts.{CommandFits, OpenFits, StandsFor, subpass_after};

use crate::begin_steps::{begin_pass, begin_rendering};
use crate::passes::Passes;
use crate::scope::Open;
use crate::scope_steps::{end_pass, end_rendering, next_subpass};
use std::alloc::{AllocError, Global};
use sv_command::lower;
use sv_model::line::Command;
use sv_model::work::{Here, Step};
use sv_range::List;

/// The steps of a command that stands there, in that scope and subpass, with the scope after it. None where
/// that is the same, or its next subpass.
pub fn steps_of(
    alloc: Global,
    passes: &Passes,
    scope: &Open,
    subpass: u32,
    command: &Command,
    here: Here,
) -> Result<(Option<Open>, List<Step>), AllocError>
    requires command { CommandFits passes.now command.now }
    requires scope { OpenFits scope.now }
    requires subpass { subpass + 1 < 2 ^ 32 }
    requires room { here.step + 2 < 2 ^ 64 }
    ensures steps { IfOk result (λ given. (t : Trace) (s : definition.Scope) → t.passes ≡ passes.now
        → StandsFor t scope.now subpass s → given.1 ≡ definition.lower t here s command.now) }
    ensures scope { IfOk result (λ given. (t : Trace) (before : List Command) → t.passes ≡ passes.now
        → StandsFor t scope.now subpass (definition.scope_after before)
        → StandsFor t (unwrap_or given.0 scope.now) (subpass_after command.now subpass)
        (definition.scope_after (command.now ∷ before))) }
{
    match command {
        Command::BeginRendering { attachments } => {
            let (inside, loads) = begin_rendering(alloc, attachments, here)?;
            Ok((Some(inside), loads))
        }
        Command::EndRendering => {
            let stores = end_rendering(alloc, scope, here)?;
            Ok((Some(Open::Outside), stores))
        }
        Command::BeginPass { pass, views } => {
            let (begun, entry) = begin_pass(alloc, passes, *pass, views.as_slice(), here)?;
            Ok((Some(begun), entry))
        }
        Command::NextSubpass => {
            let inner = next_subpass(alloc, scope, subpass, here)?;
            Ok((None, inner))
        }
        Command::EndPass => {
            let exit = end_pass(alloc, scope, here)?;
            Ok((Some(Open::Outside), exit))
        }
        _ => {
            let steps = lower(alloc, command, &here)?;
            Ok((None, steps))
        }
    }
}
