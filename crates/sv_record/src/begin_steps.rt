//! The steps of the commands that begin a render scope, and of those that stand in one or outside.
ghost use Rattle.std.specs.Prelude.{ℕ, ◌≡◌, ◌≤◌, ◌+◌, ◌<◌, ◌^◌, All, IfOk, length};
ghost use Rattle.sv_model.specs.declared.line.Trace.{Trace};
ghost use Rattle.sv_model.specs.declared.line.Command.TheVariants as command;
ghost use Rattle.sv_model.specs.Recordings as definition;
ghost use Rattle.sv_model.specs.Plain.{AttachmentFits, ViewFits};
ghost use Rattle.sv_pass.specs.Begun.{pass_in};
ghost use Rattle.sv_record.specs.Contexts.{StandsFor};

use crate::passes::Passes;
use crate::scope::Open;
use std::alloc::{AllocError, Global};
use sv_model::line::{Attachment, View};
use sv_model::work::{Here, PassPoint, Step};
use sv_pass::pass::OpenPass;
use sv_range::{Duplicate, List};
use sv_rendering::lower_rendering;

/// The scope that the begin of dynamic rendering opens, with its steps.
pub fn begin_rendering(
    alloc: Global,
    attachments: &List<Attachment>,
    here: Here,
) -> Result<(Open, List<Step>), AllocError>
    requires few { length attachments.now ≤ 16 }
    requires fit { All AttachmentFits attachments.now }
    ensures scope { IfOk result (λ begun. (t : Trace)
        → StandsFor t begun.0 0 (definition.InRendering attachments.now)) }
    ensures steps { IfOk result (λ begun. (t : Trace) (s : definition.Scope) → begun.1
        ≡ definition.lower t here s (command.BeginRendering attachments.now)) }
{
    let loads = lower_rendering(alloc, attachments.as_slice(), false, &here)?;
    let kept = attachments.copy()?;
    Ok((Open::Rendering(kept), loads))
}

/// The scope that the begin of a pass opens, with its steps. The passes are the trace's.
pub fn begin_pass(
    alloc: Global,
    passes: &Passes,
    pass: u32,
    views: &[View],
    here: Here,
) -> Result<(Open, List<Step>), AllocError>
    requires few { length (pass_in passes.now pass).attachments ≤ 16 }
    requires bounded { length (pass_in passes.now pass).subpasses ≤ 32 }
    requires count { length views.now ≡ length (pass_in passes.now pass).attachments }
    requires fit { All ViewFits views.now }
    requires room { here.step + 2 < 2 ^ 64 }
    ensures scope { IfOk result (λ begun. (t : Trace) → t.passes ≡ passes.now
        → StandsFor t begun.0 0 (definition.InPass pass views.now 0)) }
    ensures steps { IfOk result (λ begun. (t : Trace) (s : definition.Scope) → t.passes ≡ passes.now
        → begun.1 ≡ definition.lower t here s (command.BeginPass pass views.now)) }
{
    let declaring = passes.find(pass);
    let begun = OpenPass::begin(alloc, declaring, pass, views)?;
    let steps = begun.steps(alloc, PassPoint::Begin, here)?;
    Ok((Open::Pass(begun), steps))
}
