//! The render pass that a line declares.
ghost use Rattle.std.specs.Prelude.{◌≡◌, option_map, option_and_then, slice_get};
ghost use Rattle.sv_lines.specs.Extents.{as_pass};
ghost use Rattle.sv_lines.specs.PassLines.{pass_or_empty};

use sv_model::line::{Line, PassAttachment, PassDep, PassUse};
use sv_range::List;

/// The attachments, subpasses and dependencies of a pass.
#[derive(Clone, Copy)]
pub struct Pass<'a> {
    pub attachments: &'a [PassAttachment],
    pub subpasses: &'a [List<PassUse>],
    pub deps: &'a [PassDep],
}

/// The line at a place.
pub fn line_at(lines: &[Line], place: Option<usize>) -> Option<&Line>
    ensures { option_map (λ l. l.now) result ≡ option_and_then (slice_get lines.now) place }
{
    match place {
        Some(place) => lines.get(place),
        None => None,
    }
}

/// The pass that a line declares, or one without anything.
pub fn pass_of(line: Option<&Line>) -> Pass<'_>
    ensures { as_pass result ≡ pass_or_empty (option_map (λ l. l.now) line.entry) }
{
    match line {
        Some(
            Line::RenderPass {
                attachments,
                subpasses,
                deps,
                ..
            },
        ) => Pass {
            attachments: attachments.as_slice(),
            subpasses: subpasses.as_slice(),
            deps: deps.as_slice(),
        },
        _ => Pass {
            attachments: &[],
            subpasses: &[],
            deps: &[],
        },
    }
}
