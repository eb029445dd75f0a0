//! The steps of a lawful trace lie inside its resources, and without render scopes they are few accesses
//! each. Each function does nothing: its contract is the law.
//!
//! - knows the steps of a lawful trace, and no code
//! - definitions: `Steps`; `Laws` and `Bounded` are laws
//! - used by `sv_replies`
#![tactic(auto)]

ghost use Rattle.sv_step_laws.specs.Bounded.{LawfulWorksAreBounded};
ghost use Rattle.sv_step_laws.specs.Laws.{LawfulStepsAreInside, NumberedStepsAreNext};
ghost use Rattle.sv_step_laws.specs.Laws.{ReportedCellsAreDeclared};

/// The steps of a recording of a lawful trace lie inside its resources: accesses, ranges, transitions,
/// pairs of layouts and transfers, and each range of a group holds the areas of its transitions.
pub fn lawful_steps_are_inside()
    ensures { LawfulStepsAreInside }
{}

/// A numbered step has its number, and its accesses and transitions their positions.
pub fn numbered_steps_are_next()
    ensures { NumberedStepsAreNext }
{}

/// In a lawful trace without render scopes no access of a work is in a subpass, each is on a declared queue,
/// and no step has more than 64 on one cell.
pub fn lawful_works_are_bounded()
    ensures { LawfulWorksAreBounded }
{}

/// Where steps lie inside the resources of a trace, each report is on a cell that the trace declares: a byte
/// below the size of a buffer, or a mip and a layer that an image has.
pub fn reported_cells_are_declared()
    ensures { ReportedCellsAreDeclared }
{}
