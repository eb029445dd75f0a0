//! Laws of states. Each function does nothing: its contract is the law.
ghost use Rattle.sv_state.specs.Outlines.{FullAreQuiet};

/// Dependencies of outlines add nothing where all that these may give is reached.
pub fn full_are_quiet()
    ensures { FullAreQuiet }
{}
