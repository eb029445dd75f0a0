//! The rules of a trace, computed on worked rows.
//!
//! - knows the rules alone
//! - definitions: `Lines`, `Rows`: what is computed
//! - used by nothing: it only computes
#![tactic(auto)]

ghost use Rattle.sv_rule_examples.specs.Rows.{Rows};

/// What the definitions say of small texts: for each of the refusals 5 to 14 a line that is refused for it
/// after the lines before, and next to it a line that is not. The expected causes were written by hand.
pub fn rows()
    ensures { Rows }
{}
