//! The rules of a trace: whether a line may come after the lines before it, and the trace that the lines
//! make.
//!
//! - knows one line, and what the tables of the lines so far say
//! - definitions: those of `sv_rules`; `Breaks`, `Telling`
//! - used by `sv_app`
#![tactic(auto)]

mod calls;
mod checker;
mod layouts;
mod limits;
mod masks;
mod named;
mod part_rule;
mod parts;
mod places;
mod rules;
mod self_dependencies;
#[cfg(test)]
mod tests;
mod text;
#[cfg(test)]
mod text_tests;

pub use checker::Checker;
pub use text::read_text;
