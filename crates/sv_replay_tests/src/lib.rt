//! Tests of whole runs of the word `replay`: what threads that run beside each other bring about, and what no
//! clause says.
//!
//! - knows whole traces as texts, and runs of `sv_app`
//! - definitions: none: the tests are values
//! - used by nothing: it only tests
#![tactic(auto)]

#[cfg(test)]
mod crowd;
#[cfg(test)]
mod orders;
#[cfg(test)]
mod texts;
#[cfg(test)]
mod whole_run;
