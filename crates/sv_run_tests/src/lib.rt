//! Tests of whole runs, from words and bytes to a status, what is written and what a listener hears: worked
//! texts, the words, faults of the source and the sink, hostile texts, and texts at the last values of the
//! format.
//!
//! - knows whole traces as texts, and runs of `sv_app`
//! - definitions: none: the tests are values
//! - used by nothing: it only tests
#![tactic(auto)]

#[cfg(test)]
mod answers;
#[cfg(test)]
mod cuts;
#[cfg(test)]
mod faults;
#[cfg(test)]
mod hostile;
#[cfg(test)]
mod lines;
#[cfg(test)]
mod runs;
#[cfg(test)]
mod texts;
