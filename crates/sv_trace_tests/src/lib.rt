//! Lines that are refused, with their numbers, and a line of each op with what it says, and the examples of
//! the document.
//!
//! - knows lines as texts
//! - definitions: none: the tests are values
//! - used by nothing: it only tests
#![tactic(auto)]

#[cfg(test)]
mod documented;
#[cfg(test)]
mod refusals;
#[cfg(test)]
mod values;
