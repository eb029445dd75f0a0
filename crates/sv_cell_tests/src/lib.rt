//! Tests of the crates that keep something for each cell: lines of pieces, states, runs, maps of cells,
//! layouts, owners and the space.
//!
//! - knows cells, and no text
//! - definitions: `Standing`, `Found`, `OnMap`, `NextSteps`
//! - used by nothing: it only tests
#![tactic(auto)]

#[cfg(test)]
mod acts;
#[cfg(test)]
mod areas;
#[cfg(test)]
mod cells;
#[cfg(test)]
mod inside;
#[cfg(test)]
mod layouts;
#[cfg(test)]
mod maps;
#[cfg(test)]
mod number;
#[cfg(test)]
mod owners;
#[cfg(test)]
mod ranges;
#[cfg(test)]
mod runs;
#[cfg(test)]
mod spaces;
#[cfg(test)]
mod states;
#[cfg(test)]
mod texts;
