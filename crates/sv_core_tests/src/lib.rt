//! Tests of the one-thread validator over whole traces: each event of a text is taken in, in the order of
//! the text and in other orders of its actors, and what is answered is compared with the text that is owed.
//!
//! - knows whole traces as texts
//! - definitions: none: the tests are values
//! - used by nothing: it only tests
#![tactic(auto)]

#[cfg(test)]
mod breadth;
#[cfg(test)]
mod driver;
#[cfg(test)]
mod events;
#[cfg(test)]
mod frames;
#[cfg(test)]
mod layouts;
#[cfg(test)]
mod lines;
#[cfg(test)]
mod passes;
#[cfg(test)]
mod queues;
#[cfg(test)]
mod reads;
#[cfg(test)]
mod rows;
#[cfg(test)]
mod spent;
#[cfg(test)]
mod unfinished;
