//! The definitions of the work and of notes, computed on worked rows.
//!
//! - knows the definitions alone
//! - definitions: `Traces`, `Steps`, `Notes`, `Rows`: what is computed
//! - used by nothing: it only computes
#![tactic(auto)]

ghost use Rattle.sv_examples.specs.Notes.{NoteRows};
ghost use Rattle.sv_examples.specs.Rows.{Rows};

/// The steps that the definitions give on small traces: two queues with a semaphore, a wait that
/// comes first, an event, a render pass with implicit dependencies, one with two subpasses, dynamic
/// rendering, a release and its acquire, a recording that is submitted twice, sparse numbers, held
/// calls, a host wait for a fence. The expected steps were written by hand.
pub fn rows()
    ensures { Rows }
{}

/// The notes that the definitions give on small traces: images in and out of their layouts, three
/// elements one after another, two mips, a release without its acquire alone and behind a report, waits
/// for an event that is unset or set elsewhere, a signal that does not raise, a fence signalled twice.
/// The expected notes were written by hand.
pub fn notes()
    ensures { NoteRows }
{}
