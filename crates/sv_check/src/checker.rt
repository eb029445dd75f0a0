//! The lines taken so far, whose trace is lawful.
ghost use Rattle.std.specs.Prelude.{◌≡◌, ◌+◌, IfOk};
ghost use Rattle.sv_model.specs.Lawful.{IsLawful};
ghost use Rattle.sv_trace.specs.Formed.{IsFormed};
ghost use Rattle.sv_rules.specs.Causes.{Takes};
ghost use Rattle.sv_rules.specs.Ends.{EndsWith};
ghost use Rattle.sv_rules.specs.Taken.{nothing_taken};

use crate::rules::take_line;
use std::alloc::Global;
use std::marker::Model;
use sv_lines::TakenLines;
use sv_model::line::{Line, Trace};
use sv_model::refusal::Fault;

/// The trace that the lines so far make, which is lawful but for recordings that are open, and what its
/// rules ask of the next line. Contracts see how many lines there are, whether one of them is not blank,
/// and the trace.
#[derive(Drop)]
pub struct Checker {
    alloc: Global,
    taken: TakenLines,
}

impl Model for Checker {
    ghost use Rattle.sv_rules.specs.SoFar.{IsLawfulSoFar};
    ghost use Rattle.sv_rules.specs.Taken.{Taken};

    ghost Value = { Taken };

    ghost view = { λ it. it.taken };

    ghost invariant = { λ it. IsLawfulSoFar it.taken.lines it.taken.trace };
}

impl Checker {
    /// No line yet. Takes no memory.
    #[tactic(auto, using(sv_rules::proofs::Whole::before_any))]
    pub fn new(alloc: Global) -> Checker
        ensures { result ≡ nothing_taken }
    {
        Checker {
            alloc,
            taken: TakenLines::new(alloc),
        }
    }

    /// Takes the next line, which is the line of that number, counted from 1.
    ///
    /// Refused is the line for the least of the refusals 5 to 14 whose sentence holds of it over the lines
    /// before. After a fault the checker is as before.
    #[tactic(auto, using(sv_rules::proofs::EachStep::taken_keeps))]
    pub fn take(&mut self, line: Line, number: u64) -> Result<(), Fault>
        requires next { number ≡ self.old.lines + 1 }
        requires formed { IsFormed line }
        ensures { Takes self.old line number self.new result }
    {
        take_line(self.alloc, &mut self.taken, line, number)
    }

    /// The trace that the lines make, which is lawful. Where a recording is open, the line after the last
    /// one is refused.
    #[tactic(auto, using(sv_rules::proofs::Whole::answer_lawful))]
    pub fn end(self) -> Result<Trace, Fault>
        ensures ends { EndsWith self result }
        ensures lawful { IfOk result IsLawful }
    {
        self.taken.end()
    }
}
