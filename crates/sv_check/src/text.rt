//! The trace of a text, or its refusal.
ghost use Rattle.std.specs.Prelude.{◌≡◌, ◌+◌, IfOk, map};
ghost use Rattle.sv_model.specs.Lawful.{IsLawful};
ghost use Rattle.sv_trace.specs.Text.{lines_of};
ghost use Rattle.sv_check.specs.Telling.{TakesBytes, Tells};

use crate::checker::Checker;
use std::alloc::Global;
use sv_model::line::Trace;
use sv_model::refusal::Fault;
use sv_trace::{cut_lines, read_line};

// One more line of the text.
#[tactic(auto, using(crate::proofs::LineByLine::line_taken, crate::proofs::LineByLine::line_refused))]
fn take_bytes(alloc: Global, checker: &mut Checker, bytes: &[u8], number: u64) -> Result<(), Fault>
    requires next { number ≡ checker.old.lines + 1 }
    ensures { TakesBytes checker.old bytes.now number checker.new result }
{
    match read_line(alloc, bytes, number) {
        Ok(line) => checker.take(line, number),
        Err(fault) => Err(fault),
    }
}

fn take_lines(alloc: Global, lines: &[&[u8]]) -> Result<Trace, Fault>
    ensures tells { Tells (map (λ x. x.now) lines.now) result }
    ensures lawful { IfOk result IsLawful }
{
    let mut checker = Checker::new(alloc);
    for (index, bytes) in lines.iter().enumerate() {
        if let Err(fault) = take_bytes(alloc, &mut checker, bytes, index as u64 + 1) {
            return Err(fault);
        }
    }
    checker.end()
}

/// The trace of a text, which is lawful, or the refusal of its least bad line.
pub fn read_text(alloc: Global, text: &[u8]) -> Result<Trace, Fault>
    ensures tells { Tells (lines_of text.now) result }
    ensures lawful { IfOk result IsLawful }
{
    match cut_lines(alloc, text) {
        Ok(lines) => take_lines(alloc, lines.as_slice()),
        Err(_) => Err(Fault::Memory),
    }
}
