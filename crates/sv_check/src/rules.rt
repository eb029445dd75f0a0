//! Why a line is refused: the least of the refusals 5 to 14 whose sentence holds.
ghost use Rattle.std.specs.Prelude.{◌≡◌, ◌+◌};
ghost use Rattle.sv_rules.specs.Causes as spec;
ghost use Rattle.sv_rules.specs.PartRules.{is_out_of_resource, is_empty};
ghost use Rattle.sv_rules.specs.Places.{has_unclear_use};
ghost use Rattle.sv_rules.specs.Causes.{Takes};
ghost use Rattle.sv_trace.specs.Formed.{IsFormed};

use crate::calls::{is_of_another_lane, is_of_wrong_kind};
use crate::layouts::has_unclear_use;
use crate::limits::passed_limit;
use crate::masks::is_without_stage;
use crate::named::{is_declared_twice, is_undeclared};
use crate::part_rule::PartRule;
use crate::parts::some_part;
use crate::places::is_misplaced;
use crate::self_dependencies::is_without_self_dependency;
use std::alloc::Global;
use sv_lines::TakenLines;
use sv_model::line::Line;
use sv_model::refusal::{Cause, Fault, Refusal};

#[tactic(auto, unfolding(sv_rules::specs::PartRules::is_out_of_resource))]
fn is_out_of_resource(taken: &TakenLines, line: &Line) -> bool
    ensures { result ≡ is_out_of_resource taken.now.trace line.now }
{
    some_part(taken, PartRule::Outside, line)
}

#[tactic(auto, unfolding(sv_rules::specs::PartRules::is_empty))]
fn is_empty(taken: &TakenLines, line: &Line) -> bool
    ensures { result ≡ is_empty line.now }
{
    some_part(taken, PartRule::Empty, line)
}

/// The cause of the least number, without the limits.
#[tactic(auto, unfolding(sv_rules::specs::Causes::broken_rule))]
fn broken_rule(taken: &TakenLines, line: &Line, unclear: bool) -> Option<Cause>
    requires { unclear ≡ has_unclear_use line.now }
    ensures { result ≡ spec.broken_rule taken.now line.now }
{
    if is_undeclared(taken, line) {
        Some(Cause::Undeclared)
    } else if is_declared_twice(taken, line) {
        Some(Cause::DeclaredTwice)
    } else if is_out_of_resource(taken, line) {
        Some(Cause::OutOfResource)
    } else if is_empty(taken, line) {
        Some(Cause::Empty)
    } else if is_without_stage(line) {
        Some(Cause::AccessWithoutStage)
    } else if is_misplaced(taken, line, unclear) {
        Some(Cause::WrongPlace)
    } else if is_without_self_dependency(taken, line) {
        Some(Cause::NoSelfDependency)
    } else if is_of_another_lane(taken, line) {
        Some(Cause::QueueOfAnotherLane)
    } else if is_of_wrong_kind(taken, line) {
        Some(Cause::SemaphoreKind)
    } else {
        None
    }
}

/// The cause of the least number. `unclear` says whether the line has an unclear use of an attachment.
#[tactic(auto, unfolding(sv_rules::specs::Causes::rule_cause))]
fn rule_cause(taken: &TakenLines, line: &Line, unclear: bool) -> Option<Cause>
    requires { unclear ≡ has_unclear_use line.now }
    ensures { result ≡ spec.rule_cause taken.now line.now }
{
    match broken_rule(taken, line, unclear) {
        Some(cause) => Some(cause),
        None => passed_limit(taken, line),
    }
}

/// Takes the next line, which is the line of that number, or says why it is refused. After a fault the lines
/// are as before.
pub fn take_line(
    alloc: Global,
    taken: &mut TakenLines,
    line: Line,
    number: u64,
) -> Result<(), Fault>
    requires next { number ≡ taken.old.lines + 1 }
    requires formed { IsFormed line }
    ensures { Takes taken.old line number taken.new result }
{
    let Ok(unclear) = has_unclear_use(alloc, &line) else {
        return Err(Fault::Memory);
    };
    if let Some(cause) = rule_cause(taken, &line, unclear) {
        return Err(Fault::Refused(Refusal {
            line: number,
            cause,
        }));
    }
    match taken.keep_line(line) {
        Ok(()) => Ok(()),
        Err(_) => Err(Fault::Memory),
    }
}
