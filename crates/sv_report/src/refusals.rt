//! The line of a refused trace.
ghost use Rattle.std.specs.Prelude.{◌≡◌, ◌++◌, OnOk, IfOk, string_bytes};
ghost use Rattle.sv_report.specs.Lines.{limit_text, cause_text, refusal_line};

use std::alloc::{AllocError, Global};
use sv_model::refusal::{Cause, LimitName, Refusal};
use sv_range::List;

fn limit_word(name: LimitName) -> &'static str
    ensures { result.now ≡ limit_text name }
{
    match name {
        LimitName::Lines => "lines",
        LimitName::Accesses => "accesses",
        LimitName::Deps => "deps",
        LimitName::Subpasses => "subpasses",
        LimitName::Uses => "uses",
        LimitName::Attachments => "attachments",
        LimitName::Batches => "batches",
        LimitName::Recs => "recs",
        LimitName::Waits => "waits",
        LimitName::Signals => "signals",
        LimitName::Size => "size",
    }
}

fn push_cause(text: &mut String, cause: Cause) -> Result<(), AllocError>
    ensures { OnOk result (string_bytes text.new ≡ string_bytes text.old ++ cause_text cause) }
{
    match cause {
        Cause::BadJson => text.push_str("1 BadJson"),
        Cause::BadShape => text.push_str("2 BadShape"),
        Cause::UnknownName => text.push_str("3 UnknownName"),
        Cause::Range => text.push_str("4 Range"),
        Cause::Undeclared => text.push_str("5 Undeclared"),
        Cause::DeclaredTwice => text.push_str("6 DeclaredTwice"),
        Cause::OutOfResource => text.push_str("7 OutOfResource"),
        Cause::Empty => text.push_str("8 Empty"),
        Cause::AccessWithoutStage => text.push_str("9 AccessWithoutStage"),
        Cause::WrongPlace => text.push_str("10 WrongPlace"),
        Cause::NoSelfDependency => text.push_str("11 NoSelfDependency"),
        Cause::QueueOfAnotherLane => text.push_str("12 QueueOfAnotherLane"),
        Cause::SemaphoreKind => text.push_str("13 SemaphoreKind"),
        Cause::Limit { name, number } => {
            let name = limit_word(name);
            write!(text, "14 Limit {name} {number}")
        }
        Cause::Unfinished => text.push_str("15 Unfinished"),
    }
}

/// Appends the one line of a refused trace.
#[tactic(auto, unfolding(crate::specs::Lines::refusal_line))]
pub fn push_refusal(text: &mut String, refusal: &Refusal) -> Result<(), AllocError>
    ensures { OnOk result (string_bytes text.new ≡ string_bytes text.old ++ refusal_line refusal.now) }
{
    let line = refusal.line;
    write!(text, "line {line} refused ")?;
    push_cause(text, refusal.cause)?;
    text.push_str("\n")
}

/// The one line of a refused trace, as bytes.
pub fn refusal_text(alloc: Global, refusal: &Refusal) -> Result<List<u8>, AllocError>
    ensures { IfOk result (λ text. text ≡ refusal_line refusal.now) }
{
    let mut text = String::new(alloc);
    push_refusal(&mut text, refusal)?;
    Ok(List::from_vec(text.into_bytes()))
}
