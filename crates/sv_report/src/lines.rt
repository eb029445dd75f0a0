//! The lines of events and their replies, and the total.
ghost use Rattle.std.specs.Prelude.{◌≡◌, ◌++◌, OnOk, string_bytes};
ghost use Rattle.sv_report.specs.Lines.{publish_line, call_text, call_line, report_line, count_text};
ghost use Rattle.sv_report.specs.Lines.{counts_text, total_line};

use crate::pieces::{kind_word, push_access, push_area};
use std::alloc::AllocError;
use sv_model::line::Line;
use sv_model::work::Report;

/// Appends the line of an event that publishes a recording.
#[tactic(auto, unfolding(crate::specs::Lines::publish_line))]
pub fn push_publish(
    text: &mut String,
    event: u64,
    recorder: u32,
    rec: u32,
) -> Result<(), AllocError>
    ensures { OnOk result (string_bytes text.new ≡ string_bytes text.old ++ publish_line event recorder rec) }
{
    writeln!(text, "event {event} recorder {recorder} publish rec {rec}")
}

// What a call is named. Other lines are no calls.
fn push_call_name(text: &mut String, call: &Line) -> Result<(), AllocError>
    ensures { OnOk result (string_bytes text.new ≡ string_bytes text.old ++ call_text call.now) }
{
    match call {
        Line::Submit { queue, .. } => write!(text, "submit queue {queue}"),
        Line::WaitFence { fence, .. } => write!(text, "wait_fence fence {fence}"),
        Line::ResetFence { fence, .. } => write!(text, "reset_fence fence {fence}"),
        Line::WaitQueue { queue, .. } => write!(text, "wait_queue queue {queue}"),
        Line::WaitDevice { .. } => text.push_str("wait_device"),
        _ => Ok(()),
    }
}

/// Appends the line of an event that is a lane's call.
#[tactic(auto, unfolding(crate::specs::Lines::call_line))]
pub fn push_call(
    text: &mut String,
    event: u64,
    lane: u32,
    index: u32,
    call: &Line,
) -> Result<(), AllocError>
    ensures { OnOk result (string_bytes text.new ≡ string_bytes text.old
        ++ call_line event lane index call.now) }
{
    write!(text, "event {event} lane {lane} call {index} ")?;
    push_call_name(text, call)?;
    text.push_str("\n")
}

/// Appends the line of a report.
#[tactic(auto, unfolding(crate::specs::Lines::report_line))]
pub fn push_report(text: &mut String, report: &Report) -> Result<(), AllocError>
    ensures { OnOk result (string_bytes text.new ≡ string_bytes text.old ++ report_line report.now) }
{
    let kind = kind_word(report.kind);
    write!(text, "  {kind} ")?;
    push_area(text, report.area)?;
    text.push_str(" ")?;
    push_access(text, &report.later)?;
    text.push_str(" after ")?;
    push_access(text, &report.earlier)?;
    text.push_str("\n")
}

/// Appends how many there are of what the word names.
#[tactic(auto, unfolding(crate::specs::Lines::count_text))]
pub fn push_count(text: &mut String, word: &str, count: u128) -> Result<(), AllocError>
    ensures { OnOk result (string_bytes text.new ≡ string_bytes text.old ++ count_text word.now count) }
{
    write!(text, " {word} {count}")
}

/// Appends how many events there are, and how many lines of reports, notes and held items, and ends the line.
/// The counts are wide, since they are sums over lists of any length.
#[tactic(auto, unfolding(crate::specs::Lines::counts_text))]
pub fn push_counts(
    text: &mut String,
    events: u128,
    reports: u128,
    notes: u128,
    held: u128,
) -> Result<(), AllocError>
    ensures { OnOk result (string_bytes text.new ≡ string_bytes text.old
        ++ counts_text events reports notes held) }
{
    push_count(text, "events", events)?;
    push_count(text, "reports", reports)?;
    push_count(text, "notes", notes)?;
    push_count(text, "held", held)?;
    text.push_str("\n")
}

/// Appends the last line, with the counts.
#[tactic(auto, unfolding(crate::specs::Lines::total_line))]
pub fn push_total(
    text: &mut String,
    events: u128,
    reports: u128,
    notes: u128,
    held: u128,
) -> Result<(), AllocError>
    ensures { OnOk result (string_bytes text.new ≡ string_bytes text.old
        ++ total_line events reports notes held) }
{
    text.push_str("total")?;
    push_counts(text, events, reports, notes, held)
}
