//! The line of `bench`.
ghost use Rattle.std.specs.Prelude.{◌≡◌, [], ◌≤◌, IfOk, length};
ghost use Rattle.sv_model.specs.History.{IsWhole};
ghost use Rattle.sv_model.specs.Lawful.{IsLawful};
ghost use Rattle.sv_report.specs.Text.{note_count as notes_of, report_count as reports_of};
ghost use Rattle.sv_app.specs.Bench.{IsBench, IsBenchLine, bench_line};

use crate::answer::{Answer, refusal_answer, status_of};
use crate::validating::validate;
use std::alloc::{AllocError, Global};
use sv_check::read_text;
use sv_core::Validator;
use sv_gen::generate;
use sv_model::line::Trace;
use sv_model::refusal::Fault;
use sv_model::work::Held;
use sv_range::List;
use sv_report::{note_count, push_count, push_counts, report_count};

#[tactic(auto, unfolding(crate::specs::Bench::bench_line))]
fn bench_line(
    alloc: Global,
    seed: u64,
    count: u32,
    validator: &Validator,
    held: &[Held],
) -> Result<List<u8>, AllocError>
    ensures { IfOk result (λ it. it ≡ bench_line seed count (length validator.now.history)
        (reports_of validator.now.replies) (notes_of validator.now.replies) (length held.now)) }
{
    let events = validator.history().len() as u128;
    let replies = validator.replies().as_slice();
    let mut line = String::new(alloc);
    line.push_str("bench")?;
    push_count(&mut line, "seed", u128::from(seed))?;
    push_count(&mut line, "count", u128::from(count))?;
    push_counts(
        &mut line,
        events,
        report_count(replies),
        note_count(replies),
        held.len() as u128,
    )?;
    Ok(List::from_vec(line.into_bytes()))
}

// The line on a trace in the order of its lines.
fn trace_line(alloc: Global, seed: u64, count: u32, trace: &Trace) -> Result<Answer, AllocError>
    requires { IsLawful trace.now }
    ensures line { IfOk result (λ it. IsBenchLine seed count trace.now trace.now.text_order it.status
        it.text) }
    ensures reports { IfOk result (λ it. it.reports ≡ []) }
{
    let validator = validate(alloc, trace)?;
    let held = validator.held()?;
    let text = bench_line(alloc, seed, count, &validator, held.as_slice())?;
    let status = status_of(validator.replies().as_slice(), held.as_slice());
    Ok(Answer {
        status,
        text,
        reports: List::new(alloc),
    })
}

/// The line of `bench` on the generated trace of so many works, 1 to 100,000.
pub fn bench(alloc: Global, seed: u64, count: u32) -> Result<Answer, AllocError>
    requires { (1 ≤ count) × (count ≤ 100000) }
    ensures line { IfOk result (λ it. IsBench seed count it.status it.text) }
    ensures reports { IfOk result (λ it. it.reports ≡ []) }
{
    let text = generate(alloc, seed, count)?;
    match read_text(alloc, text.as_slice()) {
        Ok(trace) => trace_line(alloc, seed, count, &trace),
        Err(Fault::Memory) => Err(AllocError),
        Err(Fault::Refused(refusal)) => refusal_answer(alloc, &refusal),
    }
}
