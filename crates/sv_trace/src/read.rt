//! One line of a text.
ghost use Rattle.std.specs.Prelude.{◌≡◌, ◌≢◌, IfOk, option_map};
ghost use Rattle.serde_json.specs.View.{view};
ghost use Rattle.sv_json.specs.Form.{found};
ghost use Rattle.sv_trace.specs.Formed.{IsFormed};
ghost use Rattle.sv_trace.specs.Ops.{form_of};
ghost use Rattle.sv_trace.specs.Reading.{data_of, op_text, line_form, line_cause, line_of, cause_of, Answers};
ghost use Rattle.sv_trace.specs.Text.{is_blank};

use crate::call::{reset_fence, submit, wait_device, wait_fence, wait_queue};
use crate::command::{
    barrier, begin, begin_pass, begin_rendering, end, end_pass, end_rendering, next_subpass,
    reset_event, set_event, wait_event, work,
};
use crate::declaration::{buffer, event, fence, image, queue, semaphore, version};
use crate::op::{Op, op_of};
use crate::render_pass::render_pass;
use serde_json::Value;
use std::alloc::{AllocError, Global};
use sv_json::{Flaw, Found};
use sv_model::line::Line;
use sv_model::refusal::{Cause, Fault, Refusal};

#[tactic(auto, unfolding(crate::specs::Ops::form_of))]
fn read_op(alloc: Global, op: Op, value: &Value) -> Result<Found<Line>, AllocError>
    ensures { IfOk result (λ it. it ≡ form_of op (view value.now)) }
{
    match op {
        Op::Version => Ok(version(value)),
        Op::Queue => Ok(queue(value)),
        Op::Buffer => Ok(buffer(value)),
        Op::Image => Ok(image(value)),
        Op::Semaphore => Ok(semaphore(value)),
        Op::Event => Ok(event(value)),
        Op::Fence => Ok(fence(value)),
        Op::RenderPass => render_pass(alloc, value),
        Op::Begin => Ok(begin(value)),
        Op::End => Ok(end(value)),
        Op::Work => work(alloc, value),
        Op::Barrier => barrier(alloc, value),
        Op::SetEvent => set_event(alloc, value),
        Op::WaitEvent => Ok(wait_event(value)),
        Op::ResetEvent => Ok(reset_event(value)),
        Op::BeginRendering => begin_rendering(alloc, value),
        Op::EndRendering => Ok(end_rendering(value)),
        Op::BeginPass => begin_pass(alloc, value),
        Op::NextSubpass => Ok(next_subpass(value)),
        Op::EndPass => Ok(end_pass(value)),
        Op::Submit => submit(alloc, value),
        Op::WaitFence => Ok(wait_fence(value)),
        Op::ResetFence => Ok(reset_fence(value)),
        Op::WaitQueue => Ok(wait_queue(value)),
        Op::WaitDevice => Ok(wait_device(value)),
    }
}

#[tactic(auto, unfolding(crate::specs::Reading::op_text))]
fn text_of_op(value: &Value) -> Option<&str>
    ensures { option_map (λ text. text.now) result ≡ op_text (view value.now) }
{
    value.get("op").and_then(Value::as_str)
}

// A blank line with this flaw.
fn flawed(flaw: Flaw) -> Found<Line>
    ensures { result ≡ found flaw Line.Blank }
{
    Found {
        flaw,
        value: Line::Blank,
    }
}

#[tactic(auto, unfolding(crate::specs::Reading::line_form))]
fn read_data(alloc: Global, value: &Value) -> Result<Found<Line>, AllocError>
    ensures { IfOk result (λ it. it ≡ line_form (view value.now)) }
{
    match text_of_op(value) {
        None => Ok(flawed(Flaw::Shape)),
        Some(text) => match op_of(text) {
            None => Ok(flawed(Flaw::Name)),
            Some(op) => read_op(alloc, op, value),
        },
    }
}

// The value of the line: None where it has none.
#[tactic(auto, using(crate::proofs::Values::data_utf8, crate::proofs::Values::data_bad))]
fn value_of(alloc: Global, bytes: &[u8]) -> Result<Option<Value>, AllocError>
    ensures { IfOk result (λ value. option_map view value ≡ data_of bytes.now) }
{
    let Ok(text) = str::from_utf8(bytes) else {
        return Ok(None);
    };
    match Value::from_str(alloc, text) {
        Ok(value) => Ok(Some(value)),
        Err(error) => {
            if error.is_memory() {
                Err(AllocError)
            } else {
                Ok(None)
            }
        }
    }
}

#[tactic(auto, unfolding(crate::specs::Text::is_blank))]
fn blank(bytes: &[u8]) -> bool
    ensures { result ≡ is_blank bytes.now }
{
    bytes.iter().all(|b| *b == 32 || *b == 9 || *b == 13)
}

fn refused(number: u64, cause: Cause) -> Fault
    ensures { result ≡ Fault.Refused (record { line = number; cause = cause }) }
{
    Fault::Refused(Refusal {
        line: number,
        cause,
    })
}

// The answer to what was found, which takes no memory.
fn answer(found: Found<Line>, number: u64) -> Result<Line, Fault>
    ensures answers { Answers (cause_of found.flaw) found.value number result }
    ensures no_memory { result ≢ Err Fault.Memory }
{
    match found.flaw {
        Flaw::Shape => Err(refused(number, Cause::BadShape)),
        Flaw::Name => Err(refused(number, Cause::UnknownName)),
        Flaw::Range => Err(refused(number, Cause::Range)),
        Flaw::Fine => Ok(found.value),
    }
}

/// Reads the bytes of one line, without its LF. `number` counts the lines of the text from 1, and
/// stands in the refusal.
///
/// A blank line is `Line::Blank`. The refusal is the least of `BadJson`, `BadShape`, `UnknownName`
/// and `Range` whose sentence holds of the line. The numbers of a line that is not refused are within
/// their bounds, and its parts have their forms.
#[tactic(auto, using(crate::proofs::FormedLines::answers_formed))]
pub fn read_line(alloc: Global, bytes: &[u8], number: u64) -> Result<Line, Fault>
    ensures answers { Answers (line_cause bytes.now) (line_of bytes.now) number result }
    ensures formed { IfOk result IsFormed }
{
    answer_to(alloc, bytes, number)
}

// What the bytes say, or why they are refused.
#[tactic(auto, unfolding(crate::specs::Reading::line_cause, crate::specs::Reading::line_of))]
fn answer_to(alloc: Global, bytes: &[u8], number: u64) -> Result<Line, Fault>
    ensures { Answers (line_cause bytes.now) (line_of bytes.now) number result }
{
    if blank(bytes) {
        return Ok(Line::Blank);
    }
    match value_of(alloc, bytes) {
        Err(_) => Err(Fault::Memory),
        Ok(None) => Err(refused(number, Cause::BadJson)),
        Ok(Some(value)) => match read_data(alloc, &value) {
            Ok(found) => answer(found, number),
            Err(_) => Err(Fault::Memory),
        },
    }
}
