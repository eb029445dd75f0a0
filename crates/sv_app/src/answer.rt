//! The answer to a text.
ghost use Rattle.std.specs.Prelude.{◌≡◌, IfOk};
ghost use Rattle.std.specs.List.{list_all};
ghost use Rattle.sv_model.specs.History.{IsWhole};
ghost use Rattle.sv_model.specs.Lawful.{IsLawful};
ghost use Rattle.sv_app.specs.Answer.{InTextOrder, IsAnswerTo, IsRefusalLine, IsTextOf, is_silent};
ghost use Rattle.sv_app.specs.Answer.{printed_reports, status_of};

use crate::Status;
use crate::validating::validate;
use std::alloc::{AllocError, Global};
use sv_check::read_text;
use sv_core::Validator;
use sv_model::line::Trace;
use sv_model::refusal::{Fault, Refusal};
use sv_model::work::{Held, Reply, Report};
use sv_range::List;
use sv_report::{refusal_text, text as history_text};

/// What a run writes, with its status, and the reports that its listeners hear.
#[derive(Drop)]
pub struct Answer {
    pub status: Status,
    pub text: List<u8>,
    pub reports: List<Report>,
}

fn is_silent(reply: &Reply) -> bool
    ensures { result ≡ is_silent reply.now }
{
    reply.reports.len() == 0 && reply.notes.len() == 0
}

fn are_silent(replies: &[Reply]) -> bool
    ensures { result ≡ list_all is_silent replies.now }
{
    replies.iter().all(|reply| is_silent(reply))
}

/// Found where there is a report, a note or a held item.
pub fn status_of(replies: &[Reply], held: &[Held]) -> Status
    ensures { result ≡ status_of replies.now held.now }
{
    let silent = are_silent(replies);
    let settled = held.len() == 0;
    if silent && settled {
        Status::Clean
    } else {
        Status::Found
    }
}

// All reports of the replies, in order.
fn printed_reports(alloc: Global, replies: &[Reply]) -> Result<List<Report>, AllocError>
    ensures { IfOk result (λ it. it ≡ printed_reports replies.now) }
{
    let mut reports = Vec::new(alloc);
    for reply in replies {
        reports.extend_from_slice(reply.reports.as_slice())?;
    }
    Ok(List::from_vec(reports))
}

/// The text of the whole history that the validator of the trace has taken in.
pub fn history_answer(
    alloc: Global,
    trace: &Trace,
    validator: &Validator,
) -> Result<Answer, AllocError>
    requires trace { validator.now.trace ≡ trace.now }
    requires whole { IsWhole trace.now validator.now.history }
    ensures { IfOk result (λ it. IsTextOf trace.now validator.now.history it.status it.text it.reports) }
{
    let history = validator.history();
    let held = validator.held()?;
    let replies = validator.replies();
    let text = history_text(alloc, history, replies, &held, trace)?;
    let reports = printed_reports(alloc, replies.as_slice())?;
    let status = status_of(replies.as_slice(), held.as_slice());
    Ok(Answer {
        status,
        text,
        reports,
    })
}

// The text of a trace in the order of its lines.
fn trace_answer(alloc: Global, trace: &Trace) -> Result<Answer, AllocError>
    requires { IsLawful trace.now }
    ensures { IfOk result (λ it. IsTextOf trace.now trace.now.text_order it.status it.text it.reports) }
{
    let validator = validate(alloc, trace)?;
    history_answer(alloc, trace, &validator)
}

/// The one line of a text that is refused.
pub fn refusal_answer(alloc: Global, refusal: &Refusal) -> Result<Answer, AllocError>
    ensures { IfOk result (λ it. IsRefusalLine refusal.now it.status it.text it.reports) }
{
    let text = refusal_text(alloc, refusal)?;
    Ok(Answer {
        status: Status::Refused,
        text,
        reports: List::new(alloc),
    })
}

/// The answer to the bytes of a text.
pub fn text_answer(alloc: Global, bytes: &[u8]) -> Result<Answer, AllocError>
    ensures { IfOk result (λ it. IsAnswerTo InTextOrder bytes.now it.status it.text it.reports) }
{
    match read_text(alloc, bytes) {
        Ok(trace) => trace_answer(alloc, &trace),
        Err(Fault::Memory) => Err(AllocError),
        Err(Fault::Refused(refusal)) => refusal_answer(alloc, &refusal),
    }
}
