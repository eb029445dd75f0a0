//! The lines of recordings.
ghost use Rattle.std.specs.Prelude.{◌≡◌, IfOk};
ghost use Rattle.serde_json.specs.View.{view};
ghost use Rattle.sv_trace.specs.Lines as spec;

use serde_json::Value;
use std::alloc::{AllocError, Global};
use sv_json::{Found, Plain, list_at, part_at};
use sv_model::line::Line;
use sv_parts::access::AccessPart;
use sv_parts::attachment::{AttachmentPart, ViewPart};
use sv_parts::element::ElementPart;
use sv_parts::number::{Number, Slot};

#[tactic(auto, unfolding(crate::specs::Lines::begin_line))]
pub fn begin(value: &Value) -> Found<Line>
    ensures { result ≡ spec.begin_line (view value.now) }
{
    let rec = part_at::<Number>(value, "rec");
    let recorder = part_at::<Slot>(value, "recorder");
    let family = part_at::<Number>(value, "family");
    Found {
        flaw: rec.flaw.least(recorder.flaw).least(family.flaw),
        value: Line::Begin {
            rec: rec.value,
            recorder: recorder.value,
            family: family.value,
        },
    }
}

#[tactic(auto, unfolding(crate::specs::Lines::end_line))]
pub fn end(value: &Value) -> Found<Line>
    ensures { result ≡ spec.end_line (view value.now) }
{
    let rec = part_at::<Number>(value, "rec");
    Found {
        flaw: rec.flaw,
        value: Line::End { rec: rec.value },
    }
}

#[tactic(auto, unfolding(crate::specs::Lines::work_line))]
pub fn work(alloc: Global, value: &Value) -> Result<Found<Line>, AllocError>
    ensures { IfOk result (λ it. it ≡ spec.work_line (view value.now)) }
{
    let rec = part_at::<Number>(value, "rec");
    let accesses = list_at::<Plain<AccessPart>>(alloc, value, "accesses")?;
    Ok(Found {
        flaw: rec.flaw.least(accesses.flaw),
        value: Line::Work {
            rec: rec.value,
            accesses: accesses.value,
        },
    })
}

#[tactic(auto, unfolding(crate::specs::Lines::barrier_line))]
pub fn barrier(alloc: Global, value: &Value) -> Result<Found<Line>, AllocError>
    ensures { IfOk result (λ it. it ≡ spec.barrier_line (view value.now)) }
{
    let rec = part_at::<Number>(value, "rec");
    let deps = list_at::<Plain<ElementPart>>(alloc, value, "deps")?;
    Ok(Found {
        flaw: rec.flaw.least(deps.flaw),
        value: Line::Barrier {
            rec: rec.value,
            deps: deps.value,
        },
    })
}

#[tactic(auto, unfolding(crate::specs::Lines::set_event_line))]
pub fn set_event(alloc: Global, value: &Value) -> Result<Found<Line>, AllocError>
    ensures { IfOk result (λ it. it ≡ spec.set_event_line (view value.now)) }
{
    let rec = part_at::<Number>(value, "rec");
    let event = part_at::<Number>(value, "event");
    let deps = list_at::<Plain<ElementPart>>(alloc, value, "deps")?;
    Ok(Found {
        flaw: rec.flaw.least(event.flaw).least(deps.flaw),
        value: Line::SetEvent {
            rec: rec.value,
            event: event.value,
            deps: deps.value,
        },
    })
}

#[tactic(auto, unfolding(crate::specs::Lines::wait_event_line))]
pub fn wait_event(value: &Value) -> Found<Line>
    ensures { result ≡ spec.wait_event_line (view value.now) }
{
    let rec = part_at::<Number>(value, "rec");
    let event = part_at::<Number>(value, "event");
    Found {
        flaw: rec.flaw.least(event.flaw),
        value: Line::WaitEvent {
            rec: rec.value,
            event: event.value,
        },
    }
}

#[tactic(auto, unfolding(crate::specs::Lines::reset_event_line))]
pub fn reset_event(value: &Value) -> Found<Line>
    ensures { result ≡ spec.reset_event_line (view value.now) }
{
    let rec = part_at::<Number>(value, "rec");
    let event = part_at::<Number>(value, "event");
    Found {
        flaw: rec.flaw.least(event.flaw),
        value: Line::ResetEvent {
            rec: rec.value,
            event: event.value,
        },
    }
}

#[tactic(auto, unfolding(crate::specs::Lines::begin_rendering_line))]
pub fn begin_rendering(alloc: Global, value: &Value) -> Result<Found<Line>, AllocError>
    ensures { IfOk result (λ it. it ≡ spec.begin_rendering_line (view value.now)) }
{
    let rec = part_at::<Number>(value, "rec");
    let attachments = list_at::<Plain<AttachmentPart>>(alloc, value, "attachments")?;
    Ok(Found {
        flaw: rec.flaw.least(attachments.flaw),
        value: Line::BeginRendering {
            rec: rec.value,
            attachments: attachments.value,
        },
    })
}

#[tactic(auto, unfolding(crate::specs::Lines::end_rendering_line))]
pub fn end_rendering(value: &Value) -> Found<Line>
    ensures { result ≡ spec.end_rendering_line (view value.now) }
{
    let rec = part_at::<Number>(value, "rec");
    Found {
        flaw: rec.flaw,
        value: Line::EndRendering { rec: rec.value },
    }
}

#[tactic(auto, unfolding(crate::specs::Lines::begin_pass_line))]
pub fn begin_pass(alloc: Global, value: &Value) -> Result<Found<Line>, AllocError>
    ensures { IfOk result (λ it. it ≡ spec.begin_pass_line (view value.now)) }
{
    let rec = part_at::<Number>(value, "rec");
    let pass = part_at::<Number>(value, "pass");
    let views = list_at::<Plain<ViewPart>>(alloc, value, "views")?;
    Ok(Found {
        flaw: rec.flaw.least(pass.flaw).least(views.flaw),
        value: Line::BeginPass {
            rec: rec.value,
            pass: pass.value,
            views: views.value,
        },
    })
}

#[tactic(auto, unfolding(crate::specs::Lines::next_subpass_line))]
pub fn next_subpass(value: &Value) -> Found<Line>
    ensures { result ≡ spec.next_subpass_line (view value.now) }
{
    let rec = part_at::<Number>(value, "rec");
    Found {
        flaw: rec.flaw,
        value: Line::NextSubpass { rec: rec.value },
    }
}

#[tactic(auto, unfolding(crate::specs::Lines::end_pass_line))]
pub fn end_pass(value: &Value) -> Found<Line>
    ensures { result ≡ spec.end_pass_line (view value.now) }
{
    let rec = part_at::<Number>(value, "rec");
    Found {
        flaw: rec.flaw,
        value: Line::EndPass { rec: rec.value },
    }
}
