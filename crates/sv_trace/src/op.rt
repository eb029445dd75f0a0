//! The ops of lines, by their names.
ghost use Rattle.std.specs.Prelude.{◌≡◌};
ghost use Rattle.sv_mask.specs.Names.{named};
ghost use Rattle.sv_trace.specs.Ops as spec;
ghost use Rattle.sv_trace.specs.Ops.{op_named};

/// The ops of the lines.
#[derive(Clone, Copy)]
pub enum Op {
    Version,
    Queue,
    Buffer,
    Image,
    Semaphore,
    Event,
    Fence,
    RenderPass,
    Begin,
    End,
    Work,
    Barrier,
    SetEvent,
    WaitEvent,
    ResetEvent,
    BeginRendering,
    EndRendering,
    BeginPass,
    NextSubpass,
    EndPass,
    Submit,
    WaitFence,
    ResetFence,
    WaitQueue,
    WaitDevice,
}

fn declaration(text: &str) -> Option<Op>
    ensures { result ≡ named spec.declarations text.now }
{
    if text == "version" {
        Some(Op::Version)
    } else if text == "queue" {
        Some(Op::Queue)
    } else if text == "buffer" {
        Some(Op::Buffer)
    } else if text == "image" {
        Some(Op::Image)
    } else if text == "semaphore" {
        Some(Op::Semaphore)
    } else if text == "event" {
        Some(Op::Event)
    } else if text == "fence" {
        Some(Op::Fence)
    } else if text == "render_pass" {
        Some(Op::RenderPass)
    } else {
        None
    }
}

fn recording_op(text: &str) -> Option<Op>
    ensures { result ≡ named spec.recording_ops text.now }
{
    if text == "begin" {
        Some(Op::Begin)
    } else if text == "end" {
        Some(Op::End)
    } else if text == "work" {
        Some(Op::Work)
    } else if text == "barrier" {
        Some(Op::Barrier)
    } else if text == "set_event" {
        Some(Op::SetEvent)
    } else if text == "wait_event" {
        Some(Op::WaitEvent)
    } else if text == "reset_event" {
        Some(Op::ResetEvent)
    } else {
        None
    }
}

fn scope_op(text: &str) -> Option<Op>
    ensures { result ≡ named spec.scope_ops text.now }
{
    if text == "begin_rendering" {
        Some(Op::BeginRendering)
    } else if text == "end_rendering" {
        Some(Op::EndRendering)
    } else if text == "begin_pass" {
        Some(Op::BeginPass)
    } else if text == "next_subpass" {
        Some(Op::NextSubpass)
    } else if text == "end_pass" {
        Some(Op::EndPass)
    } else {
        None
    }
}

fn call(text: &str) -> Option<Op>
    ensures { result ≡ named spec.calls text.now }
{
    if text == "submit" {
        Some(Op::Submit)
    } else if text == "wait_fence" {
        Some(Op::WaitFence)
    } else if text == "reset_fence" {
        Some(Op::ResetFence)
    } else if text == "wait_queue" {
        Some(Op::WaitQueue)
    } else if text == "wait_device" {
        Some(Op::WaitDevice)
    } else {
        None
    }
}

/// The op of this name.
#[tactic(auto, using(crate::proofs::Ops::in_calls))]
pub fn op_of(text: &str) -> Option<Op>
    ensures { result ≡ op_named text.now }
{
    if let Some(op) = declaration(text) {
        return Some(op);
    }
    if let Some(op) = recording_op(text) {
        return Some(op);
    }
    if let Some(op) = scope_op(text) {
        return Some(op);
    }
    call(text)
}
