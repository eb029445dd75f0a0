//! A call that its lane holds, with what it will send.
ghost use Rattle.std.specs.Prelude.{◌≡◌, ◌<◌, ◌^◌, ◌++◌, ◌∷◌, [], length, IfOk, OnOk};
ghost use Rattle.sv_model.specs.Holding.{batches_from, fence_items};
ghost use Rattle.sv_gate.specs.Calls.{sent_by};

use crate::calls::Call;
use std::alloc::{AllocError, Global};
use std::collections::LinkedList;
use sv_model::line::Batch;
use sv_model::work::Item;

/// The call of that number came as that event. `sent` is what goes to `queue` when it is taken, made
/// when it came, so that taking it needs no memory.
#[derive(Drop)]
pub struct Waiting {
    pub index: u32,
    pub event: u64,
    pub queue: Option<u32>,
    pub sent: LinkedList<Item>,
}

fn append(out: &mut LinkedList<Item>, item: Item) -> Result<(), AllocError>
    ensures { OnOk result (out.new ≡ out.old ++ item ∷ []) }
{
    match out.push_back(item) {
        Ok(()) => Ok(()),
        Err(_) => Err(AllocError),
    }
}

fn batches_of(
    alloc: Global,
    queue: u32,
    event: u64,
    batches: &[Batch],
) -> Result<LinkedList<Item>, AllocError>
    requires { length batches.now < 2 ^ 32 }
    ensures { IfOk result (λ out. out ≡ batches_from queue event 0 batches.now) }
{
    let mut out = LinkedList::new(alloc);
    for number in 0..batches.len() {
        append(
            &mut out,
            Item::Batch {
                queue,
                event,
                batch: number as u32,
            },
        )?;
    }
    Ok(out)
}

fn append_fence(
    out: &mut LinkedList<Item>,
    queue: u32,
    event: u64,
    fence: Option<u32>,
) -> Result<(), AllocError>
    ensures { OnOk result (out.new ≡ out.old ++ fence_items queue event fence) }
{
    match fence {
        None => Ok(()),
        Some(fence) => append(
            out,
            Item::Fence {
                queue,
                event,
                fence,
            },
        ),
    }
}

/// What the call sends: its batches, then its fence signal. For more batches than 32 bits can count
/// there is no memory.
pub fn sent(alloc: Global, event: u64, call: &Call) -> Result<LinkedList<Item>, AllocError>
    ensures { IfOk result (λ out. out ≡ sent_by event call.now) }
{
    match call {
        Call::Submit {
            queue,
            batches,
            fence,
        } => {
            if batches.len() >= 0x1_0000_0000 {
                return Err(AllocError);
            }
            let mut out = batches_of(alloc, *queue, event, batches.as_slice())?;
            append_fence(&mut out, *queue, event, *fence)?;
            Ok(out)
        }
        Call::WaitFence(_) => Ok(LinkedList::new(alloc)),
        Call::ResetFence(_) => Ok(LinkedList::new(alloc)),
        Call::WaitQueue(_) => Ok(LinkedList::new(alloc)),
        Call::WaitDevice => Ok(LinkedList::new(alloc)),
        Call::Other => Ok(LinkedList::new(alloc)),
    }
}
