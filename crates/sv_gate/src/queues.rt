//! The device queues: each holds its batches and fence signals in the order in which they were sent.
ghost use Rattle.std.specs.Prelude.{◌≡◌, ◌<◌, ◌+◌, ◌^◌, ◌++◌, [], length, map, OnOk, slice_get};
ghost use Rattle.std.specs.Prelude.{slice_index_or};
ghost use Rattle.std.specs.List.{list_all};
ghost use Rattle.sv_model.specs.Holding.{is_empty, held_item as held_of, items_held};
ghost use Rattle.sv_gate.specs.Gates.{Pops, sent_to};

use std::alloc::AllocError;
use std::collections::LinkedList;
use sv_model::work::{Held, Item};
use sv_range::List;

/// Whether the queue holds nothing.
pub fn is_idle(queues: &[LinkedList<Item>], queue: u32) -> bool
    ensures { result ≡ is_empty (slice_index_or queues.now queue []) }
{
    match queues.get(queue as usize) {
        None => true,
        Some(items) => items.is_empty(),
    }
}

/// Whether no queue holds anything.
pub fn are_idle(queues: &[LinkedList<Item>]) -> bool
    ensures { result ≡ list_all is_empty queues.now }
{
    for queue in queues {
        if !queue.is_empty() {
            return false;
        }
    }
    true
}

/// The first item of a queue.
pub fn first_item(queues: &[LinkedList<Item>], queue: usize) -> Option<Item>
    ensures { result ≡ slice_get (slice_index_or queues.now queue []) 0 }
{
    match queues.get(queue) {
        None => None,
        Some(items) => items.front().copied(),
    }
}

/// Takes the first item of a queue.
pub fn pop_item(queues: &mut [LinkedList<Item>], queue: usize) -> Option<Item>
    ensures { Pops queues.old queues.new queue result }
{
    if queue < queues.len() {
        queues[queue].pop_front()
    } else {
        None
    }
}

// Appending fails only past 2^63 items, and the gate holds fewer.
fn append(items: &mut LinkedList<Item>, mut more: LinkedList<Item>)
    ensures { length items.old + length more < 2 ^ 63 → items.new ≡ items.old ++ more }
{
    match items.append(&mut more) {
        Ok(()) => (),
        Err(_) => (),
    }
}

/// Appends what a call sends to its queue.
pub fn send(queues: &mut [LinkedList<Item>], queue: Option<u32>, sent: LinkedList<Item>)
    ensures { items_held queues.old + length sent < 2 ^ 63 → queues.new ≡ sent_to queues.old queue sent }
{
    if let Some(queue) = queue {
        let at = queue as usize;
        if at < queues.len() {
            append(&mut queues[at], sent);
        }
    }
}

fn held_item(item: Item) -> Held
    ensures { result ≡ held_of item }
{
    match item {
        Item::Call { lane, index } => Held::Call { lane, index },
        Item::Batch {
            queue,
            event,
            batch,
        } => Held::Batch {
            queue,
            event,
            batch,
        },
        Item::Fence { queue, event, .. } => Held::Fence { queue, event },
    }
}

/// Appends the items that a queue holds.
pub fn push_held(list: &mut List<Held>, queue: &LinkedList<Item>) -> Result<(), AllocError>
    ensures { OnOk result (list.new ≡ list.old ++ map held_of queue.now) }
{
    for item in queue {
        list.push_or_drop(held_item(*item))?;
    }
    Ok(())
}
