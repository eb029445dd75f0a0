//! A listener in its place in a hub, and all of them in turn.
ghost use Rattle.std.specs.Prelude.{◌≡◌, ◌≢◌, ◌<◌, ◌≤◌, ℕ, MatchOption, OnOk, length, slice_index_or};
ghost use Rattle.sv_hub.specs.Attachments.{AllChanged, Attached, Hears, Reserves};

use crate::Listener;
use std::alloc::AllocError;
use sv_model::work::Report;

// Who has a place in a hub.
pub trait Seat {
    ghost attached: { Self → Attached };

    fn reserve(&mut self, more: usize) -> Result<(), AllocError>
        ensures kept { Reserves (attached self.old) (attached self.new) }
        ensures room { OnOk result (more ≤ (attached self.new).spare) };

    fn hear(&mut self, report: &Report)
        requires { 0 < (attached self.old).spare }
        ensures { Hears report.now (attached self.old) (attached self.new) };
}

// A listener with the number of its id.
#[derive(Drop)]
pub struct Entry {
    pub number: u64,
    pub listener: Box<dyn Listener>,
}

impl Seat for Entry {
    ghost attached = { λ it. record {
      number = it.number;
      heard = (Listener-box it.listener).heard it.listener.value;
      spare = (Listener-box it.listener).spare it.listener.value;
    } };

    fn reserve(&mut self, more: usize) -> Result<(), AllocError> {
        self.listener.reserve(more)
    }

    fn hear(&mut self, report: &Report) {
        self.listener.hear(report)
    }
}

// Each makes room for so many more reports, until there is no memory for one.
pub fn reserve_all<E: Seat>(entries: &mut [E], more: usize) -> Result<(), AllocError>
    ensures kept { AllChanged (λ (a b : E). Reserves (E.attached a) (E.attached b))
        entries.old entries.new }
    ensures room { OnOk result ((k : ℕ) (d : E) → k < length entries.old
        → more ≤ (E.attached (slice_index_or entries.new k d)).spare) }
{
    for entry in entries.iter_mut() {
        entry.reserve(more)?;
    }
    Ok(())
}

// Each hears the report, in order.
pub fn hear_all<E: Seat>(entries: &mut [E], report: &Report)
    requires { (k : ℕ) (d : E) → k < length entries.old
        → 0 < (E.attached (slice_index_or entries.old k d)).spare }
    ensures { AllChanged (λ (a b : E). Hears report.now (E.attached a) (E.attached b))
        entries.old entries.new }
{
    for entry in entries.iter_mut() {
        entry.hear(report);
    }
}

// The place of the first entry with that number.
pub fn place_of(entries: &[Entry], number: u64) -> Option<usize>
    ensures { MatchOption result
        ((k : ℕ) (d : _) → k < length entries.now → (slice_index_or entries.now k d).number ≢ number)
        (λ place. (place < length entries.now)
        × ((d : _) → (slice_index_or entries.now place d).number ≡ number)) }
{
    for (place, entry) in entries.iter().enumerate() {
        if entry.number == number {
            return Some(place);
        }
    }
    None
}
