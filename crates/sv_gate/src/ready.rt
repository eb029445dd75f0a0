//! Whether a batch may run: its timelines are served, its binary waits find a signal, its binary
//! signals find the semaphore free.
ghost use Rattle.std.specs.Prelude.{◌≡◌, Some, count_by, nat_le, if◌then◌else◌};
ghost use Rattle.std.specs.List.{list_all};
ghost use Rattle.sv_model.specs.declared.line.Trace.{Trace};
ghost use Rattle.sv_model.specs.Primitives.{Made};
ghost use Rattle.sv_model.specs.Semaphores.{current_value};
ghost use Rattle.sv_model.specs.Semaphores as enabled;
ghost use Rattle.sv_sema.specs.Stands.{SemaphoresStandFor, IsUseOf};
ghost use Rattle.sv_gate.specs.Kept.{past_of, found, AreUsesOf, IsBatchOf};

use sv_model::line::{Batch, SemaphoreUse};
use sv_sema::{Pairing, Semaphores};

fn is_found(pairing: Pairing) -> bool
    ensures { result ≡ found pairing }
{
    match pairing {
        Pairing::NotYet => false,
        Pairing::Initial => true,
        Pairing::Token(_) => true,
    }
}

fn serves(sema: &Semaphores, sem: u32, value: u64) -> bool
    ensures { (t : Trace) (m : Made) → SemaphoresStandFor t m sema.now → IsUseOf t sem (Some value) → result
        ≡ nat_le value (current_value t m sem) }
{
    is_found(sema.pair(sem, Some(value)))
}

fn is_served(sema: &Semaphores, wait: SemaphoreUse) -> bool
    ensures { (t : Trace) (m : Made) → SemaphoresStandFor t m sema.now → IsUseOf t wait.sem wait.value
        → result
        ≡ enabled.wait_served (past_of t m) wait }
{
    match wait.value {
        None => true,
        Some(value) => serves(sema, wait.sem, value),
    }
}

fn binary_uses(sem: u32, uses: &[SemaphoreUse]) -> usize
    ensures { result ≡ count_by (enabled.is_binary_use sem) uses.now }
{
    uses.iter()
        .filter(|one| one.sem == sem && one.value.is_none())
        .count()
}

/// With no signal standing, or one, so many waits find one each, and so many signals find the semaphore
/// free.
fn is_balanced(free: bool, waits: usize, signals: usize) -> bool
    ensures { result ≡ enabled.is_balanced (if free then 0 else 1) waits signals }
{
    if free {
        waits == 0 && signals <= 1
    } else {
        waits <= 1 && signals <= waits
    }
}

fn fits(sema: &Semaphores, batch: &Batch, one: SemaphoreUse) -> bool
    ensures { (t : Trace) (m : Made) → SemaphoresStandFor t m sema.now → IsUseOf t one.sem one.value → result
        ≡ enabled.use_fits (past_of t m) batch.now one }
{
    match one.value {
        Some(_) => true,
        None => {
            let free = sema.free(one.sem);
            let waits = binary_uses(one.sem, batch.waits.as_slice());
            let signals = binary_uses(one.sem, batch.signals.as_slice());
            is_balanced(free, waits, signals)
        }
    }
}

fn all_served(sema: &Semaphores, waits: &[SemaphoreUse]) -> bool
    ensures { (t : Trace) (m : Made) → SemaphoresStandFor t m sema.now → AreUsesOf t waits.now → result
        ≡ list_all (enabled.wait_served (past_of t m)) waits.now }
{
    for wait in waits {
        if !is_served(sema, *wait) {
            return false;
        }
    }
    true
}

fn all_fit(sema: &Semaphores, batch: &Batch, uses: &[SemaphoreUse]) -> bool
    ensures { (t : Trace) (m : Made) → SemaphoresStandFor t m sema.now → AreUsesOf t uses.now → result
        ≡ list_all (enabled.use_fits (past_of t m) batch.now) uses.now }
{
    for one in uses {
        if !fits(sema, batch, *one) {
            return false;
        }
    }
    true
}

/// Whether the batch may run.
pub fn batch_is_ready(sema: &Semaphores, batch: &Batch) -> bool
    ensures { (t : Trace) (m : Made) → SemaphoresStandFor t m sema.now → IsBatchOf t batch.now → result
        ≡ enabled.batch_ready (past_of t m) batch.now }
{
    let served = all_served(sema, batch.waits.as_slice());
    let waits_fit = all_fit(sema, batch, batch.waits.as_slice());
    let signals_fit = all_fit(sema, batch, batch.signals.as_slice());
    served && waits_fit && signals_fit
}
