//! Sums that are counted like memory: what passes their numbers finds no place.
ghost use Rattle.std.specs.Prelude.{◌≡◌, ◌+◌, IfOk};

use std::alloc::AllocError;

/// The sum. It passes 64 bits only where more things are counted than memory could hold.
pub fn sum(a: u64, b: u64) -> Result<u64, AllocError>
    ensures { IfOk result (λ n. n ≡ a + b) }
{
    match a.checked_add(b) {
        Some(n) => Ok(n),
        None => Err(AllocError),
    }
}

/// The sum with a length. It passes 32 bits only where a list is longer than memory could hold.
pub fn sum_small(a: u32, b: usize) -> Result<u32, AllocError>
    ensures { IfOk result (λ n. n ≡ a + b) }
{
    match u64::from(a).checked_add(b as u64) {
        Some(n) if n < 1 << 32 => Ok(n as u32),
        _ => Err(AllocError),
    }
}
