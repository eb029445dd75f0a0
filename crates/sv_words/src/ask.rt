//! What a run is asked for.

/// What a run is asked for.
#[derive(Clone, Copy, PartialEq)]
pub enum Ask {
    /// The hazards of the trace that is read, in the order of its text.
    Check,
    /// The hazards of the trace that is read, in an order that the device lock gives its threads.
    Replay,
    /// The text of a generated trace with so many works, 1 to 100,000.
    Generate { seed: u64, count: u32 },
    /// One line on a generated trace with so many works, 1 to 100,000.
    Bench { seed: u64, count: u32 },
}
