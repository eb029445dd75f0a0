//! Where a recording runs.

/// The queue, the event as which the submit came, the batch in it, the place of the recording in the batch,
/// and the number of its first instance.
#[derive(Clone, Copy)]
pub struct Run {
    pub queue: u32,
    pub event: u64,
    pub batch: u32,
    pub slot: u32,
    pub instance: u64,
}
