//! What happens between the events of a replay.

/// Is called outside the lock before each event of a replay.
pub trait Pace {
    /// With the number of the actor (lanes have 0 to 15, recorder r has 16 + r) and the event's place in its
    /// script.
    fn arrive(&self, actor: u32, index: u32);
}

/// A pace that does nothing.
pub struct Idle;

impl Pace for Idle {
    fn arrive(&self, _actor: u32, _index: u32) {}
}
