//! Why an event has no reply.
ghost use Rattle.std.specs.Prelude.{◌≡◌};

/// The number of the event that answered want of memory. Only a validator makes it.
#[derive(Clone, Copy)]
pub struct Spent {
    pub(crate) number: u64,
}

impl Spent {
    /// The number of the event.
    pub fn number(self) -> u64
        ensures { result ≡ self.number }
    {
        self.number
    }
}

/// Why an event has no reply.
#[derive(Clone, Copy)]
pub enum Stop {
    /// Memory is missing. The validator is spent.
    Memory,
    /// The validator is spent since that event.
    Spent(Spent),
}
