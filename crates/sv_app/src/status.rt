//! How a run ends: its exit status.
ghost use Rattle.std.specs.Prelude.{◌≡◌};
ghost use Rattle.sv_app.specs.Status.{number_of};

/// How a run ends; the program ends with the number of this.
#[derive(Clone, Copy, PartialEq)]
pub enum Status {
    /// The text of the trace was written; it has no report, note or held item.
    Clean,
    /// The text of the trace was written; it has one of these.
    Found,
    /// The line of the least bad line was written.
    Refused,
    /// The words are none that the program takes. Nothing was read or written.
    Usage,
    /// The source failed. Nothing was written.
    ReadFault,
    /// The sink failed. A first part of the answer was written.
    WriteFault,
    /// There is no memory. Nothing was written.
    Memory,
    /// The text is longer than it may be. Nothing was written.
    TooLong,
}

impl Status {
    /// The status with which the program ends: 0 to 7.
    pub fn number(self) -> u8
        ensures { result ≡ number_of self }
    {
        match self {
            Status::Clean => 0,
            Status::Found => 1,
            Status::Refused => 2,
            Status::Usage => 3,
            Status::ReadFault => 4,
            Status::WriteFault => 5,
            Status::Memory => 6,
            Status::TooLong => 7,
        }
    }
}
