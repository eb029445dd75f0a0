//! Which actor an actor is.
ghost use Rattle.std.specs.Prelude.{◌≡◌, ◌<◌, ◌^◌};
ghost use Rattle.sv_device.specs.Actors.{number_of};

/// A lane, which makes its calls, or a recorder, which publishes its recordings.
#[derive(Clone, Copy, PartialEq)]
pub enum Who {
    Lane(u32),
    Recorder(u32),
}

impl Who {
    /// Its number: lanes have 0 to 15, recorder r has 16 + r.
    pub fn number(self) -> u32
        requires { number_of self < 2 ^ 32 }
        ensures { result ≡ number_of self }
    {
        match self {
            Who::Lane(lane) => lane,
            Who::Recorder(recorder) => 16 + recorder,
        }
    }
}
