//! Where bytes come from and go to.
ghost use Rattle.std.specs.Prelude.{◌≡◌, ℕ, ◌+◌, ◌^◌, ◌<◌, ◌≤◌, List, Bool, Option, length, IfOk};
ghost use Rattle.std.specs.Io.{ReadsAtMost};
ghost use Rattle.std.specs.Io.KnownBytes.{ReadConsumes, WriteAppends};
ghost use Rattle.sv_io.specs.Causes.{HasCause, count_of, is_end};

/// A read or a write went wrong, and the stream's count of faults rose (at the count's last value, 2^64 -
/// 1, it stands).
#[derive(Clone, Copy)]
pub struct Failed;

/// Where bytes come from.
pub trait Source {
    /// The bytes still to come, where the source tells them.
    ghost left: { Self → Option (List ℕ) };

    /// The number of bytes that it gave so far.
    ghost given: { Self → ℕ };

    /// Whether its last answer was the end.
    ghost ended: { Self → Bool };

    /// How often it failed.
    ghost faults: { Self → ℕ };

    /// Gives the next bytes in the first places of `buf`, and answers how many: 0 only at the end.
    /// A read with which the number of bytes given could pass 2^64 - 1 fails.
    fn read(&mut self, buf: &mut [u8]) -> Result<usize, Failed>
        requires { 0 < length buf.old }
        ensures bound { ReadsAtMost result buf.new }
        ensures bytes { ReadConsumes (left self.old) (left self.new) result buf.new }
        ensures given { given self.new ≡ given self.old + count_of result }
        ensures fits { given self.new < 2 ^ 64 }
        ensures ended { ended self.new ≡ is_end result }
        ensures cause { HasCause (faults self.old) (faults self.new) result };
}

/// Where bytes go to.
pub trait Sink {
    /// The bytes written, where the sink tells them.
    ghost written: { Self → Option (List ℕ) };

    /// How often it failed.
    ghost faults: { Self → ℕ };

    /// Takes the first bytes of `piece`, and answers how many: at least one.
    fn write(&mut self, piece: &[u8]) -> Result<usize, Failed>
        requires { 0 < length piece.now }
        ensures bound { IfOk result (λ n. (0 < n) × (n ≤ length piece.now)) }
        ensures bytes { WriteAppends (written self.old) (written self.new) result piece.now }
        ensures cause { HasCause (faults self.old) (faults self.new) result };
}
