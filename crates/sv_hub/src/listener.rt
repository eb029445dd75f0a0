//! What a listener is.
ghost use Rattle.std.specs.Prelude.{◌≡◌, ℕ, ◌+◌, ◌<◌, ◌≤◌, List, [], ◌∷◌, ◌++◌, length, OnOk};
ghost use Rattle.sv_model.specs.declared.work.Report.{Report};

use std::alloc::AllocError;
use sv_model::work::Report;

/// Who hears reports. A listener keeps its own allocator.
pub trait Listener: Drop {
    /// The reports heard so far, in order.
    ghost heard: { Self → List Report };

    /// How many reports it can still hear without more memory.
    ghost spare: { Self → ℕ };

    /// Makes room for so many more reports. For want of memory the room that it had stays.
    fn reserve(&mut self, more: usize) -> Result<(), AllocError>
        ensures reports { heard self.new ≡ heard self.old }
        ensures room { OnOk result (more ≤ spare self.new) }
        ensures kept { spare self.old ≤ spare self.new };

    /// Hears one more report, for which it has room. Takes no memory.
    fn hear(&mut self, report: &Report)
        requires { 0 < spare self.old }
        ensures reports { heard self.new ≡ heard self.old ++ report.now ∷ [] }
        ensures room { spare self.old ≤ spare self.new + 1 };

    /// The number of reports heard. Takes no memory.
    fn count(&self) -> u64
        ensures { result ≡ length (heard self.now) };
}
