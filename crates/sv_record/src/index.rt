//! What recording finds in a trace by number.
ghost use Rattle.std.specs.Prelude.{IfOk};

use crate::passes::Passes;
use std::alloc::{AllocError, Global};
use sv_index::RecordingIndex;
use sv_model::line::Trace;

/// The passes and the recordings of a trace, found by their numbers. Made once for a trace, and lent to all
/// that record.
#[derive(Drop)]
pub struct Index {
    pub passes: Passes,
    pub recordings: RecordingIndex,
}

impl Index {
    ghost use Rattle.sv_record.specs.Indexed.{IsIndexOf};

    /// The index of a trace. Fails only for want of memory.
    pub fn new(alloc: Global, trace: &Trace) -> Result<Index, AllocError>
        ensures { IfOk result (IsIndexOf trace.now) }
    {
        Ok(Index {
            passes: Passes::new(alloc, trace)?,
            recordings: RecordingIndex::new(alloc, trace)?,
        })
    }
}
