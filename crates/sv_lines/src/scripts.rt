//! The scripts of lanes and recorders, and the order of their events in the text.
ghost use Rattle.std.specs.Prelude.{◌≡◌, ◌<◌, ◌^◌, [], ◌∷◌, ◌++◌, length, slice_index_or, replicate, OnOk};
ghost use Rattle.std.specs.Prelude.{OnErr};
ghost use Rattle.sv_model.specs.declared.line.Mark.TheVariants.{Publish, Call};
ghost use Rattle.sv_rules.specs.Trace.{with_event};

use std::alloc::{AllocError, Global};
use sv_model::line::{Line, Mark};
use sv_range::List;

/// The number of lanes, and of recorders.
const ACTORS: usize = 16;

/// What each lane calls and each recorder publishes, and all of it in the order of the text.
#[derive(Drop)]
pub struct Scripts {
    pub lanes: [List<Line>; ACTORS],
    pub recorders: [List<u32>; ACTORS],
    pub order: Vec<Mark>,
}

impl Scripts {
    /// No event yet. Takes no memory.
    pub fn new(alloc: Global) -> Scripts
        ensures lanes { result.lanes ≡ replicate 16 [] }
        ensures recorders { result.recorders ≡ replicate 16 [] }
        ensures order { result.order.items ≡ [] }
    {
        Scripts {
            lanes: [
                List::new(alloc),
                List::new(alloc),
                List::new(alloc),
                List::new(alloc),
                List::new(alloc),
                List::new(alloc),
                List::new(alloc),
                List::new(alloc),
                List::new(alloc),
                List::new(alloc),
                List::new(alloc),
                List::new(alloc),
                List::new(alloc),
                List::new(alloc),
                List::new(alloc),
                List::new(alloc),
            ],
            recorders: [
                List::new(alloc),
                List::new(alloc),
                List::new(alloc),
                List::new(alloc),
                List::new(alloc),
                List::new(alloc),
                List::new(alloc),
                List::new(alloc),
                List::new(alloc),
                List::new(alloc),
                List::new(alloc),
                List::new(alloc),
                List::new(alloc),
                List::new(alloc),
                List::new(alloc),
                List::new(alloc),
            ],
            order: Vec::new(alloc),
        }
    }

    /// The lane calls.
    pub fn call(&mut self, lane: u32, line: Line) -> Result<(), AllocError>
        requires lane { lane < length self.old.lanes }
        requires room { length (slice_index_or self.old.lanes lane []) < 2 ^ 32 }
        ensures lanes { OnOk result (self.new.lanes ≡ with_event self.old.lanes lane line) }
        ensures order { OnOk result (self.new.order.items ≡ self.old.order.items
            ++ Call lane (length (slice_index_or self.old.lanes lane [])) ∷ []) }
        ensures recorders { self.new.recorders ≡ self.old.recorders }
        ensures fault { OnErr result ((self.new.lanes ≡ self.old.lanes)
            × (self.new.order.items ≡ self.old.order.items)) }
    {
        self.order.reserve(1)?;
        let index = self.lanes[lane as usize].len();
        self.lanes[lane as usize].push_or_drop(line)?;
        self.order
            .push(Mark::Call {
                lane,
                index: index as u32,
            })
            .unwrap();
        Ok(())
    }

    /// The recorder publishes a recording.
    pub fn publish(&mut self, recorder: u32, rec: u32) -> Result<(), AllocError>
        requires { recorder < length self.old.recorders }
        ensures recorders { OnOk result (self.new.recorders ≡ with_event self.old.recorders recorder rec) }
        ensures order { OnOk result (self.new.order.items ≡ self.old.order.items ++ Publish rec ∷ []) }
        ensures lanes { self.new.lanes ≡ self.old.lanes }
        ensures fault { OnErr result ((self.new.recorders ≡ self.old.recorders)
            × (self.new.order.items ≡ self.old.order.items)) }
    {
        self.order.reserve(1)?;
        self.recorders[recorder as usize].push_or_drop(rec)?;
        self.order.push(Mark::Publish(rec)).unwrap();
        Ok(())
    }
}
