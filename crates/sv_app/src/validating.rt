//! The validator of a trace, after all events of its text order.
ghost use Rattle.std.specs.Prelude.{◌≡◌, IfOk, false};
ghost use Rattle.sv_core.specs.Marks.{IsOwn, mark_of};
ghost use Rattle.sv_model.specs.History.{IsOfTrace};
ghost use Rattle.sv_model.specs.Lawful.{IsLawful};
ghost use Rattle.sv_record.specs.Indexed.{IsIndexOf};

use std::alloc::{AllocError, Global};
use sv_core::Validator;
use sv_model::line::{Mark, Trace};
use sv_model::recorded::Event;
use sv_record::index::Index;
use sv_record::record;

// The event of the mark: a publication carries its recording. The index is the trace's.
fn event_of(alloc: Global, trace: &Trace, index: &Index, mark: Mark) -> Result<Event, AllocError>
    requires indexed { IsIndexOf trace.now index.now }
    requires lawful { IsLawful trace.now }
    requires of_trace { IsOfTrace trace.now mark }
    ensures mark { IfOk result (λ event. mark_of event ≡ mark) }
    ensures own { IfOk result (IsOwn trace.now) }
{
    match mark {
        Mark::Publish(number) => {
            let recorded = record(alloc, trace, index, number)?;
            Ok(Event::Publish(recorded))
        }
        Mark::Call { lane, index } => Ok(Event::Call { lane, index }),
    }
}

/// The validator of the trace after its text order.
pub fn validate(alloc: Global, trace: &Trace) -> Result<Validator, AllocError>
    requires { IsLawful trace.now }
    ensures trace { IfOk result (λ v. v.trace ≡ trace.now) }
    ensures history { IfOk result (λ v. v.history ≡ trace.now.text_order) }
    ensures unspent { IfOk result (λ v. v.spent ≡ false) }
{
    let index = Index::new(alloc, trace)?;
    let mut validator = Validator::open(alloc, trace)?;
    for mark in trace.text_order.as_slice() {
        let event = event_of(alloc, trace, &index, *mark)?;
        if validator.apply(event).is_err() {
            return Err(AllocError);
        }
    }
    Ok(validator)
}
