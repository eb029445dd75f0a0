//! Lists of parts.
ghost use Rattle.std.specs.Prelude.{◌≡◌, [], IfOk};
ghost use Rattle.serde_json.specs.Data.{Data};
ghost use Rattle.serde_json.specs.View.{view, items_view};
ghost use Rattle.sv_json.specs.Form.{found, items_flaw, items_say, list, member, or_else};

use crate::found::{Flaw, Found};
use crate::part::{Part, Whole};
use serde_json::Value;
use std::alloc::{AllocError, Global};
use std::marker::PhantomData;
use sv_range::List;

/// A part without lists as an item of a list.
pub struct Plain<P>(PhantomData<P>);

impl<P: Part> Whole for Plain<P> {
    type Made = P::Made;

    ghost form = { P.form };

    fn read(_alloc: Global, value: &Value) -> Result<Found<P::Made>, AllocError> {
        Ok(P::read(value))
    }
}

fn read_items<W: Whole>(alloc: Global, items: &[Value]) -> Result<Found<List<W::Made>>, AllocError>
    ensures { IfOk result (λ it. it ≡ found (items_flaw W.form (items_view items.now))
        (items_say W.form (items_view items.now))) }
{
    let mut flaw = Flaw::Fine;
    let mut parts = List::new(alloc);
    for item in items {
        let part = W::read(alloc, item)?;
        flaw = flaw.least(part.flaw);
        parts.push_or_drop(part.value)?;
    }
    Ok(Found { flaw, value: parts })
}

/// A list of parts, each of which is read in the form of W. Fails only for want of memory.
#[tactic(auto, unfolding(crate::specs::Form::list))]
pub fn read_list<W: Whole>(alloc: Global, value: &Value) -> Result<Found<List<W::Made>>, AllocError>
    ensures { IfOk result (λ it. it ≡ list W.form (view value.now)) }
{
    match value.as_array() {
        Some(items) => read_items::<W>(alloc, items),
        None => Ok(Found {
            flaw: Flaw::Shape,
            value: List::new(alloc),
        }),
    }
}

/// The member of this name, a list of parts. Fails only for want of memory.
#[tactic(auto, unfolding(crate::specs::Form::member))]
pub fn list_at<W: Whole>(
    alloc: Global,
    value: &Value,
    name: &str,
) -> Result<Found<List<W::Made>>, AllocError>
    ensures { IfOk result (λ it. it ≡ member name.now (list W.form) (view value.now)) }
{
    match value.get(name) {
        Some(found) => read_list::<W>(alloc, found),
        None => read_list::<W>(alloc, &Value::Null),
    }
}

/// The member of this name, a list of parts, which is empty where the member is missing. Fails only for
/// want of memory.
#[tactic(auto, unfolding(crate::specs::Form::or_else))]
pub fn maybe_list_at<W: Whole>(
    alloc: Global,
    value: &Value,
    name: &str,
) -> Result<Found<List<W::Made>>, AllocError>
    ensures { IfOk result (λ it. it ≡ or_else name.now (list W.form) [] (view value.now)) }
{
    match value.get(name) {
        Some(found) => read_list::<W>(alloc, found),
        None => Ok(Found {
            flaw: Flaw::Fine,
            value: List::new(alloc),
        }),
    }
}
