//! The places of the pieces of an area.
ghost use Rattle.std.specs.Prelude.{◌≡◌, ◌++◌, ◌+◌, ◌-◌, ◌<◌, ◌≤◌, ◌⊎◌, ℕ, IfOk, List, OnOk, length};
ghost use Rattle.std.specs.Prelude.{slice_index_or};
ghost use Rattle.std.specs.List.{range_with_len};
ghost use Rattle.sv_range.specs.declared.span.Span.{Span};
ghost use Rattle.sv_space.specs.Cut.{ArePlacesOf};
ghost use Rattle.sv_space.specs.Lines.{LiesOn};
ghost use Rattle.sv_space.specs.Places.{AreListed};

use crate::line::{Line, spans_of};
use smallvec::SmallVec;
use std::alloc::{AllocError, Global};
use sv_model::work::Area;
use sv_range::Span;

/// Places of pieces. Where they are few they take no memory.
pub type Places = SmallVec<usize, 4>;

fn greater(a: usize, b: usize) -> usize
    ensures first { a ≤ result }
    ensures second { b ≤ result }
    ensures one { (result ≡ a) ⊎ (result ≡ b) }
{
    if a < b { b } else { a }
}

// Adds the numbers from one up to another.
fn push_numbers(list: &mut Places, from: usize, end: usize) -> Result<(), AllocError>
    ensures { OnOk result (list.new.items ≡ list.old.items ++ range_with_len from (end - from)) }
{
    for number in from..end {
        list.push(number)?;
    }
    Ok(())
}

// Adds the places, from `next` on, of the pieces with cells of a span, and tells from where on there may be
// others.
fn add_places(
    places: &mut Places,
    line: &Line,
    span: Span,
    next: usize,
) -> Result<usize, AllocError>
    requires order { span.start < span.end }
    requires inside { span.end ≤ line.now.pieces.size }
    ensures { IfOk result (λ after. (spans : List Span) (i : ℕ) → i < length spans
        → slice_index_or spans i span ≡ span
        → AreListed line.now.pieces.parts.items spans i next places.old.items
        → AreListed line.now.pieces.parts.items spans (i + 1) after places.new.items) }
{
    let first = line.pieces.index_of(span.start);
    let last = line.pieces.index_of(span.end - 1);
    push_numbers(places, greater(first, next), last + 1)?;
    Ok(greater(next, last + 1))
}

/// The places of the pieces that have cells of the area, in order.
pub fn places_of(alloc: Global, line: &Line, area: Area) -> Result<Places, AllocError>
    requires { LiesOn line.now.res line.now.shape line.now.pieces.size area }
    ensures { IfOk result (λ places. ArePlacesOf area line.now.res line.now.shape
        line.now.pieces.parts.items places.items) }
{
    let mut places = SmallVec::new(alloc);
    let mut next = 0;
    let spans = spans_of(alloc, line.shape, area)?;
    let list = spans.as_slice();
    for span in list {
        let after = add_places(&mut places, line, *span, next)?;
        next = after;
    }
    Ok(places)
}
