//! The map, and its pieces one by one.
ghost use Rattle.std.specs.Prelude.{◌≡◌, [], ◌∷◌, ◌<◌, ◌^◌, IfOk, length, set, slice_index_or};
ghost use Rattle.sv_rangemap.specs.declared.part.Part.{Part};
ghost use Rattle.sv_rangemap.specs.Lines.{Cover, IsAt, IsReplaced, IsValueAt};

use crate::chunks::Chunks;
use crate::{Part, Piece};
use std::alloc::{AllocError, Global};
use std::mem::replace;
use sv_range::Span;

/// A value for each cell of the line `0..size`, kept in pieces: spans of neighbouring cells with one
/// value each, in order, without gap or overlap.
#[derive(Drop)]
pub struct RangeMap<V> {
    pub(crate) size: u64,
    pub(crate) parts: Chunks<Part<V>>,
    pub ghost cover: { Cover size parts.items },
    pub ghost fits: { length parts.items < 2 ^ 64 },
}

impl<V: Piece> RangeMap<V> {
    /// One piece: the value for each cell.
    pub fn new(alloc: Global, size: u64, value: V) -> Result<RangeMap<V>, AllocError>
        requires { 0 < size }
        ensures size { IfOk result (λ map. map.size ≡ size) }
        ensures whole { IfOk result (λ map. map.parts.items
            ≡ record { span = record { start = 0; end = size }; value = value } ∷ []) }
    {
        let span = Span {
            start: 0,
            end: size,
        };
        let parts = Chunks::one(alloc, Part { span, value })?;
        Ok(RangeMap { size, parts })
    }

    /// The number of cells.
    pub fn size(&self) -> u64
        ensures { result ≡ self.now.size }
    {
        self.size
    }

    /// The number of pieces.
    pub fn len(&self) -> usize
        ensures { result ≡ length self.now.parts.items }
    {
        self.parts.len()
    }

    /// The piece at that place: its span, and the value of its cells.
    pub fn piece(&self, index: usize) -> (Span, &V)
        requires { index < length self.now.parts.items }
        ensures { (d : Part V) → slice_index_or self.now.parts.items index d
            ≡ record { span = result.0; value = result.1.now } }
    {
        let part = self.parts.get(index);
        (part.span, &part.value)
    }

    /// The place of the piece that has the cell.
    pub fn index_of(&self, cell: u64) -> usize
        requires { cell < self.now.size }
        ensures { IsAt self.now.parts.items cell result }
    {
        let mut low = 0;
        let mut high = self.parts.len();
        while high - low > 1 {
            let middle = low + (high - low) / 2;
            if self.parts.get(middle).span.start <= cell {
                low = middle;
            } else {
                high = middle;
            }
        }
        low
    }

    /// The value of the cell.
    pub fn get(&self, cell: u64) -> &V
        requires { cell < self.now.size }
        ensures { IsValueAt self.now.parts.items cell result.now }
    {
        let index = self.index_of(cell);
        &self.parts.get(index).value
    }

    /// Gives the piece at that place another value, and hands the one back that it had.
    pub fn replace(&mut self, index: usize, value: V) -> V
        requires { index < length self.old.parts.items }
        ensures size { self.new.size ≡ self.old.size }
        ensures had { (d : Part V) → (slice_index_or self.old.parts.items index d).value ≡ result }
        ensures replaced { IsReplaced index value self.old.parts.items self.new.parts.items }
        ensures put { (d : Part V) → self.new.parts.items
            ≡ set self.old.parts.items index (record
            { span = (slice_index_or self.old.parts.items index d).span; value = value }) }
    {
        replace(&mut self.parts.get_mut(index).value, value)
    }
}
