//! The cells of a resource on a line, and what is known of them.
ghost use Rattle.std.specs.Prelude.{◌≡◌, [], ◌∷◌, ◌+◌, ◌*◌, ◌<◌, ◌≤◌, ◌↔◌, ℕ, All, AllPairs, IfOk, IsTrue};
ghost use Rattle.std.specs.Prelude.{OnOk, length};
ghost use Rattle.sv_model.specs.Cells as cells;
ghost use Rattle.sv_range.specs.Spans.{EndsBefore};
ghost use Rattle.sv_range.specs.Lines.{InSome};
ghost use Rattle.sv_rangemap.specs.Lines.{ArePartsOf, ArePlaces, BeginsAt, IsBoundary, KeepBegins};
ghost use Rattle.sv_space.specs.Lines.{IsShaped, IsShaped-prop, IsInMip, LiesOn, area_on, cell_on, first_on};
ghost use Rattle.sv_space.specs.Runs.{runs_of};
ghost use Rattle.sv_space.specs.Spans.{spans_in};

use crate::cutting::cut;
use crate::known::Known;
use crate::log::Log;
use crate::places::places_of;
use crate::shape::Shape;
use crate::spans::{Spans, box_runs};
use std::alloc::{AllocError, Global};
use sv_model::work::{Area, Cell};
use sv_range::{Cells, List, Span};
use sv_rangemap::RangeMap;

/// What is known of the cells of one resource.
#[derive(Drop)]
pub struct Line {
    pub res: u32,
    pub shape: Shape,
    pub pieces: RangeMap<Known>,
    pub ghost shaped: { IsShaped shape pieces.size } by { IsShaped-prop shape pieces.size },
}

/// The cell with that number on the line of a resource.
pub fn cell_of(res: u32, shape: Shape, number: u64) -> Cell
    requires { (size : ℕ) × IsShaped shape size × (number < size) }
    ensures { result ≡ cell_on res shape number }
{
    match shape {
        Shape::Bytes => Cell::Byte { res, at: number },
        Shape::Mips { layers, .. } => Cell::Texel {
            res,
            mip: (number / u64::from(layers)) as u32,
            layer: (number % u64::from(layers)) as u32,
        },
    }
}

/// The cells of a span of the line, which stays in one mip.
pub fn area_of(res: u32, shape: Shape, span: Span) -> Area
    requires order { span.start < span.end }
    requires inside { (size : ℕ) × IsShaped shape size × (span.end ≤ size) }
    requires in_mip { IsInMip shape span }
    ensures { result ≡ area_on res shape span }
{
    match shape {
        Shape::Bytes => Area::Bytes { res, span },
        Shape::Mips { layers, .. } => Area::Image {
            res,
            cells: Cells {
                mip: (span.start / u64::from(layers)) as u32,
                mips: 1,
                layer: (span.start % u64::from(layers)) as u32,
                layers: (span.end - span.start) as u32,
            },
        },
    }
}

/// The first cell of a span, as a span.
fn first_cell(span: Span) -> Span
    requires { span.start < span.end }
    ensures { result ≡ record { start = span.start; end = span.start + 1 } }
{
    Span {
        start: span.start,
        end: span.start + 1,
    }
}

/// The number on the line of the first cell of an area.
pub fn first_of(shape: Shape, area: &Area) -> u64
    requires { (res size : ℕ) × IsShaped shape size × LiesOn res shape size area.now }
    ensures below { (res size : ℕ) → IsShaped shape size → LiesOn res shape size area.now → result < size }
    ensures is { result ≡ first_on shape area.now }
{
    match (*area, shape) {
        (Area::Bytes { span, .. }, _) => span.start,
        (Area::Image { cells, .. }, Shape::Mips { layers, .. }) => {
            u64::from(cells.mip) * u64::from(layers) + u64::from(cells.layer)
        }
        (Area::Image { .. }, Shape::Bytes) => 0,
    }
}

/// The spans of the line that an area of the resource has, in order.
pub fn spans_of(alloc: Global, shape: Shape, area: Area) -> Result<Spans, AllocError>
    requires { (res size : ℕ) × IsShaped shape size × LiesOn res shape size area }
    ensures ascending { IfOk result (λ spans. AllPairs EndsBefore (spans_in spans)) }
    ensures in_mip { IfOk result (λ spans. All (IsInMip shape) (spans_in spans)) }
    ensures inside { (res size : ℕ) → IsShaped shape size → LiesOn res shape size area
        → IfOk result (λ spans. All (λ (span : Span). (span.start < span.end) × (span.end ≤ size))
        (spans_in spans)) }
    ensures cells { (res size : ℕ) → IsShaped shape size → LiesOn res shape size area
        → IfOk result (λ spans. (number : ℕ) → number < size
        → InSome (spans_in spans) number ↔ IsTrue (cells.covers area (cell_on res shape number))) }
    ensures few { IfOk result (λ spans. length (spans_in spans) ≤ runs_of area) }
{
    match (area, shape) {
        (Area::Bytes { span, .. }, _) => Ok(Spans::One(span)),
        (Area::Image { cells, .. }, Shape::Mips { layers, .. }) => {
            box_runs(alloc, cells, layers)
        }
        (Area::Image { .. }, Shape::Bytes) => Ok(Spans::Many(List::new(alloc))),
    }
}

impl Line {
    ghost use Rattle.sv_model.specs.declared.work.Area.{Area};
    ghost use Rattle.std.specs.Prelude.{◌≢◌, Contains, List, slice_index_or};
    ghost use Rattle.sv_model.specs.Reports.{AreNumbered};
    ghost use Rattle.sv_model.specs.declared.work.Step.{Step};
    ghost use Rattle.sv_rangemap.specs.Lines.{HaveSameSpans};
    ghost use Rattle.sv_rangemap.specs.declared.part.Part.{Part};
    ghost use Rattle.sv_space.specs.Counts.{pieces_on};
    ghost use Rattle.sv_space.specs.Cut.{AreApart, ArePartsLater, IsCaughtFor, IsCutFor};
    ghost use Rattle.sv_space.specs.Known.{groups_in};
    ghost use Rattle.sv_space.specs.Pieces.{AreWithin, IsFresh, IsLineOf, IsPieceOf, IsSameLine};
    ghost use Rattle.sv_space.specs.declared.known.Known.{Known};

    /// The line of a resource with so many cells, before any work.
    pub fn new(alloc: Global, res: u32, shape: Shape, size: u64) -> Result<Line, AllocError>
        requires some { 0 < size }
        requires shaped { IsShaped shape size }
        ensures fresh { IfOk result IsFresh }
        ensures resource { IfOk result (λ line. (line.res ≡ res) × (line.shape ≡ shape)
            × (line.pieces.size ≡ size)) }
    {
        let pieces = RangeMap::new(alloc, size, Known::new(alloc))?;
        Ok(Line { res, shape, pieces })
    }

    /// Gives the piece at that place the groups that it lacks, and tells how many those were.
    fn catch_up_at(&mut self, alloc: Global, log: &Log, index: usize) -> Result<u64, AllocError>
        requires listed { index < length self.old.pieces.parts.items }
        requires within { AreWithin (length log.now) self.old.pieces.parts.items }
        ensures line { IsSameLine self.old self.new }
        ensures spans { HaveSameSpans self.old.pieces.parts.items self.new.pieces.parts.items }
        ensures within { AreWithin (length log.now) self.new.pieces.parts.items }
        ensures others { (k : ℕ) (d : Part Known) → k ≢ index
            → slice_index_or self.new.pieces.parts.items k d
            ≡ slice_index_or self.old.pieces.parts.items k d }
        ensures caught { OnOk result ((work : List Step) (d : Part Known) → AreNumbered work → log.now
            ≡ groups_in work
            → IsPieceOf work self.old.res self.old.shape (slice_index_or self.old.pieces.parts.items index d)
            → IsPieceOf work self.old.res self.old.shape
            (slice_index_or self.new.pieces.parts.items index d)) }
        ensures upto { OnOk result ((d : Part Known)
            → (slice_index_or self.new.pieces.parts.items index d).value.upto ≡ length log.now) }
        ensures given { IfOk result (λ given. (d : Part Known) → given
            + (slice_index_or self.old.pieces.parts.items index d).value.upto ≡ length log.now) }
    {
        let (span, _) = self.pieces.piece(index);
        let at = area_of(self.res, self.shape, first_cell(span));
        let mut known = self.pieces.replace(index, Known::new(alloc));
        let given = known.catch_up(log, &at)?;
        let _spare = self.pieces.replace(index, known);
        Ok(given)
    }

    /// Gives the pieces at these places the groups that they lack, and tells how many those were.
    fn catch_up(&mut self, alloc: Global, log: &Log, places: &[usize]) -> Result<u64, AllocError>
        requires listed { (k : ℕ) → Contains places.now k → k < length self.old.pieces.parts.items }
        requires within { AreWithin (length log.now) self.old.pieces.parts.items }
        ensures line { IsSameLine self.old self.new }
        ensures spans { HaveSameSpans self.old.pieces.parts.items self.new.pieces.parts.items }
        ensures within { AreWithin (length log.now) self.new.pieces.parts.items }
        ensures stands { OnOk result ((work : List Step) → AreNumbered work → log.now ≡ groups_in work
            → IsLineOf work self.old.res self.old.shape self.old.pieces.parts.items
            → IsLineOf work self.old.res self.old.shape self.new.pieces.parts.items) }
        ensures later { OnOk result (ArePartsLater
            (length log.now) self.new.pieces.parts.items self.old.pieces.parts.items) }
        ensures caught { OnOk result ((k : ℕ) (d : Part Known) → Contains places.now k
            → (slice_index_or self.new.pieces.parts.items k d).value.upto ≡ length log.now) }
        ensures others { OnOk result ((k : ℕ) (d : Part Known) → (Contains places.now k → ⊥)
            → slice_index_or self.new.pieces.parts.items k d
            ≡ slice_index_or self.old.pieces.parts.items k d) }
        ensures none { IfOk result (λ given. ((k : ℕ) (d : Part Known) → Contains places.now k
            → (slice_index_or self.old.pieces.parts.items k d).value.upto ≡ length log.now) → given ≡ 0) }
    {
        let mut given = 0u64;
        for place in places {
            let more = self.catch_up_at(alloc, log, *place)?;
            given = given.saturating_add(more);
        }
        Ok(given)
    }

    /// Makes pieces begin and end where the area does, gives those inside the groups that they lack, and
    /// tells how many those were.
    pub fn prepare(&mut self, alloc: Global, log: &Log, area: Area) -> Result<u64, AllocError>
        requires lies { LiesOn self.old.res self.old.shape self.old.pieces.size area }
        requires within { AreWithin (length log.now) self.old.pieces.parts.items }
        ensures line { IsSameLine self.old self.new }
        ensures within { AreWithin (length log.now) self.new.pieces.parts.items }
        ensures stands { OnOk result ((work : List Step) → AreNumbered work → log.now ≡ groups_in work
            → IsLineOf work self.old.res self.old.shape self.old.pieces.parts.items
            → IsLineOf work self.old.res self.old.shape self.new.pieces.parts.items) }
        ensures later { OnOk result (ArePartsLater
            (length log.now) self.new.pieces.parts.items self.old.pieces.parts.items) }
        ensures cut { OnOk result (IsCutFor area self.old.res self.old.shape self.new.pieces.parts.items) }
        ensures caught { OnOk result (IsCaughtFor area
            (length log.now) self.old.res self.old.shape self.new.pieces.parts.items) }
        ensures others { OnOk result ((at : Area) (n : ℕ) → AreApart area at
            → IsCaughtFor at n self.old.res self.old.shape self.old.pieces.parts.items
            → IsCaughtFor at n self.old.res self.old.shape self.new.pieces.parts.items) }
        ensures few { OnOk result (pieces_on self.new ≤ pieces_on self.old + 2 * runs_of area) }
        ensures none { IfOk result (λ given. IsCaughtFor area
            (length log.now) self.old.res self.old.shape self.old.pieces.parts.items → given ≡ 0) }
    {
        cut(alloc, self, area)?;
        let places = places_of(alloc, self, area)?;
        self.catch_up(alloc, log, places.as_slice())
    }
}
