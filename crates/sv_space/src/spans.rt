//! The spans that an area has on a line. Most areas have one, which takes no memory.
ghost use Rattle.std.specs.Prelude.{◌≡◌, ℕ, ◌+◌, ◌*◌, ◌<◌, ◌≤◌, ◌^◌, ◌↔◌, All, AllPairs, IfOk, length};
ghost use Rattle.sv_range.specs.Lines.{InBox, InSome, IsInOneMip, line_number};
ghost use Rattle.sv_range.specs.Spans.{EndsBefore, IsOrdered};
ghost use Rattle.sv_space.specs.Spans.{spans_in};

use std::alloc::{AllocError, Global};
use std::slice::from_ref;
use sv_range::{Cells, List, Span, runs};

/// One span, or any number of them.
#[derive(Drop)]
pub enum Spans {
    One(Span),
    Many(List<Span>),
}

impl Spans {
    /// The spans, in order.
    pub fn as_slice(&self) -> &[Span]
        ensures { result.now ≡ spans_in self.now }
    {
        match self {
            Spans::One(span) => from_ref(span),
            Spans::Many(spans) => spans.as_slice(),
        }
    }
}

// The run of the first mip of a box.
fn first_run(cells: Cells, layers: u32) -> Span
    ensures start { result.start ≡ cells.mip * layers + cells.layer }
    ensures end { result.end ≡ result.start + cells.layers }
{
    let start = u64::from(cells.mip) * u64::from(layers) + u64::from(cells.layer);
    let end = start + u64::from(cells.layers);
    Span { start, end }
}

/// The runs of a box, as `runs` of `sv_range` has them.
pub fn box_runs(alloc: Global, cells: Cells, layers: u32) -> Result<Spans, AllocError>
    requires has_layers { 0 < cells.layers }
    requires within { cells.layer + cells.layers ≤ layers }
    requires mips { cells.mip + cells.mips < 2 ^ 32 }
    ensures cells { IfOk result (λ spans. (mip layer : ℕ) → layer < layers
        → InSome (spans_in spans) (line_number layers mip layer) ↔ InBox cells mip layer) }
    ensures ascending { IfOk result (λ spans. AllPairs EndsBefore (spans_in spans)) }
    ensures in_one_mip { IfOk result (λ spans. All (IsInOneMip layers) (spans_in spans)) }
    ensures ordered { IfOk result (λ spans. All IsOrdered (spans_in spans)) }
    ensures one_each { IfOk result (λ spans. length (spans_in spans) ≡ cells.mips) }
{
    if cells.mips == 1 {
        return Ok(Spans::One(first_run(cells, layers)));
    }
    let all = runs(alloc, cells, layers)?;
    Ok(Spans::Many(all))
}
