//! A number as the value of a cell.
use std::alloc::AllocError;
use sv_rangemap::Piece;

#[derive(Clone, Copy, Drop)]
pub struct Number {
    pub value: u64,
}

impl Piece for Number {
    ghost use Rattle.std.specs.Prelude.{◌==◌};
    ghost use Rattle.std.proofs.Common.{rules};
    ghost use Rattle.std.proofs.lemmas.Bool.{eqb-true};

    ghost is_same = { λ a b. a.value == b.value };

    fn copy(&self) -> Result<Number, AllocError> {
        Ok(*self)
    }

    fn same(&self, other: &Number) -> bool {
        self.value == other.value
    }

    ghost same_are_equal = { λ a b same. Prim.search (rules, eqb-true) };
}
