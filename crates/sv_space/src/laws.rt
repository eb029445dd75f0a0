//! Laws of spaces. Each function does nothing: its contract is the law.
ghost use Rattle.sv_space.specs.Laws.{PiecesAreFew};

/// The pieces of a space are at most as many as the declared resources and twice the runs of the areas of its
/// work: of accesses, transitions, and what dependencies are limited to.
pub fn pieces_are_few()
    ensures { PiecesAreFew }
{}
