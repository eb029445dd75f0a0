//! What a replay is of, and what an actor is told.
use sv_model::work::Reply;

/// Names a trace and a board. Each call of a program picks both.
pub trait Case {
    ghost use Rattle.sv_model.specs.declared.line.Trace.{Trace};
    ghost use Rattle.atomic_table.specs.Seated.{TableId};

    ghost trace: { Trace };

    ghost board: { TableId };
}

impl Case for Brand {
    ghost use Rattle.sv_share.specs.Values.{no_board, no_trace};

    ghost trace = { no_trace };

    ghost board = { no_board };
}

pub use std::marker::Brand;

/// The number at which an event came to stand, and what it was answered.
#[derive(Drop)]
pub struct Receipt {
    pub number: u64,
    pub reply: Reply,
}
