//! The end of a replay.
ghost use Rattle.std.specs.Prelude.{◌≡◌, ℕ, ◌<◌, IfOk, false, length, slice_index_or};
ghost use Rattle.sv_model.specs.History.{IsWhole};
ghost use Rattle.sv_model.specs.Replies.{AreReplies};
ghost use Rattle.sv_device.specs.Actors.{actors_of};

use crate::actor::Actor;
use crate::kept::Kept;
use std::alloc::AllocError;
use sv_core::Validator;
use sv_share::{Board, Case};

/// Shows for each actor that its whole script stands in the history. Fails where one did not come to its end.
pub fn finish<C: Case>(
    kept: Kept<C>,
    board: &Board,
    actors: Vec<Actor<C>>,
) -> Result<Validator, AllocError>
    requires board { board.now ≡ C.board }
    requires count { length actors.items ≡ length (actors_of C.trace) }
    requires actors { (i : ℕ) (d : _) → i < length actors.items → (slice_index_or actors.items i d).index
        ≡ i }
    ensures trace { IfOk result (λ v. v.trace ≡ C.trace) }
    ensures whole { IfOk result (λ v. IsWhole C.trace v.history) }
    ensures unspent { IfOk result (λ v. v.spent ≡ false) }
    ensures replies { IfOk result (λ v. AreReplies C.trace v.history v.replies) }
{
    let mut kept = kept;
    let mut actors = actors;
    for _ in 0..actors.len() {
        let actor = actors.remove(0);
        if actor.left() > 0 {
            return Err(AllocError);
        }
        kept.compare(board, actor.into_share());
    }
    let validator = kept.into_validator();
    // What these two say of the history and of the replies is what is handed on.
    validator.history();
    validator.replies();
    Ok(validator)
}
