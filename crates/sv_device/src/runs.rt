//! A whole replay.
ghost use Rattle.std.specs.Prelude.{◌≡◌, ℕ, ◌+◌, ◌<◌, IfOk, false, length, slice_index_or, replicate};
ghost use Rattle.sv_model.specs.History.{IsWhole};
ghost use Rattle.sv_model.specs.Lawful.{IsLawful};
ghost use Rattle.sv_model.specs.Replies.{AreReplies};
ghost use Rattle.sv_share.specs.Values.{share_is, book_is};
ghost use Rattle.sv_device.specs.Actors.{actors_of};

use crate::actor::Actor;
use crate::device::Device;
use crate::finish::finish;
use crate::scripts::actors;
use std::alloc::{AllocError, Global};
use std::sync::Wait;
use std::thread;
use std::thread::Threads;
use sv_core::Validator;
use sv_io::Pace;
use sv_model::line::Trace;
use sv_range::List;
use sv_share::{Board, Book, Brand, Case, Share};

/// Runs every lane and recorder of a lawful trace, each in a thread of its own where threads can be made.
/// With an answer the history is a whole one. Fails only for want of memory.
pub fn replay<P: Pace + Sync, R: Threads + Wait + Sync>(
    rt: &R,
    alloc: Global,
    trace: &Trace,
    pace: &P,
) -> Result<Validator, AllocError>
    requires { IsLawful trace.now }
    ensures trace { IfOk result (λ v. v.trace ≡ trace.now) }
    ensures whole { IfOk result (λ v. IsWhole trace.now v.history) }
    ensures unspent { IfOk result (λ v. v.spent ≡ false) }
    ensures replies { IfOk result (λ v. AreReplies trace.now v.history v.replies) }
{
    let all = actors(alloc, trace)?;
    let (board, book, shares) = Board::open(alloc, all.len() as u32)?;
    replay_in::<Brand, P, R>(rt, alloc, trace, pace, board, book, shares)
}

fn replay_in<C: Case + Send + Sync, P: Pace + Sync, R: Threads + Wait + Sync>(
    rt: &R,
    alloc: Global,
    trace: &Trace,
    pace: &P,
    board: Board,
    book: Book,
    shares: List<Share>,
) -> Result<Validator, AllocError>
    requires lawful { IsLawful trace.now }
    requires trace { trace.now ≡ C.trace }
    requires board { (board ≡ C.board) × (book ≡ book_is C.board (replicate 32 0)) }
    requires count { length shares ≡ length (actors_of trace.now) }
    requires shares { (i : ℕ) (d : _) → i < length shares → slice_index_or shares i d ≡ share_is C.board i 0 }
    ensures trace { IfOk result (λ v. v.trace ≡ trace.now) }
    ensures whole { IfOk result (λ v. IsWhole trace.now v.history) }
    ensures unspent { IfOk result (λ v. v.spent ≡ false) }
    ensures replies { IfOk result (λ v. AreReplies trace.now v.history v.replies) }
{
    let (device, actors) = Device::<C>::open(alloc, trace, board, book, shares)?;
    let mut actors = actors.into_vec();
    run_all(rt, &device, pace, actors.as_mut_slice());
    let (kept, board) = device.into_parts();
    finish(kept, &board, actors)
}

// Runs each actor to its end, or to its first stop.
fn run_all<C: Case + Send + Sync, P: Pace + Sync, R: Threads + Wait + Sync>(
    rt: &R,
    device: &Device<C>,
    pace: &P,
    actors: &mut [Actor<C>],
)
    ensures { (i : ℕ) (d : _) → i < length actors.old → (slice_index_or actors.new i d).index
        ≡ (slice_index_or actors.old i d).index }
{
    thread::for_each_mut(rt, actors, 32, &|_, actor| run(rt, device, pace, actor));
}

fn run<C: Case, P: Pace, R: Wait>(rt: &R, device: &Device<C>, pace: &P, actor: &mut Actor<C>)
    ensures { actor.new.index ≡ actor.old.index }
{
    for _ in 0..actor.left() {
        pace.arrive(actor.number(), actor.place());
        if device.step(rt, actor).is_err() {
            return;
        }
    }
}
