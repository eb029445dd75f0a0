//! The events of a text, one after another, in an order of its actors that is given.
ghost use Rattle.std.specs.Prelude.{◌≡◌, ℕ, ◌<◌, IfOk, length, slice_index_or, replicate};
ghost use Rattle.sv_model.specs.Lawful.{IsLawful};
ghost use Rattle.sv_share.specs.Values.{share_is, book_is};
ghost use Rattle.sv_device.specs.Actors.{actors_of};

use std::alloc::{AllocError, Global};
use std::sync::Wait;
use sv_check::read_text;
use sv_core::Validator;
use sv_device::{Actor, Device, actors};
use sv_model::line::Trace;
use sv_model::work::Reply;
use sv_range::List;
use sv_report::text as history_text;
use sv_share::{Board, Book, Brand, Case, Share};

// The actor's next event, where it has one. The reply is kept unless its number is another than that of the
// event.
fn step<C: Case, R: Wait>(
    rt: &R,
    device: &Device<C>,
    actor: &mut Actor<C>,
    replies: &mut List<Reply>,
) -> Result<(), AllocError> {
    if actor.left() == 0 {
        return Ok(());
    }
    let Ok(receipt) = device.step(rt, actor) else {
        return Err(AllocError);
    };
    if receipt.number != replies.len() as u64 {
        return Ok(());
    }
    replies.push_or_drop(receipt.reply)
}

// One event of each actor that is named: lane n by n, and recorder n by 16 + n.
fn step_all<C: Case, R: Wait>(
    rt: &R,
    device: &Device<C>,
    actors: &mut [Actor<C>],
    order: &[u32],
    replies: &mut List<Reply>,
) -> Result<(), AllocError> {
    for number in order {
        for actor in actors.iter_mut() {
            if actor.number() == *number {
                step(rt, device, actor, replies)?;
            }
        }
    }
    Ok(())
}

// The validator after the events of that order, and the replies that the actors got.
fn replay<C: Case, R: Wait>(
    rt: &R,
    alloc: Global,
    trace: &Trace,
    board: Board,
    book: Book,
    shares: List<Share>,
    order: &[u32],
) -> Result<(Validator, List<Reply>), AllocError>
    requires lawful { IsLawful trace.now }
    requires trace { trace.now ≡ C.trace }
    requires board { (board ≡ C.board) × (book ≡ book_is C.board (replicate 32 0)) }
    requires count { length shares ≡ length (actors_of trace.now) }
    requires shares { (i : ℕ) (d : _) → i < length shares → slice_index_or shares i d ≡ share_is C.board i 0 }
{
    let (device, actors) = Device::<C>::open(alloc, trace, board, book, shares)?;
    let mut actors = actors.into_vec();
    let mut replies = List::new(alloc);
    step_all(rt, &device, actors.as_mut_slice(), order, &mut replies)?;
    let (kept, _) = device.into_parts();
    Ok((kept.into_validator(), replies))
}

/// The validator of a trace after the events of that order, and the replies that the actors got.
pub fn validate<R: Wait>(
    rt: &R,
    alloc: Global,
    trace: &Trace,
    order: &[u32],
) -> Result<(Validator, List<Reply>), AllocError>
    requires { IsLawful trace.now }
{
    let all = actors(alloc, trace)?;
    let (board, book, shares) = Board::open(alloc, all.len() as u32)?;
    replay::<Brand, R>(rt, alloc, trace, board, book, shares, order)
}
