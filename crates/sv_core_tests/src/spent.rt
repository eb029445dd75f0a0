//! What a validator answers behind a refusal of memory. Where memory is ample nothing is refused here:
//! tools/fail-each-growth runs this test and refuses each of its growths in turn.
ghost use Rattle.std.specs.Prelude.{◌≡◌, ℕ, ◌<◌, length, slice_index_or, replicate};
ghost use Rattle.sv_model.specs.Lawful.{IsLawful};
ghost use Rattle.sv_share.specs.Values.{share_is, book_is};
ghost use Rattle.sv_device.specs.Actors.{actors_of};

use crate::frames::FRAME;
use crate::rows::{L0, L1, REC0, REC1, joined};
use std::alloc::{AllocError, Global};
use std::sync::Wait;
use std::test::Fail;
use sv_check::read_text;
use sv_core::{Spent, Stop, Validator};
use sv_device::{Actor, Device, actors};
use sv_model::line::Trace;
use sv_range::List;
use sv_share::{Board, Book, Brand, Case, Share};

// How an event went.
#[derive(Clone, Copy)]
enum Went {
    Answered,
    Spent,
    Wrong,
}

// Once more the event with that number, for which memory was missing. The validator is spent since then.
// Only a recorder takes memory before it gives its event to the validator, which then answers it.
fn step_again<C: Case, R: Wait>(
    rt: &R,
    device: &Device<C>,
    actor: &mut Actor<C>,
    number: u64,
) -> Went {
    if actor.left() == 0 {
        return Went::Wrong;
    }
    match device.step(rt, actor) {
        Err(Stop::Spent(spent)) if spent.number() == number => Went::Spent,
        Ok(receipt) if receipt.number == number && actor.number() >= REC0 => Went::Answered,
        _ => Went::Wrong,
    }
}

fn step<C: Case, R: Wait>(rt: &R, device: &Device<C>, actor: &mut Actor<C>, number: u64) -> Went {
    if actor.left() == 0 {
        return Went::Wrong;
    }
    match device.step(rt, actor) {
        Ok(receipt) if receipt.number == number => Went::Answered,
        Err(Stop::Memory) => step_again(rt, device, actor, number),
        _ => Went::Wrong,
    }
}

// The next event of the actor that is named.
fn step_of<C: Case, R: Wait>(
    rt: &R,
    device: &Device<C>,
    actors: &mut [Actor<C>],
    name: u32,
    number: u64,
) -> Went {
    for actor in actors.iter_mut() {
        if actor.number() == name {
            return step(rt, device, actor, number);
        }
    }
    Went::Wrong
}

// How the events of that order went up to the first that was not answered, and how many were.
fn step_all<C: Case, R: Wait>(
    rt: &R,
    device: &Device<C>,
    actors: &mut [Actor<C>],
    order: &[u32],
) -> (Went, usize) {
    for index in 0..order.len() {
        match step_of(rt, device, actors, order[index], index as u64) {
            Went::Answered => {}
            Went::Spent => return (Went::Spent, index),
            Went::Wrong => return (Went::Wrong, index),
        }
    }
    (Went::Answered, order.len())
}

// Whether each event is answered up to one that lacks memory, and behind that the validator is spent and
// has what it had.
fn keeps_what_it_had<C: Case, R: Wait>(
    rt: &R,
    alloc: Global,
    trace: &Trace,
    board: Board,
    book: Book,
    shares: List<Share>,
    order: &[u32],
) -> Result<bool, AllocError>
    requires lawful { IsLawful trace.now }
    requires trace { trace.now ≡ C.trace }
    requires board { (board ≡ C.board) × (book ≡ book_is C.board (replicate 32 0)) }
    requires count { length shares ≡ length (actors_of trace.now) }
    requires shares { (i : ℕ) (d : _) → i < length shares → slice_index_or shares i d ≡ share_is C.board i 0 }
{
    let (device, actors) = Device::<C>::open(alloc, trace, board, book, shares)?;
    let mut actors = actors.into_vec();
    let (went, count) = step_all(rt, &device, actors.as_mut_slice(), order);
    let (kept, _) = device.into_parts();
    let validator = kept.into_validator();
    let has_them = validator.history().len() == count && validator.replies().len() == count;
    Ok(has_them && !matches!(went, Went::Wrong))
}

fn is_spent_at_a_refusal<R: Wait>(
    rt: &R,
    alloc: Global,
    lines: &[&str],
    order: &[u32],
) -> Result<bool, AllocError> {
    let text = joined(alloc, lines)?;
    let Ok(trace) = read_text(alloc, text.as_slice()) else {
        return Err(AllocError);
    };
    let all = actors(alloc, &trace)?;
    let (board, book, shares) = Board::open(alloc, all.len() as u32)?;
    keeps_what_it_had::<Brand, R>(rt, alloc, &trace, board, book, shares, order)
}

#[test]
fn a_refusal_spends_the_validator(rt: HostRuntime) -> Result<(), Fail> {
    let order = [L0, L0, REC0, REC1, REC1, L1];
    let holds = is_spent_at_a_refusal(&rt, rt.alloc(), FRAME, &order)?;
    assert!(rt; holds, "an event behind a refusal");
    Ok(())
}
