//! The device: the lock, with the board, the trace and its index beside it.
ghost use Rattle.std.specs.Prelude.{◌≡◌, ℕ, ◌+◌, ◌<◌, IfOk, IfErr, OnErr, Some, length, slice_get};
ghost use Rattle.std.specs.Prelude.{slice_index_or, replicate};
ghost use Rattle.sv_model.specs.Lawful.{IsLawful};
ghost use Rattle.sv_record.specs.Indexed.{IsIndexOf};
ghost use Rattle.sv_share.specs.Values.{share_is, book_is};
ghost use Rattle.sv_device.specs.Actors.{actor_is, actors_of, mark_at, script_of};
ghost use Rattle.sv_device.specs.Devices.{IsReceipt, IsStopIn};
ghost use Rattle.sv_device.specs.Indexed.{IsIndexOf-prop};
ghost use Rattle.sv_device.specs.declared.who.Who.{Who};

use crate::actor::Actor;
use crate::kept::Kept;
use crate::recording::event_at;
use crate::scripts::actors;
use crate::who::Who;
use std::alloc::{AllocError, Global};
use std::sync::{Mutex, Wait};
use sv_core::{Stop, Validator};
use sv_model::line::Trace;
use sv_range::{Duplicate, List};
use sv_record::index::Index;
use sv_share::{Board, Book, Case, Receipt, Share};

/// The lock, with the board beside it, and a copy of the trace with its index, from which recorders record.
#[derive(Drop)]
pub struct Device<C: Case> {
    lock: Mutex<Kept<C>>,
    board: Board,
    trace: Trace,
    index: Index,
    ghost named: { board ≡ C.board },
    ghost traced: { trace ≡ C.trace },
    ghost indexed: { IsIndexOf C.trace index } by { IsIndexOf-prop C.trace index },
}

impl<C: Case> Device<C> {
    /// A device with an empty history, and an actor for each script that is not empty, lanes by number and
    /// then recorders by number. The i-th actor has the i-th share.
    pub fn open(
        alloc: Global,
        trace: &Trace,
        board: Board,
        book: Book,
        shares: List<Share>,
    ) -> Result<(Device<C>, List<Actor<C>>), AllocError>
        requires lawful { IsLawful trace.now }
        requires trace { trace.now ≡ C.trace }
        requires board { (board ≡ C.board) × (book ≡ book_is C.board (replicate 32 0)) }
        requires count { length shares ≡ length (actors_of trace.now) }
        requires shares { (i : ℕ) (d : _) → i < length shares → slice_index_or shares i d
            ≡ share_is C.board i 0 }
        ensures count { IfOk result (λ opened. length opened.1 ≡ length (actors_of trace.now)) }
        ensures actors { IfOk result (λ opened. (i : ℕ) (who : Who) (d : _)
            → slice_get (actors_of trace.now) i ≡ Some who → slice_index_or opened.1 i d ≡ actor_is who i 0) }
    {
        let all = actors(alloc, trace)?;
        let actors = seated(alloc, trace, all.as_slice(), shares)?;
        let validator = Validator::open(alloc, trace)?;
        let index = Index::new(alloc, trace)?;
        let trace = trace.copy()?;
        let lock = Mutex::new(Kept::new(validator, book));
        let device = Device {
            lock,
            board,
            trace,
            index,
        };
        Ok((device, actors))
    }

    /// The actor's next event. Where the validator stops, or memory is missing, the actor stands.
    pub fn step<R: Wait>(&self, rt: &R, actor: &mut Actor<C>) -> Result<Receipt, Stop>
        requires { actor.old.place < length (script_of C.trace actor.old.who) }
        ensures ok { IfOk result (λ receipt. IsReceipt C.trace
            (mark_at C.trace actor.old.who actor.old.place) receipt) }
        ensures moved { IfOk result (λ receipt. actor.new
            ≡ actor_is actor.old.who actor.old.index (actor.old.place + 1)) }
        ensures stands { OnErr result (actor.new ≡ actor.old) }
        ensures cause { IfErr result (IsStopIn C.trace) }
    {
        let Ok(event) = event_at(&self.trace, &self.index, actor.who, actor.place) else {
            return Err(Stop::Memory);
        };
        let Some(share) = actor.share.take() else {
            unreachable!();
        };
        let (share, answer) = self.lock.lock(rt).make(&self.board, share, event);
        actor.share = Some(share);
        if answer.is_ok() {
            actor.place += 1;
        }
        answer
    }

    /// What lay under the lock, and the board.
    pub fn into_parts(self) -> (Kept<C>, Board)
        ensures { result.1 ≡ C.board }
    {
        let Device { lock, board, .. } = self;
        (lock.into_inner(), board)
    }
}

// The actors with their shares.
fn seated<C: Case>(
    alloc: Global,
    trace: &Trace,
    all: &[Who],
    shares: List<Share>,
) -> Result<List<Actor<C>>, AllocError>
    requires lawful { IsLawful trace.now }
    requires trace { trace.now ≡ C.trace }
    requires all { all.now ≡ actors_of trace.now }
    requires count { length shares ≡ length all.now }
    requires shares { (i : ℕ) (d : _) → i < length shares → slice_index_or shares i d ≡ share_is C.board i 0 }
    ensures count { IfOk result (λ actors. length actors ≡ length all.now) }
    ensures actors { IfOk result (λ actors. (i : ℕ) (who : Who) (d : _) → slice_get all.now i ≡ Some who
        → slice_index_or actors i d ≡ actor_is who i 0) }
{
    let mut shares = shares.into_vec();
    let mut actors = Vec::new(alloc);
    for who in all {
        let share = shares.remove(0);
        actors.push(Actor::new(trace, *who, share))?;
    }
    Ok(List::from_vec(actors))
}
