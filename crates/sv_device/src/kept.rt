//! What lies under the lock.
ghost use Rattle.std.specs.Prelude.{◌≡◌, ◌+◌, ◌<◌, ◌++◌, ◌∷◌, ℕ, [], Some, IfOk, IfErr, OnErr, OnOk};
ghost use Rattle.std.specs.Prelude.{length, slice_get, replicate};
ghost use Rattle.sv_model.specs.History.{IsWhole};
ghost use Rattle.sv_model.specs.Lawful.{IsLawful};
ghost use Rattle.sv_model.specs.Replies.{AreReplies};
ghost use Rattle.sv_core.specs.Marks.{IsOwn, IsStop, mark_of};
ghost use Rattle.sv_share.specs.Values.{share_is, book_is};
ghost use Rattle.sv_device.specs.Actors.{IsEventAt, actors_of, events_of};
ghost use Rattle.sv_device.specs.Devices.{IsReceipt, IsStopIn};
ghost use Rattle.sv_device.specs.declared.who.Who.{Who};

use std::marker::{Model, PhantomData};
use sv_core::{Stop, Validator};
use sv_model::recorded::Event;
use sv_share::{Board, Book, Case, Receipt, Share};

/// The validator with its history, and the book. Contracts see the validator.
#[derive(Drop)]
pub struct Kept<C: Case> {
    validator: Validator,
    book: Book,
    of: PhantomData<C>,
}

impl<C: Case> Model for Kept<C> {
    ghost use Rattle.sv_core.specs.State.{State};
    ghost use Rattle.sv_device.specs.Devices.{IsKept};

    ghost Value = { State };

    ghost view = { λ k. k.validator };

    ghost invariant = { λ k. IsKept C.trace C.board k.validator k.book };
}

impl<C: Case> Kept<C> {
    /// Before any event.
    pub fn new(validator: Validator, book: Book) -> Kept<C>
        requires lawful { IsLawful C.trace }
        requires validator { (validator.trace ≡ C.trace) × (validator.history ≡ []) }
        requires book { book ≡ book_is C.board (replicate 32 0) }
        ensures { result ≡ validator }
    {
        Kept {
            validator,
            book,
            of: PhantomData,
        }
    }

    /// Takes in one event. The count of the actor's share shows that it is the next one of its actor.
    pub fn make(
        &mut self,
        board: &Board,
        share: Share,
        event: Event,
    ) -> (Share, Result<Receipt, Stop>)
        requires board { (board.now ≡ C.board) × (share.board ≡ C.board) }
        requires next { IsEventAt C.trace share.actor share.count (mark_of event) }
        requires own { IsOwn C.trace event }
        requires room { share.count < 18446744073709551615 }
        ensures ok { IfOk result.1 (IsReceipt C.trace (mark_of event)) }
        ensures number { IfOk result.1 (λ receipt. receipt.number ≡ length self.old.history) }
        ensures history { OnOk result.1 (self.new.history ≡ self.old.history ++ mark_of event ∷ []) }
        ensures counted { OnOk result.1 (result.0 ≡ share_is share.board share.actor (share.count + 1)) }
        ensures stopped { OnErr result.1 ((result.0 ≡ share) × (self.new.history ≡ self.old.history)) }
        ensures cause { IfErr result.1 (IsStop (length self.old.history) self.old.spent) }
        ensures place { IfErr result.1 (IsStopIn C.trace) }
    {
        let share = board.agree(&mut self.book, share);
        let number = self.validator.history().len() as u64;
        match self.validator.apply(event) {
            Ok(reply) => {
                let share = board.advance(&mut self.book, share);
                (share, Ok(Receipt { number, reply }))
            }
            Err(stop) => (share, Err(stop)),
        }
    }

    /// Shows that as many events of the share's actor stand in the history as the share counts.
    pub fn compare(&mut self, board: &Board, share: Share) -> Share
        requires board { (board.now ≡ C.board) × (share.board ≡ C.board) }
        ensures same { (self.new ≡ self.old) × (result ≡ share) }
        ensures equal { (who : Who) → slice_get (actors_of C.trace) share.actor ≡ Some who
            → length (events_of C.trace who self.old.history) ≡ share.count }
    {
        board.agree(&mut self.book, share)
    }

    /// The validator.
    pub fn into_validator(self) -> Validator
        ensures is { result ≡ self }
        ensures trace { self.trace ≡ C.trace }
    {
        let Kept {
            validator,
            book: _,
            of: _,
        } = self;
        validator
    }
}
