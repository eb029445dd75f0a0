//! The counts of actors, which stand on one table.
ghost use Rattle.std.specs.Prelude.{◌≡◌, ℕ, [], ◌+◌, ◌<◌, ◌≤◌, IfOk, length, replicate, slice_index};
ghost use Rattle.std.specs.Prelude.{slice_index_or, slice_set};
ghost use Rattle.sv_share.specs.Views.{dealing};
ghost use Rattle.sv_share.specs.Values.{share_is, book_is};

use crate::view::{Count, Deal, Look, Place, Table32, Takes, Words};
use std::alloc::{AllocError, Global};
use std::marker::Model;
use sv_range::List;

/// A table with one word for each of 32 actors.
#[derive(Drop)]
pub struct Board {
    table: Words,
}

impl Model for Board {
    ghost use Rattle.std.specs.Prelude.{◌≡◌};
    ghost use Rattle.atomic_table.specs.Seated.{TableId, table_id_coded};

    ghost Value = { TableId };

    ghost coded = { table_id_coded };

    ghost view = { λ b. b.table.shared.table_id };

    ghost invariant = { λ b. b.table.shared.table_id.words ≡ 32 };
}

/// The counts of all actors. Contracts see the board and the 32 counts.
#[derive(Drop)]
pub struct Book {
    seat: Place,
}

impl Model for Book {
    ghost use Rattle.std.specs.Prelude.{◌≡◌, ◌<◌, ℕ, [], length};
    ghost use Rattle.sv_share.specs.Values.{BookIs, book_is};
    ghost use Rattle.sv_share.specs.Views.{at, counts_of};

    ghost Value = { BookIs };

    ghost view = { λ b. book_is b.seat.table_id (counts_of b.seat.me.0.of) };

    ghost invariant = { λ b. (b.seat.me.1 ≡ []) × (length b.seat.me.0.of ≡ 32)
        × ((a : ℕ) → a < 32 → 0 < (at b.seat.me.0.of a).parts) };
}

/// One actor's count. Contracts see the board, the actor and the count.
#[derive(Drop)]
pub struct Share {
    actor: u32,
    seat: Place,
}

impl Model for Share {
    ghost use Rattle.std.specs.Prelude.{◌≡◌, ◌<◌, []};
    ghost use Rattle.sv_share.specs.Values.{ShareIs, share_is};
    ghost use Rattle.sv_share.specs.Views.{at, share_view};

    ghost Value = { ShareIs };

    ghost view = { λ s. share_is s.seat.table_id s.actor (at s.seat.me.0.of s.actor).count };

    ghost invariant = { λ s. (s.actor < 32) × (s.seat.me
        ≡ (share_view s.actor (at s.seat.me.0.of s.actor).count, [])) };
}

impl Share {
    pub fn actor(&self) -> u32
        ensures actor { result ≡ self.now.actor }
        ensures below { self.now.actor < 32 }
    {
        self.actor
    }
}

impl Board {
    /// Shows that the share's count is the book's count of its actor.
    pub fn agree(&self, book: &mut Book, share: Share) -> Share
        requires book { book.old.board ≡ self.now }
        requires share { share.board ≡ self.now }
        ensures equal { slice_index book.old.counts share.actor ≡ share.count }
        ensures same { result ≡ share }
        ensures book { book.new ≡ book.old }
    {
        let Share { actor, seat } = share;
        let shared = &self.table.shared;
        shared.join_seat::<Takes>(&mut book.seat, seat);
        shared.load::<Look>(&mut book.seat, actor as usize);
        let seat = shared.split_seat::<Deal>(&mut book.seat);
        Share { actor, seat }
    }

    /// Counts one event of the share's actor.
    pub fn advance(&self, book: &mut Book, share: Share) -> Share
        requires book { book.old.board ≡ self.now }
        requires share { share.board ≡ self.now }
        requires room { share.count < 18446744073709551615 }
        ensures equal { slice_index book.old.counts share.actor ≡ share.count }
        ensures share { result ≡ share_is share.board share.actor (share.count + 1) }
        ensures book { book.new ≡ book_is book.old.board
            (slice_set book.old.counts share.actor (share.count + 1)) }
    {
        let Share { actor, seat } = share;
        let shared = &self.table.shared;
        shared.join_seat::<Takes>(&mut book.seat, seat);
        shared.load::<Look>(&mut book.seat, actor as usize);
        shared.fetch_add::<Count>(&mut book.seat, actor as usize, 1);
        let seat = shared.split_seat::<Deal>(&mut book.seat);
        Share { actor, seat }
    }

    /// A board with all counts 0, its book, and a share for each actor below `actors`, in order.
    pub fn open(alloc: Global, actors: u32) -> Result<(Board, Book, List<Share>), AllocError>
        requires { actors ≤ 32 }
        ensures book { IfOk result (λ r. r.1 ≡ book_is r.0 (replicate 32 0)) }
        ensures count { IfOk result (λ r. length r.2 ≡ actors) }
        ensures shares { IfOk result (λ r. (i : ℕ) (d : _) → i < actors → slice_index_or r.2 i d
            ≡ share_is r.0 i 0) }
    {
        let (table, mut seat) = Words::of_words(alloc, &[0; 32], &())?;
        let mut shares = Vec::new(alloc);
        for actor in 0..actors {
            let share = deal(&table.shared, &mut seat, actor);
            shares.push(share)?;
        }
        Ok((Board { table }, Book { seat }, List::from_vec(shares)))
    }
}

// The share of the next actor.
fn deal(shared: &Table32, seat: &mut Place, actor: u32) -> Share
    requires fits { (seat.old.table_id ≡ shared.now.table_id) × (shared.now.table_id.words ≡ 32)
        × (actor < 32) }
    requires view { seat.old.me ≡ (dealing actor, []) }
    ensures seat { (seat.new.table_id ≡ seat.old.table_id) × (seat.new.me ≡ (dealing (actor + 1), [])) }
    ensures share { result ≡ share_is seat.old.table_id actor 0 }
{
    let seat = shared.split_seat::<Deal>(seat);
    Share { actor, seat }
}
