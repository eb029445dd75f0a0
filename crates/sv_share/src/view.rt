//! What a seat of the board knows, and the steps.
use atomic_table::{Join, Play, Seat, Shared, Split, Table, TableRule};
use std::alloc::Global;
use std::collections::LinkedList;

/// What a seat knows of one actor. No value of it is made.
pub struct Known {
    pub parts: u64,
    pub count: u64,
    pub old: Option<u64>,
}

/// What a seat knows of each actor, and of which it speaks next. No value of it is made.
pub struct View {
    pub turn: u64,
    pub of: LinkedList<Known>,
}

// For each actor the parts in all views make two, and in each view with a part of it the count and the old
// count are its word.
pub struct Counts;

impl TableRule<u8, View, ()> for Counts {
    ghost use Rattle.sv_share.specs.Views.{Agrees, first_view};

    ghost holds = { λ _ s. Agrees s.words s.views };

    ghost first = { λ _. first_view };
}

// The book's seat finds that its count and its old count of an actor are the word.
pub struct Look;

impl Play<u8, View> for Look {
    ghost use Rattle.sv_share.specs.Views.{Looked};

    ghost then = { Looked };
}

// The book's seat, which has both parts of an actor, counts one event of it.
pub struct Count;

impl Play<u8, View> for Count {
    ghost use Rattle.sv_share.specs.Views.{Counted};

    ghost then = { Counted };
}

// One part of the actor whose turn it is goes to a new seat.
pub struct Deal;

impl Split<View> for Deal {
    ghost use Rattle.sv_share.specs.Views.{dealt, share_view, at};

    ghost left = { dealt };

    ghost right = { λ v. share_view v.turn (at v.of v.turn).count };
}

// A share comes back, with its count as the old one.
pub struct Takes;

impl Join<View> for Takes {
    ghost use Rattle.sv_share.specs.Views.{taken, spent_view};

    ghost both = { taken };

    ghost spent = { spent_view };
}

pub(crate) type Words = Table<u8, View, (), Counts, Global>;

pub(crate) type Table32 = Shared<u8, View, (), Counts>;

pub(crate) type Place = Seat<u8, View>;
