//! The actors.
ghost use Rattle.std.specs.Prelude.{◌≡◌, ◌+◌, ◌<◌, Some, length, slice_get};
ghost use Rattle.sv_model.specs.Lawful.{IsLawful};
ghost use Rattle.sv_share.specs.Values.{share_is};
ghost use Rattle.sv_device.specs.Actors.{actor_is, actors_of, number_of, script_of};

use crate::scripts::script_length;
use crate::who::Who;
use std::marker::{Model, PhantomData};
use sv_model::line::Trace;
use sv_share::{Case, Share};

/// A lane or a recorder of the trace that is named, with its place in its script and a share of the board
/// that is named. Contracts see which it is, its number among the actors, and its place.
#[derive(Drop)]
pub struct Actor<C: Case> {
    pub(crate) who: Who,
    pub(crate) index: u32,
    pub(crate) place: u32,
    pub(crate) length: u32,
    pub(crate) share: Option<Share>,
    of: PhantomData<C>,
}

impl<C: Case> Model for Actor<C> {
    ghost use Rattle.sv_device.specs.Actors.{ActorIs, actor_is};
    ghost use Rattle.sv_device.specs.Devices.{IsActor};

    ghost Value = { ActorIs };

    ghost view = { λ a. actor_is a.who a.index a.place };

    ghost invariant = { λ a. IsActor C.trace C.board a.who a.index a.place a.length a.share };
}

impl<C: Case> Actor<C> {
    /// An actor at the head of its script.
    pub fn new(trace: &Trace, who: Who, share: Share) -> Actor<C>
        requires lawful { IsLawful trace.now }
        requires trace { trace.now ≡ C.trace }
        requires share { share ≡ share_is C.board share.actor 0 }
        requires actor { slice_get (actors_of trace.now) share.actor ≡ Some who }
        ensures { result ≡ actor_is who share.actor 0 }
    {
        Actor {
            who,
            index: share.actor(),
            place: 0,
            length: script_length(trace, who),
            share: Some(share),
            of: PhantomData,
        }
    }

    /// Its number: lanes have 0 to 15, recorder r has 16 + r.
    pub fn number(&self) -> u32
        ensures { result ≡ number_of self.now.who }
    {
        self.who.number()
    }

    /// Its place in its script.
    pub fn place(&self) -> u32
        ensures { result ≡ self.now.place }
    {
        self.place
    }

    /// How many events are left.
    pub fn left(&self) -> u32
        ensures { self.now.place + result ≡ length (script_of C.trace self.now.who) }
    {
        self.length - self.place
    }

    /// The share, once the actor is not needed.
    pub fn into_share(self) -> Share
        ensures share { result ≡ share_is C.board self.index self.place }
        ensures actor { slice_get (actors_of C.trace) self.index ≡ Some self.who }
    {
        match self.share {
            Some(share) => share,
            None => unreachable!(),
        }
    }
}
