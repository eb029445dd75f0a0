//! The listeners that are attached.
ghost use Rattle.std.specs.Prelude.{◌≡◌, [], ◌<◌, ◌-◌, ◌^◌, ◌∷◌, map, OnOk, IfOk, IfErr, MatchOption};
ghost use Rattle.sv_hub.specs.Attachments.{AreNumbered, AsksNothing, Attachments, HasHeard, HasRoom};
ghost use Rattle.sv_hub.specs.Attachments.{IsAbsent, IsJoined, IsNumbered, IsTaken, KeepsRoom, UsesRoom};

use crate::Listener;
use crate::entry::{Entry, Seat, hear_all, place_of, reserve_all};
use std::alloc::{AllocError, Global};
use sv_model::work::Report;

/// The id of a listener in a hub. Numbers count from 0 and are not used again.
#[derive(Clone, Copy, PartialEq)]
pub struct Id {
    pub number: u64,
}

/// Listeners, in order of their ids.
#[derive(Drop)]
pub struct Hub {
    entries: Vec<Entry>,
    next: u64,
    ghost numbered: { AreNumbered next (map (λ e. e.number) entries.items) },
}

/// Who listens to the reports of a run.
pub trait Audience {
    /// The attached listeners and the number of the next id.
    ghost attachments: { Self → Attachments };

    /// Makes room for so many more reports in each attached listener. For want of memory none has less than
    /// before.
    fn reserve(&mut self, more: usize) -> Result<(), AllocError>
        requires { AsksNothing }
        ensures heard { HasHeard [] (attachments self.old) (attachments self.new) }
        ensures room { OnOk result (HasRoom more (attachments self.new)) }
        ensures kept { KeepsRoom (attachments self.old) (attachments self.new) };

    /// Every attached listener hears the report, in order of ids; each has room for it. Takes no memory.
    fn deliver(&mut self, report: &Report)
        requires { HasRoom 1 (attachments self.old) }
        ensures heard { HasHeard (report.now ∷ []) (attachments self.old) (attachments self.new) }
        ensures room { UsesRoom (attachments self.old) (attachments self.new) };
}

impl Audience for Hub {
    ghost use Rattle.std.specs.Prelude.{map};

    ghost attachments = { λ it. record {
      attached = map (λ e. record {
        number = e.number;
        heard = (Listener-box e.listener).heard e.listener.value;
        spare = (Listener-box e.listener).spare e.listener.value;
      }) it.entries.items;
      next = it.next;
    } };

    fn reserve(&mut self, more: usize) -> Result<(), AllocError>
        requires { AsksNothing }
        ensures heard { HasHeard []
            (⟦<Hub as Audience>⟧.attachments self.old)
            (⟦<Hub as Audience>⟧.attachments self.new) }
        ensures room { OnOk result (HasRoom more (⟦<Hub as Audience>⟧.attachments self.new)) }
        ensures kept { KeepsRoom
            (⟦<Hub as Audience>⟧.attachments self.old)
            (⟦<Hub as Audience>⟧.attachments self.new) }
    {
        reserve_all(self.entries.as_mut_slice(), more)
    }

    fn deliver(&mut self, report: &Report)
        requires { HasRoom 1 (⟦<Hub as Audience>⟧.attachments self.old) }
        ensures heard { HasHeard (report.now ∷ [])
            (⟦<Hub as Audience>⟧.attachments self.old)
            (⟦<Hub as Audience>⟧.attachments self.new) }
        ensures room { UsesRoom
            (⟦<Hub as Audience>⟧.attachments self.old)
            (⟦<Hub as Audience>⟧.attachments self.new) }
    {
        hear_all(self.entries.as_mut_slice(), report);
    }
}

impl Hub {
    /// A hub with no listener. Takes no memory.
    pub fn new(alloc: Global) -> Hub
        ensures { ⟦<Hub as Audience>⟧.attachments result ≡ record { attached = []; next = 0 } }
    {
        Hub {
            entries: Vec::new(alloc),
            next: 0,
        }
    }

    /// Attaches the listener after the others, under the next number; there must be one more after it. For
    /// want of memory the box comes back, and the hub stands.
    pub fn attach(
        &mut self,
        listener: Box<dyn Listener>,
    ) -> Result<Id, (Box<dyn Listener>, AllocError)>
        requires { (⟦<Hub as Audience>⟧.attachments self.old).next < 2 ^ 64 - 1 }
        ensures ok { IfOk result (λ id.
            IsJoined (record { number = id.number; heard = heard listener; spare = spare listener })
            (⟦<Hub as Audience>⟧.attachments self.old)
            (⟦<Hub as Audience>⟧.attachments self.new)) }
        ensures fault { IfErr result (λ back. (back.0 ≡ listener)
            × (⟦<Hub as Audience>⟧.attachments self.new ≡ ⟦<Hub as Audience>⟧.attachments self.old)) }
        ensures numbered { IsNumbered (⟦<Hub as Audience>⟧.attachments self.new) }
    {
        if self.entries.reserve(1).is_err() {
            return Err((listener, AllocError));
        }
        let number = self.next;
        self.next = number + 1;
        self.entries.push(Entry { number, listener }).unwrap();
        Ok(Id { number })
    }

    /// Takes the listener out and gives it back, with what it has heard; None exactly where the id is not
    /// attached, and the hub then stands. Takes no memory.
    pub fn detach(&mut self, id: Id) -> Option<Box<dyn Listener>>
        requires { AsksNothing }
        ensures taken { MatchOption result
            (IsAbsent id.number (⟦<Hub as Audience>⟧.attachments self.old)
            × (⟦<Hub as Audience>⟧.attachments self.new ≡ ⟦<Hub as Audience>⟧.attachments self.old))
            (λ listener.
            IsTaken (record { number = id.number; heard = heard listener; spare = spare listener })
            (⟦<Hub as Audience>⟧.attachments self.old)
            (⟦<Hub as Audience>⟧.attachments self.new)) }
        ensures numbered { IsNumbered (⟦<Hub as Audience>⟧.attachments self.old) }
    {
        let Some(place) = place_of(self.entries.as_slice(), id.number) else {
            return None;
        };
        let entry = self.entries.remove(place);
        Some(entry.listener)
    }
}
