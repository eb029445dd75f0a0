//! The recordings, and how each stands.
ghost use Rattle.std.specs.Prelude.{◌≡◌, ◌<◌, [], ◌∷◌, ◌++◌, Some, true, false, length, replicate};
ghost use Rattle.std.specs.Prelude.{slice_index_or, slice_set, slice_get, OnOk, OnErr};
ghost use Rattle.std.specs.List.{list_any};
ghost use Rattle.std.specs.Ordering.{nat_cmp};
ghost use Rattle.std.specs.BTreeMap.{IsEmpty, get};
ghost use Rattle.sv_lines.specs.Tables.{Puts, IsAsBefore};
ghost use Rattle.sv_model.specs.declared.line.Recording.{Recording as RecordingOf};
ghost use Rattle.sv_lines.specs.KnownParts.{ended, stands_so, with_one_more};
ghost use Rattle.sv_lines.specs.Sound.{at_place};
ghost use Rattle.sv_lines.specs.declared.known.Known.{Known};

use crate::known::Known;
use std::alloc::{AllocError, Global};
use std::collections::BTreeMap;
use sv_model::line::{Command, Recording};
use sv_range::List;
use sv_rules::standing::Standing;

/// The recordings in order. `known` has what is known of each, `places` where each stands by its number,
/// and `busy` which recorders have an open one.
#[derive(Drop)]
pub struct Recordings {
    pub list: Vec<Recording>,
    pub known: Vec<Known>,
    pub places: BTreeMap<u32, usize>,
    pub busy: [bool; 16],
}

impl Recordings {
    /// No recording yet. Takes no memory.
    pub fn new(alloc: Global) -> Recordings
        ensures list { result.list.items ≡ [] }
        ensures known { result.known.items ≡ [] }
        ensures places { IsEmpty result.places }
        ensures busy { result.busy ≡ replicate 16 false }
    {
        Recordings {
            list: Vec::new(alloc),
            known: Vec::new(alloc),
            places: BTreeMap::new(alloc),
            busy: [false; 16],
        }
    }

    /// What is known of the recording of that number, where one begins.
    pub fn get(&self, rec: u32) -> Option<Known>
        ensures { result ≡ at_place self.now.known.items self.now.places rec }
    {
        match self.places.get(&rec).copied() {
            Some(place) => self.known.get(place).copied(),
            None => None,
        }
    }

    /// A recording begins.
    pub fn begin(
        &mut self,
        alloc: Global,
        rec: u32,
        recorder: u32,
        family: u32,
    ) -> Result<(), AllocError>
        requires { recorder < 16 }
        ensures list { OnOk result (self.new.list.items ≡ self.old.list.items
            ++ record { rec = rec; recorder = recorder; family = family; commands = [] } ∷ []) }
        ensures known { OnOk result (self.new.known.items ≡ self.old.known.items
            ++ record {
              recorder = recorder;
              family = family;
              ended = false;
              standing = Standing.Outside;
              size = 0;
            } ∷ []) }
        ensures places { OnOk result (Puts self.old.places self.new.places rec (length self.old.list.items)) }
        ensures busy { OnOk result (self.new.busy ≡ slice_set self.old.busy recorder true) }
        ensures fault { OnErr result ((self.new.list.items ≡ self.old.list.items)
            × (self.new.known.items ≡ self.old.known.items) × IsAsBefore self.old.places self.new.places
            × (self.new.busy ≡ self.old.busy)) }
    {
        self.list.reserve(1)?;
        self.known.reserve(1)?;
        let place = self.list.len();
        self.places.insert(rec, place)?;
        let recording = Recording {
            rec,
            recorder,
            family,
            commands: List::new(alloc),
        };
        let known = Known {
            recorder,
            family,
            ended: false,
            standing: Standing::Outside,
            size: 0,
        };
        self.list.push(recording).unwrap();
        self.known.push(known).unwrap();
        self.busy[recorder as usize] = true;
        Ok(())
    }

    /// The place of a recording by its number, where one begins.
    pub fn place(&self, rec: u32) -> Option<usize>
        ensures { result ≡ get nat_cmp self.now.places rec }
    {
        self.places.get(&rec).copied()
    }

    /// The recording at that place has one more command, after which it stands so and has this size.
    pub fn push(
        &mut self,
        place: usize,
        command: Command,
        standing: Standing,
        size: u64,
    ) -> Result<(), AllocError>
        requires place { place < length self.old.list.items }
        requires known { place < length self.old.known.items }
        ensures list { OnOk result ((d : RecordingOf) → self.new.list.items
            ≡ slice_set self.old.list.items place (with_one_more command
            (slice_index_or self.old.list.items place d))) }
        ensures known { OnOk result ((d : Known) → self.new.known.items
            ≡ slice_set self.old.known.items place (stands_so standing size
            (slice_index_or self.old.known.items place d))) }
        ensures fault { OnErr result ((self.new.list.items ≡ self.old.list.items)
            × (self.new.known.items ≡ self.old.known.items)) }
        ensures places { IsAsBefore self.old.places self.new.places }
        ensures busy { self.new.busy ≡ self.old.busy }
    {
        self.list[place].commands.push_or_drop(command)?;
        let known = self.known[place];
        self.known[place] = Known {
            standing,
            size,
            ..known
        };
        Ok(())
    }

    /// The recording at that place, of that recorder, ends.
    pub fn end(&mut self, place: usize, recorder: u32)
        requires known { place < length self.old.known.items }
        requires recorder { recorder < 16 }
        ensures list { self.new.list.items ≡ self.old.list.items }
        ensures known { (d : Known) → self.new.known.items
            ≡ slice_set self.old.known.items place (ended (slice_index_or self.old.known.items place d)) }
        ensures places { IsAsBefore self.old.places self.new.places }
        ensures busy { self.new.busy ≡ slice_set self.old.busy recorder false }
    {
        self.known[place].ended = true;
        self.busy[recorder as usize] = false;
    }

    /// Whether the recorder has an open recording.
    pub fn is_recording(&self, recorder: u32) -> bool
        ensures { result ≡ slice_index_or self.now.busy recorder false }
    {
        if recorder < 16 {
            self.busy[recorder as usize]
        } else {
            false
        }
    }

    /// Whether a recording is open.
    pub fn is_unfinished(&self) -> bool
        ensures { result ≡ list_any (λ b. b) self.now.busy }
    {
        self.busy.iter().any(|busy| *busy)
    }
}
