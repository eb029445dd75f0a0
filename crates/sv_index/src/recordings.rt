//! The place of each recording among the recordings of a trace.
ghost use Rattle.std.specs.Prelude.{◌≡◌, IfOk, OnOk, slice_get};
ghost use Rattle.std.specs.BTreeMap.{get};
ghost use Rattle.std.specs.Option.{option_copied};
ghost use Rattle.std.specs.Ordering.{nat_cmp};
ghost use Rattle.sv_model.specs.Declarations.{recording_of};
ghost use Rattle.sv_index.specs.Places.{ArePlaces, Notes};

use std::alloc::{AllocError, Global};
use std::collections::BTreeMap;
use sv_model::line::{Recording, Trace};

/// Where each recording of a trace stands among its recordings. Made once for a trace, so that finding a
/// recording costs no walk over all of them.
#[derive(Drop)]
pub struct RecordingIndex {
    places: BTreeMap<u32, usize>,
}

impl RecordingIndex {
    ghost use Rattle.sv_index.specs.Indexes.{IsIndexOf};

    /// The index of the recordings of a trace. Fails only for want of memory.
    pub fn new(alloc: Global, trace: &Trace) -> Result<RecordingIndex, AllocError>
        ensures { IfOk result (IsIndexOf trace.now) }
    {
        let places = places_of(alloc, trace.recordings.as_slice())?;
        Ok(RecordingIndex { places })
    }

    /// The recording of that number of the trace whose index this is.
    pub fn find<'a>(&self, trace: &'a Trace, number: u32) -> Option<&'a Recording>
        requires { IsIndexOf trace.now self.now }
        ensures { option_copied result ≡ recording_of trace.now number }
    {
        match place_of(&self.places, number) {
            Some(place) => recording_at(trace.recordings.as_slice(), place),
            None => None,
        }
    }
}

fn recording_at(recordings: &[Recording], place: usize) -> Option<&Recording>
    ensures { option_copied result ≡ slice_get recordings.now place }
{
    recordings.get(place)
}

fn place_of(places: &BTreeMap<u32, usize>, number: u32) -> Option<usize>
    ensures { result ≡ get nat_cmp places.now number }
{
    places.get(&number).copied()
}

// The first place of each number.
fn places_of(alloc: Global, recordings: &[Recording]) -> Result<BTreeMap<u32, usize>, AllocError>
    ensures { IfOk result (ArePlaces recordings.now) }
{
    let mut places = BTreeMap::new(alloc);
    for place in 0..recordings.len() {
        note(&mut places, recordings[place].rec, place)?;
    }
    Ok(places)
}

// Takes the place of a number, which counts where none stands before it.
fn note(places: &mut BTreeMap<u32, usize>, number: u32, place: usize) -> Result<(), AllocError>
    ensures { OnOk result (Notes places.old places.new number place) }
{
    if places.contains_key(&number) {
        return Ok(());
    }
    places.insert(number, place)?;
    Ok(())
}
