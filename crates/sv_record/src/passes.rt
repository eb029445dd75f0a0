//! The passes of a trace, found by their numbers.
ghost use Rattle.std.specs.Prelude.{◌≡◌, ◌<◌, IfOk, OnOk, Some, drop, length, take};
ghost use Rattle.std.specs.BTreeMap.{get};
ghost use Rattle.std.specs.Ordering.{nat_cmp};
ghost use Rattle.sv_pass.specs.Begun.{pass_in};
ghost use Rattle.sv_record.specs.Places.{ArePlaces, Declares, declared_in};

use std::alloc::{AllocError, Global};
use std::collections::BTreeMap;
use std::marker::Model;
use sv_model::line::{Line, Trace};
use sv_range::{Duplicate, List};

/// The passes that a trace declares, found by their numbers. They are made once for a trace, and lent to the
/// contexts of its recordings. Contracts see the declaring lines.
#[derive(Drop)]
pub struct Passes {
    lines: List<Line>,
    places: BTreeMap<u32, usize>,
}

impl Model for Passes {
    ghost use Rattle.std.specs.Prelude.{List};
    ghost use Rattle.sv_model.specs.declared.line.Line.{Line};
    ghost use Rattle.sv_record.specs.Places.{ArePlaces};

    ghost Value = { List Line };

    ghost view = { λ it. it.lines };

    ghost invariant = { λ it. ArePlaces it.lines it.places };
}

impl Passes {
    /// The passes of the trace. Fails only for want of memory.
    pub fn new(alloc: Global, trace: &Trace) -> Result<Passes, AllocError>
        ensures { IfOk result (λ passes. passes ≡ trace.now.passes) }
    {
        let lines = trace.passes.copy()?;
        let places = places_of(alloc, lines.as_slice())?;
        Ok(Passes { lines, places })
    }

    /// The line that declares the pass with this number, alone; no line where none does.
    pub fn find(&self, pass: u32) -> &[Line]
        ensures { pass_in result.now pass ≡ pass_in self.now pass }
    {
        match place_of(&self.places, pass) {
            Some(place) => line_at(self.lines.as_slice(), place),
            None => &[],
        }
    }
}

fn place_of(places: &BTreeMap<u32, usize>, pass: u32) -> Option<usize>
    ensures { result ≡ get nat_cmp places.now pass }
{
    places.get(&pass).copied()
}

// The line at that place, alone.
fn line_at(lines: &[Line], place: usize) -> &[Line]
    requires { place < length lines.now }
    ensures { result.now ≡ take 1 (drop place lines.now) }
{
    &lines[place..place + 1]
}

// The place of the first line that declares each pass, by the pass's number.
fn places_of(alloc: Global, lines: &[Line]) -> Result<BTreeMap<u32, usize>, AllocError>
    ensures { IfOk result (ArePlaces lines.now) }
{
    let mut places = BTreeMap::new(alloc);
    for i in 0..lines.len() {
        take(&mut places, &lines[i], i)?;
    }
    Ok(places)
}

// Takes the line at a place, which may declare a pass.
fn take(places: &mut BTreeMap<u32, usize>, line: &Line, place: usize) -> Result<(), AllocError>
    ensures { OnOk result (Declares places.old places.new (declared_in line.now) place) }
{
    match declared(line) {
        Some(pass) => declare(places, pass, place),
        None => Ok(()),
    }
}

// Takes the place of a pass, which counts where none stands before it.
fn declare(places: &mut BTreeMap<u32, usize>, pass: u32, place: usize) -> Result<(), AllocError>
    ensures { OnOk result (Declares places.old places.new (Some pass) place) }
{
    if places.contains_key(&pass) {
        return Ok(());
    }
    places.insert(pass, place)?;
    Ok(())
}

fn declared(line: &Line) -> Option<u32>
    ensures { result ≡ declared_in line.now }
{
    match line {
        Line::RenderPass { pass, .. } => Some(*pass),
        _ => None,
    }
}
