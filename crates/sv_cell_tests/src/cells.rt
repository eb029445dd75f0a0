//! The space, the layouts and the owners of a trace that take one step after another.
ghost use Rattle.std.specs.Prelude.{IfOk, IfSome, OnOk};
ghost use Rattle.sv_model.specs.Lawful.{IsLawful};
ghost use Rattle.sv_cell_tests.specs.NextSteps.{IsNextOf};
ghost use Rattle.sv_cell_tests.specs.Standing.{AreCellsOf};

use crate::acts::{Act, step_of};
use crate::inside::{is_image_cell, is_inside, is_resource_cell};
use std::alloc::{AllocError, Global};
use sv_check::read_text;
use sv_layout::Layouts;
use sv_mask::Layout;
use sv_model::line::Trace;
use sv_model::work::{Area, Note, Owner, Report, Step};
use sv_owner::Owners;
use sv_space::Space;

#[derive(Drop)]
pub struct Cells {
    pub space: Space,
    pub layouts: Layouts,
    pub owners: Owners,
}

/// What the steps reported and noted so far.
#[derive(Drop)]
pub struct Answers {
    pub reports: Vec<Report>,
    pub layout_notes: Vec<Note>,
    pub owner_notes: Vec<Note>,
}

/// A trace, its cells after some steps, and what these reported and noted.
#[derive(Drop)]
pub struct Tried {
    pub trace: Trace,
    pub cells: Cells,
    pub answers: Answers,
}

fn open(alloc: Global, trace: &Trace) -> Result<Cells, AllocError>
    requires { IsLawful trace.now }
    ensures { IfOk result (λ cells. AreCellsOf trace.now cells.space cells.layouts cells.owners) }
{
    let space = Space::open(alloc, trace)?;
    let layouts = Layouts::open(alloc, trace)?;
    let owners = Owners::open(alloc, trace)?;
    Ok(Cells {
        space,
        layouts,
        owners,
    })
}

fn no_answers(alloc: Global) -> Answers {
    Answers {
        reports: Vec::new(alloc),
        layout_notes: Vec::new(alloc),
        owner_notes: Vec::new(alloc),
    }
}

// The step is taken by all three.
fn take(
    trace: &Trace,
    number: u64,
    cells: &mut Cells,
    answers: &mut Answers,
    step: &Step,
) -> Result<(), AllocError>
    requires cells { AreCellsOf trace.now cells.old.space cells.old.layouts cells.old.owners }
    requires step { IsNextOf trace.now number step.now }
    ensures { OnOk result (AreCellsOf trace.now cells.new.space cells.new.layouts cells.new.owners) }
{
    let reports = cells.space.touch(step)?;
    let layout_notes = cells.layouts.apply(step)?;
    let owner_notes = cells.owners.apply(step)?;
    answers.reports.extend_from_slice(reports.as_slice())?;
    answers
        .layout_notes
        .extend_from_slice(layout_notes.as_slice())?;
    answers
        .owner_notes
        .extend_from_slice(owner_notes.as_slice())
}

// The act is taken as the step with that number. Tells whether it lies inside the resources of the trace.
fn take_act(
    alloc: Global,
    trace: &Trace,
    cells: &mut Cells,
    answers: &mut Answers,
    number: u64,
    act: Act,
) -> Result<bool, AllocError>
    requires { AreCellsOf trace.now cells.old.space cells.old.layouts cells.old.owners }
    ensures { OnOk result (AreCellsOf trace.now cells.new.space cells.new.layouts cells.new.owners) }
{
    match step_of(alloc, trace, number, act)? {
        None => Ok(false),
        Some(step) => {
            take(trace, number, cells, answers, &step)?;
            Ok(true)
        }
    }
}

/// The cells of the trace of a text after these acts. None where the text is refused, or an act lies
/// outside of its resources.
pub fn take_all(alloc: Global, text: &str, acts: &[Act]) -> Result<Option<Tried>, AllocError>
    ensures { IfOk result (λ found. IfSome found (λ r. AreCellsOf r.trace r.cells.space r.cells.layouts
        r.cells.owners)) }
{
    let Ok(trace) = read_text(alloc, text.as_bytes()) else {
        return Ok(None);
    };
    let mut cells = open(alloc, &trace)?;
    let mut answers = no_answers(alloc);
    for number in 0..acts.len() {
        if !take_act(
            alloc,
            &trace,
            &mut cells,
            &mut answers,
            number as u64,
            acts[number],
        )? {
            return Ok(None);
        }
    }
    Ok(Some(Tried {
        trace,
        cells,
        answers,
    }))
}

impl Tried {
    /// The layout of the cell of an image that has this number. None where there is none.
    pub fn layout(&self, res: u32, number: u64) -> Option<Layout>
        requires { AreCellsOf self.now.trace self.now.cells.space self.now.cells.layouts
            self.now.cells.owners }
    {
        if !is_image_cell(&self.trace, res, number) {
            return None;
        }
        Some(self.cells.layouts.current(res, number))
    }

    /// The owner of the cell of a resource that has this number. None where there is none.
    pub fn owner(&self, res: u32, number: u64) -> Option<Owner>
        requires { AreCellsOf self.now.trace self.now.cells.space self.now.cells.layouts
            self.now.cells.owners }
    {
        if !is_resource_cell(&self.trace, res, number) {
            return None;
        }
        Some(self.cells.owners.current(res, number))
    }

    /// The number of groups that the state of the cell was given. None where the area is not of the trace.
    pub fn upto(&self, at: Area) -> Option<u64>
        requires { AreCellsOf self.now.trace self.now.cells.space self.now.cells.layouts
            self.now.cells.owners }
    {
        if !is_inside(&self.trace, at) {
            return None;
        }
        Some(self.cells.space.upto(&at))
    }
}
