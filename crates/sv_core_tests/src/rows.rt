//! Texts, orders of their actors, and what is owed.
ghost use Rattle.std.specs.Prelude.{◌≡◌, length};
ghost use Rattle.sv_model.specs.Lawful.{IsLawful};

use crate::driver::validate;
use std::alloc::{AllocError, Global};
use std::sync::Wait;
use sv_check::read_text;
use sv_core::Validator;
use sv_model::line::Trace;
use sv_model::work::Reply;
use sv_range::List;
use sv_report::text as history_text;

// Actors: lanes 0 and 1, recorders 0 and 1.
pub const L0: u32 = 0;

pub const L1: u32 = 1;

pub const REC0: u32 = 16;

pub const REC1: u32 = 17;

/// The lines of a text, an order of its actors, and the lines that are owed.
#[derive(Clone, Copy)]
pub struct Row {
    pub text: &'static [&'static str],
    pub order: &'static [u32],
    pub owed: &'static [&'static str],
}

/// The lines, each with a line feed behind it.
pub fn joined(alloc: Global, lines: &[&str]) -> Result<Vec<u8>, AllocError> {
    let mut text = Vec::new(alloc);
    for line in lines {
        text.extend_from_slice(line.as_bytes())?;
        text.push(b'\n')?;
    }
    Ok(text)
}

// Whether the text of the events so far is the one that is owed, both with the replies that the actors got
// and with those that the validator keeps.
fn answers(
    alloc: Global,
    trace: &Trace,
    validator: &Validator,
    replies: &List<Reply>,
    owed: &[u8],
) -> Result<bool, AllocError> {
    let marks = validator.history();
    if replies.len() != marks.len() {
        return Ok(false);
    }
    let held = validator.held()?;
    let kept = history_text(alloc, marks, validator.replies(), &held, trace)?;
    let told = history_text(alloc, marks, replies, &held, trace)?;
    Ok(kept.as_slice() == owed && told.as_slice() == owed)
}

/// Whether the text, with its actors in that order, is answered what is owed.
pub fn agrees<R: Wait>(
    rt: &R,
    alloc: Global,
    text: &[u8],
    order: &[u32],
    owed: &[u8],
) -> Result<bool, AllocError> {
    let Ok(trace) = read_text(alloc, text) else {
        return Ok(false);
    };
    let (validator, replies) = validate(rt, alloc, &trace, order)?;
    answers(alloc, &trace, &validator, &replies, owed)
}

fn row_agrees<R: Wait>(rt: &R, alloc: Global, row: &Row) -> Result<bool, AllocError> {
    let text = joined(alloc, row.text)?;
    let owed = joined(alloc, row.owed)?;
    agrees(rt, alloc, text.as_slice(), row.order, owed.as_slice())
}

/// The place of the first row that is answered something else than what is owed.
pub fn differing<R: Wait>(
    rt: &R,
    alloc: Global,
    rows: &[Row],
) -> Result<Option<usize>, AllocError> {
    for index in 0..rows.len() {
        if !row_agrees(rt, alloc, &rows[index])? {
            return Ok(Some(index));
        }
    }
    Ok(None)
}
