//! A text that ends too early, wherever it is cut.
use crate::lines::{ITS_ANSWER, NONE_OF_1, NOTHING, PUBLISHED, WRITE_THEN_READ};
use crate::runs::{joined, ran};
use std::alloc::{AllocError, Global};

// What is owed behind so many whole lines, with the number of the status, and how many reports are heard.
static BEHIND: [(u8, &[&str], u64); 8] = [
    (0, &[NOTHING], 0),
    (0, &[NOTHING], 0),
    (0, &[NOTHING], 0),
    (2, &["line 4 refused 15 Unfinished"], 0),
    (2, &["line 5 refused 15 Unfinished"], 0),
    (2, &["line 6 refused 15 Unfinished"], 0),
    (0, &[PUBLISHED, NONE_OF_1], 0),
    (1, ITS_ANSWER, 1),
];

fn answers(
    alloc: Global,
    text: &[u8],
    number: u8,
    owed: &[u8],
    heard: u64,
) -> Result<bool, AllocError> {
    let run = ran(alloc, &["check"], text.to_vec(alloc)?)?;
    Ok(run.number == number && run.written.as_slice() == owed && run.heard == heard)
}

// Whether each text of the whole lines and a first part of the next one is refused there.
fn parts_are_refused(
    alloc: Global,
    whole: &[u8],
    line: &str,
    number: usize,
) -> Result<bool, AllocError> {
    let owed = format!(in alloc; "line {number} refused 1 BadJson\n")?;
    for length in 1..line.len() {
        let mut text = whole.to_vec(alloc)?;
        text.extend_from_slice(&line.as_bytes()[..length])?;
        if !answers(alloc, text.as_slice(), 2, owed.as_bytes(), 0)? {
            return Ok(false);
        }
    }
    Ok(true)
}

// Whether so many whole lines are answered, with the last line feed and without it.
fn lines_are_answered(alloc: Global, whole: &[u8], count: usize) -> Result<bool, AllocError> {
    let Some(behind) = BEHIND.get(count) else {
        return Ok(false);
    };
    let (number, lines, heard) = *behind;
    let owed = joined(alloc, lines)?;
    if !answers(alloc, whole, number, owed.as_slice(), heard)? {
        return Ok(false);
    }
    match whole.split_last() {
        Some((_, open)) => answers(alloc, open, number, owed.as_slice(), heard),
        None => Ok(true),
    }
}

/// The number of the first line that is cut, or is the last, and is answered something else than what is
/// owed.
pub fn differing_cut(alloc: Global) -> Result<Option<usize>, AllocError> {
    for count in 0..WRITE_THEN_READ.len() {
        let whole = joined(alloc, &WRITE_THEN_READ[..count])?;
        let line = WRITE_THEN_READ[count];
        if !lines_are_answered(alloc, whole.as_slice(), count)?
            || !parts_are_refused(alloc, whole.as_slice(), line, count + 1)?
        {
            return Ok(Some(count + 1));
        }
    }
    let whole = joined(alloc, &WRITE_THEN_READ)?;
    if !lines_are_answered(alloc, whole.as_slice(), WRITE_THEN_READ.len())? {
        return Ok(Some(WRITE_THEN_READ.len()));
    }
    Ok(None)
}
