//! Reads and writes that fail. Reports are heard before the first write.
use crate::lines::WRITE_THEN_READ;
use crate::runs::{
    FIRST_WRITE_FAILS, Faults, SECOND_READ_FAILS, SECOND_WRITE_FAILS, joined, ran_with,
};
use std::alloc::{AllocError, Global};

#[derive(Clone, Copy)]
struct Row {
    words: &'static [&'static str],
    faults: Faults,
    number: u8,
    written: &'static str,
    heard: u64,
}

static ROWS: [Row; 4] = [
    Row {
        words: &["check"],
        faults: SECOND_READ_FAILS,
        number: 4,
        written: "",
        heard: 0,
    },
    Row {
        words: &["check"],
        faults: FIRST_WRITE_FAILS,
        number: 5,
        written: "",
        heard: 1,
    },
    Row {
        words: &["check"],
        faults: SECOND_WRITE_FAILS,
        number: 5,
        written: "event 0 ",
        heard: 1,
    },
    Row {
        words: &["gen", "0", "1"],
        faults: SECOND_WRITE_FAILS,
        number: 5,
        written: "{\"op\":\"q",
        heard: 0,
    },
];

fn row_agrees(alloc: Global, row: &Row) -> Result<bool, AllocError> {
    let text = joined(alloc, &WRITE_THEN_READ)?;
    let run = ran_with(alloc, row.words, text, row.faults)?;
    let written = run.written.as_slice() == row.written.as_bytes();
    Ok(written && run.number == row.number && run.heard == row.heard)
}

/// The place of the first run that ends otherwise than it has to.
pub fn differing_fault(alloc: Global) -> Result<Option<usize>, AllocError> {
    for index in 0..ROWS.len() {
        if !row_agrees(alloc, &ROWS[index])? {
            return Ok(Some(index));
        }
    }
    Ok(None)
}
