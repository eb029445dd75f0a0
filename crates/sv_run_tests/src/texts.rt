//! Texts that no capture tool means to write, and texts at the last values of the format, each with what is
//! owed.
use crate::lines::{BEGIN, END, NONE_OF_2, NOTHING, PUBLISHED, QUEUE, SUBMIT, SUBMITTED};
use crate::runs::{joined, ran};
use std::alloc::{AllocError, Global};
use sv_io::MAX_TEXT;

#[derive(Clone, Copy)]
enum Text {
    // A piece so many times.
    Repeated {
        piece: &'static [u8],
        times: usize,
    },
    // Whole lines.
    Lines(&'static [&'static str]),
    // Whole lines, with a line among them that has a list of so many equal items.
    Listed {
        before: &'static [&'static str],
        start: &'static str,
        item: &'static str,
        times: usize,
        end: &'static str,
        after: &'static [&'static str],
    },
}

// A text, and how a run of `check` ends: the number of the status, a line for each of so many waits of lane
// 0 for the device, and the lines behind them.
#[derive(Clone, Copy)]
struct Row {
    text: Text,
    number: u8,
    waits: usize,
    owed: &'static [&'static str],
}

const LF: &[u8] = b"\n";

// 64 of them.
const SPACES: &[u8] = b"                                                                ";

// Its size is 257, and that of 15,564 of them 3,999,948.
const WAIT: &[u8] = b"{\"op\":\"wait_device\",\"lane\":0}\n";

const LARGEST: &str = r#"{"op":"buffer","res":0,"size":1099511627776}"#;

const LAST_BYTE: &str =
    r#"{"op":"work","rec":0,"accesses":[{"res":0,"stage":"copy","access":"transfer_write","start":1099511627775,"end":1099511627776}]}"#;

const BEHIND_IT: &str =
    r#"{"op":"work","rec":0,"accesses":[{"res":0,"stage":"copy","access":"transfer_write","start":1099511627775,"end":1099511627777}]}"#;

const BUFFER: &str = r#"{"op":"buffer","res":0,"size":64}"#;

const ACCESS: &str = r#"{"res":0,"stage":"copy","access":"transfer_read","start":0,"end":16}"#;

const SUBMITS: &str = r#"{"op":"submit","lane":0,"queue":0,"batches":[{"recs":["#;

const WORKS: &str = r#"{"op":"work","rec":0,"accesses":["#;

const BUILT: &[&str] = &[PUBLISHED, SUBMITTED, NONE_OF_2];

static ROWS: [Row; 17] = [
    Row {
        text: Text::Repeated {
            piece: &[255],
            times: 1,
        },
        number: 2,
        waits: 0,
        owed: &["line 1 refused 1 BadJson"],
    },
    Row {
        text: Text::Repeated {
            piece: b"[",
            times: 1000,
        },
        number: 2,
        waits: 0,
        owed: &["line 1 refused 1 BadJson"],
    },
    Row {
        text: Text::Lines(&["[]"]),
        number: 2,
        waits: 0,
        owed: &["line 1 refused 2 BadShape"],
    },
    Row {
        text: Text::Lines(&[r#"{"op":"host_set"}"#]),
        number: 2,
        waits: 0,
        owed: &["line 1 refused 3 UnknownName"],
    },
    Row {
        text: Text::Lines(&[r#"{"op":"queue","queue":16,"family":0,"lane":0}"#]),
        number: 2,
        waits: 0,
        owed: &["line 1 refused 4 Range"],
    },
    Row {
        text: Text::Repeated {
            piece: LF,
            times: 1000000,
        },
        number: 0,
        waits: 0,
        owed: &[NOTHING],
    },
    Row {
        text: Text::Repeated {
            piece: LF,
            times: 1000001,
        },
        number: 2,
        waits: 0,
        owed: &["line 1000001 refused 14 Limit lines 1000000"],
    },
    Row {
        text: Text::Listed {
            before: &[QUEUE, BEGIN, END],
            start: SUBMITS,
            item: "0",
            times: 1024,
            end: "]}]}",
            after: &[],
        },
        number: 0,
        waits: 0,
        owed: BUILT,
    },
    Row {
        text: Text::Listed {
            before: &[QUEUE, BEGIN, END],
            start: SUBMITS,
            item: "0",
            times: 1025,
            end: "]}]}",
            after: &[],
        },
        number: 2,
        waits: 0,
        owed: &["line 4 refused 14 Limit recs 1024"],
    },
    Row {
        text: Text::Listed {
            before: &[QUEUE, BUFFER, BEGIN],
            start: WORKS,
            item: ACCESS,
            times: 64,
            end: "]}",
            after: &[END, SUBMIT],
        },
        number: 0,
        waits: 0,
        owed: BUILT,
    },
    Row {
        text: Text::Listed {
            before: &[QUEUE, BUFFER, BEGIN],
            start: WORKS,
            item: ACCESS,
            times: 65,
            end: "]}",
            after: &[END, SUBMIT],
        },
        number: 2,
        waits: 0,
        owed: &["line 4 refused 14 Limit accesses 64"],
    },
    Row {
        text: Text::Repeated {
            piece: WAIT,
            times: 15564,
        },
        number: 0,
        waits: 15564,
        owed: &["total events 15564 reports 0 notes 0 held 0"],
    },
    Row {
        text: Text::Repeated {
            piece: WAIT,
            times: 15565,
        },
        number: 2,
        waits: 0,
        owed: &["line 15565 refused 14 Limit size 4000000"],
    },
    Row {
        text: Text::Lines(&[QUEUE, LARGEST, BEGIN, LAST_BYTE, END, SUBMIT]),
        number: 0,
        waits: 0,
        owed: BUILT,
    },
    Row {
        text: Text::Lines(&[QUEUE, LARGEST, BEGIN, BEHIND_IT, END, SUBMIT]),
        number: 2,
        waits: 0,
        owed: &["line 4 refused 7 OutOfResource"],
    },
    Row {
        text: Text::Repeated {
            piece: SPACES,
            times: MAX_TEXT / 64,
        },
        number: 0,
        waits: 0,
        owed: &[NOTHING],
    },
    Row {
        text: Text::Repeated {
            piece: SPACES,
            times: MAX_TEXT / 64 + 1,
        },
        number: 7,
        waits: 0,
        owed: &[],
    },
];

fn add(text: &mut Vec<u8>, piece: &str) -> Result<(), AllocError> {
    text.extend_from_slice(piece.as_bytes())
}

fn add_lines(text: &mut Vec<u8>, lines: &[&str]) -> Result<(), AllocError> {
    for line in lines {
        add(text, line)?;
        text.push(b'\n')?;
    }
    Ok(())
}

fn add_times(text: &mut Vec<u8>, piece: &[u8], times: usize) -> Result<(), AllocError> {
    for _ in 0..times {
        text.extend_from_slice(piece)?;
    }
    Ok(())
}

// The item so many times, with commas between.
fn add_list(text: &mut Vec<u8>, item: &str, times: usize) -> Result<(), AllocError> {
    for index in 0..times {
        if index > 0 {
            text.push(b',')?;
        }
        add(text, item)?;
    }
    Ok(())
}

fn text_of(alloc: Global, text: &Text) -> Result<Vec<u8>, AllocError> {
    let mut bytes = Vec::new(alloc);
    match *text {
        Text::Repeated { piece, times } => add_times(&mut bytes, piece, times)?,
        Text::Lines(lines) => add_lines(&mut bytes, lines)?,
        Text::Listed {
            before,
            start,
            item,
            times,
            end,
            after,
        } => {
            add_lines(&mut bytes, before)?;
            add(&mut bytes, start)?;
            add_list(&mut bytes, item, times)?;
            add_lines(&mut bytes, &[end])?;
            add_lines(&mut bytes, after)?;
        }
    }
    Ok(bytes)
}

fn owed_by(alloc: Global, row: &Row) -> Result<Vec<u8>, AllocError> {
    let mut bytes = Vec::new(alloc);
    for call in 0..row.waits {
        let line = format!(in alloc; "event {call} lane 0 call {call} wait_device\n")?;
        add(&mut bytes, line.as_str())?;
    }
    add_lines(&mut bytes, row.owed)?;
    Ok(bytes)
}

fn row_agrees(alloc: Global, row: &Row) -> Result<bool, AllocError> {
    let text = text_of(alloc, &row.text)?;
    let owed = owed_by(alloc, row)?;
    let run = ran(alloc, &["check"], text)?;
    Ok(run.number == row.number && run.heard == 0 && run.written.as_slice() == owed.as_slice())
}

/// The place of the first text that is answered something else than what is owed.
pub fn differing_text(alloc: Global) -> Result<Option<usize>, AllocError> {
    for index in 0..ROWS.len() {
        if !row_agrees(alloc, &ROWS[index])? {
            return Ok(Some(index));
        }
    }
    Ok(None)
}
