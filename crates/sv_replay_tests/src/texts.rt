//! The texts of a run of the word `replay`.
use crate::whole_run::{joined, ran};
use std::test::Fail;
use sv_io::Idle;

const QUEUE: &str = r#"{"op":"queue","queue":0,"family":0,"lane":0}"#;

const BUFFER: &str = r#"{"op":"buffer","res":0,"size":64}"#;

const BEGIN: &str = r#"{"op":"begin","rec":0,"recorder":0,"family":0}"#;

const WRITE: &str =
    r#"{"op":"work","rec":0,"accesses":[{"res":0,"stage":"copy","access":"transfer_write","start":0,"end":16}]}"#;

const READ: &str =
    r#"{"op":"work","rec":0,"accesses":[{"res":0,"stage":"copy","access":"transfer_read","start":0,"end":16}]}"#;

const END: &str = r#"{"op":"end","rec":0}"#;

const SUBMIT: &str = r#"{"op":"submit","lane":0,"queue":0,"batches":[{"recs":[0]}]}"#;

const WRITE_THEN_READ: &[&str] = &[QUEUE, BUFFER, BEGIN, WRITE, READ, END, SUBMIT];

const WITHOUT_ITS_END: &[&str] = &[QUEUE, BUFFER, BEGIN, WRITE, READ];

const PUBLISHED_FIRST: &[&str] = &[
    "event 0 recorder 0 publish rec 0",
    "event 1 lane 0 call 0 submit queue 0",
    "  raw res 0 bytes 0..16 transfer_read@copy 1.0.0 rec 0 cmd 1 after transfer_write@copy 1.0.0 rec 0 cmd 0",
    "total events 2 reports 1 notes 0 held 0",
];

// The submit is held until the publication.
const SUBMITTED_FIRST: &[&str] = &[
    "event 0 lane 0 call 0 submit queue 0",
    "event 1 recorder 0 publish rec 0",
    "  raw res 0 bytes 0..16 transfer_read@copy 0.0.0 rec 0 cmd 1 after transfer_write@copy 0.0.0 rec 0 cmd 0",
    "total events 2 reports 1 notes 0 held 0",
];

const UNFINISHED: &[&str] = &["line 6 refused 15 Unfinished"];

#[derive(Clone, Copy)]
struct Row {
    word: &'static str,
    text: &'static [&'static str],
    number: u8,
    heard: u64,
    // One of these is owed.
    owed: [&'static [&'static str]; 2],
}

static ROWS: [Row; 5] = [
    Row {
        word: "replay",
        text: WRITE_THEN_READ,
        number: 1,
        heard: 1,
        owed: [PUBLISHED_FIRST, SUBMITTED_FIRST],
    },
    Row {
        word: "check",
        text: WRITE_THEN_READ,
        number: 1,
        heard: 1,
        owed: [PUBLISHED_FIRST, PUBLISHED_FIRST],
    },
    Row {
        word: "replay",
        text: WITHOUT_ITS_END,
        number: 2,
        heard: 0,
        owed: [UNFINISHED, UNFINISHED],
    },
    Row {
        word: "check",
        text: WITHOUT_ITS_END,
        number: 2,
        heard: 0,
        owed: [UNFINISHED, UNFINISHED],
    },
    Row {
        word: "replays",
        text: WRITE_THEN_READ,
        number: 3,
        heard: 0,
        owed: [&[], &[]],
    },
];

#[test]
fn answers_by_its_word(rt: HostRuntime) -> Result<(), Fail> {
    for row in ROWS {
        let text = joined(rt.alloc(), row.text)?;
        let run = ran(&rt, rt.alloc(), row.word, text, &Idle)?;
        assert_eq!(rt; run.number, row.number);
        assert_eq!(rt; run.heard, row.heard);
        let one = joined(rt.alloc(), row.owed[0])?;
        let other = joined(rt.alloc(), row.owed[1])?;
        let is_one = run.written.as_slice() == one.as_slice();
        assert!(rt; is_one || run.written.as_slice() == other.as_slice());
    }
    Ok(())
}
