//! Worked texts and words, each with what is owed.
use crate::lines::{
    BEGIN, BUFFER, COPY_READS, COPY_WRITES, END, ITS_ANSWER, NONE_OF_2, NOTHING, ONE_OF_2,
    PUBLISHED, QUEUE, READ_AFTER_WRITE, SUBMIT, SUBMITTED, WRITE_THEN_READ,
};
use crate::runs::{joined, ran};
use std::alloc::{AllocError, Global};
use std::test::Fail;

const BLIT_READS: &str =
    r#"{"op":"work","rec":0,"accesses":[{"res":0,"stage":"blit","access":"transfer_read","start":0,"end":16}]}"#;

const OF_MEMORY: &str =
    r#"{"op":"barrier","rec":0,"deps":[{"src":["copy"],"src_access":["transfer_write"],"dst":["copy"],"dst_access":["transfer_read"]}]}"#;

const OF_EXECUTION: &str =
    r#"{"op":"barrier","rec":0,"deps":[{"src":["copy"],"src_access":[],"dst":["copy"],"dst_access":[]}]}"#;

const FENCE: &str = r#"{"op":"fence","fence":0}"#;

const WAIT_FENCE: &str = r#"{"op":"wait_fence","lane":0,"fence":0}"#;

const IMAGE: &str = r#"{"op":"image","res":1,"mips":1,"layers":1}"#;

const IMAGE_READ: &str =
    r#"{"op":"work","rec":0,"accesses":[{"res":1,"stage":"fragment_shader","access":"shader_sampled_read","mip":0,"mips":1,"layer":0,"layers":1,"layout":"shader_read_only_optimal"}]}"#;

const UNDEFINED_FOUND: &str =
    "  note layout res 1 mip 0 layers 0..1 shader_sampled_read@fragment_shader 1.0.0 rec 0 cmd 0 declared shader_read_only_optimal found undefined";

const READ_AT_2: &str =
    "  raw res 0 bytes 0..16 transfer_read@copy 1.0.0 rec 0 cmd 2 after transfer_write@copy 1.0.0 rec 0 cmd 0";

const WRITE_AFTER_BLIT: &str =
    "  war res 0 bytes 0..16 transfer_write@copy 1.0.0 rec 0 cmd 3 after transfer_read@blit 1.0.0 rec 0 cmd 2";

// The draws are 3519, 0 and 1.
const GENERATED: &[&str] = &[
    QUEUE,
    r#"{"op":"queue","queue":1,"family":0,"lane":1}"#,
    r#"{"op":"buffer","res":0,"size":65536}"#,
    r#"{"op":"semaphore","sem":0,"kind":"timeline","initial":0}"#,
    BEGIN,
    r#"{"op":"work","rec":0,"accesses":[{"res":0,"stage":"copy","access":"transfer_read","start":56304,"end":56320}]}"#,
    r#"{"op":"barrier","rec":0,"deps":[{"src":["copy"],"src_access":["transfer_write"],"dst":["copy"],"dst_access":["transfer_read","transfer_write"]}]}"#,
    END,
    r#"{"op":"submit","lane":0,"queue":0,"batches":[{"waits":[{"sem":0,"value":0,"stages":["all_commands"]}],"recs":[0],"signals":[{"sem":0,"value":1,"stages":["all_commands"]}]}]}"#,
];

// Words, the lines of the source, and what is owed: the number of the status, the lines that are written,
// and how many reports are heard.
#[derive(Clone, Copy)]
struct Row {
    words: &'static [&'static str],
    text: &'static [&'static str],
    number: u8,
    owed: &'static [&'static str],
    heard: u64,
}

static TEXTS: [Row; 9] = [
    Row {
        words: &["check"],
        text: &WRITE_THEN_READ,
        number: 1,
        owed: ITS_ANSWER,
        heard: 1,
    },
    Row {
        words: &["check"],
        text: &[
            QUEUE,
            BUFFER,
            BEGIN,
            COPY_WRITES,
            COPY_READS,
            BLIT_READS,
            COPY_WRITES,
            END,
            SUBMIT,
        ],
        number: 1,
        owed: &[
            PUBLISHED,
            SUBMITTED,
            READ_AFTER_WRITE,
            WRITE_AFTER_BLIT,
            "total events 2 reports 2 notes 0 held 0",
        ],
        heard: 2,
    },
    Row {
        words: &["check"],
        text: &[],
        number: 0,
        owed: &[NOTHING],
        heard: 0,
    },
    Row {
        words: &["check"],
        text: &[
            QUEUE,
            BUFFER,
            BEGIN,
            COPY_WRITES,
            OF_MEMORY,
            COPY_READS,
            END,
            SUBMIT,
        ],
        number: 0,
        owed: &[PUBLISHED, SUBMITTED, NONE_OF_2],
        heard: 0,
    },
    Row {
        words: &["check"],
        text: &[
            QUEUE,
            BUFFER,
            BEGIN,
            COPY_WRITES,
            OF_EXECUTION,
            COPY_READS,
            END,
            SUBMIT,
        ],
        number: 1,
        owed: &[PUBLISHED, SUBMITTED, READ_AT_2, ONE_OF_2],
        heard: 1,
    },
    Row {
        words: &["check"],
        text: &[
            QUEUE,
            BUFFER,
            BEGIN,
            COPY_READS,
            OF_EXECUTION,
            COPY_WRITES,
            END,
            SUBMIT,
        ],
        number: 0,
        owed: &[PUBLISHED, SUBMITTED, NONE_OF_2],
        heard: 0,
    },
    Row {
        words: &["check"],
        text: &[FENCE, WAIT_FENCE],
        number: 1,
        owed: &[
            "event 0 lane 0 call 0 wait_fence fence 0",
            "held lane 0 call 0",
            "total events 1 reports 0 notes 0 held 1",
        ],
        heard: 0,
    },
    Row {
        words: &["check"],
        text: &[QUEUE, IMAGE, BEGIN, IMAGE_READ, END, SUBMIT],
        number: 1,
        owed: &[
            PUBLISHED,
            SUBMITTED,
            UNDEFINED_FOUND,
            "total events 2 reports 0 notes 1 held 0",
        ],
        heard: 0,
    },
    Row {
        words: &["check"],
        text: &[QUEUE, BUFFER, BUFFER],
        number: 2,
        owed: &["line 3 refused 6 DeclaredTwice"],
        heard: 0,
    },
];

static WORDS: [Row; 8] = [
    Row {
        words: &["gen", "0", "1"],
        text: &[],
        number: 0,
        owed: GENERATED,
        heard: 0,
    },
    Row {
        words: &["bench", "0", "1"],
        text: &[],
        number: 0,
        owed: &["bench seed 0 count 1 events 2 reports 0 notes 0 held 0"],
        heard: 0,
    },
    Row {
        words: &[],
        text: &[],
        number: 3,
        owed: &[],
        heard: 0,
    },
    Row {
        words: &["check", "now"],
        text: &[],
        number: 3,
        owed: &[],
        heard: 0,
    },
    Row {
        words: &["chec"],
        text: &[],
        number: 3,
        owed: &[],
        heard: 0,
    },
    Row {
        words: &["--help"],
        text: &[],
        number: 3,
        owed: &[],
        heard: 0,
    },
    Row {
        words: &["-x"],
        text: &[],
        number: 3,
        owed: &[],
        heard: 0,
    },
    Row {
        words: &["gen", "0", "0"],
        text: &[],
        number: 3,
        owed: &[],
        heard: 0,
    },
];

fn row_agrees(alloc: Global, row: &Row) -> Result<bool, AllocError> {
    let text = joined(alloc, row.text)?;
    let owed = joined(alloc, row.owed)?;
    let run = ran(alloc, row.words, text)?;
    let written = run.written.as_slice() == owed.as_slice();
    Ok(written && run.number == row.number && run.heard == row.heard)
}

// The place of the first row that is answered something else than what is owed.
fn differing(alloc: Global, rows: &[Row]) -> Result<Option<usize>, AllocError> {
    for index in 0..rows.len() {
        if !row_agrees(alloc, &rows[index])? {
            return Ok(Some(index));
        }
    }
    Ok(None)
}

#[test]
fn texts_are_answered(rt: HostRuntime) -> Result<(), Fail> {
    assert_eq!(rt; differing(rt.alloc(), &TEXTS)?, None);
    Ok(())
}

#[test]
fn words_are_answered(rt: HostRuntime) -> Result<(), Fail> {
    assert_eq!(rt; differing(rt.alloc(), &WORDS)?, None);
    Ok(())
}

#[test]
fn bench_counts_what_check_prints(rt: HostRuntime) -> Result<(), Fail> {
    let made = ran(rt.alloc(), &["gen", "0", "1000"], Vec::new(rt.alloc()))?;
    assert_eq!(rt; made.number, 0);
    let checked = ran(rt.alloc(), &["check"], made.written)?;
    let benched = ran(rt.alloc(), &["bench", "0", "1000"], Vec::new(rt.alloc()))?;
    let reports = checked.heard;
    let mut total = String::new(rt.alloc());
    write!(
        total,
        "\ntotal events 20 reports {reports} notes 0 held 0\n"
    )?;
    let mut line = String::new(rt.alloc());
    write!(
        line,
        "bench seed 0 count 1000 events 20 reports {reports} notes 0 held 0\n"
    )?;
    assert!(rt; checked.written.as_slice().ends_with(total.as_bytes()));
    assert_eq!(rt; benched.written.as_slice(), line.as_bytes());
    assert_eq!(rt; benched.number, checked.number);
    assert_eq!(rt; benched.heard, 0);
    Ok(())
}
