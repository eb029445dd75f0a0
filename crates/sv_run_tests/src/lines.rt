//! Lines of several texts, and lines that are owed.
pub const QUEUE: &str = r#"{"op":"queue","queue":0,"family":0,"lane":0}"#;

pub const BUFFER: &str = r#"{"op":"buffer","res":0,"size":64}"#;

pub const BEGIN: &str = r#"{"op":"begin","rec":0,"recorder":0,"family":0}"#;

pub const COPY_WRITES: &str =
    r#"{"op":"work","rec":0,"accesses":[{"res":0,"stage":"copy","access":"transfer_write","start":0,"end":16}]}"#;

pub const COPY_READS: &str =
    r#"{"op":"work","rec":0,"accesses":[{"res":0,"stage":"copy","access":"transfer_read","start":0,"end":16}]}"#;

pub const END: &str = r#"{"op":"end","rec":0}"#;

pub const SUBMIT: &str = r#"{"op":"submit","lane":0,"queue":0,"batches":[{"recs":[0]}]}"#;

/// A read behind a write of the same bytes, with nothing between them.
pub const WRITE_THEN_READ: [&str; 7] = [QUEUE, BUFFER, BEGIN, COPY_WRITES, COPY_READS, END, SUBMIT];

pub const PUBLISHED: &str = "event 0 recorder 0 publish rec 0";

pub const SUBMITTED: &str = "event 1 lane 0 call 0 submit queue 0";

pub const READ_AFTER_WRITE: &str =
    "  raw res 0 bytes 0..16 transfer_read@copy 1.0.0 rec 0 cmd 1 after transfer_write@copy 1.0.0 rec 0 cmd 0";

pub const NOTHING: &str = "total events 0 reports 0 notes 0 held 0";

pub const NONE_OF_1: &str = "total events 1 reports 0 notes 0 held 0";

pub const NONE_OF_2: &str = "total events 2 reports 0 notes 0 held 0";

pub const ONE_OF_2: &str = "total events 2 reports 1 notes 0 held 0";

/// The lines that are owed for `WRITE_THEN_READ`.
pub const ITS_ANSWER: &[&str] = &[PUBLISHED, SUBMITTED, READ_AFTER_WRITE, ONE_OF_2];
