//! Barriers: scopes, chains, ranges, a recording that is submitted twice.
use crate::lines::{BEGIN, BUFFER, COPY_READS, COPY_WRITES, END, QUEUE, SUBMIT};
use crate::rows::{L0, REC0, Row, differing};
use std::test::Fail;

const ACCESS_SCOPE_NOT_LATER_STAGES: &[&str] = &[
    QUEUE,
    BUFFER,
    BEGIN,
    COPY_WRITES,
    r#"{"op":"barrier","rec":0,"deps":[{"src":["copy"],"src_access":["transfer_write"],"dst":["vertex_shader"],"dst_access":["shader_storage_write"]}]}"#,
    r#"{"op":"work","rec":0,"accesses":[{"res":0,"stage":"fragment_shader","access":"shader_storage_write","start":0,"end":16}]}"#,
    END,
    SUBMIT,
];

const ACCESS_SCOPE_READ_FIRST: &[&str] = &[
    QUEUE,
    BUFFER,
    BEGIN,
    COPY_READS,
    r#"{"op":"barrier","rec":0,"deps":[{"src":["copy"],"src_access":["transfer_read"],"dst":["vertex_shader"],"dst_access":["shader_storage_write"]}]}"#,
    r#"{"op":"work","rec":0,"accesses":[{"res":0,"stage":"fragment_shader","access":"shader_storage_write","start":0,"end":16}]}"#,
    END,
    SUBMIT,
];

const BROKEN_CHAIN: &[&str] = &[
    QUEUE,
    BUFFER,
    BEGIN,
    COPY_WRITES,
    r#"{"op":"barrier","rec":0,"deps":[{"src":["copy"],"src_access":["transfer_write"],"dst":["compute_shader"],"dst_access":[]}]}"#,
    r#"{"op":"barrier","rec":0,"deps":[{"src":["vertex_shader"],"src_access":[],"dst":["fragment_shader"],"dst_access":["shader_sampled_read"]}]}"#,
    r#"{"op":"work","rec":0,"accesses":[{"res":0,"stage":"fragment_shader","access":"shader_sampled_read","start":0,"end":16}]}"#,
    END,
    SUBMIT,
];

pub const CHAIN_OF_TWO_BARRIERS: &[&str] = &[
    QUEUE,
    BUFFER,
    BEGIN,
    COPY_WRITES,
    r#"{"op":"barrier","rec":0,"deps":[{"src":["copy"],"src_access":["transfer_write"],"dst":["compute_shader"],"dst_access":[]}]}"#,
    r#"{"op":"barrier","rec":0,"deps":[{"src":["compute_shader"],"src_access":[],"dst":["fragment_shader"],"dst_access":["shader_sampled_read"]}]}"#,
    r#"{"op":"work","rec":0,"accesses":[{"res":0,"stage":"fragment_shader","access":"shader_sampled_read","start":0,"end":16}]}"#,
    END,
    SUBMIT,
];

const RANGED_BARRIER: &[&str] = &[
    QUEUE,
    BUFFER,
    BEGIN,
    r#"{"op":"work","rec":0,"accesses":[{"res":0,"stage":"copy","access":"transfer_write","start":0,"end":32}]}"#,
    r#"{"op":"barrier","rec":0,"deps":[{"src":["copy"],"src_access":["transfer_write"],"dst":["copy"],"dst_access":["transfer_read"],"res":0,"start":0,"end":16}]}"#,
    r#"{"op":"work","rec":0,"accesses":[{"res":0,"stage":"copy","access":"transfer_read","start":8,"end":48}]}"#,
    END,
    SUBMIT,
];

const RESUBMITTED_RECORDING: &[&str] = &[
    QUEUE,
    BUFFER,
    BEGIN,
    COPY_WRITES,
    r#"{"op":"barrier","rec":0,"deps":[{"src":["copy"],"src_access":["transfer_write"],"dst":["copy"],"dst_access":["transfer_read"]}]}"#,
    COPY_READS,
    END,
    SUBMIT,
    SUBMIT,
];

// Each text has one recording and one submit, so there are two whole histories. Where the submit comes
// first it is held until its recording is published. Its steps then stand under the publication, which
// released them; they are the same steps in the same order, and their places have the number of the submit,
// 0.
static ROWS: [Row; 13] = [
    Row {
        text: ACCESS_SCOPE_NOT_LATER_STAGES,
        order: &[REC0, L0],
        owed: &[
            "event 0 recorder 0 publish rec 0",
            "event 1 lane 0 call 0 submit queue 0",
            "  waw res 0 bytes 0..16 shader_storage_write@fragment_shader 1.0.0 rec 0 cmd 2 after transfer_write@copy 1.0.0 rec 0 cmd 0",
            "total events 2 reports 1 notes 0 held 0",
        ],
    },
    Row {
        text: ACCESS_SCOPE_NOT_LATER_STAGES,
        order: &[L0, REC0],
        owed: &[
            "event 0 lane 0 call 0 submit queue 0",
            "event 1 recorder 0 publish rec 0",
            "  waw res 0 bytes 0..16 shader_storage_write@fragment_shader 0.0.0 rec 0 cmd 2 after transfer_write@copy 0.0.0 rec 0 cmd 0",
            "total events 2 reports 1 notes 0 held 0",
        ],
    },
    Row {
        text: ACCESS_SCOPE_READ_FIRST,
        order: &[REC0, L0],
        owed: &[
            "event 0 recorder 0 publish rec 0",
            "event 1 lane 0 call 0 submit queue 0",
            "total events 2 reports 0 notes 0 held 0",
        ],
    },
    Row {
        text: ACCESS_SCOPE_READ_FIRST,
        order: &[L0, REC0],
        owed: &[
            "event 0 lane 0 call 0 submit queue 0",
            "event 1 recorder 0 publish rec 0",
            "total events 2 reports 0 notes 0 held 0",
        ],
    },
    Row {
        text: BROKEN_CHAIN,
        order: &[REC0, L0],
        owed: &[
            "event 0 recorder 0 publish rec 0",
            "event 1 lane 0 call 0 submit queue 0",
            "  raw res 0 bytes 0..16 shader_sampled_read@fragment_shader 1.0.0 rec 0 cmd 3 after transfer_write@copy 1.0.0 rec 0 cmd 0",
            "total events 2 reports 1 notes 0 held 0",
        ],
    },
    Row {
        text: BROKEN_CHAIN,
        order: &[L0, REC0],
        owed: &[
            "event 0 lane 0 call 0 submit queue 0",
            "event 1 recorder 0 publish rec 0",
            "  raw res 0 bytes 0..16 shader_sampled_read@fragment_shader 0.0.0 rec 0 cmd 3 after transfer_write@copy 0.0.0 rec 0 cmd 0",
            "total events 2 reports 1 notes 0 held 0",
        ],
    },
    Row {
        text: CHAIN_OF_TWO_BARRIERS,
        order: &[REC0, L0],
        owed: &[
            "event 0 recorder 0 publish rec 0",
            "event 1 lane 0 call 0 submit queue 0",
            "total events 2 reports 0 notes 0 held 0",
        ],
    },
    Row {
        text: CHAIN_OF_TWO_BARRIERS,
        order: &[L0, REC0],
        owed: &[
            "event 0 lane 0 call 0 submit queue 0",
            "event 1 recorder 0 publish rec 0",
            "total events 2 reports 0 notes 0 held 0",
        ],
    },
    Row {
        text: RANGED_BARRIER,
        order: &[REC0, L0],
        owed: &[
            "event 0 recorder 0 publish rec 0",
            "event 1 lane 0 call 0 submit queue 0",
            "  raw res 0 bytes 16..32 transfer_read@copy 1.0.0 rec 0 cmd 2 after transfer_write@copy 1.0.0 rec 0 cmd 0",
            "total events 2 reports 1 notes 0 held 0",
        ],
    },
    Row {
        text: RANGED_BARRIER,
        order: &[L0, REC0],
        owed: &[
            "event 0 lane 0 call 0 submit queue 0",
            "event 1 recorder 0 publish rec 0",
            "  raw res 0 bytes 16..32 transfer_read@copy 0.0.0 rec 0 cmd 2 after transfer_write@copy 0.0.0 rec 0 cmd 0",
            "total events 2 reports 1 notes 0 held 0",
        ],
    },
    Row {
        text: RESUBMITTED_RECORDING,
        order: &[REC0, L0, L0],
        owed: &[
            "event 0 recorder 0 publish rec 0",
            "event 1 lane 0 call 0 submit queue 0",
            "event 2 lane 0 call 1 submit queue 0",
            "  war res 0 bytes 0..16 transfer_write@copy 2.0.0 rec 0 cmd 0 after transfer_read@copy 1.0.0 rec 0 cmd 2",
            "total events 3 reports 1 notes 0 held 0",
        ],
    },
    // The publication releases the first submit alone, and the second runs when it comes.
    Row {
        text: RESUBMITTED_RECORDING,
        order: &[L0, REC0, L0],
        owed: &[
            "event 0 lane 0 call 0 submit queue 0",
            "event 1 recorder 0 publish rec 0",
            "event 2 lane 0 call 1 submit queue 0",
            "  war res 0 bytes 0..16 transfer_write@copy 2.0.0 rec 0 cmd 0 after transfer_read@copy 0.0.0 rec 0 cmd 2",
            "total events 3 reports 1 notes 0 held 0",
        ],
    },
    // The publication releases both submits, in the order of the calls.
    Row {
        text: RESUBMITTED_RECORDING,
        order: &[L0, L0, REC0],
        owed: &[
            "event 0 lane 0 call 0 submit queue 0",
            "event 1 lane 0 call 1 submit queue 0",
            "event 2 recorder 0 publish rec 0",
            "  war res 0 bytes 0..16 transfer_write@copy 1.0.0 rec 0 cmd 0 after transfer_read@copy 0.0.0 rec 0 cmd 2",
            "total events 3 reports 1 notes 0 held 0",
        ],
    },
];

#[test]
fn barriers_order_accesses(rt: HostRuntime) -> Result<(), Fail> {
    assert_eq!(rt; differing(&rt, rt.alloc(), &ROWS)?, None);
    Ok(())
}
