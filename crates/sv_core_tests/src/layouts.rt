//! Layouts and owners.
use crate::lines::{BEGIN, BUFFER, COPY_READS, COPY_WRITES, END, IMAGE, QUEUE, SUBMIT};
use crate::rows::{L0, REC0, Row, differing};
use std::test::Fail;

const LAYOUT_NOTE: &[&str] = &[
    QUEUE,
    BUFFER,
    IMAGE,
    BEGIN,
    r#"{"op":"work","rec":0,"accesses":[{"res":1,"stage":"fragment_shader","access":"shader_sampled_read","mip":0,"mips":1,"layer":0,"layers":1,"layout":"shader_read_only_optimal"}]}"#,
    END,
    SUBMIT,
];

const RELEASE_THEN_READ: &[&str] = &[
    QUEUE,
    BUFFER,
    BEGIN,
    COPY_WRITES,
    r#"{"op":"barrier","rec":0,"deps":[{"src":["copy"],"src_access":["transfer_write"],"dst":[],"dst_access":[],"res":0,"start":0,"end":16,"src_family":0,"dst_family":1}]}"#,
    COPY_READS,
    END,
    SUBMIT,
];

const TRANSITION_WITHOUT_SOURCE: &[&str] = &[
    QUEUE,
    BUFFER,
    IMAGE,
    BEGIN,
    r#"{"op":"barrier","rec":0,"deps":[{"src":[],"src_access":[],"dst":["clear"],"dst_access":["transfer_write"],"res":1,"mip":0,"mips":1,"layer":0,"layers":1,"old":"undefined","new":"transfer_dst_optimal"}]}"#,
    r#"{"op":"work","rec":0,"accesses":[{"res":1,"stage":"clear","access":"transfer_write","mip":0,"mips":1,"layer":0,"layers":1,"layout":"transfer_dst_optimal"}]}"#,
    r#"{"op":"barrier","rec":0,"deps":[{"src":[],"src_access":[],"dst":["fragment_shader"],"dst_access":["shader_sampled_read"],"res":1,"mip":0,"mips":1,"layer":0,"layers":1,"old":"transfer_dst_optimal","new":"shader_read_only_optimal"}]}"#,
    END,
    SUBMIT,
];

// Each text has one recording and one submit, so there are two whole histories. Where the submit comes
// first it is held until its recording is published. Its steps then stand under the publication, which
// released them; they are the same steps in the same order, and their places have the number of the submit,
// 0.
static ROWS: [Row; 6] = [
    Row {
        text: LAYOUT_NOTE,
        order: &[REC0, L0],
        owed: &[
            "event 0 recorder 0 publish rec 0",
            "event 1 lane 0 call 0 submit queue 0",
            "  note layout res 1 mip 0 layers 0..1 shader_sampled_read@fragment_shader 1.0.0 rec 0 cmd 0 declared shader_read_only_optimal found undefined",
            "total events 2 reports 0 notes 1 held 0",
        ],
    },
    Row {
        text: LAYOUT_NOTE,
        order: &[L0, REC0],
        owed: &[
            "event 0 lane 0 call 0 submit queue 0",
            "event 1 recorder 0 publish rec 0",
            "  note layout res 1 mip 0 layers 0..1 shader_sampled_read@fragment_shader 0.0.0 rec 0 cmd 0 declared shader_read_only_optimal found undefined",
            "total events 2 reports 0 notes 1 held 0",
        ],
    },
    Row {
        text: RELEASE_THEN_READ,
        order: &[REC0, L0],
        owed: &[
            "event 0 recorder 0 publish rec 0",
            "event 1 lane 0 call 0 submit queue 0",
            "  raw res 0 bytes 0..16 transfer_read@copy 1.0.0 rec 0 cmd 2 after transfer_write@copy 1.0.0 rec 0 cmd 0",
            "  note owner res 0 bytes 0..16 transfer_read@copy 1.0.0 rec 0 cmd 2 found released 0 1",
            "total events 2 reports 1 notes 1 held 0",
        ],
    },
    Row {
        text: RELEASE_THEN_READ,
        order: &[L0, REC0],
        owed: &[
            "event 0 lane 0 call 0 submit queue 0",
            "event 1 recorder 0 publish rec 0",
            "  raw res 0 bytes 0..16 transfer_read@copy 0.0.0 rec 0 cmd 2 after transfer_write@copy 0.0.0 rec 0 cmd 0",
            "  note owner res 0 bytes 0..16 transfer_read@copy 0.0.0 rec 0 cmd 2 found released 0 1",
            "total events 2 reports 1 notes 1 held 0",
        ],
    },
    Row {
        text: TRANSITION_WITHOUT_SOURCE,
        order: &[REC0, L0],
        owed: &[
            "event 0 recorder 0 publish rec 0",
            "event 1 lane 0 call 0 submit queue 0",
            "  waw res 1 mip 0 layers 0..1 layout_transition 1.0.0 rec 0 cmd 2 after transfer_write@clear 1.0.0 rec 0 cmd 1",
            "total events 2 reports 1 notes 0 held 0",
        ],
    },
    Row {
        text: TRANSITION_WITHOUT_SOURCE,
        order: &[L0, REC0],
        owed: &[
            "event 0 lane 0 call 0 submit queue 0",
            "event 1 recorder 0 publish rec 0",
            "  waw res 1 mip 0 layers 0..1 layout_transition 0.0.0 rec 0 cmd 2 after transfer_write@clear 0.0.0 rec 0 cmd 1",
            "total events 2 reports 1 notes 0 held 0",
        ],
    },
];

#[test]
fn layouts_and_owners_are_noted(rt: HostRuntime) -> Result<(), Fail> {
    assert_eq!(rt; differing(&rt, rt.alloc(), &ROWS)?, None);
    Ok(())
}
