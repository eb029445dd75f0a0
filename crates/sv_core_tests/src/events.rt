//! Events, and dynamic rendering.
use crate::lines::{BEGIN, BUFFER, COPY_WRITES, END, EVENT, IMAGE, QUEUE, SUBMIT};
use crate::rows::{L0, REC0, Row, differing};
use std::test::Fail;

const DYNAMIC_RENDERING_DEPTH: &[&str] = &[
    QUEUE,
    BUFFER,
    IMAGE,
    BEGIN,
    r#"{"op":"barrier","rec":0,"deps":[{"src":[],"src_access":[],"dst":["early_fragment_tests","late_fragment_tests"],"dst_access":["depth_stencil_attachment_read","depth_stencil_attachment_write"],"res":1,"mip":0,"mips":1,"layer":0,"layers":1,"old":"undefined","new":"depth_stencil_attachment_optimal"}]}"#,
    r#"{"op":"begin_rendering","rec":0,"attachments":[{"res":1,"class":"depth","mip":0,"layer":0,"layers":1,"layout":"depth_stencil_attachment_optimal","load":"clear","store":"store"}]}"#,
    r#"{"op":"work","rec":0,"accesses":[{"res":1,"stage":"late_fragment_tests","access":"depth_stencil_attachment_write","mip":0,"mips":1,"layer":0,"layers":1,"layout":"depth_stencil_attachment_optimal"}]}"#,
    r#"{"op":"work","rec":0,"accesses":[{"res":1,"stage":"late_fragment_tests","access":"depth_stencil_attachment_write","mip":0,"mips":1,"layer":0,"layers":1,"layout":"depth_stencil_attachment_optimal"}]}"#,
    r#"{"op":"end_rendering","rec":0}"#,
    r#"{"op":"barrier","rec":0,"deps":[{"src":["late_fragment_tests"],"src_access":["depth_stencil_attachment_write"],"dst":["fragment_shader"],"dst_access":["shader_sampled_read"],"res":1,"mip":0,"mips":1,"layer":0,"layers":1,"old":"depth_stencil_attachment_optimal","new":"shader_read_only_optimal"}]}"#,
    r#"{"op":"work","rec":0,"accesses":[{"res":1,"stage":"fragment_shader","access":"shader_sampled_read","mip":0,"mips":1,"layer":0,"layers":1,"layout":"shader_read_only_optimal"}]}"#,
    END,
    SUBMIT,
];

const EVENT_SPLIT_BARRIER: &[&str] = &[
    QUEUE,
    BUFFER,
    EVENT,
    BEGIN,
    COPY_WRITES,
    r#"{"op":"set_event","rec":0,"event":0,"deps":[{"src":["copy"],"src_access":["transfer_write"],"dst":["copy"],"dst_access":["transfer_read"]}]}"#,
    r#"{"op":"work","rec":0,"accesses":[{"res":0,"stage":"copy","access":"transfer_write","start":16,"end":32}]}"#,
    r#"{"op":"wait_event","rec":0,"event":0}"#,
    r#"{"op":"work","rec":0,"accesses":[{"res":0,"stage":"copy","access":"transfer_read","start":0,"end":32}]}"#,
    END,
    SUBMIT,
];

const WAIT_ON_UNSET_EVENT: &[&str] = &[
    QUEUE,
    BUFFER,
    EVENT,
    BEGIN,
    r#"{"op":"wait_event","rec":0,"event":0}"#,
    END,
    SUBMIT,
];

// Each text has one recording and one submit, so there are two whole histories. Where the submit comes
// first it is held until its recording is published. Its steps then stand under the publication, which
// released them; they are the same steps in the same order, and their places have the number of the submit,
// 0.
static ROWS: [Row; 6] = [
    Row {
        text: DYNAMIC_RENDERING_DEPTH,
        order: &[REC0, L0],
        owed: &[
            "event 0 recorder 0 publish rec 0",
            "event 1 lane 0 call 0 submit queue 0",
            "total events 2 reports 0 notes 0 held 0",
        ],
    },
    Row {
        text: DYNAMIC_RENDERING_DEPTH,
        order: &[L0, REC0],
        owed: &[
            "event 0 lane 0 call 0 submit queue 0",
            "event 1 recorder 0 publish rec 0",
            "total events 2 reports 0 notes 0 held 0",
        ],
    },
    Row {
        text: EVENT_SPLIT_BARRIER,
        order: &[REC0, L0],
        owed: &[
            "event 0 recorder 0 publish rec 0",
            "event 1 lane 0 call 0 submit queue 0",
            "  raw res 0 bytes 16..32 transfer_read@copy 1.0.0 rec 0 cmd 4 after transfer_write@copy 1.0.0 rec 0 cmd 2",
            "total events 2 reports 1 notes 0 held 0",
        ],
    },
    Row {
        text: EVENT_SPLIT_BARRIER,
        order: &[L0, REC0],
        owed: &[
            "event 0 lane 0 call 0 submit queue 0",
            "event 1 recorder 0 publish rec 0",
            "  raw res 0 bytes 16..32 transfer_read@copy 0.0.0 rec 0 cmd 4 after transfer_write@copy 0.0.0 rec 0 cmd 2",
            "total events 2 reports 1 notes 0 held 0",
        ],
    },
    Row {
        text: WAIT_ON_UNSET_EVENT,
        order: &[REC0, L0],
        owed: &[
            "event 0 recorder 0 publish rec 0",
            "event 1 lane 0 call 0 submit queue 0",
            "  note event 0 1.0.0 rec 0 cmd 0 unset",
            "total events 2 reports 0 notes 1 held 0",
        ],
    },
    Row {
        text: WAIT_ON_UNSET_EVENT,
        order: &[L0, REC0],
        owed: &[
            "event 0 lane 0 call 0 submit queue 0",
            "event 1 recorder 0 publish rec 0",
            "  note event 0 0.0.0 rec 0 cmd 0 unset",
            "total events 2 reports 0 notes 1 held 0",
        ],
    },
];

#[test]
fn events_split_barriers(rt: HostRuntime) -> Result<(), Fail> {
    assert_eq!(rt; differing(&rt, rt.alloc(), &ROWS)?, None);
    Ok(())
}
