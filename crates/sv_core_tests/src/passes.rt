//! Render passes.
use crate::lines::{BEGIN, BUFFER, COPY_WRITES, END, IMAGE, QUEUE, SUBMIT};
use crate::rows::{L0, REC0, Row, differing};
use std::test::Fail;

const IMPLICIT_EXIT_REACHES_NOTHING: &[&str] = &[
    QUEUE,
    BUFFER,
    IMAGE,
    r#"{"op":"render_pass","pass":0,"attachments":[{"class":"color","load":"clear","store":"store","initial":"undefined","final":"shader_read_only_optimal"}],"subpasses":[{"uses":[{"att":0,"layout":"color_attachment_optimal"}]}],"deps":[]}"#,
    BEGIN,
    r#"{"op":"begin_pass","rec":0,"pass":0,"views":[{"res":1,"mip":0,"layer":0,"layers":1}]}"#,
    r#"{"op":"end_pass","rec":0}"#,
    r#"{"op":"work","rec":0,"accesses":[{"res":1,"stage":"fragment_shader","access":"shader_sampled_read","mip":0,"mips":1,"layer":0,"layers":1,"layout":"shader_read_only_optimal"}]}"#,
    END,
    SUBMIT,
];

const SELF_DEPENDENCY_BARRIER: &[&str] = &[
    QUEUE,
    BUFFER,
    r#"{"op":"render_pass","pass":0,"attachments":[],"subpasses":[{"uses":[]}],"deps":[{"from":0,"to":0,"src":["fragment_shader"],"src_access":["shader_storage_write"],"dst":["fragment_shader"],"dst_access":["shader_storage_read"]}]}"#,
    BEGIN,
    r#"{"op":"begin_pass","rec":0,"pass":0,"views":[]}"#,
    r#"{"op":"work","rec":0,"accesses":[{"res":0,"stage":"fragment_shader","access":"shader_storage_write","start":0,"end":16}]}"#,
    r#"{"op":"barrier","rec":0,"deps":[{"src":["fragment_shader"],"src_access":["shader_storage_write"],"dst":["fragment_shader"],"dst_access":["shader_storage_read"]}]}"#,
    r#"{"op":"work","rec":0,"accesses":[{"res":0,"stage":"fragment_shader","access":"shader_storage_read","start":0,"end":16}]}"#,
    r#"{"op":"end_pass","rec":0}"#,
    END,
    SUBMIT,
];

const SELF_DEPENDENCY_NO_BARRIER: &[&str] = &[
    QUEUE,
    BUFFER,
    r#"{"op":"render_pass","pass":0,"attachments":[],"subpasses":[{"uses":[]}],"deps":[{"from":0,"to":0,"src":["fragment_shader"],"src_access":["shader_storage_write"],"dst":["fragment_shader"],"dst_access":["shader_storage_read"]}]}"#,
    BEGIN,
    r#"{"op":"begin_pass","rec":0,"pass":0,"views":[]}"#,
    r#"{"op":"work","rec":0,"accesses":[{"res":0,"stage":"fragment_shader","access":"shader_storage_write","start":0,"end":16}]}"#,
    r#"{"op":"work","rec":0,"accesses":[{"res":0,"stage":"fragment_shader","access":"shader_storage_read","start":0,"end":16}]}"#,
    r#"{"op":"end_pass","rec":0}"#,
    END,
    SUBMIT,
];

const SUBPASS_DEPENDENCY_MISSING: &[&str] = &[
    QUEUE,
    BUFFER,
    r#"{"op":"render_pass","pass":0,"attachments":[],"subpasses":[{"uses":[]},{"uses":[]}],"deps":[{"from":"external","to":0,"src":["copy"],"src_access":["transfer_write"],"dst":["fragment_shader"],"dst_access":["shader_storage_read"]}]}"#,
    BEGIN,
    COPY_WRITES,
    r#"{"op":"begin_pass","rec":0,"pass":0,"views":[]}"#,
    r#"{"op":"next_subpass","rec":0}"#,
    r#"{"op":"work","rec":0,"accesses":[{"res":0,"stage":"fragment_shader","access":"shader_storage_read","start":0,"end":16}]}"#,
    r#"{"op":"end_pass","rec":0}"#,
    END,
    SUBMIT,
];

const SUBPASS_DEPENDENCY_THERE: &[&str] = &[
    QUEUE,
    BUFFER,
    r#"{"op":"render_pass","pass":0,"attachments":[],"subpasses":[{"uses":[]},{"uses":[]}],"deps":[{"from":"external","to":0,"src":["copy"],"src_access":["transfer_write"],"dst":["fragment_shader"],"dst_access":["shader_storage_read"]},{"from":0,"to":1,"src":["fragment_shader"],"src_access":[],"dst":["fragment_shader"],"dst_access":["shader_storage_read"]}]}"#,
    BEGIN,
    COPY_WRITES,
    r#"{"op":"begin_pass","rec":0,"pass":0,"views":[]}"#,
    r#"{"op":"next_subpass","rec":0}"#,
    r#"{"op":"work","rec":0,"accesses":[{"res":0,"stage":"fragment_shader","access":"shader_storage_read","start":0,"end":16}]}"#,
    r#"{"op":"end_pass","rec":0}"#,
    END,
    SUBMIT,
];

// Each text has one recording and one submit, so there are two whole histories. Where the submit comes
// first it is held until its recording is published. Its steps then stand under the publication, which
// released them; they are the same steps in the same order, and their places have the number of the submit,
// 0.
static ROWS: [Row; 10] = [
    Row {
        text: IMPLICIT_EXIT_REACHES_NOTHING,
        order: &[REC0, L0],
        owed: &[
            "event 0 recorder 0 publish rec 0",
            "event 1 lane 0 call 0 submit queue 0",
            "  raw res 1 mip 0 layers 0..1 shader_sampled_read@fragment_shader 1.0.0 rec 0 cmd 2 after layout_transition 1.0.0 rec 0 cmd 1",
            "total events 2 reports 1 notes 0 held 0",
        ],
    },
    Row {
        text: IMPLICIT_EXIT_REACHES_NOTHING,
        order: &[L0, REC0],
        owed: &[
            "event 0 lane 0 call 0 submit queue 0",
            "event 1 recorder 0 publish rec 0",
            "  raw res 1 mip 0 layers 0..1 shader_sampled_read@fragment_shader 0.0.0 rec 0 cmd 2 after layout_transition 0.0.0 rec 0 cmd 1",
            "total events 2 reports 1 notes 0 held 0",
        ],
    },
    Row {
        text: SELF_DEPENDENCY_BARRIER,
        order: &[REC0, L0],
        owed: &[
            "event 0 recorder 0 publish rec 0",
            "event 1 lane 0 call 0 submit queue 0",
            "total events 2 reports 0 notes 0 held 0",
        ],
    },
    Row {
        text: SELF_DEPENDENCY_BARRIER,
        order: &[L0, REC0],
        owed: &[
            "event 0 lane 0 call 0 submit queue 0",
            "event 1 recorder 0 publish rec 0",
            "total events 2 reports 0 notes 0 held 0",
        ],
    },
    Row {
        text: SELF_DEPENDENCY_NO_BARRIER,
        order: &[REC0, L0],
        owed: &[
            "event 0 recorder 0 publish rec 0",
            "event 1 lane 0 call 0 submit queue 0",
            "  raw res 0 bytes 0..16 shader_storage_read@fragment_shader 1.0.0 rec 0 cmd 2 after shader_storage_write@fragment_shader 1.0.0 rec 0 cmd 1",
            "total events 2 reports 1 notes 0 held 0",
        ],
    },
    Row {
        text: SELF_DEPENDENCY_NO_BARRIER,
        order: &[L0, REC0],
        owed: &[
            "event 0 lane 0 call 0 submit queue 0",
            "event 1 recorder 0 publish rec 0",
            "  raw res 0 bytes 0..16 shader_storage_read@fragment_shader 0.0.0 rec 0 cmd 2 after shader_storage_write@fragment_shader 0.0.0 rec 0 cmd 1",
            "total events 2 reports 1 notes 0 held 0",
        ],
    },
    Row {
        text: SUBPASS_DEPENDENCY_MISSING,
        order: &[REC0, L0],
        owed: &[
            "event 0 recorder 0 publish rec 0",
            "event 1 lane 0 call 0 submit queue 0",
            "  raw res 0 bytes 0..16 shader_storage_read@fragment_shader 1.0.0 rec 0 cmd 3 after transfer_write@copy 1.0.0 rec 0 cmd 0",
            "total events 2 reports 1 notes 0 held 0",
        ],
    },
    Row {
        text: SUBPASS_DEPENDENCY_MISSING,
        order: &[L0, REC0],
        owed: &[
            "event 0 lane 0 call 0 submit queue 0",
            "event 1 recorder 0 publish rec 0",
            "  raw res 0 bytes 0..16 shader_storage_read@fragment_shader 0.0.0 rec 0 cmd 3 after transfer_write@copy 0.0.0 rec 0 cmd 0",
            "total events 2 reports 1 notes 0 held 0",
        ],
    },
    Row {
        text: SUBPASS_DEPENDENCY_THERE,
        order: &[REC0, L0],
        owed: &[
            "event 0 recorder 0 publish rec 0",
            "event 1 lane 0 call 0 submit queue 0",
            "total events 2 reports 0 notes 0 held 0",
        ],
    },
    Row {
        text: SUBPASS_DEPENDENCY_THERE,
        order: &[L0, REC0],
        owed: &[
            "event 0 lane 0 call 0 submit queue 0",
            "event 1 recorder 0 publish rec 0",
            "total events 2 reports 0 notes 0 held 0",
        ],
    },
];

#[test]
fn passes_order_subpasses(rt: HostRuntime) -> Result<(), Fail> {
    assert_eq!(rt; differing(&rt, rt.alloc(), &ROWS)?, None);
    Ok(())
}
