//! A frame: an upload on one queue, drawing, a compute pass and a read-back on another.
use crate::lines::{END, END_1, FENCE, IMAGE, QUEUE};
use crate::rows::{L0, L1, REC0, REC1, Row, differing};
use std::test::Fail;

pub const FRAME: &[&str] = &[
    QUEUE,
    r#"{"op":"queue","queue":1,"family":1,"lane":1}"#,
    r#"{"op":"buffer","res":0,"size":4096}"#,
    IMAGE,
    r#"{"op":"image","res":2,"mips":1,"layers":1}"#,
    r#"{"op":"image","res":3,"mips":1,"layers":1}"#,
    r#"{"op":"buffer","res":4,"size":4096}"#,
    r#"{"op":"buffer","res":5,"size":4096}"#,
    r#"{"op":"semaphore","sem":0,"kind":"timeline","initial":0}"#,
    FENCE,
    r#"{"op":"begin","rec":0,"recorder":1,"family":1}"#,
    r#"{"op":"barrier","rec":0,"deps":[{"src":[],"src_access":[],"dst":["copy"],"dst_access":["transfer_write"],"res":1,"mip":0,"mips":1,"layer":0,"layers":1,"old":"undefined","new":"transfer_dst_optimal"}]}"#,
    r#"{"op":"work","rec":0,"accesses":[{"res":0,"stage":"copy","access":"transfer_read","start":0,"end":4096},{"res":1,"stage":"copy","access":"transfer_write","mip":0,"mips":1,"layer":0,"layers":1,"layout":"transfer_dst_optimal"}]}"#,
    r#"{"op":"barrier","rec":0,"deps":[{"src":["copy"],"src_access":["transfer_write"],"dst":[],"dst_access":[],"res":1,"mip":0,"mips":1,"layer":0,"layers":1,"old":"transfer_dst_optimal","new":"shader_read_only_optimal","src_family":1,"dst_family":0}]}"#,
    END,
    r#"{"op":"begin","rec":1,"recorder":0,"family":0}"#,
    r#"{"op":"barrier","rec":1,"deps":[{"src":[],"src_access":[],"dst":["early_fragment_tests","late_fragment_tests"],"dst_access":["depth_stencil_attachment_read","depth_stencil_attachment_write"],"res":2,"mip":0,"mips":1,"layer":0,"layers":1,"old":"undefined","new":"depth_stencil_attachment_optimal"}]}"#,
    r#"{"op":"begin_rendering","rec":1,"attachments":[{"res":2,"class":"depth","mip":0,"layer":0,"layers":1,"layout":"depth_stencil_attachment_optimal","load":"clear","store":"store"}]}"#,
    r#"{"op":"work","rec":1,"accesses":[{"res":2,"stage":"early_fragment_tests","access":"depth_stencil_attachment_read","mip":0,"mips":1,"layer":0,"layers":1,"layout":"depth_stencil_attachment_optimal"},{"res":2,"stage":"late_fragment_tests","access":"depth_stencil_attachment_write","mip":0,"mips":1,"layer":0,"layers":1,"layout":"depth_stencil_attachment_optimal"}]}"#,
    r#"{"op":"end_rendering","rec":1}"#,
    r#"{"op":"barrier","rec":1,"deps":[{"src":["late_fragment_tests"],"src_access":["depth_stencil_attachment_write"],"dst":["fragment_shader"],"dst_access":["shader_sampled_read"],"res":2,"mip":0,"mips":1,"layer":0,"layers":1,"old":"depth_stencil_attachment_optimal","new":"shader_read_only_optimal"}]}"#,
    END_1,
    r#"{"op":"begin","rec":2,"recorder":1,"family":0}"#,
    r#"{"op":"barrier","rec":2,"deps":[{"src":["all_commands"],"src_access":[],"dst":["fragment_shader"],"dst_access":["shader_sampled_read"],"res":1,"mip":0,"mips":1,"layer":0,"layers":1,"old":"transfer_dst_optimal","new":"shader_read_only_optimal","src_family":1,"dst_family":0},{"src":[],"src_access":[],"dst":["color_attachment_output"],"dst_access":["color_attachment_read","color_attachment_write"],"res":3,"mip":0,"mips":1,"layer":0,"layers":1,"old":"undefined","new":"color_attachment_optimal"}]}"#,
    r#"{"op":"begin_rendering","rec":2,"attachments":[{"res":3,"class":"color","mip":0,"layer":0,"layers":1,"layout":"color_attachment_optimal","load":"clear","store":"store"}]}"#,
    r#"{"op":"work","rec":2,"accesses":[{"res":1,"stage":"fragment_shader","access":"shader_sampled_read","mip":0,"mips":1,"layer":0,"layers":1,"layout":"shader_read_only_optimal"},{"res":2,"stage":"fragment_shader","access":"shader_sampled_read","mip":0,"mips":1,"layer":0,"layers":1,"layout":"shader_read_only_optimal"},{"res":3,"stage":"color_attachment_output","access":"color_attachment_write","mip":0,"mips":1,"layer":0,"layers":1,"layout":"color_attachment_optimal"}]}"#,
    r#"{"op":"end_rendering","rec":2}"#,
    r#"{"op":"barrier","rec":2,"deps":[{"src":["color_attachment_output"],"src_access":["color_attachment_write"],"dst":["compute_shader"],"dst_access":["shader_sampled_read"],"res":3,"mip":0,"mips":1,"layer":0,"layers":1,"old":"color_attachment_optimal","new":"shader_read_only_optimal"}]}"#,
    r#"{"op":"work","rec":2,"accesses":[{"res":3,"stage":"compute_shader","access":"shader_sampled_read","mip":0,"mips":1,"layer":0,"layers":1,"layout":"shader_read_only_optimal"},{"res":4,"stage":"compute_shader","access":"shader_storage_write","start":0,"end":4096}]}"#,
    r#"{"op":"barrier","rec":2,"deps":[{"src":["compute_shader"],"src_access":["shader_storage_write"],"dst":["copy"],"dst_access":["transfer_read"]}]}"#,
    r#"{"op":"work","rec":2,"accesses":[{"res":4,"stage":"copy","access":"transfer_read","start":0,"end":4096},{"res":5,"stage":"copy","access":"transfer_write","start":0,"end":4096}]}"#,
    r#"{"op":"end","rec":2}"#,
    r#"{"op":"submit","lane":1,"queue":1,"batches":[{"recs":[0],"signals":[{"sem":0,"value":1,"stages":["all_commands"]}]}]}"#,
    r#"{"op":"submit","lane":0,"queue":0,"batches":[{"waits":[{"sem":0,"value":1,"stages":["all_commands"]}],"recs":[1,2]}],"fence":0}"#,
    r#"{"op":"wait_fence","lane":0,"fence":0}"#,
];

const FRAME_WITHOUT_A_BARRIER: &[&str] = &[
    QUEUE,
    r#"{"op":"queue","queue":1,"family":1,"lane":1}"#,
    r#"{"op":"buffer","res":0,"size":4096}"#,
    IMAGE,
    r#"{"op":"image","res":2,"mips":1,"layers":1}"#,
    r#"{"op":"image","res":3,"mips":1,"layers":1}"#,
    r#"{"op":"buffer","res":4,"size":4096}"#,
    r#"{"op":"buffer","res":5,"size":4096}"#,
    r#"{"op":"semaphore","sem":0,"kind":"timeline","initial":0}"#,
    FENCE,
    r#"{"op":"begin","rec":0,"recorder":1,"family":1}"#,
    r#"{"op":"barrier","rec":0,"deps":[{"src":[],"src_access":[],"dst":["copy"],"dst_access":["transfer_write"],"res":1,"mip":0,"mips":1,"layer":0,"layers":1,"old":"undefined","new":"transfer_dst_optimal"}]}"#,
    r#"{"op":"work","rec":0,"accesses":[{"res":0,"stage":"copy","access":"transfer_read","start":0,"end":4096},{"res":1,"stage":"copy","access":"transfer_write","mip":0,"mips":1,"layer":0,"layers":1,"layout":"transfer_dst_optimal"}]}"#,
    r#"{"op":"barrier","rec":0,"deps":[{"src":["copy"],"src_access":["transfer_write"],"dst":[],"dst_access":[],"res":1,"mip":0,"mips":1,"layer":0,"layers":1,"old":"transfer_dst_optimal","new":"shader_read_only_optimal","src_family":1,"dst_family":0}]}"#,
    END,
    r#"{"op":"begin","rec":1,"recorder":0,"family":0}"#,
    r#"{"op":"barrier","rec":1,"deps":[{"src":[],"src_access":[],"dst":["early_fragment_tests","late_fragment_tests"],"dst_access":["depth_stencil_attachment_read","depth_stencil_attachment_write"],"res":2,"mip":0,"mips":1,"layer":0,"layers":1,"old":"undefined","new":"depth_stencil_attachment_optimal"}]}"#,
    r#"{"op":"begin_rendering","rec":1,"attachments":[{"res":2,"class":"depth","mip":0,"layer":0,"layers":1,"layout":"depth_stencil_attachment_optimal","load":"clear","store":"store"}]}"#,
    r#"{"op":"work","rec":1,"accesses":[{"res":2,"stage":"early_fragment_tests","access":"depth_stencil_attachment_read","mip":0,"mips":1,"layer":0,"layers":1,"layout":"depth_stencil_attachment_optimal"},{"res":2,"stage":"late_fragment_tests","access":"depth_stencil_attachment_write","mip":0,"mips":1,"layer":0,"layers":1,"layout":"depth_stencil_attachment_optimal"}]}"#,
    r#"{"op":"end_rendering","rec":1}"#,
    r#"{"op":"barrier","rec":1,"deps":[{"src":["late_fragment_tests"],"src_access":["depth_stencil_attachment_write"],"dst":["fragment_shader"],"dst_access":["shader_sampled_read"],"res":2,"mip":0,"mips":1,"layer":0,"layers":1,"old":"depth_stencil_attachment_optimal","new":"shader_read_only_optimal"}]}"#,
    END_1,
    r#"{"op":"begin","rec":2,"recorder":1,"family":0}"#,
    r#"{"op":"barrier","rec":2,"deps":[{"src":["all_commands"],"src_access":[],"dst":["fragment_shader"],"dst_access":["shader_sampled_read"],"res":1,"mip":0,"mips":1,"layer":0,"layers":1,"old":"transfer_dst_optimal","new":"shader_read_only_optimal","src_family":1,"dst_family":0},{"src":[],"src_access":[],"dst":["color_attachment_output"],"dst_access":["color_attachment_read","color_attachment_write"],"res":3,"mip":0,"mips":1,"layer":0,"layers":1,"old":"undefined","new":"color_attachment_optimal"}]}"#,
    r#"{"op":"begin_rendering","rec":2,"attachments":[{"res":3,"class":"color","mip":0,"layer":0,"layers":1,"layout":"color_attachment_optimal","load":"clear","store":"store"}]}"#,
    r#"{"op":"work","rec":2,"accesses":[{"res":1,"stage":"fragment_shader","access":"shader_sampled_read","mip":0,"mips":1,"layer":0,"layers":1,"layout":"shader_read_only_optimal"},{"res":2,"stage":"fragment_shader","access":"shader_sampled_read","mip":0,"mips":1,"layer":0,"layers":1,"layout":"shader_read_only_optimal"},{"res":3,"stage":"color_attachment_output","access":"color_attachment_write","mip":0,"mips":1,"layer":0,"layers":1,"layout":"color_attachment_optimal"}]}"#,
    r#"{"op":"end_rendering","rec":2}"#,
    r#"{"op":"barrier","rec":2,"deps":[{"src":["color_attachment_output"],"src_access":["color_attachment_write"],"dst":["compute_shader"],"dst_access":["shader_sampled_read"],"res":3,"mip":0,"mips":1,"layer":0,"layers":1,"old":"color_attachment_optimal","new":"shader_read_only_optimal"}]}"#,
    r#"{"op":"work","rec":2,"accesses":[{"res":3,"stage":"compute_shader","access":"shader_sampled_read","mip":0,"mips":1,"layer":0,"layers":1,"layout":"shader_read_only_optimal"},{"res":4,"stage":"compute_shader","access":"shader_storage_write","start":0,"end":4096}]}"#,
    r#"{"op":"work","rec":2,"accesses":[{"res":4,"stage":"copy","access":"transfer_read","start":0,"end":4096},{"res":5,"stage":"copy","access":"transfer_write","start":0,"end":4096}]}"#,
    r#"{"op":"end","rec":2}"#,
    r#"{"op":"submit","lane":1,"queue":1,"batches":[{"recs":[0],"signals":[{"sem":0,"value":1,"stages":["all_commands"]}]}]}"#,
    r#"{"op":"submit","lane":0,"queue":0,"batches":[{"waits":[{"sem":0,"value":1,"stages":["all_commands"]}],"recs":[1,2]}],"fence":0}"#,
    r#"{"op":"wait_fence","lane":0,"fence":0}"#,
];

// With and without the barrier between the compute pass and the read-back.
static ROWS: [Row; 4] = [
    Row {
        text: FRAME,
        order: &[REC1, REC0, REC1, L1, L0, L0],
        owed: &[
            "event 0 recorder 1 publish rec 0",
            "event 1 recorder 0 publish rec 1",
            "event 2 recorder 1 publish rec 2",
            "event 3 lane 1 call 0 submit queue 1",
            "event 4 lane 0 call 0 submit queue 0",
            "event 5 lane 0 call 1 wait_fence fence 0",
            "total events 6 reports 0 notes 0 held 0",
        ],
    },
    // Lane 0's submit is held until recordings 1 and 2 are published, and its batch then until lane 1's has
    // signalled. So the last event releases lane 1's batch, lane 0's, the fence signal and the wait for the
    // fence, in this order.
    Row {
        text: FRAME,
        order: &[L0, L0, REC0, REC1, REC1, L1],
        owed: &[
            "event 0 lane 0 call 0 submit queue 0",
            "event 1 lane 0 call 1 wait_fence fence 0",
            "event 2 recorder 0 publish rec 1",
            "event 3 recorder 1 publish rec 0",
            "event 4 recorder 1 publish rec 2",
            "event 5 lane 1 call 0 submit queue 1",
            "total events 6 reports 0 notes 0 held 0",
        ],
    },
    Row {
        text: FRAME_WITHOUT_A_BARRIER,
        order: &[REC1, REC0, REC1, L1, L0, L0],
        owed: &[
            "event 0 recorder 1 publish rec 0",
            "event 1 recorder 0 publish rec 1",
            "event 2 recorder 1 publish rec 2",
            "event 3 lane 1 call 0 submit queue 1",
            "event 4 lane 0 call 0 submit queue 0",
            "  raw res 4 bytes 0..4096 transfer_read@copy 4.0.1 rec 2 cmd 6 after shader_storage_write@compute_shader 4.0.1 rec 2 cmd 5",
            "event 5 lane 0 call 1 wait_fence fence 0",
            "total events 6 reports 1 notes 0 held 0",
        ],
    },
    // As before: the submit of recording 2 is event 0.
    Row {
        text: FRAME_WITHOUT_A_BARRIER,
        order: &[L0, L0, REC0, REC1, REC1, L1],
        owed: &[
            "event 0 lane 0 call 0 submit queue 0",
            "event 1 lane 0 call 1 wait_fence fence 0",
            "event 2 recorder 0 publish rec 1",
            "event 3 recorder 1 publish rec 0",
            "event 4 recorder 1 publish rec 2",
            "event 5 lane 1 call 0 submit queue 1",
            "  raw res 4 bytes 0..4096 transfer_read@copy 0.0.1 rec 2 cmd 6 after shader_storage_write@compute_shader 0.0.1 rec 2 cmd 5",
            "total events 6 reports 1 notes 0 held 0",
        ],
    },
];

#[test]
fn frames_run(rt: HostRuntime) -> Result<(), Fail> {
    assert_eq!(rt; differing(&rt, rt.alloc(), &ROWS)?, None);
    Ok(())
}
