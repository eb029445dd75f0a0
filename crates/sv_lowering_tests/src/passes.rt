//! The steps of a render pass. The expected ones are worked out by hand.
use crate::items::{Item, items_in};
use std::test::Fail;
use sv_mask::{Layout, Stages, Usage, Usages};
use sv_model::work::{Access, Area, Dep, Old, Place, Track, What};
use sv_range::Cells;

// A pass of three subpasses. Attachment 0 is used in the first two with two layouts, attachment 1 in the
// first one, attachments 2 and 4 in the last one, attachment 3 in none. The second subpass has a dependency
// on itself. The entry of the third one and the exits of the first two have no dependency.
const PASS: &str = r#"{"op":"queue","queue":0,"family":0,"lane":0}
{"op":"image","res":6,"mips":2,"layers":5}
{"op":"render_pass","pass":4,"attachments":[{"class":"color","load":"clear","store":"store","initial":"undefined","final":"present_src"},{"class":"depth","load":"load","store":"none","initial":"depth_stencil_attachment_optimal","final":"depth_stencil_attachment_optimal"},{"class":"color","load":"dont_care","store":"dont_care","initial":"color_attachment_optimal","final":"color_attachment_optimal"},{"class":"color","load":"load","store":"store","initial":"undefined","final":"general"},{"class":"depth","load":"clear","store":"store","initial":"undefined","final":"depth_stencil_read_only_optimal"}],"subpasses":[{"uses":[{"att":0,"layout":"color_attachment_optimal"},{"att":1,"layout":"depth_stencil_attachment_optimal"}]},{"uses":[{"att":0,"layout":"shader_read_only_optimal"}]},{"uses":[{"att":4,"layout":"depth_stencil_attachment_optimal"},{"att":2,"layout":"color_attachment_optimal"}]}],"deps":[{"from":"external","to":0,"src":["copy"],"src_access":["transfer_write"],"dst":["color_attachment_output"],"dst_access":["color_attachment_write"]},{"from":0,"to":1,"src":["color_attachment_output"],"src_access":["color_attachment_write"],"dst":["fragment_shader"],"dst_access":["input_attachment_read"]},{"from":1,"to":1,"src":["fragment_shader"],"src_access":["shader_storage_write"],"dst":["fragment_shader"],"dst_access":["shader_storage_read"]},{"from":2,"to":"external","src":["late_fragment_tests"],"src_access":["depth_stencil_attachment_write"],"dst":["copy"],"dst_access":["transfer_read"]}]}
{"op":"begin","rec":3,"recorder":2,"family":0}
{"op":"begin_pass","rec":3,"pass":4,"views":[{"res":6,"mip":1,"layer":0,"layers":1},{"res":6,"mip":1,"layer":1,"layers":1},{"res":6,"mip":1,"layer":2,"layers":1},{"res":6,"mip":1,"layer":3,"layers":1},{"res":6,"mip":1,"layer":4,"layers":1}]}
{"op":"next_subpass","rec":3}
{"op":"barrier","rec":3,"deps":[{"src":["fragment_shader"],"src_access":["shader_storage_write"],"dst":["fragment_shader"],"dst_access":["shader_storage_read"]}]}
{"op":"work","rec":3,"accesses":[{"res":6,"stage":"fragment_shader","access":"input_attachment_read","mip":1,"mips":1,"layer":0,"layers":1,"layout":"shader_read_only_optimal"}]}
{"op":"next_subpass","rec":3}
{"op":"end_pass","rec":3}
{"op":"end","rec":3}
"#;

// The pseudo stage of groups with a transition.
const SIGNAL: u32 = 1 << 17;

// All stages but that of the host.
const DEVICE: u32 = 0xffff;

// The accesses of attachments: the usages 27 to 33.
const ATTACHED: u64 = 0x3f8000000;

fn place(cmd: u32) -> Place {
    Place {
        event: 0,
        batch: 0,
        slot: 0,
        rec: 3,
        cmd,
    }
}

fn layer(layer: u32) -> Area {
    Area::Image {
        res: 6,
        cells: Cells {
            mip: 1,
            mips: 1,
            layer,
            layers: 1,
        },
    }
}

fn subpass(subpass: u32) -> Track {
    Track::Sub {
        queue: 0,
        instance: 0,
        subpass,
    }
}

// A dependency from the first scope to the second one.
fn dep(first: (Track, u32, u64), second: (Track, u32, u64)) -> Item {
    Item::Dep(Dep {
        from: first.0,
        s1: Stages(first.1),
        a1: Usages(first.2),
        to: second.0,
        s2: Stages(second.1),
        a2: Usages(second.2),
        range: None,
    })
}

// A use of the attachment with this number in a subpass: the command, the step and the position are at the
// end.
fn used(att: u32, usage: u8, subpass: u32, layout: Layout, at: (u32, u64, u32)) -> Item {
    Item::Access(Access {
        area: layer(att),
        what: What::Use(Usage(usage)),
        queue: 0,
        sub: Some((0, subpass)),
        layout: Some(layout),
        place: place(at.0),
        step: at.1,
        pos: at.2,
    })
}

fn transition(att: u32, at: (u32, u64, u32)) -> Item {
    Item::Transition(Access {
        area: layer(att),
        what: What::Transition,
        queue: 0,
        sub: None,
        layout: None,
        place: place(at.0),
        step: at.1,
        pos: at.2,
    })
}

fn old(att: u32, was: Layout, becomes: Layout) -> Item {
    Item::Old(Old {
        area: layer(att),
        was,
        becomes,
    })
}

#[test]
fn a_pass_has_its_groups_loads_and_stores(rt: HostRuntime) -> Result<(), Fail> {
    let queue = Track::Queue(0);
    let color = Layout::ColorAttachmentOptimal;
    let depth = Layout::DepthStencilAttachmentOptimal;
    let read = Layout::ShaderReadOnlyOptimal;
    let expected = [
        // the begin: three entry groups, of which the second one is empty
        Item::Groups,
        Item::Group(0, place(0)),
        dep(
            (queue, 1 << 12, 1 << 37),
            (subpass(0), 1 << 10 | SIGNAL, 1 << 29),
        ),
        transition(0, (0, 0, 0)),
        old(0, Layout::Undefined, color),
        Item::Group(0, place(0)),
        Item::Group(0, place(0)),
        dep((queue, 0, 0), (subpass(2), DEVICE | SIGNAL, ATTACHED)),
        transition(4, (0, 0, 1)),
        old(4, Layout::Undefined, depth),
        // a colour clear and a depth load
        Item::Accesses,
        used(0, 29, 0, color, (0, 1, 0)),
        used(1, 30, 0, depth, (0, 1, 1)),
        // the second subpass: no store, its inner group
        Item::Groups,
        Item::Group(2, place(1)),
        dep(
            (subpass(0), 0x7ff, 1 << 29),
            (subpass(1), 0x700 | SIGNAL, 1 << 27),
        ),
        transition(0, (1, 2, 0)),
        old(0, color, read),
        // its barrier and its work
        Item::Groups,
        Item::Group(3, place(2)),
        dep((subpass(1), 0x1ff, 1 << 22), (subpass(1), 0x700, 1 << 21)),
        Item::Accesses,
        used(0, 27, 1, read, (3, 4, 0)),
        // the third subpass: a store, then the loads that don't care and clear
        Item::Accesses,
        used(0, 29, 1, read, (4, 5, 0)),
        Item::Accesses,
        used(2, 29, 2, color, (4, 6, 0)),
        used(4, 31, 2, depth, (4, 6, 1)),
        // the end: two stores and three exit groups
        Item::Accesses,
        used(2, 29, 2, color, (5, 7, 0)),
        used(4, 33, 2, depth, (5, 7, 1)),
        Item::Groups,
        Item::Group(8, place(5)),
        dep((subpass(0), DEVICE, ATTACHED), (queue, 0, 0)),
        Item::Group(8, place(5)),
        dep((subpass(1), DEVICE, ATTACHED), (queue, SIGNAL, 0)),
        transition(0, (5, 8, 0)),
        old(0, read, Layout::PresentSrc),
        Item::Group(8, place(5)),
        dep(
            (subpass(2), 0x3ff, 1 << 33),
            (queue, 1 << 12 | SIGNAL, 1 << 34),
        ),
        transition(4, (5, 8, 1)),
        old(4, depth, Layout::DepthStencilReadOnlyOptimal),
    ];
    match items_in(rt.alloc(), PASS, 3)? {
        None => assert!(rt; false, "the text has the recording"),
        Some(items) => assert!(rt; items.as_slice() == expected.as_slice()),
    }
    Ok(())
}
