//! The steps of the other commands. The expected ones are worked out by hand.
use crate::items::{Item, items_in};
use std::test::Fail;
use sv_mask::{Layout, Stages, Usage, Usages};
use sv_model::work::{Access, Area, Dep, Old, Place, Track, Transfer, What};
use sv_range::{Cells, Span};

// Works, dynamic rendering twice, the commands of an event, and barriers.
const COMMANDS: &str = r#"{"op":"queue","queue":0,"family":0,"lane":0}
{"op":"buffer","res":1,"size":64}
{"op":"image","res":2,"mips":1,"layers":4}
{"op":"event","event":5}
{"op":"begin","rec":0,"recorder":0,"family":0}
{"op":"work","rec":0,"accesses":[{"res":1,"stage":"copy","access":"transfer_write","start":0,"end":16}]}
{"op":"begin_rendering","rec":0,"attachments":[{"res":2,"class":"color","mip":0,"layer":0,"layers":1,"layout":"color_attachment_optimal","load":"load","store":"none"},{"res":2,"class":"depth","mip":0,"layer":1,"layers":1,"layout":"depth_stencil_attachment_optimal","load":"dont_care","store":"dont_care"},{"res":2,"class":"color","mip":0,"layer":2,"layers":1,"layout":"general","load":"clear","store":"store"},{"res":2,"class":"depth","mip":0,"layer":3,"layers":1,"layout":"depth_stencil_read_only_optimal","load":"load","store":"store"}]}
{"op":"work","rec":0,"accesses":[{"res":1,"stage":"fragment_shader","access":"uniform_read","start":0,"end":16}]}
{"op":"end_rendering","rec":0}
{"op":"set_event","rec":0,"event":5,"deps":[{"src":["copy"],"src_access":["transfer_write"],"dst":["copy"],"dst_access":["transfer_read"],"res":1,"start":0,"end":16}]}
{"op":"wait_event","rec":0,"event":5}
{"op":"reset_event","rec":0,"event":5}
{"op":"barrier","rec":0,"deps":[]}
{"op":"begin_rendering","rec":0,"attachments":[{"res":2,"class":"color","mip":0,"layer":0,"layers":1,"layout":"color_attachment_optimal","load":"load","store":"none"}]}
{"op":"end_rendering","rec":0}
{"op":"work","rec":0,"accesses":[]}
{"op":"barrier","rec":0,"deps":[{"src":["copy"],"src_access":["transfer_write"],"dst":["copy"],"dst_access":["transfer_read"],"res":2,"mip":0,"mips":1,"layer":0,"layers":1,"old":"undefined","new":"general"},{"src":["copy"],"src_access":["transfer_write"],"dst":["copy"],"dst_access":["transfer_read"]},{"src":["copy"],"src_access":["transfer_write"],"dst":["copy"],"dst_access":["transfer_read"],"res":2,"mip":0,"mips":1,"layer":1,"layers":1,"old":"general","new":"transfer_dst_optimal","src_family":0,"dst_family":1},{"src":["copy"],"src_access":["transfer_write"],"dst":["copy"],"dst_access":["transfer_read"],"res":2,"mip":0,"mips":1,"layer":2,"layers":1,"old":"undefined","new":"general","src_family":1,"dst_family":0}]}
{"op":"end","rec":0}
"#;

// Copies, and with the pseudo stage of groups with a transition.
const COPY: u32 = 1 << 12;

const OPENED: u32 = 1 << 12 | 1 << 17;

// Their writes and reads.
const WRITES: u64 = 1 << 37;

const READS: u64 = 1 << 34;

fn place(cmd: u32) -> Place {
    Place {
        event: 0,
        batch: 0,
        slot: 0,
        rec: 0,
        cmd,
    }
}

fn bytes() -> Area {
    Area::Bytes {
        res: 1,
        span: Span { start: 0, end: 16 },
    }
}

fn layer(layer: u32) -> Area {
    Area::Image {
        res: 2,
        cells: Cells {
            mip: 0,
            mips: 1,
            layer,
            layers: 1,
        },
    }
}

// An access of the buffer: the command and the step are at the end.
fn on_buffer(usage: u8, sub: Option<(u64, u32)>, at: (u32, u64)) -> Item {
    Item::Access(Access {
        area: bytes(),
        what: What::Use(Usage(usage)),
        queue: 0,
        sub,
        layout: None,
        place: place(at.0),
        step: at.1,
        pos: 0,
    })
}

// A use of the attachment with this layer: the instance, the command, the step and the position are at the
// end.
fn used(on: u32, usage: u8, layout: Layout, at: (u64, u32, u64, u32)) -> Item {
    Item::Access(Access {
        area: layer(on),
        what: What::Use(Usage(usage)),
        queue: 0,
        sub: Some((at.0, 0)),
        layout: Some(layout),
        place: place(at.1),
        step: at.2,
        pos: at.3,
    })
}

// A dependency of the queue on itself.
fn dep(a1: u64, s2: u32, a2: u64, range: Option<Area>) -> Item {
    Item::Dep(Dep {
        from: Track::Queue(0),
        s1: Stages(COPY),
        a1: Usages(a1),
        to: Track::Queue(0),
        s2: Stages(s2),
        a2: Usages(a2),
        range,
    })
}

// A transition of the last command.
fn transition(on: u32, pos: u32) -> Item {
    Item::Transition(Access {
        area: layer(on),
        what: What::Transition,
        queue: 0,
        sub: None,
        layout: None,
        place: place(11),
        step: 10,
        pos,
    })
}

fn old(on: u32, was: Layout, becomes: Layout) -> Item {
    Item::Old(Old {
        area: layer(on),
        was,
        becomes,
    })
}

fn transfer(on: u32, release: bool, from: u32, to: u32) -> Item {
    Item::Transfer(Transfer {
        release,
        from,
        to,
        area: layer(on),
    })
}

#[test]
fn each_command_has_its_steps(rt: HostRuntime) -> Result<(), Fail> {
    let color = Layout::ColorAttachmentOptimal;
    let depth = Layout::DepthStencilAttachmentOptimal;
    let read = Layout::DepthStencilReadOnlyOptimal;
    let general = Layout::General;
    let expected = [
        Item::Accesses,
        on_buffer(37, None, (0, 0)),
        // the loads: load, don't care, clear, load
        Item::Accesses,
        used(0, 28, color, (0, 1, 1, 0)),
        used(1, 31, depth, (0, 1, 1, 1)),
        used(2, 29, general, (0, 1, 1, 2)),
        used(3, 30, read, (0, 1, 1, 3)),
        Item::Accesses,
        on_buffer(19, Some((0, 0)), (2, 2)),
        // the stores: none, don't care, store, store
        Item::Accesses,
        used(1, 33, depth, (0, 3, 3, 0)),
        used(2, 29, general, (0, 3, 3, 1)),
        used(3, 33, read, (0, 3, 3, 2)),
        // the commands of the event
        Item::Set(5, place(4)),
        Item::Group(4, place(4)),
        dep(WRITES, COPY, READS, Some(bytes())),
        Item::Wait(5, place(5)),
        Item::Reset(5, place(6)),
        // a barrier without elements
        Item::Groups,
        // the second instance, without a store
        Item::Accesses,
        used(0, 28, color, (1, 8, 8, 0)),
        // a work without accesses
        Item::Accesses,
        // a transition, a barrier on all, a release and an acquire
        Item::Groups,
        Item::Group(10, place(11)),
        dep(WRITES, OPENED, READS, Some(layer(0))),
        transition(0, 0),
        old(0, Layout::Undefined, general),
        Item::Group(10, place(11)),
        dep(WRITES, COPY, READS, None),
        Item::Group(10, place(11)),
        dep(WRITES, COPY, 0, Some(layer(1))),
        old(1, general, Layout::TransferDstOptimal),
        transfer(1, true, 0, 1),
        Item::Group(10, place(11)),
        dep(0, OPENED, READS, Some(layer(2))),
        transition(2, 1),
        old(2, Layout::Undefined, general),
        transfer(2, false, 1, 0),
    ];
    match items_in(rt.alloc(), COMMANDS, 0)? {
        None => assert!(rt; false, "the text has the recording"),
        Some(items) => assert!(rt; items.as_slice() == expected.as_slice()),
    }
    Ok(())
}
