//! A line of each op with what it says.
use std::test::Fail;
use sv_mask::{Access16, AccessWord, Accesses, Layout, Stage, StageWord, Stages};
use sv_model::line::{
    Attachment, Batch, Class, Declared, Element, Line, Load, Part, PassAttachment, PassDep,
    PassUse, SemKind, SemaphoreUse, Sharing, Store, Target, View,
};
use sv_trace::{cut_lines, read_line};

// The masks of the lines below: copy and blit with transfer_write and memory_read, then
// fragment_shader and the top of the pipe with the two reads of shaders.
const ELEMENT: Element = Element {
    src: StageWord {
        plain: Stages(1 << 12 | 1 << 14),
        top: false,
        bottom: false,
    },
    src_access: AccessWord {
        plain: Accesses(1 << 13),
        memory_read: true,
        memory_write: false,
    },
    dst: StageWord {
        plain: Stages(1 << 8),
        top: true,
        bottom: false,
    },
    dst_access: AccessWord {
        plain: Accesses(1 << 4 | 1 << 5),
        memory_read: false,
        memory_write: false,
    },
    target: None,
};

const COPY: StageWord = StageWord {
    plain: Stages(1 << 12),
    top: false,
    bottom: false,
};

fn read(rt: &HostRuntime, text: &str) -> Line {
    match read_line(rt.alloc(), text.as_bytes(), 1) {
        Ok(line) => line,
        Err(_) => Line::Blank,
    }
}

fn is_the_batch(batch: &Batch) -> bool {
    let waits = batch.waits.as_slice()
        == [SemaphoreUse {
            sem: 3,
            value: None,
            stages: COPY,
        }]
        .as_slice();
    let recs = batch.recs.as_slice() == [4, 5].as_slice();
    let signals = batch.signals.as_slice()
        == [SemaphoreUse {
            sem: 6,
            value: Some(7),
            stages: COPY,
        }]
        .as_slice();
    waits && recs && signals
}

fn version(rt: &HostRuntime) -> bool {
    matches!(
        read(rt, "{\"op\":\"version\",\"number\":1}"),
        Line::Version { number: 1 }
    )
}

fn queue(rt: &HostRuntime) -> bool {
    matches!(
        read(rt, "{\"op\":\"queue\",\"queue\":1,\"family\":2,\"lane\":3}"),
        Line::Queue {
            queue: 1,
            family: 2,
            lane: 3
        }
    )
}

fn buffer(rt: &HostRuntime) -> bool {
    matches!(
        read(rt, "{\"op\":\"buffer\",\"res\":1,\"size\":1099511627776}"),
        Line::Buffer {
            res: 1,
            size: 1099511627776,
            sharing: Sharing::Exclusive
        }
    )
}

fn shared_buffer(rt: &HostRuntime) -> bool {
    matches!(
        read(
            rt,
            "{\"op\":\"buffer\",\"res\":1,\"size\":2,\"sharing\":\"concurrent\"}"
        ),
        Line::Buffer {
            res: 1,
            size: 2,
            sharing: Sharing::Concurrent
        }
    )
}

fn image(rt: &HostRuntime) -> bool {
    matches!(
        read(
            rt,
            "{\"op\":\"image\",\"res\":1,\"mips\":16,\"layers\":2048,\"sharing\":\"exclusive\"}"
        ),
        Line::Image {
            res: 1,
            mips: 16,
            layers: 2048,
            initial: Layout::Undefined,
            sharing: Sharing::Exclusive
        }
    )
}

fn preinitialized(rt: &HostRuntime) -> bool {
    matches!(
        read(
            rt,
            "{\"op\":\"image\",\"res\":1,\"mips\":1,\"layers\":2,\"initial\":\"preinitialized\"}"
        ),
        Line::Image {
            res: 1,
            mips: 1,
            layers: 2,
            initial: Layout::Preinitialized,
            sharing: Sharing::Exclusive
        }
    )
}

fn timeline(rt: &HostRuntime) -> bool {
    matches!(
        read(rt, "{\"op\":\"semaphore\",\"sem\":1,\"kind\":\"timeline\"}"),
        Line::Semaphore {
            sem: 1,
            kind: SemKind::Timeline,
            initial: None
        }
    )
}

fn binary(rt: &HostRuntime) -> bool {
    matches!(
        read(
            rt,
            "{\"op\":\"semaphore\",\"sem\":1,\"kind\":\"binary\",\"initial\":5}"
        ),
        Line::Semaphore {
            sem: 1,
            kind: SemKind::Binary,
            initial: Some(5)
        }
    )
}

fn event(rt: &HostRuntime) -> bool {
    matches!(
        read(rt, "{\"op\":\"event\",\"event\":7}"),
        Line::Event { event: 7 }
    )
}

fn fence(rt: &HostRuntime) -> bool {
    matches!(
        read(rt, "{\"op\":\"fence\",\"fence\":7}"),
        Line::Fence {
            fence: 7,
            signaled: false
        }
    )
}

fn signaled_fence(rt: &HostRuntime) -> bool {
    matches!(
        read(rt, "{\"op\":\"fence\",\"fence\":7,\"signaled\":true}"),
        Line::Fence {
            fence: 7,
            signaled: true
        }
    )
}

fn begin(rt: &HostRuntime) -> bool {
    matches!(
        read(
            rt,
            "{\"op\":\"begin\",\"rec\":1,\"recorder\":2,\"family\":3}"
        ),
        Line::Begin {
            rec: 1,
            recorder: 2,
            family: 3
        }
    )
}

fn end_of_the_last_rec(rt: &HostRuntime) -> bool {
    matches!(
        read(rt, "{\"op\":\"end\",\"rec\":0,\"rec\":9}"),
        Line::End { rec: 9 }
    )
}

fn wait_event(rt: &HostRuntime) -> bool {
    matches!(
        read(rt, "{\"op\":\"wait_event\",\"rec\":1,\"event\":2}"),
        Line::WaitEvent { rec: 1, event: 2 }
    )
}

fn reset_event(rt: &HostRuntime) -> bool {
    matches!(
        read(rt, "{\"op\":\"reset_event\",\"rec\":1,\"event\":2}"),
        Line::ResetEvent { rec: 1, event: 2 }
    )
}

fn end_rendering(rt: &HostRuntime) -> bool {
    matches!(
        read(rt, "{\"op\":\"end_rendering\",\"rec\":1}"),
        Line::EndRendering { rec: 1 }
    )
}

fn next_subpass(rt: &HostRuntime) -> bool {
    matches!(
        read(rt, "{\"op\":\"next_subpass\",\"rec\":1}"),
        Line::NextSubpass { rec: 1 }
    )
}

fn end_pass(rt: &HostRuntime) -> bool {
    matches!(
        read(rt, "{\"op\":\"end_pass\",\"rec\":1}"),
        Line::EndPass { rec: 1 }
    )
}

fn wait_fence(rt: &HostRuntime) -> bool {
    matches!(
        read(rt, "{\"op\":\"wait_fence\",\"lane\":1,\"fence\":2}"),
        Line::WaitFence { lane: 1, fence: 2 }
    )
}

fn reset_fence(rt: &HostRuntime) -> bool {
    matches!(
        read(rt, "{\"op\":\"reset_fence\",\"lane\":1,\"fence\":2}"),
        Line::ResetFence { lane: 1, fence: 2 }
    )
}

fn wait_queue(rt: &HostRuntime) -> bool {
    matches!(
        read(rt, "{\"op\":\"wait_queue\",\"lane\":1,\"queue\":2}"),
        Line::WaitQueue { lane: 1, queue: 2 }
    )
}

fn wait_device(rt: &HostRuntime) -> bool {
    matches!(
        read(rt, "{\"op\":\"wait_device\",\"lane\":1}"),
        Line::WaitDevice { lane: 1 }
    )
}

fn work(rt: &HostRuntime) -> bool {
    match read(
        rt,
        "{\"op\":\"work\",\"rec\":1,\"accesses\":[{\"res\":2,\"stage\":\"copy\",\"access\":\"transfer_read\",\"start\":3,\"end\":4},{\"res\":2,\"stage\":\"blit\",\"access\":\"transfer_write\",\"mip\":3,\"mips\":4,\"layer\":5,\"layers\":6,\"layout\":\"general\",\"start\":7}]}",
    ) {
        Line::Work { rec: 1, accesses } => accesses.as_slice()
            == [
                Declared {
                    res: 2,
                    stage: Stage::Copy,
                    access: Access16::TransferRead,
                    part: Part::Bytes { start: 3, end: 4 },
                    layout: None,
                },
                Declared {
                    res: 2,
                    stage: Stage::Blit,
                    access: Access16::TransferWrite,
                    part: Part::Image {
                        mip: 3,
                        mips: 4,
                        layer: 5,
                        layers: 6,
                    },
                    layout: Some(Layout::General),
                },
            ]
            .as_slice(),
        _ => false,
    }
}

fn barrier(rt: &HostRuntime) -> bool {
    match read(
        rt,
        "{\"op\":\"barrier\",\"rec\":1,\"deps\":[{\"src\":[\"copy\",\"blit\",\"copy\"],\"src_access\":[\"transfer_write\",\"memory_read\"],\"dst\":[\"top_of_pipe\",\"fragment_shader\"],\"dst_access\":[\"shader_read\"]},{\"src\":[\"copy\",\"blit\",\"copy\"],\"src_access\":[\"transfer_write\",\"memory_read\"],\"dst\":[\"top_of_pipe\",\"fragment_shader\"],\"dst_access\":[\"shader_read\"],\"res\":2,\"start\":3,\"end\":4,\"old\":0,\"src_family\":5,\"dst_family\":6}]}",
    ) {
        Line::Barrier { rec: 1, deps } => deps.as_slice()
            == [
                ELEMENT,
                Element {
                    target: Some(Target {
                        res: 2,
                        part: Part::Bytes { start: 3, end: 4 },
                        layouts: None,
                        families: Some((5, 6)),
                    }),
                    ..ELEMENT
                },
            ]
            .as_slice(),
        _ => false,
    }
}

fn set_event(rt: &HostRuntime) -> bool {
    match read(
        rt,
        "{\"op\":\"set_event\",\"rec\":1,\"event\":2,\"deps\":[{\"src\":[\"copy\",\"blit\",\"copy\"],\"src_access\":[\"transfer_write\",\"memory_read\"],\"dst\":[\"top_of_pipe\",\"fragment_shader\"],\"dst_access\":[\"shader_read\"],\"res\":2,\"mip\":3,\"mips\":4,\"layer\":5,\"layers\":6,\"old\":\"undefined\",\"new\":\"general\"}]}",
    ) {
        Line::SetEvent {
            rec: 1,
            event: 2,
            deps,
        } => deps.as_slice()
            == [Element {
                target: Some(Target {
                    res: 2,
                    part: Part::Image {
                        mip: 3,
                        mips: 4,
                        layer: 5,
                        layers: 6,
                    },
                    layouts: Some((Layout::Undefined, Layout::General)),
                    families: None,
                }),
                ..ELEMENT
            }]
            .as_slice(),
        _ => false,
    }
}

fn begin_rendering(rt: &HostRuntime) -> bool {
    match read(
        rt,
        "{\"op\":\"begin_rendering\",\"rec\":1,\"attachments\":[{\"res\":2,\"class\":\"depth\",\"mip\":3,\"layer\":4,\"layers\":5,\"layout\":\"general\",\"load\":\"dont_care\",\"store\":\"none\"}]}",
    ) {
        Line::BeginRendering {
            rec: 1,
            attachments,
        } => attachments.as_slice()
            == [Attachment {
                res: 2,
                class: Class::Depth,
                mip: 3,
                layer: 4,
                layers: 5,
                layout: Layout::General,
                load: Load::DontCare,
                store: Store::Nothing,
            }]
            .as_slice(),
        _ => false,
    }
}

fn begin_pass(rt: &HostRuntime) -> bool {
    match read(
        rt,
        "{\"op\":\"begin_pass\",\"rec\":1,\"pass\":2,\"views\":[{\"res\":3,\"mip\":4,\"layer\":5,\"layers\":6}]}",
    ) {
        Line::BeginPass {
            rec: 1,
            pass: 2,
            views,
        } => views.as_slice()
            == [View {
                res: 3,
                mip: 4,
                layer: 5,
                layers: 6,
            }]
            .as_slice(),
        _ => false,
    }
}

fn attachments_of_a_pass(rt: &HostRuntime) -> bool {
    match read(
        rt,
        "{\"op\":\"render_pass\",\"pass\":1,\"attachments\":[{\"class\":\"color\",\"load\":\"load\",\"store\":\"store\",\"initial\":\"undefined\",\"final\":\"general\"}],\"subpasses\":[{\"uses\":[{\"att\":0,\"layout\":\"general\"}]}],\"deps\":[{\"from\":\"external\",\"to\":0,\"src\":[\"copy\",\"blit\",\"copy\"],\"src_access\":[\"transfer_write\",\"memory_read\"],\"dst\":[\"top_of_pipe\",\"fragment_shader\"],\"dst_access\":[\"shader_read\"]}]}",
    ) {
        Line::RenderPass {
            pass: 1,
            attachments,
            ..
        } => attachments.as_slice()
            == [PassAttachment {
                class: Class::Color,
                load: Load::Load,
                store: Store::Store,
                initial: Layout::Undefined,
                becomes: Layout::General,
            }]
            .as_slice(),
        _ => false,
    }
}

fn subpasses(rt: &HostRuntime) -> bool {
    match read(
        rt,
        "{\"op\":\"render_pass\",\"pass\":1,\"attachments\":[{\"class\":\"color\",\"load\":\"load\",\"store\":\"store\",\"initial\":\"undefined\",\"final\":\"general\"}],\"subpasses\":[{\"uses\":[{\"att\":0,\"layout\":\"general\"}]}],\"deps\":[{\"from\":\"external\",\"to\":0,\"src\":[\"copy\",\"blit\",\"copy\"],\"src_access\":[\"transfer_write\",\"memory_read\"],\"dst\":[\"top_of_pipe\",\"fragment_shader\"],\"dst_access\":[\"shader_read\"]}]}",
    ) {
        Line::RenderPass { subpasses, .. } => subpasses.len() == 1
            && subpasses.get(0).as_slice()
                == [PassUse {
                    att: 0,
                    layout: Layout::General,
                }]
                .as_slice(),
        _ => false,
    }
}

fn deps_of_a_pass(rt: &HostRuntime) -> bool {
    match read(
        rt,
        "{\"op\":\"render_pass\",\"pass\":1,\"attachments\":[{\"class\":\"color\",\"load\":\"load\",\"store\":\"store\",\"initial\":\"undefined\",\"final\":\"general\"}],\"subpasses\":[{\"uses\":[{\"att\":0,\"layout\":\"general\"}]}],\"deps\":[{\"from\":\"external\",\"to\":0,\"src\":[\"copy\",\"blit\",\"copy\"],\"src_access\":[\"transfer_write\",\"memory_read\"],\"dst\":[\"top_of_pipe\",\"fragment_shader\"],\"dst_access\":[\"shader_read\"]}]}",
    ) {
        Line::RenderPass { deps, .. } => deps.as_slice()
            == [PassDep {
                from: None,
                to: Some(0),
                src: ELEMENT.src,
                src_access: ELEMENT.src_access,
                dst: ELEMENT.dst,
                dst_access: ELEMENT.dst_access,
            }]
            .as_slice(),
        _ => false,
    }
}

fn submit(rt: &HostRuntime) -> bool {
    match read(
        rt,
        "{\"op\":\"submit\",\"lane\":1,\"queue\":2,\"batches\":[{\"waits\":[{\"sem\":3,\"stages\":[\"copy\",\"none\"]}],\"recs\":[4,5],\"signals\":[{\"sem\":6,\"value\":7,\"stages\":[\"copy\"]}]}],\"fence\":8}",
    ) {
        Line::Submit {
            lane: 1,
            queue: 2,
            batches,
            fence: Some(8),
        } => batches.len() == 1 && is_the_batch(batches.get(0)),
        _ => false,
    }
}

#[test]
fn reads_declarations(rt: HostRuntime) {
    assert!(rt; version(&rt));
    assert!(rt; queue(&rt));
    assert!(rt; buffer(&rt));
    assert!(rt; shared_buffer(&rt));
    assert!(rt; image(&rt));
    assert!(rt; preinitialized(&rt));
    assert!(rt; timeline(&rt));
    assert!(rt; binary(&rt));
    assert!(rt; event(&rt));
    assert!(rt; fence(&rt));
    assert!(rt; signaled_fence(&rt));
}

#[test]
fn reads_commands_and_calls(rt: HostRuntime) {
    assert!(rt; begin(&rt));
    assert!(rt; end_of_the_last_rec(&rt));
    assert!(rt; wait_event(&rt));
    assert!(rt; reset_event(&rt));
    assert!(rt; end_rendering(&rt));
    assert!(rt; next_subpass(&rt));
    assert!(rt; end_pass(&rt));
    assert!(rt; wait_fence(&rt));
    assert!(rt; reset_fence(&rt));
    assert!(rt; wait_queue(&rt));
    assert!(rt; wait_device(&rt));
}

#[test]
fn reads_lists(rt: HostRuntime) {
    assert!(rt; work(&rt));
    assert!(rt; barrier(&rt));
    assert!(rt; set_event(&rt));
    assert!(rt; begin_rendering(&rt));
    assert!(rt; begin_pass(&rt));
    assert!(rt; attachments_of_a_pass(&rt));
    assert!(rt; subpasses(&rt));
    assert!(rt; deps_of_a_pass(&rt));
    assert!(rt; submit(&rt));
}

#[test]
fn cuts_lines(rt: HostRuntime) -> Result<(), Fail> {
    let lines = cut_lines(rt.alloc(), b"a\n\nbc")?;
    assert!(rt;
        lines.len() == 3
            && lines[0] == b"a".as_slice()
            && lines[1].is_empty()
            && lines[2] == b"bc".as_slice()
    );
    assert_eq!(rt; cut_lines(rt.alloc(), b"")?.len(), 0);
    assert_eq!(rt; cut_lines(rt.alloc(), b"\n")?.len(), 1);
    assert_eq!(rt; cut_lines(rt.alloc(), b"a\n")?.len(), 1);
    Ok(())
}
