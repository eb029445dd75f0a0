//! Queues, semaphores and fences.
use crate::lines::{
    BEGIN, BEGIN_1, BUFFER, COPY_READS_IN_1, COPY_WRITES, END, END_1, EVENT, FENCE, QUEUE, QUEUE_1,
    SUBMIT,
};
use crate::rows::{L0, L1, REC0, REC1, Row, differing};
use std::test::Fail;

const ACQUIRE_MISSING: &[&str] = &[
    QUEUE,
    r#"{"op":"queue","queue":1,"family":1,"lane":1}"#,
    BUFFER,
    r#"{"op":"semaphore","sem":0,"kind":"binary"}"#,
    BEGIN,
    COPY_WRITES,
    r#"{"op":"barrier","rec":0,"deps":[{"src":["copy"],"src_access":["transfer_write"],"dst":[],"dst_access":[],"res":0,"start":0,"end":16,"src_family":0,"dst_family":1}]}"#,
    END,
    r#"{"op":"begin","rec":1,"recorder":1,"family":1}"#,
    COPY_READS_IN_1,
    END_1,
    r#"{"op":"submit","lane":0,"queue":0,"batches":[{"recs":[0],"signals":[{"sem":0,"stages":["all_commands"]}]}]}"#,
    r#"{"op":"submit","lane":1,"queue":1,"batches":[{"waits":[{"sem":0,"stages":["all_commands"]}],"recs":[1]}]}"#,
];

const EVENT_OF_ANOTHER_QUEUE: &[&str] = &[
    QUEUE,
    QUEUE_1,
    BUFFER,
    EVENT,
    BEGIN,
    r#"{"op":"set_event","rec":0,"event":0,"deps":[{"src":["copy"],"src_access":["transfer_write"],"dst":["copy"],"dst_access":["transfer_read"]}]}"#,
    END,
    BEGIN_1,
    r#"{"op":"wait_event","rec":1,"event":0}"#,
    END_1,
    SUBMIT,
    r#"{"op":"submit","lane":1,"queue":1,"batches":[{"recs":[1]}]}"#,
];

const FENCE_SIGNALLED_TWICE: &[&str] = &[
    QUEUE,
    FENCE,
    r#"{"op":"submit","lane":0,"queue":0,"batches":[],"fence":0}"#,
    r#"{"op":"submit","lane":0,"queue":0,"batches":[],"fence":0}"#,
];

const HELD_WAIT_FENCE: &[&str] = &[FENCE, r#"{"op":"wait_fence","lane":0,"fence":0}"#];

const SEMAPHORE_FULL_SIGNAL: &[&str] = &[
    QUEUE,
    QUEUE_1,
    BUFFER,
    r#"{"op":"semaphore","sem":0,"kind":"binary"}"#,
    BEGIN,
    COPY_WRITES,
    END,
    BEGIN_1,
    COPY_READS_IN_1,
    END_1,
    r#"{"op":"submit","lane":0,"queue":0,"batches":[{"recs":[0],"signals":[{"sem":0,"stages":["all_commands"]}]}]}"#,
    r#"{"op":"submit","lane":1,"queue":1,"batches":[{"waits":[{"sem":0,"stages":["all_commands"]}],"recs":[1]}]}"#,
];

pub const SEMAPHORE_NARROW_SIGNAL: &[&str] = &[
    QUEUE,
    QUEUE_1,
    BUFFER,
    r#"{"op":"semaphore","sem":0,"kind":"binary"}"#,
    BEGIN,
    COPY_WRITES,
    END,
    BEGIN_1,
    COPY_READS_IN_1,
    END_1,
    r#"{"op":"submit","lane":0,"queue":0,"batches":[{"recs":[0],"signals":[{"sem":0,"stages":["compute_shader"]}]}]}"#,
    r#"{"op":"submit","lane":1,"queue":1,"batches":[{"waits":[{"sem":0,"stages":["all_commands"]}],"recs":[1]}]}"#,
];

const TIMELINE_NOT_RAISED: &[&str] = &[
    QUEUE,
    r#"{"op":"semaphore","sem":0,"kind":"timeline","initial":0}"#,
    r#"{"op":"submit","lane":0,"queue":0,"batches":[{"signals":[{"sem":0,"value":0,"stages":["all_commands"]}]}]}"#,
];

const TIMELINE_WAIT_FIRST: &[&str] = &[
    QUEUE,
    QUEUE_1,
    BUFFER,
    r#"{"op":"semaphore","sem":0,"kind":"timeline","initial":0}"#,
    BEGIN,
    COPY_WRITES,
    END,
    BEGIN_1,
    COPY_READS_IN_1,
    END_1,
    r#"{"op":"submit","lane":1,"queue":1,"batches":[{"waits":[{"sem":0,"value":1,"stages":["all_commands"]}],"recs":[1]}]}"#,
    r#"{"op":"submit","lane":0,"queue":0,"batches":[{"recs":[0],"signals":[{"sem":0,"value":1,"stages":["compute_shader"]}]}]}"#,
];

const TWO_QUEUES: &[&str] = &[
    QUEUE,
    QUEUE_1,
    BUFFER,
    BEGIN,
    COPY_WRITES,
    END,
    BEGIN_1,
    r#"{"op":"work","rec":1,"accesses":[{"res":0,"stage":"copy","access":"transfer_write","start":0,"end":16}]}"#,
    END_1,
    SUBMIT,
    r#"{"op":"submit","lane":1,"queue":1,"batches":[{"recs":[1]}]}"#,
];

// Two recordings of two recorders, each submitted by a lane of its own, unless one lane does all.
static ROWS: [Row; 17] = [
    Row {
        text: ACQUIRE_MISSING,
        order: &[REC0, REC1, L0, L1],
        owed: &[
            "event 0 recorder 0 publish rec 0",
            "event 1 recorder 1 publish rec 1",
            "event 2 lane 0 call 0 submit queue 0",
            "event 3 lane 1 call 0 submit queue 1",
            "  note owner res 0 bytes 0..16 transfer_read@copy 3.0.0 rec 1 cmd 0 found released 0 1",
            "total events 4 reports 0 notes 1 held 0",
        ],
    },
    // Lane 1's batch waits for the signal of lane 0's, which is held until recording 0 is published. So
    // that publication releases both, the release first.
    Row {
        text: ACQUIRE_MISSING,
        order: &[L1, REC1, L0, REC0],
        owed: &[
            "event 0 lane 1 call 0 submit queue 1",
            "event 1 recorder 1 publish rec 1",
            "event 2 lane 0 call 0 submit queue 0",
            "event 3 recorder 0 publish rec 0",
            "  note owner res 0 bytes 0..16 transfer_read@copy 0.0.0 rec 1 cmd 0 found released 0 1",
            "total events 4 reports 0 notes 1 held 0",
        ],
    },
    Row {
        text: EVENT_OF_ANOTHER_QUEUE,
        order: &[REC0, REC1, L0, L1],
        owed: &[
            "event 0 recorder 0 publish rec 0",
            "event 1 recorder 1 publish rec 1",
            "event 2 lane 0 call 0 submit queue 0",
            "event 3 lane 1 call 0 submit queue 1",
            "  note event 0 3.0.0 rec 1 cmd 0 set on queue 0",
            "total events 4 reports 0 notes 1 held 0",
        ],
    },
    // The wait is processed before the set.
    Row {
        text: EVENT_OF_ANOTHER_QUEUE,
        order: &[REC0, REC1, L1, L0],
        owed: &[
            "event 0 recorder 0 publish rec 0",
            "event 1 recorder 1 publish rec 1",
            "event 2 lane 1 call 0 submit queue 1",
            "  note event 0 2.0.0 rec 1 cmd 0 unset",
            "event 3 lane 0 call 0 submit queue 0",
            "total events 4 reports 0 notes 1 held 0",
        ],
    },
    // The first publication releases lane 1's submit, since lane 0's is still held.
    Row {
        text: EVENT_OF_ANOTHER_QUEUE,
        order: &[L0, L1, REC1, REC0],
        owed: &[
            "event 0 lane 0 call 0 submit queue 0",
            "event 1 lane 1 call 0 submit queue 1",
            "event 2 recorder 1 publish rec 1",
            "  note event 0 1.0.0 rec 1 cmd 0 unset",
            "event 3 recorder 0 publish rec 0",
            "total events 4 reports 0 notes 1 held 0",
        ],
    },
    Row {
        text: FENCE_SIGNALLED_TWICE,
        order: &[L0, L0],
        owed: &[
            "event 0 lane 0 call 0 submit queue 0",
            "event 1 lane 0 call 1 submit queue 0",
            "  note fence 0 1",
            "total events 2 reports 0 notes 1 held 0",
        ],
    },
    Row {
        text: HELD_WAIT_FENCE,
        order: &[L0],
        owed: &[
            "event 0 lane 0 call 0 wait_fence fence 0",
            "held lane 0 call 0",
            "total events 1 reports 0 notes 0 held 1",
        ],
    },
    Row {
        text: SEMAPHORE_FULL_SIGNAL,
        order: &[REC0, REC1, L0, L1],
        owed: &[
            "event 0 recorder 0 publish rec 0",
            "event 1 recorder 1 publish rec 1",
            "event 2 lane 0 call 0 submit queue 0",
            "event 3 lane 1 call 0 submit queue 1",
            "total events 4 reports 0 notes 0 held 0",
        ],
    },
    // Lane 1's batch is held until lane 0's has signalled, so the read comes behind the write and the
    // signal.
    Row {
        text: SEMAPHORE_FULL_SIGNAL,
        order: &[REC0, REC1, L1, L0],
        owed: &[
            "event 0 recorder 0 publish rec 0",
            "event 1 recorder 1 publish rec 1",
            "event 2 lane 1 call 0 submit queue 1",
            "event 3 lane 0 call 0 submit queue 0",
            "total events 4 reports 0 notes 0 held 0",
        ],
    },
    Row {
        text: SEMAPHORE_NARROW_SIGNAL,
        order: &[REC0, REC1, L0, L1],
        owed: &[
            "event 0 recorder 0 publish rec 0",
            "event 1 recorder 1 publish rec 1",
            "event 2 lane 0 call 0 submit queue 0",
            "event 3 lane 1 call 0 submit queue 1",
            "  raw res 0 bytes 0..16 transfer_read@copy 3.0.0 rec 1 cmd 0 after transfer_write@copy 2.0.0 rec 0 cmd 0",
            "total events 4 reports 1 notes 0 held 0",
        ],
    },
    // The first publication lets lane 1's batch onto its queue, where it waits. The second releases lane
    // 0's and then it.
    Row {
        text: SEMAPHORE_NARROW_SIGNAL,
        order: &[L1, L0, REC1, REC0],
        owed: &[
            "event 0 lane 1 call 0 submit queue 1",
            "event 1 lane 0 call 0 submit queue 0",
            "event 2 recorder 1 publish rec 1",
            "event 3 recorder 0 publish rec 0",
            "  raw res 0 bytes 0..16 transfer_read@copy 0.0.0 rec 1 cmd 0 after transfer_write@copy 1.0.0 rec 0 cmd 0",
            "total events 4 reports 1 notes 0 held 0",
        ],
    },
    Row {
        text: TIMELINE_NOT_RAISED,
        order: &[L0],
        owed: &[
            "event 0 lane 0 call 0 submit queue 0",
            "  note timeline 0 0.0 value 0 current 0",
            "total events 1 reports 0 notes 1 held 0",
        ],
    },
    Row {
        text: TIMELINE_WAIT_FIRST,
        order: &[REC0, REC1, L1, L0],
        owed: &[
            "event 0 recorder 0 publish rec 0",
            "event 1 recorder 1 publish rec 1",
            "event 2 lane 1 call 0 submit queue 1",
            "event 3 lane 0 call 0 submit queue 0",
            "  raw res 0 bytes 0..16 transfer_read@copy 2.0.0 rec 1 cmd 0 after transfer_write@copy 3.0.0 rec 0 cmd 0",
            "total events 4 reports 1 notes 0 held 0",
        ],
    },
    // The signal is there when the wait comes. Its stages do not hold the copy, as before.
    Row {
        text: TIMELINE_WAIT_FIRST,
        order: &[REC0, REC1, L0, L1],
        owed: &[
            "event 0 recorder 0 publish rec 0",
            "event 1 recorder 1 publish rec 1",
            "event 2 lane 0 call 0 submit queue 0",
            "event 3 lane 1 call 0 submit queue 1",
            "  raw res 0 bytes 0..16 transfer_read@copy 3.0.0 rec 1 cmd 0 after transfer_write@copy 2.0.0 rec 0 cmd 0",
            "total events 4 reports 1 notes 0 held 0",
        ],
    },
    Row {
        text: TWO_QUEUES,
        order: &[REC0, REC1, L0, L1],
        owed: &[
            "event 0 recorder 0 publish rec 0",
            "event 1 recorder 1 publish rec 1",
            "event 2 lane 0 call 0 submit queue 0",
            "event 3 lane 1 call 0 submit queue 1",
            "  waw res 0 bytes 0..16 transfer_write@copy 3.0.0 rec 1 cmd 0 after transfer_write@copy 2.0.0 rec 0 cmd 0",
            "total events 4 reports 1 notes 0 held 0",
        ],
    },
    // The write of recording 1 is processed first.
    Row {
        text: TWO_QUEUES,
        order: &[REC0, REC1, L1, L0],
        owed: &[
            "event 0 recorder 0 publish rec 0",
            "event 1 recorder 1 publish rec 1",
            "event 2 lane 1 call 0 submit queue 1",
            "event 3 lane 0 call 0 submit queue 0",
            "  waw res 0 bytes 0..16 transfer_write@copy 3.0.0 rec 0 cmd 0 after transfer_write@copy 2.0.0 rec 1 cmd 0",
            "total events 4 reports 1 notes 0 held 0",
        ],
    },
    // Lane 0's submit came first and is held longest: the later write is that of the earlier event.
    Row {
        text: TWO_QUEUES,
        order: &[L0, L1, REC1, REC0],
        owed: &[
            "event 0 lane 0 call 0 submit queue 0",
            "event 1 lane 1 call 0 submit queue 1",
            "event 2 recorder 1 publish rec 1",
            "event 3 recorder 0 publish rec 0",
            "  waw res 0 bytes 0..16 transfer_write@copy 0.0.0 rec 0 cmd 0 after transfer_write@copy 1.0.0 rec 1 cmd 0",
            "total events 4 reports 1 notes 0 held 0",
        ],
    },
];

#[test]
fn queues_order_batches(rt: HostRuntime) -> Result<(), Fail> {
    assert_eq!(rt; differing(&rt, rt.alloc(), &ROWS)?, None);
    Ok(())
}
