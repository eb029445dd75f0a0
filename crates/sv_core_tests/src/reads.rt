//! As many accesses as one work may have.
use crate::lines::{BEGIN, BUFFER, END, QUEUE, SUBMIT};
use crate::rows::{L0, REC0, agrees, joined};
use std::alloc::{AllocError, Global};
use std::sync::Wait;
use std::test::Fail;

const READ: &str = r#"{"res":0,"stage":"copy","access":"transfer_read","start":0,"end":16}"#;

// A recording of one work with 64 accesses, which is submitted.
fn sixty_four_accesses(alloc: Global) -> Result<Vec<u8>, AllocError> {
    let mut text = joined(alloc, &[QUEUE, BUFFER, BEGIN])?;
    text.extend_from_slice(br#"{"op":"work","rec":0,"accesses":["#)?;
    for _ in 0..63 {
        text.extend_from_slice(READ.as_bytes())?;
        text.push(b',')?;
    }
    text.extend_from_slice(READ.as_bytes())?;
    text.extend_from_slice(b"]}\n")?;
    let last = joined(alloc, &[END, SUBMIT])?;
    text.extend_from_slice(last.as_slice())?;
    Ok(text)
}

static OF_READS: [(&[u32], &[&str]); 2] = [
    (
        &[REC0, L0],
        &[
            "event 0 recorder 0 publish rec 0",
            "event 1 lane 0 call 0 submit queue 0",
            "total events 2 reports 0 notes 0 held 0",
        ],
    ),
    (
        &[L0, REC0],
        &[
            "event 0 lane 0 call 0 submit queue 0",
            "event 1 recorder 0 publish rec 0",
            "total events 2 reports 0 notes 0 held 0",
        ],
    ),
];

fn reads_agree<R: Wait>(
    rt: &R,
    alloc: Global,
    order: &[u32],
    owed: &[&str],
) -> Result<bool, AllocError> {
    let text = sixty_four_accesses(alloc)?;
    let owed = joined(alloc, owed)?;
    agrees(rt, alloc, text.as_slice(), order, owed.as_slice())
}

#[test]
fn sixty_four_reads_are_silent(rt: HostRuntime) -> Result<(), Fail> {
    for (order, owed) in &OF_READS {
        let agrees = reads_agree(&rt, rt.alloc(), order, owed)?;
        assert!(rt; agrees, "in the order {order:?}");
    }
    Ok(())
}
