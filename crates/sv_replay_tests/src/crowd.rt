//! As many actors as a trace may have: 16 lanes and 16 recorders.
use crate::whole_run::ran;
use std::alloc::{AllocError, Global};
use std::test::Fail;
use sv_io::Idle;

const LANES: u32 = 16;

const CALLS: u32 = 60;

const RECORDERS: u32 = 16;

const RECORDINGS: u32 = 7;

const EVENTS: u32 = 1072;

const TOTAL: &str = "total events 1072 reports 0 notes 0 held 0";

const BARRIER: &str =
    r#""deps":[{"src":["copy"],"src_access":["transfer_write"],"dst":["copy"],"dst_access":["transfer_read"]}]}"#;

// Lane n resets fence n.
fn push_lane(alloc: Global, text: &mut String, lane: u32) -> Result<(), AllocError> {
    let fence = format!(in alloc; "{{\"op\":\"fence\",\"fence\":{lane}}}\n")?;
    text.push_str(fence.as_str())?;
    for _ in 0..CALLS {
        let call = format!(in alloc;
            "{{\"op\":\"reset_fence\",\"lane\":{lane},\"fence\":{lane}}}\n"
        )?;
        text.push_str(call.as_str())?;
    }
    Ok(())
}

fn push_recording(
    alloc: Global,
    text: &mut String,
    recorder: u32,
    rec: u32,
) -> Result<(), AllocError> {
    let begin = format!(in alloc;
        "{{\"op\":\"begin\",\"rec\":{rec},\"recorder\":{recorder},\"family\":0}}\n"
    )?;
    let barrier = format!(in alloc; "{{\"op\":\"barrier\",\"rec\":{rec},{BARRIER}\n")?;
    let end = format!(in alloc; "{{\"op\":\"end\",\"rec\":{rec}}}\n")?;
    text.push_str(begin.as_str())?;
    for _ in 0..3 {
        text.push_str(barrier.as_str())?;
    }
    text.push_str(end.as_str())
}

// The recordings of recorder n have the numbers from 100 n on.
fn push_recorder(alloc: Global, text: &mut String, recorder: u32) -> Result<(), AllocError> {
    for number in 0..RECORDINGS {
        let rec = recorder.wrapping_mul(100).wrapping_add(number);
        push_recording(alloc, text, recorder, rec)?;
    }
    Ok(())
}

fn crowd(alloc: Global) -> Result<Vec<u8>, AllocError> {
    let mut text = String::new(alloc);
    for lane in 0..LANES {
        push_lane(alloc, &mut text, lane)?;
    }
    for recorder in 0..RECORDERS {
        push_recorder(alloc, &mut text, recorder)?;
    }
    text.as_bytes().to_vec(alloc)
}

fn number_in(words: &[&str], at: usize) -> Option<u32> {
    words.get(at)?.parse::<u32>().ok()
}

// The number of the event that the line tells, its actor (recorder n by 16 + n), and its place there.
fn event_of(alloc: Global, line: &str) -> Result<Option<(u32, u32, u32)>, AllocError> {
    let words: Vec<&str> = line.split(' ').collect(alloc)?;
    let number = number_in(words.as_slice(), 1);
    let actor = number_in(words.as_slice(), 3);
    let place = number_in(words.as_slice(), 5);
    let known = match (words.get(2), words.get(4), number, actor, place) {
        (Some(&"lane"), Some(&"call"), Some(number), Some(lane), Some(call)) => {
            Some((number, lane, call))
        }
        (Some(&"recorder"), Some(&"publish"), Some(number), Some(recorder), _) => {
            let rec = number_in(words.as_slice(), 6).unwrap_or(0);
            let place = rec.wrapping_sub(recorder.wrapping_mul(100));
            Some((number, recorder.wrapping_add(16), place))
        }
        _ => None,
    };
    Ok(known)
}

// How many events of each actor stand in the text one after another, where each line has the number of its
// event.
fn counts(alloc: Global, text: &str) -> Result<[u32; 32], AllocError> {
    let mut counts = [0u32; 32];
    let mut next = 0u32;
    for line in text.lines() {
        let Some((number, actor, place)) = event_of(alloc, line)? else {
            continue;
        };
        let at = actor as usize;
        if number == next && at < 32 && counts[at] == place {
            counts[at] = place.wrapping_add(1);
        }
        next = next.wrapping_add(1);
    }
    Ok(counts)
}

#[test]
fn each_actor_keeps_its_order(rt: HostRuntime) -> Result<(), Fail> {
    let run = ran(&rt, rt.alloc(), "replay", crowd(rt.alloc())?, &Idle)?;
    assert_eq!(rt; run.number, 0);
    let written = std::str::from_utf8(run.written.as_slice()).unwrap_or("");
    assert_eq!(rt; written.lines().count(), EVENTS as usize + 1);
    assert_eq!(rt; written.lines().last(), Some(TOTAL));
    let counts = counts(rt.alloc(), written)?;
    for lane in 0..16 {
        assert_eq!(rt; counts[lane], CALLS);
        assert_eq!(rt; counts[16 + lane], RECORDINGS);
    }
    Ok(())
}
