//! The printed order is the one in which the actors took the lock.
use crate::whole_run::{joined, ran};
use std::sync::atomic::{AtomicU64, Ordering};
use std::test::Fail;
use sv_io::Pace;

// How often a held actor looks for the others before it goes on.
const TURNS: u32 = 200_000_000;

const TWO_LANES: &[&str] = &[
    r#"{"op":"fence","fence":0}"#,
    r#"{"op":"fence","fence":1}"#,
    r#"{"op":"reset_fence","lane":0,"fence":0}"#,
    r#"{"op":"reset_fence","lane":0,"fence":0}"#,
    r#"{"op":"reset_fence","lane":1,"fence":1}"#,
    r#"{"op":"reset_fence","lane":1,"fence":1}"#,
];

const LANE_0_FIRST: &str = "event 0 lane 0 call 0 reset_fence fence 0\n";

const LANE_1_FIRST: &str = "event 0 lane 1 call 0 reset_fence fence 1\n";

const TOTAL: &str = "total events 4 reports 0 notes 0 held 0\n";

// Holds the first arrival of one lane and the second of another until both have come, or its turns are spent.
#[derive(Drop)]
struct Held {
    first: u32,
    second: u32,
    came: AtomicU64,
    spent: AtomicU64,
}

impl Held {
    fn new(first: u32, second: u32) -> Held {
        Held {
            first,
            second,
            came: AtomicU64::new(0),
            spent: AtomicU64::new(0),
        }
    }
}

impl Pace for Held {
    fn arrive(&self, actor: u32, index: u32) {
        if (actor == self.first && index == 0) || (actor == self.second && index == 1) {
            self.came.fetch_add(1, Ordering::SeqCst);
            for _ in 0..TURNS {
                if self.came.load(Ordering::SeqCst) >= 2 {
                    return;
                }
            }
            self.spent.fetch_add(1, Ordering::SeqCst);
        }
    }
}

// Of the held actors one has made no event, and the other one event, which is therefore the first. A run
// that takes one actor after another, in whichever order, spends the turns of one of the two paces. A run
// that prints an order which it reads from the text prints the same first line twice.
#[test]
fn prints_the_order_of_the_lock(rt: HostRuntime) -> Result<(), Fail> {
    let table = [(0, 1, LANE_1_FIRST), (1, 0, LANE_0_FIRST)];
    for (first, second, line) in table {
        let text = joined(rt.alloc(), TWO_LANES)?;
        let pace = Held::new(first, second);
        let run = ran(&rt, rt.alloc(), "replay", text, &pace)?;
        assert_eq!(rt; pace.spent.load(Ordering::SeqCst), 0);
        assert_eq!(rt; run.number, 0);
        assert!(rt; run.written.starts_with(line.as_bytes()));
        assert!(rt; run.written.ends_with(TOTAL.as_bytes()));
    }
    Ok(())
}
