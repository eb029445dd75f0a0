//! Worked examples.
use super::*;
use std::test::*;

// A board of three actors: the first share stays the first actor's when its events are counted.
#[test]
fn shares_of_three_actors(rt: HostRuntime) -> Result<(), Fail> {
    let (board, mut book, shares) = Board::open(rt.alloc(), 3)?;
    let mut shares = shares.into_vec();
    assert_eq!(rt; shares.len(), 3);
    let share = shares.remove(0);
    let share = board.agree(&mut book, share);
    let share = board.advance(&mut book, share);
    let share = board.agree(&mut book, share);
    assert_eq!(rt; share.actor(), 0);
    Ok(())
}
