//! Sets of numbers below 64, and such sets for each block of 64 places of a list of pattern numbers.
ghost use Rattle.std.specs.Prelude.{◌≡◌, ◌<◌, ◌≤◌, ◌+◌, ◌*◌, ◌/◌, ◌%◌, ◌↔◌, ◌^◌, ℕ, IsTrue, OnOk, length};
ghost use Rattle.std.specs.Prelude.{slice_index_or};
ghost use Rattle.std.specs.Int.RustNames.{bit_or};
ghost use Rattle.sv_mask.specs.Sets.{Has, Includes};
ghost use Rattle.sv_space.specs.Patterns.{HasAll, KeepMarks, Tells};

use crate::pattern::MOST;
use std::alloc::AllocError;

/// So many places are one block.
pub const BLOCK: usize = 64;

/// What is known of a block of places: the set of the numbers of patterns there, and the set of those places,
/// counted from the first of the block, that are of no pattern.
#[derive(Clone, Copy)]
pub struct Block {
    pub patterns: u64,
    pub lone: u64,
}

/// Whether each member of the other set is in this one.
pub fn includes(set: u64, other: u64) -> bool
    ensures { IsTrue result ↔ Includes set other }
{
    set & other == other
}

/// Whether the number is in the set.
pub fn has(set: u64, member: u8) -> bool
    requires { member < 64 }
    ensures { IsTrue result ↔ Has set member }
{
    (set >> member) & 1 == 1
}

/// The set with one number more.
pub fn with(set: u64, member: u8) -> u64
    requires { member < 64 }
    ensures { result ≡ bit_or set (2 ^ member) }
{
    set | (1u64 << member)
}

/// How many numbers below 64, from that one on, come before the next one in the set.
pub fn clear_from(set: u64, from: usize) -> usize
    requires { from < 64 }
    ensures within { from + result ≤ 64 }
    ensures clear { (k : ℕ) → from ≤ k → k < from + result → ¬ Has set k }
{
    let rest = set >> from;
    let count = rest.trailing_zeros() as usize;
    count.min(BLOCK - from)
}

// The block with the number of one place more.
fn with_number(block: Block, spot: u8, number: u8) -> Block
    requires spot { spot < 64 }
    requires number { number < 64 }
    ensures kept { HasAll block result }
    ensures told { Tells result spot number }
{
    if (number as usize) < MOST {
        Block {
            patterns: with(block.patterns, number),
            ..block
        }
    } else {
        Block {
            lone: with(block.lone, spot),
            ..block
        }
    }
}

/// Puts the number of a place, which may be the one behind all blocks, into its block.
pub fn mark(blocks: &mut Vec<Block>, place: usize, number: u8) -> Result<(), AllocError>
    requires small { number < 64 }
    requires room { place ≤ 64 * length blocks.old.items }
    ensures kept { KeepMarks blocks.old.items blocks.new.items }
    ensures longer { length blocks.old.items ≤ length blocks.new.items }
    ensures room { OnOk result (place < 64 * length blocks.new.items) }
    ensures marked { OnOk result ((e : Block)
        → Tells (slice_index_or blocks.new.items (place / 64) e) (place % 64) number) }
{
    let at = place / BLOCK;
    let spot = (place % BLOCK) as u8;
    if at < blocks.len() {
        blocks[at] = with_number(blocks[at], spot, number);
        return Ok(());
    }
    let none = Block {
        patterns: 0,
        lone: 0,
    };
    blocks.push(with_number(none, spot, number))?;
    Ok(())
}
