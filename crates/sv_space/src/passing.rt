//! Which of the next groups add nothing to a state, by the numbers of their patterns.
ghost use Rattle.std.specs.Prelude.{◌≡◌, ◌+◌, ◌<◌, ◌≤◌, ℕ, IfSome, true, false, length};
ghost use Rattle.sv_space.specs.Patterns.{AreAsked, AreFullPatterns, AreMarked, AreQuietFrom, IsQuietPart};
ghost use Rattle.sv_space.specs.Patterns.{IsQuietPattern};

use crate::marks::{BLOCK, Block, clear_from, has, includes, with};
use crate::pattern::{MOST, Pattern};
use sv_state::{CellState, full_are_quiet};

/// Which patterns were asked for: those of which no group adds to the state, those of which one may, and of
/// the first those of which the state holds all that they may give.
#[derive(Clone, Copy)]
pub struct Asked {
    pub quiet: u64,
    pub loud: u64,
    pub full: u64,
}

// Whether groups of the pattern with this number may add to the state. Each pattern is asked for once.
fn may_add(state: &CellState, patterns: &Vec<Pattern>, number: u8, asked: &mut Asked) -> bool
    requires { AreAsked state.now patterns.now.items asked.old }
    ensures known { AreAsked state.now patterns.now.items asked.new }
    ensures quiet { result ≡ false → IsQuietPattern state.now patterns.now.items number }
{
    let at = number as usize;
    if at >= MOST || at >= patterns.len() {
        return true;
    }
    if has(asked.quiet, number) {
        return false;
    }
    if has(asked.loud, number) {
        return true;
    }
    let outlines = patterns[at].outlines.as_slice();
    if state.is_full(outlines) {
        full_are_quiet();
        asked.full = with(asked.full, number);
        asked.quiet = with(asked.quiet, number);
        return false;
    }
    if state.adds(outlines) {
        asked.loud = with(asked.loud, number);
        return true;
    }
    asked.quiet = with(asked.quiet, number);
    false
}

// Asks for the pattern with this number, if it is one of the block.
fn ask_one(state: &CellState, patterns: &Vec<Pattern>, block: Block, number: u8, asked: &mut Asked)
    requires number { number < 64 }
    requires known { AreAsked state.now patterns.now.items asked.old }
    ensures { AreAsked state.now patterns.now.items asked.new }
{
    if has(block.patterns, number) {
        let _may = may_add(state, patterns, number, asked);
    }
}

// Asks for each pattern of the block.
fn ask(state: &CellState, patterns: &Vec<Pattern>, block: Block, asked: &mut Asked)
    requires { AreAsked state.now patterns.now.items asked.old }
    ensures { AreAsked state.now patterns.now.items asked.new }
{
    if includes(asked.quiet | asked.loud, block.patterns) {
        return;
    }
    for number in 0..patterns.len().min(MOST) {
        ask_one(state, patterns, block, number as u8, asked);
    }
}

// How many places of the block, from that one on, are known to add nothing.
fn quiet_count(block: Block, spot: usize, quiet: u64) -> usize
    requires { spot < 64 }
    ensures within { spot + result ≤ 64 }
    ensures quiet { 0 < result → IsQuietPart spot result block quiet }
{
    if !includes(quiet, block.patterns) {
        return 0;
    }
    clear_from(block.lone, spot)
}

// The place behind some, from that one on, that add nothing to the state; None where the first one may.
fn pass(
    state: &CellState,
    patterns: &Vec<Pattern>,
    numbers: &Vec<u8>,
    blocks: &Vec<Block>,
    place: usize,
    asked: &mut Asked,
) -> Option<usize>
    requires known { AreAsked state.now patterns.now.items asked.old }
    requires marked { AreMarked numbers.now.items blocks.now.items }
    requires listed { place < length numbers.now.items }
    ensures known { AreAsked state.now patterns.now.items asked.new }
    ensures further { IfSome result (λ next. place < next) }
    ensures quiet { IfSome result (λ next. AreQuietFrom place next state.now patterns.now.items
        numbers.now.items) }
{
    let block = blocks[place / BLOCK];
    ask(state, patterns, block, asked);
    let count = quiet_count(block, place % BLOCK, asked.quiet);
    if count > 0 {
        return Some(place + count);
    }
    if may_add(state, patterns, numbers[place], asked) {
        return None;
    }
    Some(place + 1)
}

/// The place of the next number, from that one on, of a pattern of which groups may add to the state; that
/// behind all numbers where there is none. The patterns in `full` are known to give nothing that the state
/// does not hold, and those of which this is found come to them.
pub fn next_in(
    state: &CellState,
    patterns: &Vec<Pattern>,
    numbers: &Vec<u8>,
    blocks: &Vec<Block>,
    from: usize,
    full: &mut u64,
) -> usize
    requires marked { AreMarked numbers.now.items blocks.now.items }
    requires known { AreFullPatterns state.now patterns.now.items full.old }
    ensures known { AreFullPatterns state.now patterns.now.items full.new }
    ensures first { from ≤ result }
    ensures listed { from < result → result ≤ length numbers.now.items }
    ensures quiet { AreQuietFrom from result state.now patterns.now.items numbers.now.items }
{
    full_are_quiet();
    let mut asked = Asked {
        quiet: *full,
        loud: 0,
        full: *full,
    };
    let mut place = from;
    while place < numbers.len() {
        match pass(state, patterns, numbers, blocks, place, &mut asked) {
            None => {
                *full = asked.full;
                return place;
            }
            Some(next) => place = next,
        }
    }
    *full = asked.full;
    if from < numbers.len() {
        numbers.len()
    } else {
        from
    }
}
