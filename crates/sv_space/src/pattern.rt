//! Patterns of groups: groups of one pattern have the same dependencies, but for their ranges.
ghost use Rattle.std.specs.Prelude.{◌≡◌, ◌<◌, ◌≤◌, ◌↔◌, true, IfOk, IfSome, IsTrue, OnOk, length};
ghost use Rattle.std.specs.Prelude.{slice_index_or};
ghost use Rattle.sv_space.specs.Patterns.{AreMore, HasOutlines, IsPatternOf};
ghost use Rattle.sv_space.specs.declared.pattern.Pattern.{Pattern};
ghost use Rattle.sv_state.specs.Outlines as spec;

use std::alloc::{AllocError, Global};
use sv_model::work::{Dep, Group, Track};
use sv_state::outline;

/// So many patterns are told apart.
pub const MOST: usize = 63;

/// The number of no pattern.
const NONE: u8 = 63;

/// The outlines of the dependencies of groups.
#[derive(Drop)]
pub struct Pattern {
    pub outlines: Vec<Dep>,
}

fn is_same_source(a: &Dep, b: &Dep) -> bool
    ensures { IsTrue result ↔ ((a.now.from ≡ b.now.from) × (a.now.s1 ≡ b.now.s1) × (a.now.a1 ≡ b.now.a1)) }
{
    a.from == b.from && a.s1.0 == b.s1.0 && a.a1.0 == b.a1.0
}

fn is_same_target(a: &Dep, b: &Dep) -> bool
    ensures { IsTrue result ↔ ((a.now.to ≡ b.now.to) × (a.now.s2 ≡ b.now.s2) × (a.now.a2 ≡ b.now.a2)) }
{
    a.to == b.to && a.s2.0 == b.s2.0 && a.a2.0 == b.a2.0
}

// Whether it is the outline of the dependency.
fn is_outline(outlined: &Dep, d: &Dep) -> bool
    ensures { result ≡ true → outlined.now ≡ spec.outline d.now }
{
    let other = outline(d);
    let same = is_same_target(outlined, &other) && is_same_source(outlined, &other);
    same && outlined.range.is_none()
}

// Whether these are the outlines of the dependencies, in order.
fn fits(outlines: &[Dep], deps: &[Dep]) -> bool
    ensures { result ≡ true → HasOutlines outlines.now deps.now }
{
    if outlines.len() != deps.len() {
        return false;
    }
    for i in 0..deps.len() {
        if !is_outline(&outlines[i], &deps[i]) {
            return false;
        }
    }
    true
}

// The number of the first pattern that the group is of; the number of patterns where it is of none.
fn find(patterns: &[Pattern], group: &Group) -> usize
    ensures listed { result ≤ length patterns.now }
    ensures found { (p : Pattern) → result < length patterns.now
        → HasOutlines (slice_index_or patterns.now result p).outlines.items group.now.deps }
{
    for number in 0..patterns.len() {
        if fits(patterns[number].outlines.as_slice(), group.deps.as_slice()) {
            return number;
        }
    }
    patterns.len()
}

// Whether all of the dependencies go to queues. What goes elsewhere goes to a track of its own, as a rule.
fn go_to_queues(deps: &[Dep]) -> bool {
    for d in deps {
        match d.to {
            Track::Queue(_) => {}
            _ => return false,
        }
    }
    true
}

fn outlines_of(alloc: Global, deps: &[Dep]) -> Result<Vec<Dep>, AllocError>
    ensures { IfOk result (λ outlines. HasOutlines outlines.items deps.now) }
{
    let mut outlines = Vec::with_capacity(alloc, deps.len())?;
    for d in deps {
        outlines.push(outline(d))?;
    }
    Ok(outlines)
}

// A new pattern, of which the group is.
fn add(alloc: Global, patterns: &mut Vec<Pattern>, group: &Group) -> Result<(), AllocError>
    ensures more { AreMore patterns.old.items patterns.new.items }
    ensures longer { OnOk result (length patterns.old.items < length patterns.new.items) }
    ensures has { OnOk result ((p : Pattern) → HasOutlines
        (slice_index_or patterns.new.items (length patterns.old.items) p).outlines.items group.now.deps) }
{
    let outlines = outlines_of(alloc, group.deps.as_slice())?;
    patterns.push(Pattern { outlines })?;
    Ok(())
}

/// The number of the pattern that the group is of, which may be a new one; a number that no pattern has
/// where it is of none.
pub fn number_of(
    alloc: Global,
    patterns: &mut Vec<Pattern>,
    group: &Group,
) -> Result<u8, AllocError>
    ensures more { AreMore patterns.old.items patterns.new.items }
    ensures small { IfOk result (λ number. number < 64) }
    ensures number { IfOk result (λ number. IsPatternOf patterns.new.items number group.now.deps) }
{
    let count = patterns.len();
    let number = find(patterns, group);
    if number >= MOST {
        return Ok(NONE);
    }
    if number < count {
        return Ok(number as u8);
    }
    if !go_to_queues(group.deps.as_slice()) {
        return Ok(NONE);
    }
    add(alloc, patterns, group)?;
    Ok(number as u8)
}
